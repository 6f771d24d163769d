// The program: a trace from standard input, and its report on standard output. All that is said of the report is said of trace::report;
// here bytes are moved.
#![tactic(auto)]

use std::io;

fn main(rt: HostRuntime) -> io::Result<()> {
    // One byte more than a trace may have, so that longer input is noticed.
    let mut input = [0u8; 65537];
    let n = intake::read_full(&mut rt.stdin(), &mut input)?;
    let mut out = [0u8; 65600];
    let written = trace::report(&input[..n], &mut out).written;
    let told = rt.write_all(&out[..written]);
    if told.is_err() {
        eprintln!(rt; "broker: the report can't be written")?;
    }
    told
}
