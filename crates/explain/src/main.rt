// The same run, told for a person: each command of a trace on a line with its answer in words, then why the run stopped, then what is still
// retained, which is what must be seen before a box leaves. Every answer is the library's own; here it is put into columns.
#![tactic(auto)]

mod commands;
mod ending;

ghost use Rattle.rules.specs.Limits.{box};
ghost use Rattle.trace.specs.Run.{laid};
ghost use Rattle.trace.specs.Embedding.{StoppedAs};
ghost use Rattle.explain.specs.Told.{told_run};

use std::io;
use store::PublicationStore;
use trace::{Stop, Stopped};

// The run that a report tells: from an empty store without domain, with 65,536 bytes of room for the answers. A trace of more than 65,536
// bytes is not run, and stops with TooLong (7).
fn run(input: &[u8]) -> Stopped
    ensures { StoppedAs (laid box (told_run box input.now)) result }
{
    let store = PublicationStore::new();
    if 65536 < input.len() {
        return Stopped {
            store,
            stop: Stop::TooLong,
            blocks: 0,
            read: 0,
            written: 0,
        };
    }
    let mut out = [0u8; 65536];
    trace::run(store, input, &mut out)
}

// Tells the run of a trace.
fn explain(rt: &impl Print, input: &[u8]) -> io::Result<()> {
    let r = run(input);
    // The head of the blocks' columns.
    println!(rt; " no  command                                                     answer")?;
    commands::tell_blocks(rt, input, r.blocks)?;
    println!(rt;)?;
    ending::tell_stop(rt, r.stop, r.blocks, r.read)?;
    let store = r.store;
    ending::tell_retained(rt, store)
}

fn main(rt: HostRuntime) -> io::Result<()> {
    // One byte more than a trace may have, so that longer input is noticed.
    let mut input = [0u8; 65537];
    let n = intake::read_full(&mut rt.stdin(), &mut input)?;
    let told = explain(&rt, &input[..n]);
    if told.is_err() {
        eprintln!(rt; "explain: the explanation can't be written")?;
    }
    told
}
