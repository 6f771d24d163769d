// The run of a trace, its report and the name of a number, as programs in C call them: crate embed_c exports these calls.
//
// A call works in the bytes that it is lent and on its own stack. It keeps nothing: the next run starts from an empty store again.
//
// Nothing that an entry point reaches calls a function of the library: docs/DESIGN-PASS.md says why, and what stands in its place.
#![tactic(auto)]

ghost use Rattle.std.specs.Prelude.{length};
ghost use Rattle.rules.specs.Limits.{box};
ghost use Rattle.trace.specs.Report.{report};
ghost use Rattle.embed.specs.Handed.{run_empty, name_in, Runs, Reports, Names};

use store::PublicationStore;
use writing::inner::put_name;

// Runs a trace from an empty store without domain and writes its answers into out. Answers the stop number; counts gets the blocks done,
// the bytes read up to the stopped block's start, and the bytes written.
pub fn lease_broker_run(trace: &[u8], out: &mut [u8], counts: &mut [u64; 3]) -> u64
    ensures { Runs (run_empty (length out.old) trace.now) result out.old out.new counts.new }
{
    let r = trace::run(PublicationStore::new(), trace, out);
    *counts = [r.blocks, r.read as u64, r.written as u64];
    u64::from(r.stop)
}

// Writes the report of a trace into out, as the program prints it. Answers the number that the report tells; written gets its length.
pub fn lease_broker_report(trace: &[u8], out: &mut [u8], written: &mut u64) -> u64
    ensures { Reports (report box (length out.old) trace.now) result out.old out.new written.new }
{
    let r = trace::report(trace, out);
    *written = r.written as u64;
    u64::from(r.stop)
}

// Writes the name of a number at the start of out and answers its length. An out of fewer than 12 bytes is left as it is, and answered 0.
pub fn lease_broker_name(number: u64, out: &mut [u8]) -> u64
    ensures { Names (name_in (length out.old) number) result out.old out.new }
{
    if out.len() < 12 {
        return 0;
    }
    put_name(out, number) as u64
}
