// A trace of command blocks, run on a store and answered into a lent output; and the report of such a run from an empty store.
//
// Before each block: the end of the trace stops with End (0), else fewer than 96 bytes of room with NoRoom (12), else a wrong or
// unfinished block with BadLine (11). A stop changes nothing and writes nothing.
//
// Nothing that an entry point reaches calls a function of the library: docs/DESIGN-PASS.md says why, and what stands in its place.
#![tactic(auto)]

pub mod inner;

ghost use Rattle.std.specs.Prelude.{◌≡◌, length};
ghost use Rattle.rules.specs.Limits.{box};
ghost use Rattle.store.specs.Columns.{columns_of};
ghost use Rattle.trace.specs.Run.{run};
ghost use Rattle.trace.specs.Report.{report};
ghost use Rattle.trace.specs.Embedding.{stop_number, ComesTo, Tells, Counts};

use store::PublicationStore;
use store::inner::Sound;

// Why a run stopped, with its number.
#[derive(Clone, Copy, PartialEq, Eq)]
pub enum Stop {
    // The end of the input.
    End = 0,
    // The trace is longer than what is run.
    TooLong = 7,
    // The table isn't sound.
    BadTable = 9,
    // A wrong or unfinished block.
    BadLine = 11,
    // Too little room for an answer, or for a report.
    NoRoom = 12,
}

// The number of a stop.
impl From<Stop> for u64 {
    fn from(stop: Stop) -> u64
        ensures { result ≡ stop_number stop }
    {
        stop as u64
    }
}

// Where a run stopped: the store after the blocks done, why it stopped, how many blocks were done, the bytes read up to the stopped
// block's start, and the bytes written.
#[derive(Clone, Copy)]
pub struct Stopped {
    pub store: PublicationStore,
    pub stop: Stop,
    pub blocks: u64,
    pub read: usize,
    pub written: usize,
}

// Why a report's run stopped, and the report's length.
#[derive(Clone, Copy)]
pub struct Reported {
    pub stop: Stop,
    pub written: usize,
}

// Runs a trace on a store. A store that isn't sound stops it with BadTable (9) before anything is read.
pub fn run(store: PublicationStore, trace: &[u8], out: &mut [u8]) -> Stopped
    ensures comes_to { ComesTo (run box (length out.old) trace.now (columns_of store)) result out.old out.new }
    ensures counts { Counts result.written out.new }
{
    let Some(sound) = Sound::tested(store) else {
        return Stopped {
            store,
            stop: Stop::BadTable,
            blocks: 0,
            read: 0,
            written: 0,
        };
    };
    inner::run(sound, trace, out)
}

// Writes the report of a trace: the answers of a run from an empty store without domain, with 65,536 bytes of room for them, and the
// line stop=NUMBER NAME. A trace of more than 65,536 bytes is told as TooLong (7) and not run. An output of fewer than 65,600 bytes is
// left as it is, and answered NoRoom (12) and nothing written.
pub fn report(trace: &[u8], out: &mut [u8]) -> Reported
    ensures tells { Tells (report box (length out.old) trace.now) result out.old out.new }
    ensures counts { Counts result.written out.new }
{
    if out.len() < 65600 {
        return Reported {
            stop: Stop::NoRoom,
            written: 0,
        };
    }
    if 65536 < trace.len() {
        return Reported {
            stop: Stop::TooLong,
            written: inner::put_stop_line(out, u64::from(Stop::TooLong)),
        };
    }
    let r = inner::run(Sound::empty(None), trace, &mut out[..65536]);
    Reported {
        stop: r.stop,
        written: inner::put_stop_line_at(out, r.written, u64::from(r.stop)),
    }
}
