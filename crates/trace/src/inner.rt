// The run on a sound store, and a report's last line. These are no entry points: the room is for the caller to see to.
ghost use Rattle.std.specs.Prelude.{◌≡◌, ◌+◌, ◌≤◌, length};
ghost use Rattle.rules.specs.Limits.{box};
ghost use Rattle.rules.specs.Columns.{used};
ghost use Rattle.store.specs.Columns.{columns_of};
ghost use Rattle.writing.specs.Written.{over, over_from};
ghost use Rattle.trace.specs.Run.{laid, run_sound};
ghost use Rattle.trace.specs.Report.{line_room, stop_line};
ghost use Rattle.trace.specs.Embedding.{ComesTo};

use crate::{Stop, Stopped};
use blocks::block_at;
use blocks::inner::put_response_at;
use store::PublicationStore;
use store::inner::Sound;
use store::inner::any::apply;
use writing::inner::{put, put_name, put_number};

// Block after block, with all of the output for the answers. A turn moves by a whole block, so no index is counted here. The store stays
// sound, so no command tests it again.
pub fn run(sound: Sound, trace: &[u8], out: &mut [u8]) -> Stopped
    ensures { ComesTo (laid box (run_sound box (length out.old) trace.now (used (columns_of sound.store)))) result out.old out.new }
{
    let mut left = sound;
    let mut blocks: u64 = 0;
    let mut i: usize = 0;
    let mut at: usize = 0;
    while i < trace.len() {
        if out.len() - at < 96 {
            return stopped(left.store, Stop::NoRoom, blocks, i, at);
        }
        let Ok((command, next)) = block_at(trace, i) else {
            return stopped(left.store, Stop::BadLine, blocks, i, at);
        };
        let applied = apply(left, command);
        at = put_response_at(out, at, applied.answer);
        left = Sound {
            store: applied.table,
        };
        i = next;
        blocks += 1;
    }
    stopped(left.store, Stop::End, blocks, i, at)
}

// Where the run stands when it stops.
fn stopped(store: PublicationStore, stop: Stop, blocks: u64, read: usize, written: usize) -> Stopped
    ensures { result ≡ record { store = store; stop = stop; blocks = blocks; read = read; written = written } }
{
    Stopped {
        store,
        stop,
        blocks,
        read,
        written,
    }
}

// The line stop=NUMBER NAME at the start of out. Answers its length.
pub fn put_stop_line(out: &mut [u8], n: u64) -> usize
    requires { line_room ≤ length out.old }
    ensures { (result ≡ length (stop_line n)) × (out.new ≡ over (stop_line n) out.old) }
{
    let a = put(out, b"stop=");
    let b = put_number(&mut out[a..], n);
    let c = a + b;
    out[c] = 32;
    let d = c + 1;
    let e = put_name(&mut out[d..], n);
    let f = d + e;
    out[f] = 10;
    f + 1
}

// The same from the place at on: the output's remaining part is lent to the line's writer, as docs/DECISIONS.md fixes it. Answers the
// place after the line.
pub fn put_stop_line_at(out: &mut [u8], at: usize, n: u64) -> usize
    requires { at + line_room ≤ length out.old }
    ensures { (result ≡ at + length (stop_line n)) × (out.new ≡ over_from at (stop_line n) out.old) }
{
    let k = put_stop_line(&mut out[at..], n);
    at + k
}
