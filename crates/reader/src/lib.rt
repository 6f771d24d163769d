// The trace reader: a trace and a place in it, held together in one small record. Its functions are thin: the reading itself is block_at's.
// It carries nothing out, and moves only where it is told. A caller that keeps no reader calls block_after, whose parameters are plain.
//
//     block_after(b"op=count\nop=revoke\nid=7\n", 9)  answers  Ok((Command::Revoke { id: PublicationId(7) }, 24))
//
// Nothing that an entry point reaches calls a function of the library: docs/DESIGN-PASS.md says why, and what stands in its place.
#![tactic(auto)]

ghost use Rattle.std.specs.Prelude.{◌≡◌, leb, length};
ghost use Rattle.blocks.specs.Blocks.{block_at};

use blocks::block_at;
use rules::Command;
use text::Misread;

#[derive(Clone, Copy)]
pub struct Reader<'a> {
    pub trace: &'a [u8],
    pub at: usize,
}

impl<'a> Reader<'a> {
    // A reader at the trace's start.
    pub fn new(trace: &'a [u8]) -> Reader<'a>
        ensures { (result.trace ≡ trace.entry) × (result.at ≡ 0) }
    {
        Reader { trace, at: 0 }
    }

    // Whether no byte is left: the place is at the trace's end, or past it.
    pub fn at_end(self) -> bool
        ensures { result ≡ leb (length self.entry.trace.now) self.entry.at }
    {
        self.trace.len() <= self.at
    }

    // The block at the reader's place: the command, and the place after its block.
    pub fn next_block(self) -> Result<(Command, usize), Misread>
        ensures { result ≡ block_at self.entry.trace.now self.entry.at }
    {
        block_at(self.trace, self.at)
    }

    // The same trace, at another place.
    pub fn moved(self, at: usize) -> Reader<'a>
        ensures { (result.trace ≡ self.entry.trace) × (result.at ≡ at) }
    {
        Reader {
            trace: self.trace,
            at,
        }
    }
}

// The block after a trace's first bytes, through a reader of its own.
pub fn block_after(trace: &[u8], at: usize) -> Result<(Command, usize), Misread>
    ensures { result ≡ block_at trace.now at }
{
    Reader::new(trace).moved(at).next_block()
}
