// The blocks of a run, one to a line: its number, what was asked, and the answer.
ghost use Rattle.std.specs.Prelude.{Some};
ghost use Rattle.explain.specs.Told.{told_text};

use blocks::block_at;
use named::Named;
use named::told::{Given, InWords, number};
use rules::{Command, Response};
use std::fmt::InlineText;
use std::{fmt, io};
use store::PublicationStore;

// The answer: done and its values, or REFUSED and why.
#[derive(Clone, Copy)]
struct Told(Response);

impl fmt::Display for Told {
    ghost output = { λ t. Some (told_text t.0) };

    fn fmt<W: fmt::Write>(&self, f: &mut fmt::Formatter<W>) -> fmt::Result {
        let response = self.0;
        let number = number(response);
        if number != 0 {
            return write!(f, "REFUSED  {}", Named(number));
        }
        if let Response::Done = response {
            return write!(f, "done");
        }
        let given = Given {
            response,
            sign: " ",
            between: ", ",
        };
        write!(f, "done     {given}")
    }
}

// The line of one block. The answers stand in a column; after a longer command, two blanks on.
fn tell_block(
    rt: &impl Print,
    number: u64,
    command: Command,
    response: Response,
) -> io::Result<()> {
    let words = InWords {
        command,
        width: 8,
        sign: " ",
        between: ", ",
    };
    let asked = InlineText::<192>::of(format_args!("{number:>3}  {words}  "));
    println!(rt; "{:<65}{}", asked.as_str(), Told(response))
}

// The blocks that a trace's run did, so many from its start, with their answers on an empty store.
pub(crate) fn tell_blocks(rt: &impl Print, trace: &[u8], blocks: u64) -> io::Result<()> {
    let mut store = PublicationStore::new();
    let mut at: usize = 0;
    for done in 0..blocks {
        // The run has read this block: it is there.
        let Ok((command, next)) = block_at(trace, at) else {
            return Ok(());
        };
        let applied = store.apply(command);
        tell_block(rt, done + 1, command, applied.answer)?;
        store = applied.table;
        at = next;
    }
    Ok(())
}
