// The report, in columns.
use crate::checker::Demand;
use crate::traces::Trace;
use named::Named;
use named::told::{Given, InWords};
use rules::{Command, Response};
use std::fmt::InlineText;
use std::{fmt, io};

// The answer that breaks a demand: at which command of which trace, and what was due.
#[derive(Clone, Copy)]
pub struct Breach {
    pub trace: Trace,
    pub place: u64,
    pub asked: Command,
    pub answer: Response,
    pub due: Response,
}

// An answer in words: what it gives, or else its number and name; a handle that comes back with a refusal after that.
#[derive(Clone, Copy)]
struct Told(Response);

impl fmt::Display for Told {
    fn fmt<W: fmt::Write>(&self, f: &mut fmt::Formatter<W>) -> fmt::Result {
        match self.0 {
            Response::Refused(why) => write!(f, "{}", Named(u64::from(why))),
            Response::Returned(why, handle) => {
                write!(f, "{} back={handle}", Named(u64::from(why)))
            }
            Response::Done => write!(f, "{}", Named(0)),
            response => {
                let given = Given {
                    response,
                    sign: "=",
                    between: " ",
                };
                write!(f, "{given}")
            }
        }
    }
}

// The heads of the columns.
pub(crate) fn head(rt: &impl Print) -> io::Result<()> {
    println!(rt;
        "demand  verdict {:<15}{:<5}{:<48} {:<28} must be",
        "trace", "no.", "command", "answered"
    )
}

// The line of a demand that is kept.
pub(crate) fn kept(rt: &impl Print, demand: Demand) -> io::Result<()> {
    println!(rt; "  {demand}     kept")
}

// The line of one that is broken: where, by which command, and what was answered against what was due.
pub(crate) fn broken(rt: &impl Print, demand: Demand, breach: Breach) -> io::Result<()> {
    let Breach {
        trace,
        place,
        asked,
        answer,
        due,
    } = breach;
    let words = InWords {
        command: asked,
        width: 0,
        sign: "=",
        between: " ",
    };
    let command = InlineText::<128>::of(words);
    let told = InlineText::<128>::of(Told(answer));
    println!(rt;
        "  {demand}     broken  {trace:<15}{place:<5}{:<48} {:<28} {}",
        command.as_str(),
        told.as_str(),
        Told(due)
    )
}
