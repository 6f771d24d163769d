// Answers, printed: the call's name, the answer's number and name, and then what came with it.
use named::Named;
use rules::{
    Answered, LeaseId, Leased, Observation, PublicationId, Reading, Refusal, Rejected, Response,
};
use std::io;

// What comes with an answer.
pub trait Shown: Drop {
    fn show<R: Print>(self, rt: &R) -> io::Result<()>;
}

// Why a call is refused.
pub trait Refused: Shown {
    fn why(&self) -> Refusal;
}

// Numbers of one kind each.

#[derive(Clone, Copy)]
pub struct Handle(pub u64);

#[derive(Clone, Copy)]
pub struct Count(pub u64);

#[derive(Clone, Copy)]
pub struct Slot(pub u64);

impl Shown for () {
    fn show<R: Print>(self, _rt: &R) -> io::Result<()> {
        Ok(())
    }
}

impl Shown for Handle {
    fn show<R: Print>(self, rt: &R) -> io::Result<()> {
        value(rt, "payload", self.0)
    }
}

impl Shown for Count {
    fn show<R: Print>(self, rt: &R) -> io::Result<()> {
        value(rt, "count", self.0)
    }
}

impl Shown for Slot {
    fn show<R: Print>(self, rt: &R) -> io::Result<()> {
        value(rt, "slot", self.0)
    }
}

impl Shown for PublicationId {
    fn show<R: Print>(self, rt: &R) -> io::Result<()> {
        value(rt, "id", self.0)
    }
}

impl Shown for LeaseId {
    fn show<R: Print>(self, rt: &R) -> io::Result<()> {
        value(rt, "lease", self.0)
    }
}

impl Shown for Reading {
    fn show<R: Print>(self, rt: &R) -> io::Result<()> {
        value(rt, "id", self.id.0)?;
        value(rt, "revision", self.revision)?;
        value(rt, "payload", self.handle)
    }
}

impl Shown for Observation {
    fn show<R: Print>(self, rt: &R) -> io::Result<()> {
        value(rt, "revision", self.revision)?;
        value(rt, "payload", self.handle)
    }
}

impl Shown for Leased {
    fn show<R: Print>(self, rt: &R) -> io::Result<()> {
        value(rt, "id", self.id.0)?;
        value(rt, "payload", self.handle)
    }
}

impl Shown for Refusal {
    fn show<R: Print>(self, _rt: &R) -> io::Result<()> {
        Ok(())
    }
}

impl Refused for Refusal {
    fn why(&self) -> Refusal {
        *self
    }
}

impl Shown for Rejected {
    fn show<R: Print>(self, rt: &R) -> io::Result<()> {
        value(rt, "handle back", self.handle)
    }
}

impl Refused for Rejected {
    fn why(&self) -> Refusal {
        self.why
    }
}

// What was asked, and the answer's number and name.
fn say(rt: &impl Print, what: &str, number: u64) -> io::Result<()> {
    println!(rt; "{what}: {}", Named(number))
}

pub(crate) fn value(rt: &impl Print, key: &str, n: u64) -> io::Result<()> {
    println!(rt; "  {key}={n}")
}

// A call's answer.
pub(crate) fn show<A: Shown, E: Refused>(
    rt: &impl Print,
    what: &str,
    answer: Result<A, E>,
) -> io::Result<()> {
    match answer {
        Ok(given) => {
            say(rt, what, 0)?;
            given.show(rt)
        }
        Err(refused) => {
            say(rt, what, u64::from(refused.why()))?;
            refused.show(rt)
        }
    }
}

// The answer of a call that leaves a table; the table is handed on.
pub(crate) fn show_left<A: Shown, E: Refused, T: Copy>(
    rt: &impl Print,
    what: &str,
    answered: Answered<Result<A, E>, T>,
) -> io::Result<T> {
    let Answered { answer, table } = answered;
    show(rt, what, answer)?;
    Ok(table)
}

// A response: its number and name, and a handle that comes back with a refusal.
pub(crate) fn show_response(rt: &impl Print, what: &str, response: Response) -> io::Result<()> {
    match response {
        Response::Refused(why) => show::<(), Refusal>(rt, what, Err(why)),
        Response::Returned(why, handle) => {
            show::<(), Rejected>(rt, what, Err(Rejected { why, handle }))
        }
        _ => show::<(), Refusal>(rt, what, Ok(())),
    }
}
