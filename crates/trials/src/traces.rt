// The traces, with the answer that document 01 fixes for each command: its bench examples that start from an empty store, its whole case,
// and three days more. Nothing here comes from a run of a broker.
ghost use Rattle.std.specs.Prelude.{◌≡◌};

use rules::{
    Command, LeaseId, Observation, Owner, Port, PublicationId, Reading, Refusal, Response,
};
use std::fmt;

// A trace: one of document 01's examples, by its name there, or a day. Each starts from an empty store.
#[derive(Clone, Copy, PartialEq, Eq)]
pub enum Trace {
    P2,
    P3,
    P4,
    P5,
    P6,
    P7,
    P8,
    P10,
    P11,
    WholeCase,
    Drain,
    ReplacedKey,
    EqualHandles,
}

impl fmt::Display for Trace {
    fn fmt<W: fmt::Write>(&self, f: &mut fmt::Formatter<W>) -> fmt::Result {
        f.pad(match self {
            Trace::P2 => "P2",
            Trace::P3 => "P3",
            Trace::P4 => "P4",
            Trace::P5 => "P5",
            Trace::P6 => "P6",
            Trace::P7 => "P7",
            Trace::P8 => "P8",
            Trace::P10 => "P10",
            Trace::P11 => "P11",
            Trace::WholeCase => "whole case",
            Trace::Drain => "drain",
            Trace::ReplacedKey => "replaced key",
            Trace::EqualHandles => "equal handles",
        })
    }
}

// A row: its trace, how many turns it is played, and the command with its answer in the first turn.
#[derive(Clone, Copy)]
pub struct Row {
    pub trace: Trace,
    pub times: u32,
    pub asked: Command,
    pub fixed: Response,
}

impl Row {
    // The command and its answer in a turn, counted from 0. From turn to turn a publish's port and payload rise by one, and so does the
    // identifier or the lease that is given out.
    pub(crate) fn turn(&self, n: u32) -> (Command, Response)
        ensures asked { n ≡ 0 → result.0 ≡ self.now.asked }
        ensures fixed { n ≡ 0 → result.1 ≡ self.now.fixed }
    {
        let rise = u64::from(n);
        let asked = match self.asked {
            Command::Publish {
                owner,
                generation,
                port,
                payload,
            } => Command::Publish {
                owner,
                generation,
                port: Port(port.0.wrapping_add(n)),
                payload: payload.wrapping_add(rise),
            },
            other => other,
        };
        let fixed = match self.fixed {
            Response::Id(id) => Response::Id(PublicationId(id.0.wrapping_add(rise))),
            Response::Lease(lease) => Response::Lease(LeaseId(lease.0.wrapping_add(rise))),
            other => other,
        };
        (asked, fixed)
    }
}

// A command of a row: its word and the values of its keys, in document 01's order.
macro_rules! asked {
    (publish($owner:literal, $generation:literal, $port:literal, $payload:literal)) => {
        Command::Publish {
            owner: Owner($owner),
            generation: $generation,
            port: Port($port),
            payload: $payload,
        }
    };
    (adopt($id:literal, $owner:literal, $generation:literal)) => {
        Command::Adopt {
            id: PublicationId($id),
            owner: Owner($owner),
            generation: $generation,
        }
    };
    (acquire($id:literal, $owner:literal, $generation:literal)) => {
        Command::Acquire {
            id: PublicationId($id),
            owner: Owner($owner),
            generation: $generation,
        }
    };
    (release($lease:literal)) => {
        Command::Release {
            lease: LeaseId($lease),
        }
    };
    (revoke($id:literal)) => {
        Command::Revoke {
            id: PublicationId($id),
        }
    };
    (replace($id:literal, $owner:literal, $generation:literal, $payload:literal)) => {
        Command::Replace {
            id: PublicationId($id),
            owner: Owner($owner),
            generation: $generation,
            payload: $payload,
        }
    };
    (reclaim($id:literal)) => {
        Command::Reclaim {
            id: PublicationId($id),
        }
    };
    (read($lease:literal)) => {
        Command::Read {
            lease: LeaseId($lease),
        }
    };
    (observe($id:literal)) => {
        Command::Observe {
            id: PublicationId($id),
        }
    };
    (resolve($port:literal)) => {
        Command::Resolve { port: Port($port) }
    };
    (count) => {
        Command::Count
    };
}

// An answer of a row: what it gives, or the refusal's name; a handle that comes back with the refusal after that.
macro_rules! fixed {
    (done) => {
        Response::Done
    };
    (id($id:literal)) => {
        Response::Id(PublicationId($id))
    };
    (lease($lease:literal)) => {
        Response::Lease(LeaseId($lease))
    };
    (handle($handle:literal)) => {
        Response::Handle($handle)
    };
    (read($id:literal, $revision:literal, $handle:literal)) => {
        Response::Read(Reading {
            id: PublicationId($id),
            revision: $revision,
            handle: $handle,
        })
    };
    (observed($revision:literal, $handle:literal)) => {
        Response::Observed(Observation {
            revision: $revision,
            handle: $handle,
        })
    };
    (count($n:literal)) => {
        Response::Count($n)
    };
    ($why:ident) => {
        Response::Refused(Refusal::$why)
    };
    ($why:ident back($handle:literal)) => {
        Response::Returned(Refusal::$why, $handle)
    };
}

macro_rules! row {
    ($trace:ident, $times:literal times: $asked:ident $(($($keys:literal),+))? => $($fixed:tt)+) => {
        Row {
            trace: Trace::$trace,
            times: $times,
            asked: asked!($asked $(($($keys),+))?),
            fixed: fixed!($($fixed)+),
        }
    };
    ($trace:ident: $asked:ident $(($($keys:literal),+))? => $($fixed:tt)+) => {
        row!($trace, 1 times: $asked $(($($keys),+))? => $($fixed)+)
    };
}

pub const ROWS: [Row; 98] = [
    // P2 first publish: identifier 0, revision 0.
    row!(P2: publish(4, 0, 7, 900) => id(0)),
    row!(P2: observe(0) => observed(0, 900)),
    // P3 same port again while visible: 3.
    row!(P3: publish(4, 0, 7, 900) => id(0)),
    row!(P3: publish(5, 0, 7, 901) => Conflict back(901)),
    // P4 after revoke, same port: identifier 1, with 0 still retained.
    row!(P4: publish(4, 0, 7, 900) => id(0)),
    row!(P4: revoke(0) => done),
    row!(P4: publish(5, 0, 7, 901) => id(1)),
    row!(P4: observe(0) => observed(0, 900)),
    row!(P4: resolve(7) => id(1)),
    row!(P4: count => count(2)),
    // P5 96 records: 7, even where the port conflicts; reclaimed ones included.
    row!(P5, 96 times: publish(4, 0, 0, 900) => id(0)),
    row!(P5: publish(5, 0, 7, 800) => Capacity back(800)),
    row!(P5: publish(5, 0, 96, 801) => Capacity back(801)),
    row!(P5: revoke(0) => done),
    row!(P5: reclaim(0) => handle(900)),
    row!(P5: count => count(95)),
    row!(P5: publish(5, 0, 96, 802) => Capacity back(802)),
    // P6 acquire, release, acquire: second lease is 1; read 0 gives 6; read 2 gives 1; release as read.
    row!(P6: publish(4, 0, 7, 900) => id(0)),
    row!(P6: acquire(0, 5, 1) => lease(0)),
    row!(P6: release(0) => done),
    row!(P6: acquire(0, 5, 1) => lease(1)),
    row!(P6: read(0) => Released),
    row!(P6: read(2) => Unknown),
    row!(P6: read(1) => read(0, 0, 900)),
    row!(P6: release(0) => Released),
    row!(P6: release(2) => Unknown),
    // P7 leases 0 to 127 active: 7; one released: lease 128.
    row!(P7: publish(4, 0, 7, 900) => id(0)),
    row!(P7, 128 times: acquire(0, 5, 1) => lease(0)),
    row!(P7: acquire(0, 5, 1) => Capacity),
    row!(P7: release(64) => done),
    row!(P7: acquire(0, 5, 1) => lease(128)),
    row!(P7: acquire(0, 5, 1) => Capacity),
    // P8 revoked: replace by a wrong owner 8, by the right one 2; after reclaim still 2.
    row!(P8: publish(4, 0, 7, 900) => id(0)),
    row!(P8: revoke(0) => done),
    row!(P8: replace(0, 5, 0, 901) => InvalidState back(901)),
    row!(P8: replace(0, 4, 0, 902) => Revoked back(902)),
    row!(P8: reclaim(0) => handle(900)),
    row!(P8: replace(0, 4, 0, 903) => Revoked back(903)),
    // P10 adopt: 0 to 1 succeeds, again 8; leased 4; reclaimed 6.
    row!(P10: publish(4, 0, 7, 900) => id(0)),
    row!(P10: adopt(0, 4, 1) => done),
    row!(P10: adopt(0, 4, 1) => InvalidState),
    row!(P10: publish(4, 0, 8, 901) => id(1)),
    row!(P10: acquire(1, 5, 1) => lease(0)),
    row!(P10: adopt(1, 4, 1) => Relied),
    row!(P10: publish(4, 0, 9, 902) => id(2)),
    row!(P10: revoke(2) => done),
    row!(P10: reclaim(2) => handle(902)),
    row!(P10: adopt(2, 4, 1) => Released),
    // P11 reclaim visible and leased 5; revoked and leased 4; drained succeeds; again 6.
    row!(P11: publish(4, 0, 7, 900) => id(0)),
    row!(P11: acquire(0, 5, 1) => lease(0)),
    row!(P11: reclaim(0) => Visible),
    row!(P11: revoke(0) => done),
    row!(P11: reclaim(0) => Relied),
    row!(P11: release(0) => done),
    row!(P11: reclaim(0) => handle(900)),
    row!(P11: reclaim(0) => Released),
    // The whole case of the trace text.
    row!(WholeCase: publish(4, 0, 7, 900) => id(0)),
    row!(WholeCase: acquire(0, 5, 1) => lease(0)),
    row!(WholeCase: revoke(0) => done),
    row!(WholeCase: reclaim(0) => Relied),
    row!(WholeCase: release(0) => done),
    row!(WholeCase: reclaim(0) => handle(900)),
    row!(WholeCase: count => count(0)),
    // The drain of two leases, with other commands between: the port is free again, and a lease reads what is revoked.
    row!(Drain: publish(4, 0, 7, 900) => id(0)),
    row!(Drain: acquire(0, 5, 1) => lease(0)),
    row!(Drain: acquire(0, 6, 1) => lease(1)),
    row!(Drain: revoke(0) => done),
    row!(Drain: reclaim(0) => Relied),
    row!(Drain: release(0) => done),
    row!(Drain: reclaim(0) => Relied),
    row!(Drain: publish(4, 0, 7, 905) => id(1)),
    row!(Drain: read(1) => read(0, 0, 900)),
    row!(Drain: release(1) => done),
    row!(Drain: reclaim(0) => handle(900)),
    row!(Drain: count => count(1)),
    // A replaced key: each replace hands back the handle before it, the reclaim the last one.
    row!(ReplacedKey: publish(4, 0, 7, 900) => id(0)),
    row!(ReplacedKey: replace(0, 4, 0, 901) => handle(900)),
    row!(ReplacedKey: replace(0, 4, 0, 902) => handle(901)),
    row!(ReplacedKey: observe(0) => observed(2, 902)),
    row!(ReplacedKey: revoke(0) => done),
    row!(ReplacedKey: reclaim(0) => handle(902)),
    row!(ReplacedKey: observe(0) => Absent),
    row!(ReplacedKey: count => count(0)),
    // Equal handles in the ledger: each counts as often as it is accepted; 0 is an ordinary handle.
    row!(EqualHandles: publish(4, 0, 7, 900) => id(0)),
    row!(EqualHandles: publish(4, 0, 8, 900) => id(1)),
    row!(EqualHandles: replace(1, 4, 0, 900) => handle(900)),
    row!(EqualHandles: count => count(2)),
    row!(EqualHandles: replace(0, 4, 0, 0) => handle(900)),
    row!(EqualHandles: observe(0) => observed(1, 0)),
    row!(EqualHandles: observe(1) => observed(1, 900)),
    row!(EqualHandles: revoke(1) => done),
    row!(EqualHandles: reclaim(1) => handle(900)),
    row!(EqualHandles: count => count(1)),
    row!(EqualHandles: publish(4, 0, 8, 900) => id(2)),
    row!(EqualHandles: revoke(0) => done),
    row!(EqualHandles: reclaim(0) => handle(0)),
    row!(EqualHandles: observe(2) => observed(0, 900)),
    row!(EqualHandles: count => count(1)),
];
