// The types of the lease broker. What each command does to a table, and what is proved of that, stands in specs/ and proofs/:
// every crate above this one cites its definitions.
//
// Numbers of different kinds are different types, so that a lease can't be passed for a publication.
//
// Nothing that an entry point reaches calls a function of the library: docs/DESIGN-PASS.md says why, and what stands in its place.
#![tactic(auto)]

ghost use Rattle.std.specs.Prelude.{◌≡◌};
ghost use Rattle.rules.specs.Refusals.{refusal_number};

#[derive(Clone, Copy, PartialEq, Eq)]
pub struct PublicationId(pub u64);

#[derive(Clone, Copy, PartialEq, Eq)]
pub struct LeaseId(pub u64);

#[derive(Clone, Copy, PartialEq, Eq)]
pub struct Owner(pub u64);

#[derive(Clone, Copy, PartialEq, Eq)]
pub struct Port(pub u32);

// One handle that was published: whose it is, where it is looked up, and whether it still is (visible) and still stands (retained).
#[derive(Clone, Copy, PartialEq, Eq)]
pub struct Publication {
    pub owner: Owner,
    pub generation: u64,
    pub port: Port,
    pub slot: u64,
    pub visible: bool,
    pub retained: bool,
}

// Who took a lease: an owner in a generation.
#[derive(Clone, Copy, PartialEq, Eq)]
pub struct Consumer {
    pub owner: Owner,
    pub generation: u64,
}

// An active lease, taken by a consumer or by nobody by name. A released one has no record.
#[derive(Clone, Copy, PartialEq, Eq)]
pub struct Lease {
    pub id: LeaseId,
    pub publication: PublicationId,
    pub consumer: Option<Consumer>,
}

// Why a call is refused, with its number.
#[derive(Clone, Copy, PartialEq, Eq)]
pub enum Refusal {
    Unknown = 1,
    Revoked = 2,
    Conflict = 3,
    Relied = 4,
    Visible = 5,
    Released = 6,
    Capacity = 7,
    InvalidState = 8,
    BadTable = 9,
    Absent = 10,
}

// A refusal's number: specs/Refusals.antt has them beside the names.
impl From<Refusal> for u64 {
    fn from(refusal: Refusal) -> u64
        ensures { result ≡ refusal_number refusal }
    {
        refusal as u64
    }
}

// Why a call that offered a handle is refused, and the handle back.
#[derive(Clone, Copy, PartialEq, Eq)]
pub struct Rejected {
    pub why: Refusal,
    pub handle: u64,
}

// What a call answers, beside the table that it leaves.
#[derive(Clone, Copy)]
pub struct Answered<A, T> {
    pub answer: A,
    pub table: T,
}

// The store's commands, as a trace writes them.
#[derive(Clone, Copy, PartialEq, Eq)]
pub enum Command {
    Publish {
        owner: Owner,
        generation: u64,
        port: Port,
        payload: u64,
    },
    Adopt {
        id: PublicationId,
        owner: Owner,
        generation: u64,
    },
    Acquire {
        id: PublicationId,
        owner: Owner,
        generation: u64,
    },
    Release {
        lease: LeaseId,
    },
    Revoke {
        id: PublicationId,
    },
    Replace {
        id: PublicationId,
        owner: Owner,
        generation: u64,
        payload: u64,
    },
    Reclaim {
        id: PublicationId,
    },
    Read {
        lease: LeaseId,
    },
    Observe {
        id: PublicationId,
    },
    Resolve {
        port: Port,
    },
    Count,
}

// What is read through a lease.
#[derive(Clone, Copy, PartialEq, Eq)]
pub struct Reading {
    pub id: PublicationId,
    pub revision: u64,
    pub handle: u64,
}

// What is observed of a publication.
#[derive(Clone, Copy, PartialEq, Eq)]
pub struct Observation {
    pub revision: u64,
    pub handle: u64,
}

// A publication and its handle: what is read through a lease, without the revision.
#[derive(Clone, Copy, PartialEq, Eq)]
pub struct Leased {
    pub id: PublicationId,
    pub handle: u64,
}

// What any command is answered, in one type for all of them.
#[derive(Clone, Copy, PartialEq, Eq)]
pub enum Response {
    // Refused; and refused with the offered handle back.
    Refused(Refusal),
    Returned(Refusal, u64),
    // Carried out: with nothing to tell, an identifier, a lease, the handle handed back, what was read, what was observed, a number.
    Done,
    Id(PublicationId),
    Lease(LeaseId),
    Handle(u64),
    Read(Reading),
    Observed(Observation),
    Count(u64),
}
