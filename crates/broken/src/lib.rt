// Broken brokers: this is NOT the product. Each has one fault on purpose, so that the trials can show which demand it breaks and where.
// Nothing of the product depends on this crate.
//
// A broken broker is the product's `apply` with one thing spoiled, in the same shape: a store and a command go in, an answer and a store
// come back. Of the broken ones nothing is proved but that they are safe and end; that nobody at fault is ours is proved.
#![tactic(auto)]

ghost use Rattle.std.specs.Prelude.{◌≡◌, IsNone};
ghost use Rattle.store.specs.Columns.{columns_of};
ghost use Rattle.store.specs.Answers.{applied_of};
ghost use Rattle.broken.specs.declared.Fault.TheVariants.{Nobody};

use rules::{Answered, Command, Port, Refusal, Response};
use store::PublicationStore;

// What is wrong with a broker.
#[derive(Clone, Copy, PartialEq, Eq)]
pub enum Fault {
    // Nothing: our broker, untouched.
    Nobody,
    // Refuses every command, with Unknown.
    RefusesEverything,
    // Hands back the handle 900, whichever it should be.
    SameHandle,
    // A release is answered Done and does nothing.
    KeepsLeases,
    // A release drops all leases.
    DropsLeases,
    // Counts the identifiers given out, reclaimed or not.
    InventsCount,
    // Tests a port against retained publications, where only visible ones hold it.
    TestsRetained,
    // Answers Released for a lease that was never given out, where that is Unknown.
    SixForNeverGiven,
    // Leaves the handle in the cell of a reclaimed publication.
    LeavesHandle,
    // A refused publish hands back 0, and not the offered handle.
    OtherHandleBack,
}

// A command, played by the broker with that fault. Where nobody is at fault it is ours.
pub fn play(
    fault: Fault,
    store: PublicationStore,
    command: Command,
) -> Answered<Response, PublicationStore>
    ensures { fault ≡ Nobody → result ≡ applied_of (columns_of store) command }
{
    if let Some(answer) = refused_at_once(fault, &store, command) {
        return Answered {
            answer,
            table: store,
        };
    }
    let right = store.apply(command);
    match fault {
        Fault::Nobody | Fault::RefusesEverything | Fault::TestsRetained => right,
        Fault::SameHandle => Answered {
            answer: same_handle(right.answer),
            table: right.table,
        },
        Fault::KeepsLeases => keeps_leases(store, command, right),
        Fault::DropsLeases => drops_leases(command, right),
        Fault::InventsCount => Answered {
            answer: invented(right.answer, right.table),
            table: right.table,
        },
        Fault::SixForNeverGiven => Answered {
            answer: six_for_never_given(command, right.answer),
            table: right.table,
        },
        Fault::LeavesHandle => leaves_handle(command, right),
        Fault::OtherHandleBack => Answered {
            answer: other_handle_back(command, right.answer),
            table: right.table,
        },
    }
}

// Faults of a test: the command is refused, and nothing is carried out.

fn refused_at_once(fault: Fault, store: &PublicationStore, command: Command) -> Option<Response>
    ensures { fault ≡ Nobody → IsNone result }
{
    match fault {
        Fault::RefusesEverything => Some(unknown(command)),
        Fault::TestsRetained => tests_retained(store, command),
        _ => None,
    }
}

fn unknown(command: Command) -> Response {
    match command {
        Command::Publish { payload, .. } | Command::Replace { payload, .. } => {
            Response::Returned(Refusal::Unknown, payload)
        }
        _ => Response::Refused(Refusal::Unknown),
    }
}

fn tests_retained(store: &PublicationStore, command: Command) -> Option<Response> {
    match command {
        Command::Publish { port, payload, .. }
            if store.registry.count < 96 && is_occupied(store, port) => {
            Some(Response::Returned(Refusal::Conflict, payload))
        }
        _ => None,
    }
}

// Whether a retained publication has the port, visible or not.
fn is_occupied(store: &PublicationStore, port: Port) -> bool {
    store.registry.publications.iter().any(|publication| publication.retained
        && publication.port == port)
}

// Faults of the answer: the store is the right one.

fn same_handle(right: Response) -> Response {
    match right {
        Response::Handle(_) => Response::Handle(900),
        _ => right,
    }
}

fn invented(right: Response, left: PublicationStore) -> Response {
    match right {
        Response::Count(_) => Response::Count(left.registry.count as u64),
        _ => right,
    }
}

fn six_for_never_given(command: Command, right: Response) -> Response {
    match command {
        Command::Release { .. } | Command::Read { .. }
            if right == Response::Refused(Refusal::Unknown) => {
            Response::Refused(Refusal::Released)
        }
        _ => right,
    }
}

fn other_handle_back(command: Command, right: Response) -> Response {
    match (command, right) {
        (Command::Publish { .. }, Response::Returned(why, _)) => Response::Returned(why, 0),
        _ => right,
    }
}

// Faults of the store: the answer is the right one.

fn keeps_leases(
    store: PublicationStore,
    command: Command,
    right: Answered<Response, PublicationStore>,
) -> Answered<Response, PublicationStore> {
    match command {
        Command::Release { .. } => Answered {
            answer: right.answer,
            table: store,
        },
        _ => right,
    }
}

fn drops_leases(
    command: Command,
    mut right: Answered<Response, PublicationStore>,
) -> Answered<Response, PublicationStore> {
    if matches!(command, Command::Release { .. }) && right.answer == Response::Done {
        let empty = PublicationStore::new();
        let leases = empty.registry.leases;
        right.table.registry.leases = leases;
        right.table.registry.active = 0;
    }
    right
}

// The handle is back in its cell after a reclaim. The product's calls test their table, so the next command is answered BadTable; without
// that test no answer would show it (crates/rules/proofs/LeftBehind.antt).
fn leaves_handle(
    command: Command,
    mut right: Answered<Response, PublicationStore>,
) -> Answered<Response, PublicationStore> {
    if let (Command::Reclaim { id }, Response::Handle(handle)) = (command, right.answer) {
        if let Some(cell) = right.table.payloads.get_mut(id.0 as usize) {
            *cell = handle;
        }
    }
    right
}
