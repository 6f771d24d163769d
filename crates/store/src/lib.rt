// The publication store, by value on fixed arrays: publications, leases, and for each publication a payload handle and a revision.
//
// Every call tests the store first: one that isn't sound is answered BadTable, and a command gives it back exactly as it came.
// Any other refusal gives the store back unchanged as well, and publish and replace give the offered handle back.
// The test stands at the head of each call, as in crate registry.
//
// Nothing that an entry point reaches calls a function of the library: docs/DESIGN-PASS.md says why, and what stands in its place.
#![tactic(auto)]

ghost use Rattle.std.specs.Prelude.{◌≡◌, Some, None};
ghost use Rattle.rules.specs.declared.Command.TheVariants.{Publish, Adopt, Acquire, Release, Revoke, Replace, Reclaim, Read, Observe, Resolve, Count};
ghost use Rattle.rules.specs.declared.Refusal.TheVariants.{BadTable};
ghost use Rattle.rules.specs.Limits.{box};
ghost use Rattle.rules.specs.Commands.{offered};
ghost use Rattle.rules.specs.Table.{empty_store};
ghost use Rattle.rules.specs.Columns.{filled};
ghost use Rattle.rules.specs.Queries.{leased_value, value, contains_handle, registry_copy};
ghost use Rattle.rules.specs.Calls.{command, query};
ghost use Rattle.rules.specs.Responses.{refusal_of};
ghost use Rattle.rules.specs.ValueCell.{new_cell, get_cell, replace_cell};
ghost use Rattle.registry.specs.Answers.{result_of};
ghost use Rattle.store.specs.Columns.{columns_of, store_of};
ghost use Rattle.store.specs.Answers.{contained_of, registry_copy_of, answered_of, returned_of, applied_of};
ghost use Rattle.store.specs.ValueCell.{cell_of, value_cell_of, exchanged_of};

use inner::Sound;
use registry::PublicationRegistry;
use registry::inner::refused;
use rules::{
    Answered, Command, LeaseId, Leased, Observation, Owner, Port, PublicationId, Reading, Refusal,
    Rejected, Response,
};

pub mod inner;

// Records and cells past the counts are blank in a sound store. Payloads and revisions are columns beside the records, as docs/DECISIONS.md fixes them.
#[derive(Clone, Copy)]
pub struct PublicationStore {
    pub registry: PublicationRegistry,
    pub payloads: [u64; 96],
    pub revisions: [u64; 96],
}

// An answer beside a yes or no, which is no where the call is refused: a `Result` of a yes or no would not say that.
#[derive(Clone, Copy)]
pub struct Contained {
    pub answer: Result<(), Refusal>,
    pub present: bool,
}

// One handle by itself.
#[derive(Clone, Copy)]
pub struct ValueCell {
    pub value: u64,
}

// The earlier handle beside the cell: the names say which handle it is, where `Answered` would call it an answer.
#[derive(Clone, Copy)]
pub struct Exchanged {
    pub earlier: u64,
    pub cell: ValueCell,
}

#[tactic(auto, using(crate::proofs::Guard::guarded))]
impl PublicationStore {
    // The empty store without domain.
    pub fn new() -> PublicationStore
        ensures { result ≡ store_of (filled box (empty_store None)) }
    {
        Sound::empty(None).store
    }

    // The empty store of a domain.
    pub fn for_domain(number: u64) -> PublicationStore
        ensures { result ≡ store_of (filled box (empty_store (Some number))) }
    {
        Sound::empty(Some(number)).store
    }

    // A copy of the registry: the store without handles and revisions.
    pub fn registry(self) -> Answered<Result<(), Refusal>, PublicationRegistry>
        ensures { result ≡ registry_copy_of (query box (columns_of self) registry_copy) }
    {
        let Some(sound) = Sound::tested(self) else {
            return refused(Refusal::BadTable, PublicationRegistry::new());
        };
        Answered {
            answer: Ok(()),
            table: sound.store.registry,
        }
    }

    // A publication's handle; Absent if unknown or reclaimed.
    pub fn value(self, id: PublicationId) -> Result<u64, Refusal>
        ensures { result ≡ result_of (query box (columns_of self) (value id)) }
    {
        let Some(sound) = Sound::tested(self) else {
            return Err(Refusal::BadTable);
        };
        match sound.observation(id) {
            Err(why) => Err(why),
            Ok(o) => Ok(o.handle),
        }
    }

    // A publication's revision and handle; Absent if unknown or reclaimed.
    pub fn observation(self, id: PublicationId) -> Result<Observation, Refusal>
        ensures { result ≡ result_of (command box (columns_of self) (Observe id)).answer }
    {
        let Some(sound) = Sound::tested(self) else {
            return Err(Refusal::BadTable);
        };
        sound.observation(id)
    }

    // The publication that a lease names and its handle, also once it is revoked. Unknown if never given out; Released if not active.
    pub fn leased_value(self, lease: LeaseId) -> Result<Leased, Refusal>
        ensures { result ≡ result_of (query box (columns_of self) (leased_value lease)) }
    {
        let Some(sound) = Sound::tested(self) else {
            return Err(Refusal::BadTable);
        };
        match sound.leased_observation(lease) {
            Err(why) => Err(why),
            Ok(read) => Ok(Leased {
                id: read.id,
                handle: read.handle,
            }),
        }
    }

    // The same with the revision.
    pub fn leased_observation(self, lease: LeaseId) -> Result<Reading, Refusal>
        ensures { result ≡ result_of (command box (columns_of self) (Read lease)).answer }
    {
        let Some(sound) = Sound::tested(self) else {
            return Err(Refusal::BadTable);
        };
        sound.leased_observation(lease)
    }

    // The publication that is visible on a port; else Absent.
    pub fn resolve(self, port: Port) -> Result<PublicationId, Refusal>
        ensures { result ≡ result_of (command box (columns_of self) (Resolve port)).answer }
    {
        let Some(sound) = Sound::tested(self) else {
            return Err(Refusal::BadTable);
        };
        sound.resolve(port)
    }

    // How many publications are retained.
    pub fn retained_count(self) -> Result<u64, Refusal>
        ensures { result ≡ result_of (command box (columns_of self) Count).answer }
    {
        let Some(sound) = Sound::tested(self) else {
            return Err(Refusal::BadTable);
        };
        sound.retained_count()
    }

    // Whether a retained publication holds the handle, 0 included.
    pub fn contains_handle(self, handle: u64) -> Contained
        ensures { result ≡ contained_of (query box (columns_of self) (contains_handle handle)) }
    {
        let Some(sound) = Sound::tested(self) else {
            return Contained {
                answer: Err(Refusal::BadTable),
                present: false,
            };
        };
        sound.contains_handle(handle)
    }

    // A new publication, visible and retained, at the next identifier, with revision 0; the handle is stored. Capacity at 96
    // records; Conflict where a visible publication holds the port.
    pub fn publish(
        self,
        owner: Owner,
        generation: u64,
        port: Port,
        payload: u64,
    ) -> Answered<Result<PublicationId, Rejected>, PublicationStore>
        ensures { result ≡ returned_of (command box (columns_of self) (Publish owner generation port payload)) }
    {
        let Some(sound) = Sound::tested(self) else {
            return inner::rejected(Refusal::BadTable, payload, self);
        };
        sound.publish(owner, generation, port, payload)
    }

    // The earlier handle comes back, the new one is stored, and the revision goes up by 1. Unknown; InvalidState if the owner or the
    // generation differs; Revoked if not visible; Capacity at the revision's end.
    pub fn replace(
        self,
        id: PublicationId,
        owner: Owner,
        generation: u64,
        payload: u64,
    ) -> Answered<Result<u64, Rejected>, PublicationStore>
        ensures { result ≡ returned_of (command box (columns_of self) (Replace id owner generation payload)) }
    {
        let Some(sound) = Sound::tested(self) else {
            return inner::rejected(Refusal::BadTable, payload, self);
        };
        sound.replace(id, owner, generation, payload)
    }

    // No longer visible; repeating it is allowed, on reclaimed ones too. Unknown.
    pub fn revoke(self, id: PublicationId) -> Answered<Result<(), Refusal>, PublicationStore>
        ensures { result ≡ answered_of (command box (columns_of self) (Revoke id)) }
    {
        let Some(sound) = Sound::tested(self) else {
            return refused(Refusal::BadTable, self);
        };
        sound.revoke(id)
    }

    // A lease for an owner in a generation. Unknown; Revoked if not visible; Capacity at 128 active leases or the counter's end.
    pub fn acquire_for(
        self,
        id: PublicationId,
        owner: Owner,
        generation: u64,
    ) -> Answered<Result<LeaseId, Refusal>, PublicationStore>
        ensures { result ≡ answered_of (command box (columns_of self) (Acquire id owner generation)) }
    {
        let Some(sound) = Sound::tested(self) else {
            return refused(Refusal::BadTable, self);
        };
        sound.acquire_for(id, owner, generation)
    }

    // The lease ends: its record is out, and later ones move up. Unknown if never given out; Released if not active.
    pub fn release(self, lease: LeaseId) -> Answered<Result<(), Refusal>, PublicationStore>
        ensures { result ≡ answered_of (command box (columns_of self) (Release lease)) }
    {
        let Some(sound) = Sound::tested(self) else {
            return refused(Refusal::BadTable, self);
        };
        sound.release(lease)
    }

    // The generation becomes 1. Unknown; Released if reclaimed; InvalidState if the owner differs, the stored generation isn't 0
    // or the new one isn't 1; Relied while a lease is active.
    pub fn adopt(
        self,
        id: PublicationId,
        owner: Owner,
        generation: u64,
    ) -> Answered<Result<(), Refusal>, PublicationStore>
        ensures { result ≡ answered_of (command box (columns_of self) (Adopt id owner generation)) }
    {
        let Some(sound) = Sound::tested(self) else {
            return refused(Refusal::BadTable, self);
        };
        sound.adopt(id, owner, generation)
    }

    // No longer retained: the handle comes back, its cell is 0, and the revision stays. Unknown; Visible; Released if reclaimed
    // before; Relied while a lease is active.
    pub fn reclaim(self, id: PublicationId) -> Answered<Result<u64, Refusal>, PublicationStore>
        ensures { result ≡ answered_of (command box (columns_of self) (Reclaim id)) }
    {
        let Some(sound) = Sound::tested(self) else {
            return refused(Refusal::BadTable, self);
        };
        sound.reclaim(id)
    }

    // Any command: what it is answered, in one type for all of them, and the store that it leaves.
    pub fn apply(self, command: Command) -> Answered<Response, PublicationStore>
        ensures { result ≡ applied_of (columns_of self) command }
    {
        let Some(sound) = Sound::tested(self) else {
            return Answered {
                answer: bad_table(command),
                table: self,
            };
        };
        inner::any::apply(sound, command)
    }
}

// What a command is answered on a store that isn't sound.
fn bad_table(command: Command) -> Response
    ensures { result ≡ refusal_of command BadTable (offered command) }
{
    match command {
        Command::Publish { payload, .. } | Command::Replace { payload, .. } => {
            Response::Returned(Refusal::BadTable, payload)
        }
        _ => Response::Refused(Refusal::BadTable),
    }
}

impl ValueCell {
    pub fn new(value: u64) -> ValueCell
        ensures { result ≡ value_cell_of (new_cell value) }
    {
        ValueCell { value }
    }

    // The handle.
    pub fn get(self) -> u64
        ensures { result ≡ get_cell (cell_of self) }
    {
        self.value
    }

    // The earlier handle comes back beside the cell with the new one.
    pub fn replace(self, value: u64) -> Exchanged
        ensures { result ≡ exchanged_of (replace_cell (cell_of self) value) }
    {
        Exchanged {
            earlier: self.value,
            cell: ValueCell { value },
        }
    }
}
