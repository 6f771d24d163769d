// The calls on a store that is known to be sound: no entry points, but what a crate above builds on.
//
// The store's registry answers the calls that the two share.
//
// A store is 10 KB: what is marked inline is compiled into its callers, so that they don't copy one on the way.
ghost use Rattle.std.specs.Prelude.{◌≡◌, true, Err, is_some, IfSome};
ghost use Rattle.rules.specs.declared.Command.TheVariants.{Publish, Adopt, Acquire, Release, Revoke, Replace, Reclaim, Read, Observe, Resolve, Count};
ghost use Rattle.rules.specs.Limits.{box};
ghost use Rattle.rules.specs.Table.{empty_store};
ghost use Rattle.rules.specs.Columns.{used, filled};
ghost use Rattle.rules.specs.Sound.{StoreColumnsSound};
ghost use Rattle.rules.specs.SoundTest.{store_test};
ghost use Rattle.rules.proofs.Props.{store_prop};
ghost use Rattle.rules.specs.Rows.{step};
ghost use Rattle.rules.specs.Queries.{reply, contains_handle};
ghost use Rattle.rules.specs.Calls.{laid_out};
ghost use Rattle.registry.specs.Answers.{result_of};
ghost use Rattle.store.specs.Columns.{columns_of, store_of};
ghost use Rattle.store.specs.Answers.{contained_of, answered_of, returned_of};

use crate::{Contained, PublicationStore};
use columns::inner::{rows, search};
use columns::records;
use registry::PublicationRegistry;
use registry::inner::refused;
use rules::{
    Answered, Consumer, LeaseId, Observation, Owner, Port, Publication, PublicationId, Reading,
    Refusal, Rejected,
};

pub mod any;

#[tactic(auto, unfolding(lists::specs::Column::padded))]
fn empty(domain: Option<u64>) -> PublicationStore
    ensures { result ≡ store_of (filled box (empty_store domain)) }
{
    PublicationStore {
        registry: registry::inner::empty(domain),
        payloads: [0; 96],
        revisions: [0; 96],
    }
}

// The test for 9. No clause reads the domain.
#[inline(always)]
fn is_sound(store: PublicationStore) -> bool
    ensures test { result ≡ store_test box (columns_of store) }
    ensures sound { result ≡ true → StoreColumnsSound box (columns_of store) }
{
    columns::is_store_sound(
        store.registry.publications,
        store.registry.count,
        store.registry.leases,
        store.registry.active,
        store.registry.counter,
        store.payloads,
        store.revisions,
    )
}

// A store that is known to be sound.
#[derive(Clone, Copy)]
pub struct Sound {
    pub store: PublicationStore,
    pub ghost is: { StoreColumnsSound box (columns_of store) } by { store_prop box _ },
}

// A refusal with the offered handle back, and the store as it came.
pub fn rejected<A>(
    why: Refusal,
    handle: u64,
    store: PublicationStore,
) -> Answered<Result<A, Rejected>, PublicationStore>
    ensures { result ≡ record { answer = Err (record { why = why; handle = handle }); table = store } }
{
    refused(Rejected { why, handle }, store)
}

// What the registry's call answers, and the registry that it leaves beside the store's cells.
#[inline(always)]
fn beside_cells<A>(
    call: Answered<A, PublicationRegistry>,
    store: PublicationStore,
) -> Answered<A, PublicationStore>
    ensures { result ≡ record { answer = call.answer; table = record { registry = call.table; payloads = store.payloads; revisions = store.revisions } } }
{
    let Answered { answer, table } = call;
    let PublicationStore {
        payloads,
        revisions,
        ..
    } = store;
    Answered {
        answer,
        table: PublicationStore {
            registry: table,
            payloads,
            revisions,
        },
    }
}

impl Sound {
    // The empty store.
    pub fn empty(domain: Option<u64>) -> Sound
        ensures { result.store ≡ store_of (filled box (empty_store domain)) }
    {
        Sound {
            store: empty(domain),
        }
    }

    // The store, if it passes the test for 9.
    #[inline(always)]
    pub fn tested(store: PublicationStore) -> Option<Sound>
        ensures test { is_some result ≡ store_test box (columns_of store) }
        ensures same { IfSome result (λ s. s.store ≡ store) }
    {
        if is_sound(store) {
            return Some(Sound { store });
        }
        None
    }

    // Its registry is sound as well.
    #[inline(always)]
    #[tactic(auto, using(rules::proofs::Columns::registry_columns))]
    fn registry(self) -> registry::inner::Sound
        ensures { result.registry ≡ self.store.registry }
    {
        registry::inner::Sound {
            registry: self.store.registry,
        }
    }

    pub fn observation(self, id: PublicationId) -> Result<Observation, Refusal>
        ensures { result ≡ result_of (step box (used (columns_of self.store)) (Observe id)).answer }
    {
        let Some(e) = search::known(self.registry().publications(), id) else {
            return Err(Refusal::Absent);
        };
        if !e.retained {
            return Err(Refusal::Absent);
        }
        let i = id.0 as usize;
        Ok(Observation {
            revision: self.store.revisions[i],
            handle: self.store.payloads[i],
        })
    }

    pub fn leased_observation(self, lease: LeaseId) -> Result<Reading, Refusal>
        ensures { result ≡ result_of (step box (used (columns_of self.store)) (Read lease)).answer }
    {
        match rows::lease_lookup(self.registry().leases(), self.store.registry.counter, lease) {
            Err(why) => Err(why),
            Ok(i) => {
                let id = self.store.registry.leases[i].publication;
                let p = id.0 as usize;
                Ok(Reading {
                    id,
                    revision: self.store.revisions[p],
                    handle: self.store.payloads[p],
                })
            }
        }
    }

    pub fn resolve(self, port: Port) -> Result<PublicationId, Refusal>
        ensures { result ≡ result_of (step box (used (columns_of self.store)) (Resolve port)).answer }
    {
        self.registry().resolve(port)
    }

    pub fn retained_count(self) -> Result<u64, Refusal>
        ensures { result ≡ result_of (step box (used (columns_of self.store)) Count).answer }
    {
        let mut n: u64 = 0;
        for e in self.registry().publications() {
            if e.retained {
                n += 1;
            }
        }
        Ok(n)
    }

    pub fn contains_handle(self, handle: u64) -> Contained
        ensures { result ≡ contained_of (reply box (used (columns_of self.store)) (contains_handle handle)) }
    {
        for i in 0..self.store.registry.count {
            let e = self.store.registry.publications[i];
            if records::is_both(e.retained, self.store.payloads[i] == handle) {
                return Contained {
                    answer: Ok(()),
                    present: true,
                };
            }
        }
        Contained {
            answer: Ok(()),
            present: false,
        }
    }

    pub fn publish(
        self,
        owner: Owner,
        generation: u64,
        port: Port,
        payload: u64,
    ) -> Answered<Result<PublicationId, Rejected>, PublicationStore>
        ensures { result ≡ returned_of (laid_out box (step box (used (columns_of self.store)) (Publish owner generation port payload))) }
    {
        let mut store = self.store;
        let at = store.registry.count;
        match rows::publish_verdict(self.registry().publications(), port) {
            Err(why) => rejected(why, payload, store),
            Ok(()) => {
                store.registry.publications[at] = Publication {
                    owner,
                    generation,
                    port,
                    slot: at as u64,
                    visible: true,
                    retained: true,
                };
                store.registry.count = at + 1;
                store.payloads[at] = payload;
                store.revisions[at] = 0;
                Answered {
                    answer: Ok(PublicationId(at as u64)),
                    table: store,
                }
            }
        }
    }

    pub fn replace(
        self,
        id: PublicationId,
        owner: Owner,
        generation: u64,
        payload: u64,
    ) -> Answered<Result<u64, Rejected>, PublicationStore>
        ensures { result ≡ returned_of (laid_out box (step box (used (columns_of self.store)) (Replace id owner generation payload))) }
    {
        let mut store = self.store;
        let Some(e) = search::known(self.registry().publications(), id) else {
            return rejected(Refusal::Unknown, payload, store);
        };
        let i = id.0 as usize;
        let revision = store.revisions[i];
        match records::replace_verdict(e, revision, owner, generation) {
            Err(why) => rejected(why, payload, store),
            Ok(()) => {
                let earlier = store.payloads[i];
                store.payloads[i] = payload;
                store.revisions[i] = revision + 1;
                Answered {
                    answer: Ok(earlier),
                    table: store,
                }
            }
        }
    }

    pub fn revoke(self, id: PublicationId) -> Answered<Result<(), Refusal>, PublicationStore>
        ensures { result ≡ answered_of (laid_out box (step box (used (columns_of self.store)) (Revoke id))) }
    {
        beside_cells(self.registry().revoke(id), self.store)
    }

    // A lease for an owner in a generation.
    pub fn acquire_for(
        self,
        id: PublicationId,
        owner: Owner,
        generation: u64,
    ) -> Answered<Result<LeaseId, Refusal>, PublicationStore>
        ensures { result ≡ answered_of (laid_out box (step box (used (columns_of self.store)) (Acquire id owner generation))) }
    {
        let consumer = Some(Consumer { owner, generation });
        beside_cells(self.registry().acquire(id, consumer), self.store)
    }

    pub fn release(self, lease: LeaseId) -> Answered<Result<(), Refusal>, PublicationStore>
        ensures { result ≡ answered_of (laid_out box (step box (used (columns_of self.store)) (Release lease))) }
    {
        beside_cells(self.registry().release(lease), self.store)
    }

    // The generation becomes 1.
    pub fn adopt(
        self,
        id: PublicationId,
        owner: Owner,
        generation: u64,
    ) -> Answered<Result<(), Refusal>, PublicationStore>
        ensures { result ≡ answered_of (laid_out box (step box (used (columns_of self.store)) (Adopt id owner generation))) }
    {
        beside_cells(self.registry().adopt(id, owner, generation), self.store)
    }

    pub fn reclaim(self, id: PublicationId) -> Answered<Result<u64, Refusal>, PublicationStore>
        ensures { result ≡ answered_of (laid_out box (step box (used (columns_of self.store)) (Reclaim id))) }
    {
        let mut store = self.store;
        let registry = self.registry();
        match rows::reclaim_verdict(registry.publications(), registry.leases(), id) {
            Err(why) => refused(why, store),
            Ok(()) => {
                let i = id.0 as usize;
                let handle = store.payloads[i];
                store.registry.publications[i].retained = false;
                store.payloads[i] = 0;
                Answered {
                    answer: Ok(handle),
                    table: store,
                }
            }
        }
    }
}
