// The registry of publications and leases, by value on fixed arrays.
//
// Every call tests the registry first: one that isn't sound is answered BadTable, and a command gives it back exactly as it came.
// Any other refusal gives the registry back unchanged as well.
// The test stands at the head of each call. With the rest of a call in a closure, which one function takes, the check proves no call's contract.
//
// Nothing that an entry point reaches calls a function of the library: docs/DESIGN-PASS.md says why, and what stands in its place.
#![tactic(auto)]

ghost use Rattle.std.specs.Prelude.{◌≡◌, Some, None};
ghost use Rattle.rules.specs.Limits.{box};
ghost use Rattle.rules.specs.Table.{taken_by, empty_registry};
ghost use Rattle.rules.specs.Columns.{filled_registry};
ghost use Rattle.rules.specs.RegistryRows.{publish, can_adopt, adopt, check_lease_capacity, acquire, leased_slot, release, revoke, reclaim, resolve, entry, lease, domain, publication_records, lease_record_count, lease_allocation_count};
ghost use Rattle.rules.specs.Calls.{registry_call};
ghost use Rattle.registry.specs.Columns.{columns_of, registry_of};
ghost use Rattle.registry.specs.Answers.{result_of, answered_of};

use inner::Sound;
use rules::{Answered, Consumer, Lease, LeaseId, Owner, Port, Publication, PublicationId, Refusal};

pub mod inner;
mod soundness;

// Records past the counts are blank in a sound registry.
#[derive(Clone, Copy)]
pub struct PublicationRegistry {
    pub domain: Option<u64>,
    pub publications: [Publication; 96],
    pub count: usize,
    pub leases: [Lease; 128],
    pub active: usize,
    pub counter: u64,
}

#[tactic(auto, using(crate::proofs::Guard::guarded))]
impl PublicationRegistry {
    // The empty registry without domain: upstream's `Default::default`, whose contract is a theorem here.
    pub fn default() -> PublicationRegistry
        ensures { result ≡ registry_of (filled_registry box (empty_registry None)) }
    {
        inner::empty(None)
    }

    // The domain, or that there is none.
    pub fn domain(self) -> Result<Option<u64>, Refusal>
        ensures { result ≡ result_of (registry_call box (columns_of self) domain).answer }
    {
        let Some(sound) = Sound::tested(self) else {
            return Err(Refusal::BadTable);
        };
        inner::domain(sound.registry)
    }

    // The empty registry of a domain.
    pub fn for_domain(number: u64) -> PublicationRegistry
        ensures { result ≡ registry_of (filled_registry box (empty_registry (Some number))) }
    {
        inner::empty(Some(number))
    }

    // The empty registry without domain.
    pub fn new() -> PublicationRegistry
        ensures { result ≡ registry_of (filled_registry box (empty_registry None)) }
    {
        inner::empty(None)
    }

    // How many publications there are, reclaimed ones included.
    pub fn publication_records(self) -> Result<u64, Refusal>
        ensures { result ≡ result_of (registry_call box (columns_of self) publication_records).answer }
    {
        let Some(sound) = Sound::tested(self) else {
            return Err(Refusal::BadTable);
        };
        sound.publication_records()
    }

    // How many leases are active.
    pub fn lease_record_count(self) -> Result<u64, Refusal>
        ensures { result ≡ result_of (registry_call box (columns_of self) lease_record_count).answer }
    {
        let Some(sound) = Sound::tested(self) else {
            return Err(Refusal::BadTable);
        };
        sound.lease_record_count()
    }

    // How many leases were ever given out.
    pub fn lease_allocation_count(self) -> Result<u64, Refusal>
        ensures { result ≡ result_of (registry_call box (columns_of self) lease_allocation_count).answer }
    {
        let Some(sound) = Sound::tested(self) else {
            return Err(Refusal::BadTable);
        };
        inner::lease_allocation_count(sound.registry)
    }

    // A publication's record, also of a reclaimed one; Absent at or above the number of publications.
    pub fn entry(self, id: PublicationId) -> Result<Publication, Refusal>
        ensures { result ≡ result_of (registry_call box (columns_of self) (entry id)).answer }
    {
        let Some(sound) = Sound::tested(self) else {
            return Err(Refusal::BadTable);
        };
        sound.entry(id)
    }

    // An active lease's record; Absent for any other lease.
    pub fn lease(self, id: LeaseId) -> Result<Lease, Refusal>
        ensures { result ≡ result_of (registry_call box (columns_of self) (lease id)).answer }
    {
        let Some(sound) = Sound::tested(self) else {
            return Err(Refusal::BadTable);
        };
        sound.lease(id)
    }

    // The publication that is visible on a port; else Absent.
    pub fn resolve(self, port: Port) -> Result<PublicationId, Refusal>
        ensures { result ≡ result_of (registry_call box (columns_of self) (resolve port)).answer }
    {
        let Some(sound) = Sound::tested(self) else {
            return Err(Refusal::BadTable);
        };
        sound.resolve(port)
    }

    // A new publication, visible and retained, at the next identifier. Capacity at 96 records; Conflict where a visible
    // publication holds the port or a retained one the slot.
    pub fn publish(
        self,
        owner: Owner,
        generation: u64,
        port: Port,
        slot: u64,
    ) -> Answered<Result<PublicationId, Refusal>, PublicationRegistry>
        ensures { result ≡ answered_of (registry_call box (columns_of self) (publish owner generation port slot)) }
    {
        let Some(sound) = Sound::tested(self) else {
            return inner::refused(Refusal::BadTable, self);
        };
        sound.publish(owner, generation, port, slot)
    }

    // Answers as adopt would.
    pub fn can_adopt(self, id: PublicationId, owner: Owner, generation: u64) -> Result<(), Refusal>
        ensures { result ≡ result_of (registry_call box (columns_of self) (can_adopt id owner generation)).answer }
    {
        let Some(sound) = Sound::tested(self) else {
            return Err(Refusal::BadTable);
        };
        sound.can_adopt(id, owner, generation)
    }

    // The generation becomes 1. Unknown; Released if reclaimed; InvalidState if the owner differs, the stored generation isn't 0
    // or the new one isn't 1; Relied while a lease is active.
    pub fn adopt(
        self,
        id: PublicationId,
        owner: Owner,
        generation: u64,
    ) -> Answered<Result<(), Refusal>, PublicationRegistry>
        ensures { result ≡ answered_of (registry_call box (columns_of self) (adopt id owner generation)) }
    {
        let Some(sound) = Sound::tested(self) else {
            return inner::refused(Refusal::BadTable, self);
        };
        sound.adopt(id, owner, generation)
    }

    // Whether as many leases more can be given out; else Capacity.
    pub fn check_lease_capacity(self, count: u64) -> Result<(), Refusal>
        ensures { result ≡ result_of (registry_call box (columns_of self) (check_lease_capacity count)).answer }
    {
        let Some(sound) = Sound::tested(self) else {
            return Err(Refusal::BadTable);
        };
        sound.check_lease_capacity(count)
    }

    // A lease for nobody by name. Unknown; Revoked if not visible; Capacity at 128 active leases or the counter's end.
    pub fn acquire(
        self,
        id: PublicationId,
    ) -> Answered<Result<LeaseId, Refusal>, PublicationRegistry>
        ensures { result ≡ answered_of (registry_call box (columns_of self) (acquire id None)) }
    {
        let Some(sound) = Sound::tested(self) else {
            return inner::refused(Refusal::BadTable, self);
        };
        sound.acquire(id, None)
    }

    // The same for an owner in a generation.
    pub fn acquire_for(
        self,
        id: PublicationId,
        owner: Owner,
        generation: u64,
    ) -> Answered<Result<LeaseId, Refusal>, PublicationRegistry>
        ensures { result ≡ answered_of (registry_call box (columns_of self) (acquire id (taken_by owner generation))) }
    {
        let Some(sound) = Sound::tested(self) else {
            return inner::refused(Refusal::BadTable, self);
        };
        sound.acquire(id, Some(Consumer { owner, generation }))
    }

    // The slot of the publication that a lease names, also once it is revoked. Unknown if never given out; Released if not active.
    pub fn leased_slot(self, lease: LeaseId) -> Result<u64, Refusal>
        ensures { result ≡ result_of (registry_call box (columns_of self) (leased_slot lease)).answer }
    {
        let Some(sound) = Sound::tested(self) else {
            return Err(Refusal::BadTable);
        };
        sound.leased_slot(lease)
    }

    // The lease ends: its record is out, and later ones move up. Unknown if never given out; Released if not active.
    pub fn release(self, lease: LeaseId) -> Answered<Result<(), Refusal>, PublicationRegistry>
        ensures { result ≡ answered_of (registry_call box (columns_of self) (release lease)) }
    {
        let Some(sound) = Sound::tested(self) else {
            return inner::refused(Refusal::BadTable, self);
        };
        sound.release(lease)
    }

    // No longer visible; repeating it is allowed, on reclaimed ones too. Unknown.
    pub fn revoke(self, id: PublicationId) -> Answered<Result<(), Refusal>, PublicationRegistry>
        ensures { result ≡ answered_of (registry_call box (columns_of self) (revoke id)) }
    {
        let Some(sound) = Sound::tested(self) else {
            return inner::refused(Refusal::BadTable, self);
        };
        sound.revoke(id)
    }

    // No longer retained; the slot comes back. Unknown; Visible; Released if reclaimed before; Relied while a lease is active.
    pub fn reclaim(self, id: PublicationId) -> Answered<Result<u64, Refusal>, PublicationRegistry>
        ensures { result ≡ answered_of (registry_call box (columns_of self) (reclaim id)) }
    {
        let Some(sound) = Sound::tested(self) else {
            return inner::refused(Refusal::BadTable, self);
        };
        sound.reclaim(id)
    }
}
