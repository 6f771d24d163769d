// The calls on a registry that is known to be sound: no entry points, but what a crate above builds on.
//
// A registry is 9 KB: what is marked inline is compiled into its callers, so that they don't copy one on the way.
ghost use Rattle.std.specs.Prelude.{◌≡◌, true, Err, is_some, IfSome, take};
ghost use Rattle.rules.specs.Limits.{box};
ghost use Rattle.rules.specs.Table.{empty_registry};
ghost use Rattle.rules.specs.Columns.{used_registry, filled_registry};
ghost use Rattle.rules.specs.SoundTest.{registry_test};
ghost use Rattle.rules.specs.Sound.{RegistryColumnsSound};
ghost use Rattle.rules.proofs.Props.{registry_prop};
ghost use Rattle.rules.specs.RegistryRows.{registry_step, publish, can_adopt, adopt, check_lease_capacity, acquire, leased_slot, release, revoke, reclaim, resolve, entry, lease, domain, publication_records, lease_record_count, lease_allocation_count};
ghost use Rattle.rules.specs.Calls.{laid_out_registry};
ghost use Rattle.registry.specs.Columns.{columns_of, registry_of};
ghost use Rattle.registry.specs.Answers.{result_of, answered_of};

use crate::{PublicationRegistry, soundness};
use columns::inner::{close_up, rows, search};
use columns::records;
use rules::{Answered, Consumer, Lease, LeaseId, Owner, Port, Publication, PublicationId, Refusal};

#[tactic(auto, unfolding(lists::specs::Column::padded))]
pub fn empty(domain: Option<u64>) -> PublicationRegistry
    ensures { result ≡ registry_of (filled_registry box (empty_registry domain)) }
{
    PublicationRegistry {
        domain,
        publications: [records::blank_publication(); 96],
        count: 0,
        leases: [records::blank_lease(); 128],
        active: 0,
        counter: 0,
    }
}

// A registry that is known to be sound.
#[derive(Clone, Copy)]
pub struct Sound {
    pub registry: PublicationRegistry,
    pub ghost is: { RegistryColumnsSound box (columns_of registry) } by { registry_prop box _ },
}

// A refusal, and the table as it came.
pub fn refused<A, E, T>(why: E, table: T) -> Answered<Result<A, E>, T>
    ensures { result ≡ record { answer = Err why; table = table } }
{
    Answered {
        answer: Err(why),
        table,
    }
}

// These two ask nothing of the registry.

#[tactic(auto, unfolding(rules::specs::RegistryRows::registry_step))]
pub fn domain(registry: PublicationRegistry) -> Result<Option<u64>, Refusal>
    ensures { result ≡ result_of (registry_step box (used_registry (columns_of registry)) domain).answer }
{
    Ok(registry.domain)
}

#[tactic(auto, unfolding(rules::specs::RegistryRows::registry_step))]
pub fn lease_allocation_count(registry: PublicationRegistry) -> Result<u64, Refusal>
    ensures { result ≡ result_of (registry_step box (used_registry (columns_of registry)) lease_allocation_count).answer }
{
    Ok(registry.counter)
}

impl Sound {
    // The registry, if it passes the test for 9.
    #[inline(always)]
    pub fn tested(registry: PublicationRegistry) -> Option<Sound>
        ensures test { is_some result ≡ registry_test box (columns_of registry) }
        ensures same { IfSome result (λ s. s.registry ≡ registry) }
    {
        if soundness::is_sound(registry) {
            return Some(Sound { registry });
        }
        None
    }

    // The publications that were given out.
    #[inline(always)]
    pub fn publications(&self) -> &[Publication]
        ensures { result.now ≡ take self.now.registry.count self.now.registry.publications }
    {
        &self.registry.publications[..self.registry.count]
    }

    // The leases that are active.
    #[inline(always)]
    pub fn leases(&self) -> &[Lease]
        ensures { result.now ≡ take self.now.registry.active self.now.registry.leases }
    {
        &self.registry.leases[..self.registry.active]
    }

    #[tactic(auto, using(rules::proofs::Columns::count_used), unfolding(rules::specs::RegistryRows::registry_step))]
    pub fn publication_records(self) -> Result<u64, Refusal>
        ensures { result ≡ result_of (registry_step box (used_registry (columns_of self.registry)) publication_records).answer }
    {
        Ok(self.registry.count as u64)
    }

    #[tactic(auto, using(rules::proofs::Columns::active_used), unfolding(rules::specs::RegistryRows::registry_step))]
    pub fn lease_record_count(self) -> Result<u64, Refusal>
        ensures { result ≡ result_of (registry_step box (used_registry (columns_of self.registry)) lease_record_count).answer }
    {
        Ok(self.registry.active as u64)
    }

    pub fn entry(self, id: PublicationId) -> Result<Publication, Refusal>
        ensures { result ≡ result_of (registry_step box (used_registry (columns_of self.registry)) (entry id)).answer }
    {
        match search::known(self.publications(), id) {
            None => Err(Refusal::Absent),
            Some(e) => Ok(e),
        }
    }

    pub fn lease(self, id: LeaseId) -> Result<Lease, Refusal>
        ensures { result ≡ result_of (registry_step box (used_registry (columns_of self.registry)) (lease id)).answer }
    {
        match search::lease_place(self.leases(), id) {
            None => Err(Refusal::Absent),
            Some(i) => Ok(self.registry.leases[i]),
        }
    }

    pub fn resolve(self, port: Port) -> Result<PublicationId, Refusal>
        ensures { result ≡ result_of (registry_step box (used_registry (columns_of self.registry)) (resolve port)).answer }
    {
        match search::port_place(self.publications(), port) {
            None => Err(Refusal::Absent),
            Some(i) => Ok(PublicationId(i as u64)),
        }
    }

    pub fn publish(
        self,
        owner: Owner,
        generation: u64,
        port: Port,
        slot: u64,
    ) -> Answered<Result<PublicationId, Refusal>, PublicationRegistry>
        ensures { result ≡ answered_of (laid_out_registry box (registry_step box (used_registry (columns_of self.registry)) (publish owner generation port slot))) }
    {
        let mut registry = self.registry;
        let at = registry.count;
        match rows::slot_publish_verdict(self.publications(), port, slot) {
            Err(why) => refused(why, registry),
            Ok(()) => {
                registry.publications[at] = Publication {
                    owner,
                    generation,
                    port,
                    slot,
                    visible: true,
                    retained: true,
                };
                registry.count = at + 1;
                Answered {
                    answer: Ok(PublicationId(at as u64)),
                    table: registry,
                }
            }
        }
    }

    #[tactic(auto, using(crate::proofs::Leases::can_adopt_told))]
    pub fn can_adopt(self, id: PublicationId, owner: Owner, generation: u64) -> Result<(), Refusal>
        ensures { result ≡ result_of (registry_step box (used_registry (columns_of self.registry)) (can_adopt id owner generation)).answer }
    {
        rows::adopt_verdict(self.publications(), self.leases(), id, owner, generation)
    }

    pub fn adopt(
        self,
        id: PublicationId,
        owner: Owner,
        generation: u64,
    ) -> Answered<Result<(), Refusal>, PublicationRegistry>
        ensures { result ≡ answered_of (laid_out_registry box (registry_step box (used_registry (columns_of self.registry)) (adopt id owner generation))) }
    {
        let mut registry = self.registry;
        let answer = rows::adopt_verdict(self.publications(), self.leases(), id, owner, generation);
        if let Ok(()) = answer {
            registry.publications[id.0 as usize].generation = 1;
        }
        Answered {
            answer,
            table: registry,
        }
    }

    pub fn check_lease_capacity(self, count: u64) -> Result<(), Refusal>
        ensures { result ≡ result_of (registry_step box (used_registry (columns_of self.registry)) (check_lease_capacity count)).answer }
    {
        rows::capacity_verdict(self.registry.active, self.registry.counter, count)
    }

    pub fn acquire(
        self,
        id: PublicationId,
        consumer: Option<Consumer>,
    ) -> Answered<Result<LeaseId, Refusal>, PublicationRegistry>
        ensures { result ≡ answered_of (laid_out_registry box (registry_step box (used_registry (columns_of self.registry)) (acquire id consumer))) }
    {
        let mut registry = self.registry;
        let at = registry.active;
        let counter = registry.counter;
        match rows::acquire_verdict(self.publications(), at, counter, id) {
            Err(why) => refused(why, registry),
            Ok(()) => {
                registry.leases[at] = Lease {
                    id: LeaseId(counter),
                    publication: id,
                    consumer,
                };
                registry.active = at + 1;
                registry.counter = counter + 1;
                Answered {
                    answer: Ok(LeaseId(counter)),
                    table: registry,
                }
            }
        }
    }

    pub fn leased_slot(self, lease: LeaseId) -> Result<u64, Refusal>
        ensures { result ≡ result_of (registry_step box (used_registry (columns_of self.registry)) (leased_slot lease)).answer }
    {
        match rows::lease_lookup(self.leases(), self.registry.counter, lease) {
            Err(why) => Err(why),
            Ok(i) => {
                let id = self.registry.leases[i].publication;
                Ok(self.registry.publications[id.0 as usize].slot)
            }
        }
    }

    pub fn release(self, lease: LeaseId) -> Answered<Result<(), Refusal>, PublicationRegistry>
        ensures { result ≡ answered_of (laid_out_registry box (registry_step box (used_registry (columns_of self.registry)) (release lease))) }
    {
        let mut registry = self.registry;
        let n = registry.active;
        match rows::lease_lookup(self.leases(), registry.counter, lease) {
            Err(why) => refused(why, registry),
            Ok(i) => {
                registry.leases = close_up(registry.leases, n, i);
                registry.active = n - 1;
                Answered {
                    answer: Ok(()),
                    table: registry,
                }
            }
        }
    }

    pub fn revoke(self, id: PublicationId) -> Answered<Result<(), Refusal>, PublicationRegistry>
        ensures { result ≡ answered_of (laid_out_registry box (registry_step box (used_registry (columns_of self.registry)) (revoke id))) }
    {
        let mut registry = self.registry;
        let answer = rows::revoke_verdict(registry.count, id);
        if let Ok(()) = answer {
            registry.publications[id.0 as usize].visible = false;
        }
        Answered {
            answer,
            table: registry,
        }
    }

    pub fn reclaim(self, id: PublicationId) -> Answered<Result<u64, Refusal>, PublicationRegistry>
        ensures { result ≡ answered_of (laid_out_registry box (registry_step box (used_registry (columns_of self.registry)) (reclaim id))) }
    {
        let mut registry = self.registry;
        match rows::reclaim_verdict(self.publications(), self.leases(), id) {
            Err(why) => refused(why, registry),
            Ok(()) => {
                let i = id.0 as usize;
                let slot = registry.publications[i].slot;
                registry.publications[i].retained = false;
                Answered {
                    answer: Ok(slot),
                    table: registry,
                }
            }
        }
    }
}
