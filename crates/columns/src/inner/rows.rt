// What the tests of each row come to, on the records in use that the row reads.
ghost use Rattle.std.specs.Prelude.{◌≡◌, List, [], ◌∷◌, length};
ghost use Rattle.rules.specs.declared.Lease.{Lease};
ghost use Rattle.rules.specs.declared.Publication.{Publication};
ghost use Rattle.lists.specs.Search.{first_place};
ghost use Rattle.rules.specs.declared.Refusal.TheVariants.{Relied};
ghost use Rattle.rules.specs.Limits.{box};
ghost use Rattle.rules.specs.Sound.{Rising};
ghost use Rattle.rules.specs.Answers.{verdict, ◌⇒◌};
ghost use Rattle.rules.specs.Conditions.{is_lease, leased};
ghost use Rattle.rules.specs.Rows.{publish_row, adopt_row, acquire_row, lease_row, revoke_row, reclaim_row};
ghost use Rattle.rules.specs.RegistryRows.{slot_publish_row, lease_capacity};
ghost use Rattle.columns.specs.Columns.{table_of};
ghost use Rattle.columns.specs.Verdicts.{verdict_of, lookup_of};

use super::search;
use crate::records;
use rules::{Lease, LeaseId, Owner, Port, Publication, PublicationId, Refusal};

// The store's publish: 7, 3.
pub fn publish_verdict(publications: &[Publication], port: Port) -> Result<(), Refusal>
    ensures { result ≡ verdict_of (verdict (publish_row box (table_of publications.now [] 0) port)) }
{
    if 96 <= publications.len() {
        return Err(Refusal::Capacity);
    }
    match search::port_place(publications, port) {
        None => Ok(()),
        Some(_) => Err(Refusal::Conflict),
    }
}

// The registry's publish: 7, 3, of the slot as well.
pub fn slot_publish_verdict(
    publications: &[Publication],
    port: Port,
    slot: u64,
) -> Result<(), Refusal>
    ensures { result ≡ verdict_of (verdict (slot_publish_row box (table_of publications.now [] 0) port slot)) }
{
    match publish_verdict(publications, port) {
        Err(r) => Err(r),
        Ok(()) => match search::slot_place(publications, slot) {
            None => Ok(()),
            Some(_) => Err(Refusal::Conflict),
        },
    }
}

// The last test of adopt and reclaim: 4.
pub fn reliance_verdict(leases: &[Lease], id: PublicationId) -> Result<(), Refusal>
    ensures { result ≡ verdict_of (verdict ((leased (table_of [] leases.now 0) id ⇒ Relied) ∷ [])) }
{
    match search::reliance_place(leases, id) {
        None => Ok(()),
        Some(_) => Err(Refusal::Relied),
    }
}

// adopt: 1, 6, 8, 4.
pub fn adopt_verdict(
    publications: &[Publication],
    leases: &[Lease],
    id: PublicationId,
    owner: Owner,
    generation: u64,
) -> Result<(), Refusal>
    ensures { result ≡ verdict_of (verdict (adopt_row box (table_of publications.now leases.now 0) id owner generation)) }
{
    let Some(e) = search::known(publications, id) else {
        return Err(Refusal::Unknown);
    };
    match records::adopt_verdict(e, owner, generation) {
        Err(r) => Err(r),
        Ok(()) => reliance_verdict(leases, id),
    }
}

// acquire, whatever the active leases are: 1, 2, 7.
pub fn acquire_verdict(
    publications: &[Publication],
    active: usize,
    counter: u64,
    id: PublicationId,
) -> Result<(), Refusal>
    ensures { (leases : List Lease) → length leases ≡ active → result ≡ verdict_of (verdict (acquire_row box (table_of publications.now leases counter) id)) }
{
    let Some(e) = search::known(publications, id) else {
        return Err(Refusal::Unknown);
    };
    records::acquire_verdict(e, active, counter)
}

// A lease that is released or read: 1, 6.
pub fn lease_lookup(leases: &[Lease], counter: u64, lease: LeaseId) -> Result<usize, Refusal>
    requires { Rising leases.now }
    ensures { result ≡ lookup_of (verdict (lease_row box (table_of [] leases.now counter) lease)) (first_place (is_lease lease) leases.now) }
{
    if counter <= lease.0 {
        return Err(Refusal::Unknown);
    }
    match search::lease_place(leases, lease) {
        None => Err(Refusal::Released),
        Some(i) => Ok(i),
    }
}

// revoke, whatever the publications are: 1.
pub fn revoke_verdict(count: usize, id: PublicationId) -> Result<(), Refusal>
    ensures { (publications : List Publication) → length publications ≡ count → result ≡ verdict_of (verdict (revoke_row box (table_of publications [] 0) id)) }
{
    if count as u64 <= id.0 {
        return Err(Refusal::Unknown);
    }
    Ok(())
}

// reclaim: 1, 5, 6, 4.
pub fn reclaim_verdict(
    publications: &[Publication],
    leases: &[Lease],
    id: PublicationId,
) -> Result<(), Refusal>
    ensures { result ≡ verdict_of (verdict (reclaim_row box (table_of publications.now leases.now 0) id)) }
{
    let Some(e) = search::known(publications, id) else {
        return Err(Refusal::Unknown);
    };
    match records::reclaim_verdict(e) {
        Err(r) => Err(r),
        Ok(()) => reliance_verdict(leases, id),
    }
}

// As many leases more as are asked for, whatever the leases are: 7.
pub fn capacity_verdict(active: usize, counter: u64, count: u64) -> Result<(), Refusal>
    ensures { (leases : List Lease) → length leases ≡ active → result ≡ verdict_of (verdict (lease_capacity box (table_of [] leases counter) count)) }
{
    if u64::MAX - counter < count {
        return Err(Refusal::Capacity);
    }
    if 128 < count {
        return Err(Refusal::Capacity);
    }
    if 128 - count < active as u64 {
        return Err(Refusal::Capacity);
    }
    Ok(())
}
