// The day of one handle, through the store's public calls: a box publishes a key's place, two readers take leases, the key is replaced, the
// wipe job revokes it and waits until both leases are back, and the reclaim hands over the handle to erase. Each answer is printed with its
// number and name. Then a damaged store and a damaged registry are handed to every public call, and each answers 9.
#![tactic(auto)]

mod shown;

use registry::PublicationRegistry;
use rules::{Command, LeaseId, Owner, Port, PublicationId};
use shown::{Count, Handle, Slot, show, show_left, show_response, value};
use std::io;
use store::PublicationStore;

// The publication of the day, who offers its handle, and the port that it is looked up at.
const ID: PublicationId = PublicationId(0);

const BOX: Owner = Owner(4);

const PORT: Port = Port(7);

// A wipe that has to wait for two leases.
fn one_day(rt: &impl Print) -> io::Result<()> {
    let store = PublicationStore::new();
    let store = show_left(rt, "publish", store.publish(BOX, 0, PORT, 900))?;
    let store = show_left(rt, "acquire_for", store.acquire_for(ID, Owner(5), 1))?;
    let store = show_left(rt, "acquire_for", store.acquire_for(ID, Owner(6), 1))?;
    show(rt, "resolve", store.resolve(PORT))?;
    show(
        rt,
        "leased_observation",
        store.leased_observation(LeaseId(0)),
    )?;
    let store = replace(rt, store, 901)?;
    show(
        rt,
        "leased_observation",
        store.leased_observation(LeaseId(1)),
    )?;
    wipe(rt, store)
}

// The wipe: revoked, reclaimed too early, drained, reclaimed.
fn wipe(rt: &impl Print, store: PublicationStore) -> io::Result<()> {
    let store = show_left(rt, "revoke", store.revoke(ID))?;
    show(rt, "resolve", store.resolve(PORT))?;
    let store = reclaim(rt, store)?;
    let store = show_left(rt, "release", store.release(LeaseId(0)))?;
    let store = reclaim(rt, store)?;
    let store = show_left(rt, "release", store.release(LeaseId(1)))?;
    let store = reclaim(rt, store)?;
    let store = reclaim(rt, store)?;
    show(rt, "retained_count", store.retained_count().map(Count))
}

fn replace(rt: &impl Print, store: PublicationStore, handle: u64) -> io::Result<PublicationStore> {
    let replaced = store.replace(ID, BOX, 0, handle);
    show(rt, "replace", replaced.answer.map(Handle))?;
    Ok(replaced.table)
}

fn reclaim(rt: &impl Print, store: PublicationStore) -> io::Result<PublicationStore> {
    let reclaimed = store.reclaim(ID);
    show(rt, "reclaim", reclaimed.answer.map(Handle))?;
    Ok(reclaimed.table)
}

// A store with a handle in a cell that is not in use, handed to every public call: first the commands.
fn damaged_commands(rt: &impl Print, damaged: PublicationStore) -> io::Result<()> {
    let store = show_left(rt, "publish", damaged.publish(BOX, 0, PORT, 970))?;
    value(rt, "payload in the last cell", store.payloads[95])?;
    replace(rt, damaged, 971)?;
    show(rt, "revoke", damaged.revoke(ID).answer)?;
    show(
        rt,
        "acquire_for",
        damaged.acquire_for(ID, Owner(5), 1).answer,
    )?;
    show(rt, "adopt", damaged.adopt(ID, BOX, 1).answer)?;
    show(rt, "release", damaged.release(LeaseId(0)).answer)?;
    reclaim(rt, damaged)?;
    show_response(rt, "apply", damaged.apply(Command::Count).answer)
}

// .. then the queries.
fn damaged_queries(rt: &impl Print, damaged: PublicationStore) -> io::Result<()> {
    show(rt, "registry", damaged.registry().answer)?;
    show(rt, "value", damaged.value(ID).map(Handle))?;
    show(rt, "observation", damaged.observation(ID))?;
    show(rt, "leased_value", damaged.leased_value(LeaseId(0)))?;
    show(
        rt,
        "leased_observation",
        damaged.leased_observation(LeaseId(0)),
    )?;
    show(rt, "retained_count", damaged.retained_count().map(Count))?;
    let contained = damaged.contains_handle(900);
    show(rt, "contains_handle", contained.answer)?;
    println!(rt; "  {}", if contained.present { "yes" } else { "no" })?;
    show(rt, "resolve", damaged.resolve(PORT))
}

// A registry whose counter is below its active leases, handed to every public call: the queries ..
fn damaged_registry_queries(rt: &impl Print, damaged: PublicationRegistry) -> io::Result<()> {
    show(rt, "domain", damaged.domain().map(|_| ()))?;
    show(
        rt,
        "publication_records",
        damaged.publication_records().map(Count),
    )?;
    show(
        rt,
        "lease_record_count",
        damaged.lease_record_count().map(Count),
    )?;
    show(
        rt,
        "lease_allocation_count",
        damaged.lease_allocation_count().map(Count),
    )?;
    show(rt, "entry", damaged.entry(ID).map(|_| ()))?;
    show(rt, "lease", damaged.lease(LeaseId(0)).map(|_| ()))?;
    show(rt, "resolve", damaged.resolve(PORT))?;
    show(rt, "can_adopt", damaged.can_adopt(ID, BOX, 1))?;
    show(rt, "check_lease_capacity", damaged.check_lease_capacity(1))?;
    show(rt, "leased_slot", damaged.leased_slot(LeaseId(0)).map(Slot))
}

// .. and the commands.
fn damaged_registry_commands(rt: &impl Print, damaged: PublicationRegistry) -> io::Result<()> {
    show(rt, "publish", damaged.publish(BOX, 0, PORT, 0).answer)?;
    show(rt, "adopt", damaged.adopt(ID, BOX, 1).answer)?;
    show(rt, "acquire", damaged.acquire(ID).answer)?;
    show(
        rt,
        "acquire_for",
        damaged.acquire_for(ID, Owner(5), 1).answer,
    )?;
    show(rt, "release", damaged.release(LeaseId(0)).answer)?;
    show(rt, "revoke", damaged.revoke(ID).answer)?;
    let reclaimed = damaged.reclaim(ID);
    show(rt, "reclaim", reclaimed.answer.map(Slot))?;
    value(rt, "active leases", reclaimed.table.active as u64)
}

fn main(rt: HostRuntime) -> io::Result<()> {
    one_day(&rt)?;
    println!(rt; "a damaged store")?;
    let mut damaged = PublicationStore::new();
    damaged.payloads[95] = 900;
    damaged_commands(&rt, damaged)?;
    damaged_queries(&rt, damaged)?;
    println!(rt; "a damaged registry")?;
    let mut registry = PublicationRegistry::new();
    registry.active = 1;
    damaged_registry_queries(&rt, registry)?;
    damaged_registry_commands(&rt, registry)
}
