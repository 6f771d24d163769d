// What code reads of the columns of a table: the test for 9 and, in `inner`, searches and the verdict of each row. The registry and
// the store both build on it.
//
// There is no table here: a search or a verdict takes the records in use that it reads, the test for 9 all columns, as they stand in
// fixed arrays, with the numbers of records in use.
//
// Nothing that an entry point reaches calls a function of the library: docs/DESIGN-PASS.md says why, and what stands in its place.
#![tactic(auto)]

ghost use Rattle.std.specs.Prelude.{◌≡◌};
ghost use Rattle.rules.specs.Limits.{box};
ghost use Rattle.rules.specs.SoundTest.{registry_test, store_test};
ghost use Rattle.columns.specs.Columns.{columns_of, store_columns_of};

use inner::search;
use rules::{Lease, Publication};

pub mod inner;
pub mod records;

// Whether a registry is sound. The columns come whole, with the numbers in use, since a sound one is blank past them. A port or a slot is looked up among the earlier records only where its mark is set.
pub fn is_sound(
    publications: [Publication; 96],
    count: usize,
    leases: [Lease; 128],
    active: usize,
    counter: u64,
) -> bool
    ensures { result ≡ registry_test box (columns_of publications count leases active counter) }
{
    if 96 < count {
        return false;
    }
    if 128 < active {
        return false;
    }
    if counter < active as u64 {
        return false;
    }
    let mut ports = [false; 1024];
    let mut slots = [false; 1024];
    for i in 0..count {
        let e = publications[i];
        if !records::is_kept(e) {
            return false;
        }
        let port = e.port;
        let at_port = records::mark_of(port.0 as u64);
        let port_mark = ports[at_port];
        if records::is_both(port_mark, e.visible) {
            if let Some(_) = search::port_place(&publications[..i], port) {
                return false;
            }
        }
        ports[at_port] = records::is_either(e.visible, port_mark);
        let slot = e.slot;
        let at_slot = records::mark_of(slot);
        let slot_mark = slots[at_slot];
        if records::is_both(slot_mark, e.retained) {
            if let Some(_) = search::slot_place(&publications[..i], slot) {
                return false;
            }
        }
        slots[at_slot] = records::is_either(e.retained, slot_mark);
    }
    let mut least: u64 = 0;
    for l in &leases[..active] {
        if !records::is_in_order(*l, least, counter) {
            return false;
        }
        let p = l.publication.0 as usize;
        if 96 <= p {
            return false;
        }
        if !publications[p].retained {
            return false;
        }
        least = l.id.0 + 1;
    }
    for e in &publications[count..] {
        if !records::is_blank_record(*e) {
            return false;
        }
    }
    for l in &leases[active..] {
        if !records::is_blank_lease(*l) {
            return false;
        }
    }
    true
}

// Whether a store is sound: its registry is, each cell in use belongs to its record, and every other cell is blank.
pub fn is_store_sound(
    publications: [Publication; 96],
    count: usize,
    leases: [Lease; 128],
    active: usize,
    counter: u64,
    payloads: [u64; 96],
    revisions: [u64; 96],
) -> bool
    ensures { result ≡ store_test box (store_columns_of publications count leases active counter payloads revisions) }
{
    if !is_sound(publications, count, leases, active, counter) {
        return false;
    }
    for i in 0..count {
        if !records::is_own_cell(publications[i], i as u64, payloads[i]) {
            return false;
        }
    }
    for b in count..96 {
        if !records::is_blank_cell(payloads[b], revisions[b]) {
            return false;
        }
    }
    true
}
