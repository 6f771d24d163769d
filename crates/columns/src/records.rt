// Small decisions on one record. Numbers are compared, not records: a derived comparison calls the library.
ghost use Rattle.std.specs.Prelude.{◌≡◌, List, [], ◌∷◌, ◌&&◌, ◌||◌, ◌%◌, leb, ltb, eqb, length};
ghost use Rattle.rules.specs.declared.Lease.{Lease};
ghost use Rattle.lists.specs.Every.{every, implies};
ghost use Rattle.rules.specs.Limits.{box};
ghost use Rattle.rules.specs.SoundTest.{nobody, is_blank, is_blank_lease};
ghost use Rattle.rules.specs.Table.{blank_publication, blank_lease};
ghost use Rattle.rules.specs.Answers.{verdict};
ghost use Rattle.rules.specs.Conditions.{visible_on, retained_in, owned_by, is_lease, names};
ghost use Rattle.rules.specs.Rows.{adopt_row, acquire_row, reclaim_row, replace_row};
ghost use Rattle.columns.specs.Columns.{alone, alone_in_store, first};
ghost use Rattle.columns.specs.Verdicts.{verdict_of};

use rules::{Consumer, Lease, LeaseId, Owner, Port, Publication, PublicationId, Refusal};

pub fn holds_port(e: Publication, port: Port) -> bool
    ensures { result ≡ visible_on port e }
{
    e.visible && e.port.0 == port.0
}

pub fn holds_slot(e: Publication, slot: u64) -> bool
    ensures { result ≡ retained_in slot e }
{
    e.retained && e.slot == slot
}

pub fn is_owned_by(e: Publication, owner: Owner, generation: u64) -> bool
    ensures { result ≡ owned_by owner generation e }
{
    e.owner.0 == owner.0 && e.generation == generation
}

// From generation 0 to 1, by the same owner.
pub fn may_adopt(e: Publication, owner: Owner, generation: u64) -> bool
    ensures { result ≡ (owned_by owner 0 e && eqb generation 1) }
{
    is_owned_by(e, owner, 0) && generation == 1
}

// A record that is known and relied on by nobody: 6, 8.
pub fn adopt_verdict(e: Publication, owner: Owner, generation: u64) -> Result<(), Refusal>
    ensures { result ≡ verdict_of (verdict (adopt_row box (alone e [] 0) first owner generation)) }
{
    if !e.retained {
        return Err(Refusal::Released);
    }
    if !may_adopt(e, owner, generation) {
        return Err(Refusal::InvalidState);
    }
    Ok(())
}

// A record that is known, whatever the leases are: 2, 7.
pub fn acquire_verdict(e: Publication, active: usize, counter: u64) -> Result<(), Refusal>
    ensures { (leases : List Lease) → length leases ≡ active → result ≡ verdict_of (verdict (acquire_row box (alone e leases counter) first)) }
{
    if !e.visible {
        return Err(Refusal::Revoked);
    }
    if u64::MAX <= counter {
        return Err(Refusal::Capacity);
    }
    if 128 <= active {
        return Err(Refusal::Capacity);
    }
    Ok(())
}

// A record that is known and relied on by nobody: 5, 6.
pub fn reclaim_verdict(e: Publication) -> Result<(), Refusal>
    ensures { result ≡ verdict_of (verdict (reclaim_row box (alone e [] 0) first)) }
{
    if e.visible {
        return Err(Refusal::Visible);
    }
    if !e.retained {
        return Err(Refusal::Released);
    }
    Ok(())
}

// A record that is known, with its revision: 8, 2, 7.
pub fn replace_verdict(
    e: Publication,
    revision: u64,
    owner: Owner,
    generation: u64,
) -> Result<(), Refusal>
    ensures { result ≡ verdict_of (verdict (replace_row box (alone_in_store e revision) first owner generation)) }
{
    if !is_owned_by(e, owner, generation) {
        return Err(Refusal::InvalidState);
    }
    if !e.visible {
        return Err(Refusal::Revoked);
    }
    if u64::MAX <= revision {
        return Err(Refusal::Capacity);
    }
    Ok(())
}

pub fn has_id(l: Lease, lease: LeaseId) -> bool
    ensures { result ≡ is_lease lease l }
{
    l.id.0 == lease.0
}

pub fn names_publication(l: Lease, id: PublicationId) -> bool
    ensures { result ≡ names id l }
{
    l.publication.0 == id.0
}

pub fn blank_publication() -> Publication
    ensures { result ≡ blank_publication }
{
    Publication {
        owner: Owner(0),
        generation: 0,
        port: Port(0),
        slot: 0,
        visible: false,
        retained: false,
    }
}

pub fn blank_lease() -> Lease
    ensures { result ≡ blank_lease }
{
    Lease {
        id: LeaseId(0),
        publication: PublicationId(0),
        consumer: None,
    }
}

// A visible record is retained.
pub fn is_kept(e: Publication) -> bool
    ensures { result ≡ implies e.visible e.retained }
{
    !e.visible || e.retained
}

// The place of a number's mark.
pub fn mark_of(n: u64) -> usize
    ensures { result ≡ n % 1024 }
{
    (n % 1024) as usize
}

// Two facts joined, as the clauses join them.
pub fn is_both(a: bool, b: bool) -> bool
    ensures { result ≡ (a && b) }
{
    a && b
}

pub fn is_either(a: bool, b: bool) -> bool
    ensures { result ≡ (a || b) }
{
    a || b
}

// The identifier is at least one number and below another.
pub fn is_in_order(l: Lease, least: u64, counter: u64) -> bool
    ensures { result ≡ (leb least l.id.0 && ltb l.id.0 counter) }
{
    least <= l.id.0 && l.id.0 < counter
}

pub fn is_nobody(c: Option<Consumer>) -> bool
    ensures { result ≡ nobody c }
{
    matches!(c, None)
}

pub fn is_blank_record(e: Publication) -> bool
    ensures { result ≡ is_blank e }
{
    e.owner.0 == 0 && e.generation == 0 && e.port.0 == 0 && e.slot == 0 && !e.visible && !e.retained
}

pub fn is_blank_lease(l: Lease) -> bool
    ensures { result ≡ is_blank_lease l }
{
    l.id.0 == 0 && l.publication.0 == 0 && is_nobody(l.consumer)
}

// A cell in use belongs to its record: the slot is the identifier, and without a retained record the payload is 0.
pub fn is_own_cell(e: Publication, id: u64, handle: u64) -> bool
    ensures { result ≡ every (eqb e.slot id ∷ (e.retained || eqb handle 0) ∷ []) }
{
    e.slot == id && (e.retained || handle == 0)
}

pub fn is_blank_cell(payload: u64, revision: u64) -> bool
    ensures { result ≡ (eqb payload 0 && eqb revision 0) }
{
    payload == 0 && revision == 0
}
