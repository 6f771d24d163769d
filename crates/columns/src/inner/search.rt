// Searches of the records in use.
ghost use Rattle.std.specs.Prelude.{◌≡◌, Bool};
ghost use Rattle.rules.specs.Sound.{Rising};
ghost use Rattle.rules.specs.Conditions.{visible_on, retained_in, is_lease, names};
ghost use Rattle.columns.specs.Verdicts.{place_of, known_of};

use crate::records;
use rules::{Lease, LeaseId, Port, Publication, PublicationId};

// What a record is searched for.
pub trait Wanted<T> {
    ghost passes: { Self → T → Bool };

    fn is_met(&self, of: &T) -> bool
        ensures { result ≡ passes self.now of.now };
}

// The place of the first record that meets it.
pub fn place<T, W: Wanted<T>>(records: &[T], wanted: &W) -> Option<usize>
    ensures { result ≡ place_of (W.passes wanted.now) records.now }
{
    for i in 0..records.len() {
        if wanted.is_met(&records[i]) {
            return Some(i);
        }
    }
    None
}

#[derive(Clone, Copy)]
struct VisibleOn(Port);

impl Wanted<Publication> for VisibleOn {
    ghost passes = { λ w e. visible_on w.0 e };

    fn is_met(&self, of: &Publication) -> bool {
        records::holds_port(*of, self.0)
    }
}

#[derive(Clone, Copy)]
struct RetainedIn(u64);

impl Wanted<Publication> for RetainedIn {
    ghost passes = { λ w e. retained_in w.0 e };

    fn is_met(&self, of: &Publication) -> bool {
        records::holds_slot(*of, self.0)
    }
}

#[derive(Clone, Copy)]
struct Named(LeaseId);

impl Wanted<Lease> for Named {
    ghost passes = { λ w l. is_lease w.0 l };

    fn is_met(&self, of: &Lease) -> bool {
        records::has_id(*of, self.0)
    }
}

#[derive(Clone, Copy)]
struct Naming(PublicationId);

impl Wanted<Lease> for Naming {
    ghost passes = { λ w l. names w.0 l };

    fn is_met(&self, of: &Lease) -> bool {
        records::names_publication(*of, self.0)
    }
}

// The publication with an identifier, if that was given out.
pub fn known(publications: &[Publication], id: PublicationId) -> Option<Publication>
    ensures { result ≡ known_of publications.now id }
{
    let i = id.0 as usize;
    if publications.len() <= i {
        return None;
    }
    Some(publications[i])
}

// The publication that is visible on a port.
pub fn port_place(publications: &[Publication], port: Port) -> Option<usize>
    ensures { result ≡ place_of (visible_on port) publications.now }
{
    place(publications, &VisibleOn(port))
}

// The first retained publication in a slot.
pub fn slot_place(publications: &[Publication], slot: u64) -> Option<usize>
    ensures { result ≡ place_of (retained_in slot) publications.now }
{
    place(publications, &RetainedIn(slot))
}

// The active lease with an identifier.
pub fn lease_place(leases: &[Lease], lease: LeaseId) -> Option<usize>
    requires { Rising leases.now }
    ensures { result ≡ place_of (is_lease lease) leases.now }
{
    place(leases, &Named(lease))
}

// The first active lease that names a publication.
pub fn reliance_place(leases: &[Lease], id: PublicationId) -> Option<usize>
    ensures { result ≡ place_of (names id) leases.now }
{
    place(leases, &Naming(id))
}
