// The end of a run: why it stopped, and what is still retained.
ghost use Rattle.std.specs.Prelude.{◌≡◌, ◌≤◌, take};
ghost use Rattle.lists.specs.Search.{how_many};
ghost use Rattle.rules.specs.Conditions.{names};

use columns::records::names_publication;
use named::Named;
use registry::PublicationRegistry;
use rules::{Lease, PublicationId};
use std::{fmt, io};
use store::PublicationStore;
use trace::Stop;

// So many of a thing: its word has an s unless it is one.
#[derive(Clone, Copy)]
struct Counted<'a>(u64, &'a str);

impl fmt::Display for Counted<'_> {
    fn fmt<W: fmt::Write>(&self, f: &mut fmt::Formatter<W>) -> fmt::Result {
        let Counted(n, word) = *self;
        let plural = if n == 1 { "" } else { "s" };
        write!(f, "{n} {word}{plural}")
    }
}

// The stop's number and name, the blocks done and the bytes read; and a line more where the trace was not read to its end.
pub(crate) fn tell_stop(rt: &impl Print, stop: Stop, blocks: u64, read: usize) -> io::Result<()> {
    println!(rt;
        "stopped: {}, {} done, {} read",
        Named(u64::from(stop)),
        Counted(blocks, "block"),
        Counted(read as u64, "byte")
    )?;
    match stop {
        Stop::TooLong => {
            println!(rt; "         the trace is longer than 65536 bytes, and nothing was run")
        }
        Stop::BadLine => println!(rt; "         the block at byte {read} is wrong or unfinished"),
        Stop::NoRoom => println!(rt; "         there is no room for more answers"),
        Stop::End | Stop::BadTable => Ok(()),
    }
}

// How many leases name a publication: a `for`, since the clause is of the rules' `how_many` and not of the library's count.
fn leases_on(leases: &[Lease], id: PublicationId) -> u64
    ensures { result ≡ how_many (names id) leases.now }
{
    let mut n: u64 = 0;
    for lease in leases {
        if names_publication(*lease, id) {
            n += 1;
        }
    }
    n
}

// The line of one publication, under the head that tell_retained writes.
fn tell_publication(
    rt: &impl Print,
    id: u64,
    port: u32,
    handle: u64,
    leases: u64,
) -> io::Result<()> {
    println!(rt; "  {id:<22}{port:<12}{handle:<22}{leases}")
}

// The leases that are active: a record that is not in use names publication 0.
fn active(registry: &PublicationRegistry) -> &[Lease]
    requires { registry.now.active ≤ 128 }
    ensures { result.now ≡ take registry.now.active registry.now.leases }
{
    &registry.leases[..registry.active]
}

// A line for each retained publication. Records that are not in use are blank, and not retained.
fn tell_publications(rt: &impl Print, store: PublicationStore) -> io::Result<()>
    requires { store.registry.active ≤ 128 }
{
    let registry = store.registry;
    let leases = active(&registry);
    for (i, (publication, handle)) in registry
        .publications
        .iter()
        .zip(&store.payloads)
        .enumerate()
    {
        if publication.retained {
            let id = i as u64;
            let n = leases_on(leases, PublicationId(id));
            tell_publication(rt, id, publication.port.0, *handle, n)?;
        }
    }
    Ok(())
}

// The retained publications: how many, and a line for each with its identifier, port, handle and active leases.
pub(crate) fn tell_retained(rt: &impl Print, store: PublicationStore) -> io::Result<()> {
    let Ok(n) = store.retained_count() else {
        return println!(rt; "retained: not known");
    };
    if n == 0 {
        return println!(rt; "retained: nothing");
    }
    println!(rt; "retained: {}", Counted(n, "publication"))?;
    println!(rt; "  id                    port        handle                leases")?;
    tell_publications(rt, store)
}
