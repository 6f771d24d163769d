// The one checker, the same for every broker. It sees commands and answers, and document 01's answer to each; it never sees a store.
//
// For each demand it says which answer was due: the answer itself where the demand leaves it free. What demand 3 asks follows from the
// history of answers alone: crates/rules/specs/Demand3.antt and History.antt have the words.
ghost use Rattle.std.specs.Prelude.{◌≡◌};
ghost use Rattle.trials.specs.declared.checker.Demand.TheVariants.{Document};

use rules::{Command, LeaseId, Observation, PublicationId, Refusal, Response};
use std::fmt;

// A demand, by its number.
#[derive(Clone, Copy)]
pub enum Demand {
    // An answer of the command's kind; a refusal is one of the command's row, and gives the offered handle back.
    Kind = 1,
    // The answer that document 01 fixes.
    Document = 2,
    // The answer that the history of answers asks for.
    History = 3,
}

impl fmt::Display for Demand {
    fn fmt<W: fmt::Write>(&self, f: &mut fmt::Formatter<W>) -> fmt::Result {
        write!(f, "{}", *self as u64)
    }
}

// What the answers tell of a publication that was published, and not reclaimed.
#[derive(Clone, Copy)]
struct Page {
    // The handle that it accepted last, and how often it was replaced.
    handle: u64,
    replaced: u64,
    // Leases given out and not released.
    out: u64,
    // Its last revoke.
    revoked: Option<Revoked>,
}

// When a publication was revoked, and how many of the leases outstanding then are not released yet.
#[derive(Clone, Copy)]
struct Revoked {
    at: u64,
    awaited: u64,
}

// A lease given out and not released: of which publication, and when it was given out.
#[derive(Clone, Copy)]
struct Loan {
    of: PublicationId,
    since: u64,
}

// What the answers tell: each publication's page, each lease, and the handles accepted and not handed back, each as often as that. There is
// room for all that the traces give out; an identifier beyond it is not noted, and the document's answer finds it.
#[derive(Clone, Copy)]
pub struct History {
    pages: [Option<Page>; 96],
    loans: [Option<Loan>; 160],
    bag: [Option<u64>; 128],
    time: u64,
}

// The answer that a demand asks for.
pub(crate) fn due(
    demand: Demand,
    history: &History,
    asked: Command,
    answer: Response,
    fixed: Response,
) -> Response
    ensures { demand ≡ Document → result ≡ fixed }
{
    match demand {
        Demand::Kind => of_kind(asked, answer, fixed),
        Demand::Document => fixed,
        Demand::History => history.due(asked, answer),
    }
}

// The refusals of each command's row, in document 01's order. BadTable stands before every row.
fn refusals(asked: Command) -> &'static [Refusal] {
    match asked {
        Command::Publish { .. } => &[Refusal::Capacity, Refusal::Conflict],
        Command::Adopt { .. } => &[
            Refusal::Unknown,
            Refusal::Released,
            Refusal::InvalidState,
            Refusal::Relied,
        ],
        Command::Acquire { .. } => &[Refusal::Unknown, Refusal::Revoked, Refusal::Capacity],
        Command::Release { .. } => &[Refusal::Unknown, Refusal::Released],
        Command::Revoke { .. } => &[Refusal::Unknown],
        Command::Replace { .. } => &[
            Refusal::Unknown,
            Refusal::InvalidState,
            Refusal::Revoked,
            Refusal::Capacity,
        ],
        Command::Reclaim { .. } => &[
            Refusal::Unknown,
            Refusal::Visible,
            Refusal::Released,
            Refusal::Relied,
        ],
        Command::Read { .. } => &[Refusal::Unknown, Refusal::Released],
        Command::Observe { .. } => &[Refusal::Absent],
        Command::Resolve { .. } => &[Refusal::Absent],
        Command::Count => &[],
    }
}

fn is_in_row(asked: Command, why: Refusal) -> bool {
    why == Refusal::BadTable || refusals(asked).contains(&why)
}

// Whether an answer is of the kind that a command gets when it is carried out.
fn is_carried_out(asked: Command, answer: Response) -> bool {
    match asked {
        Command::Publish { .. } | Command::Resolve { .. } => matches!(answer, Response::Id(_)),
        Command::Adopt { .. } | Command::Release { .. } | Command::Revoke { .. } => {
            matches!(answer, Response::Done)
        }
        Command::Acquire { .. } => matches!(answer, Response::Lease(_)),
        Command::Replace { .. } | Command::Reclaim { .. } => matches!(answer, Response::Handle(_)),
        Command::Read { .. } => matches!(answer, Response::Read(_)),
        Command::Observe { .. } => matches!(answer, Response::Observed(_)),
        Command::Count => matches!(answer, Response::Count(_)),
    }
}

// The handle that a command offers.
fn offered(asked: Command) -> Option<u64> {
    match asked {
        Command::Publish { payload, .. } | Command::Replace { payload, .. } => Some(payload),
        _ => None,
    }
}

// Demand 1. That a refused command changed no record shows in later answers: demand 2 finds it.
fn of_kind(asked: Command, answer: Response, fixed: Response) -> Response {
    match (answer, offered(asked)) {
        (Response::Refused(why), None) if is_in_row(asked, why) => answer,
        (Response::Returned(why, _), Some(handle)) if is_in_row(asked, why) => {
            Response::Returned(why, handle)
        }
        _ if is_carried_out(asked, answer) => answer,
        _ => fixed,
    }
}

// The handle that a publication accepted last, handed back; Released if it doesn't stand.
fn back(page: Option<Page>) -> Response {
    match page {
        Some(page) => Response::Handle(page.handle),
        None => Response::Refused(Refusal::Released),
    }
}

// The same, shown; Absent if it doesn't stand.
fn shown(page: Option<Page>) -> Response {
    match page {
        Some(page) => Response::Observed(Observation {
            revision: page.replaced,
            handle: page.handle,
        }),
        None => Response::Refused(Refusal::Absent),
    }
}

impl History {
    // Before the first command.
    pub(crate) fn new() -> Self {
        History {
            pages: [None; 96],
            loans: [None; 160],
            bag: [None; 128],
            time: 0,
        }
    }

    fn page(&self, id: PublicationId) -> Option<Page> {
        self.pages.get(id.0 as usize).copied().flatten()
    }

    fn set_page(&mut self, id: PublicationId, page: Option<Page>) {
        if let Some(place) = self.pages.get_mut(id.0 as usize) {
            *place = page;
        }
    }

    // A handle is accepted. The place is found by its index: of a `find` over `iter_mut` the check leaves a goal open.
    fn took(&mut self, handle: u64) {
        if let Some(free) = self.bag.iter().position(|place| place.is_none()) {
            self.bag[free] = Some(handle);
        }
    }

    // A handle is handed back.
    fn gave(&mut self, handle: u64) {
        if let Some(at) = self.bag.iter().position(|place| *place == Some(handle)) {
            self.bag[at] = None;
        }
    }

    // How many handles were accepted and not handed back.
    fn held(&self) -> u64 {
        self.bag.iter().flatten().count() as u64
    }

    // A handle that is handed back or shown was accepted, and is not handed back yet. Else the right answer was due; where that is the
    // answer, its handle went elsewhere, and none was.
    fn ledger(&self, answer: Response, handle: u64, right: Response) -> Response {
        if self.bag.contains(&Some(handle)) {
            answer
        } else if answer == right {
            Response::Refused(Refusal::Absent)
        } else {
            right
        }
    }

    // An answer that hands a handle back; a refusal is free.
    fn handed_back(&self, answer: Response, right: Response) -> Response {
        match answer {
            Response::Refused(_) | Response::Returned(..) => answer,
            Response::Handle(handle) => self.ledger(answer, handle, right),
            _ => right,
        }
    }

    // Demand 3.
    fn due(&self, asked: Command, answer: Response) -> Response {
        match asked {
            Command::Replace { id, .. } => self.handed_back(answer, back(self.page(id))),
            // Relied while a lease of the revoked one is awaited, then the handle accepted last.
            Command::Reclaim { id } => {
                let page = self.page(id);
                match page.and_then(|page| page.revoked) {
                    Some(revoked) if 0 < revoked.awaited => Response::Refused(Refusal::Relied),
                    Some(_) => back(page),
                    None => self.handed_back(answer, back(page)),
                }
            }
            // What stands is shown, and nothing else.
            Command::Observe { id } => {
                let page = self.page(id);
                match answer {
                    Response::Observed(seen) if page.is_some() => {
                        self.ledger(answer, seen.handle, shown(page))
                    }
                    Response::Refused(_) if page.is_none() => answer,
                    _ => shown(page),
                }
            }
            // As many as were accepted and not handed back.
            Command::Count => Response::Count(self.held()),
            _ => answer,
        }
    }

    // Notes one more command and its answer; a refused one tells nothing.
    pub(crate) fn note(&mut self, asked: Command, answer: Response) {
        self.time = self.time.wrapping_add(1);
        match (asked, answer) {
            // A publication begins, and accepts a handle.
            (Command::Publish { payload, .. }, Response::Id(id)) => {
                let page = Page {
                    handle: payload,
                    replaced: 0,
                    out: 0,
                    revoked: None,
                };
                self.set_page(id, Some(page));
                self.took(payload);
            }
            (Command::Acquire { id, .. }, Response::Lease(lease)) => self.lent(id, lease),
            (Command::Release { lease }, Response::Done) => self.freed(lease),
            // The leases outstanding now are awaited.
            (Command::Revoke { id }, Response::Done) => {
                let at = self.time;
                self.change(
                    id,
                    |page| page.revoked = Some(Revoked {
                        at,
                        awaited: page.out,
                    }),
                );
            }
            // A handle is handed back, and another accepted.
            (Command::Replace { id, payload, .. }, Response::Handle(handle)) => {
                self.change(id, |page| {
                    page.handle = payload;
                    page.replaced = page.replaced.wrapping_add(1);
                });
                self.gave(handle);
                self.took(payload);
            }
            // A handle is handed back, and the publication ends.
            (Command::Reclaim { id }, Response::Handle(handle)) => {
                self.set_page(id, None);
                self.gave(handle);
            }
            _ => {}
        }
    }

    // Changes the page of a publication that stands.
    fn change<F: FnOnce(&mut Page)>(&mut self, id: PublicationId, f: F)
        requires { F.IsAlwaysCallable f }
    {
        if let Some(Some(page)) = self.pages.get_mut(id.0 as usize) {
            f(page);
        }
    }

    // A lease that is given out.
    fn lent(&mut self, id: PublicationId, lease: LeaseId) {
        let since = self.time;
        if let Some(place) = self.loans.get_mut(lease.0 as usize) {
            *place = Some(Loan { of: id, since });
        }
        self.change(id, |page| page.out = page.out.wrapping_add(1));
    }

    // A lease that is back: its publication owes one less.
    fn freed(&mut self, lease: LeaseId) {
        let Some(loan) = self
            .loans
            .get_mut(lease.0 as usize)
            .and_then(|place| place.take())
        else {
            return;
        };
        self.change(loan.of, |page| {
            page.out = page.out.saturating_sub(1);
            if let Some(revoked) = &mut page.revoked {
                if loan.since < revoked.at {
                    revoked.awaited = revoked.awaited.saturating_sub(1);
                }
            }
        });
    }
}
