// The trials: our broker and nine broken ones play the same traces, and one checker, the same for all, says which demand each breaks and at
// which command. The broken ones show that the checker can fail.
//
// What it must print stands in the file stdout: the findings that follow from document 01 and from each broker's fault.
#![tactic(auto)]

use broken::Fault;
use checker::{Demand, History};
use report::Breach;
use rules::{Command, Response};
use std::io;
use store::PublicationStore;
use traces::{ROWS, Trace};

mod checker;
mod report;
mod traces;

// A broker on trial: the trace that it plays, its store, what its answers told, and how many commands of the trace were played.
#[derive(Clone, Copy)]
struct Trial {
    trace: Trace,
    store: PublicationStore,
    history: History,
    place: u64,
}

impl Trial {
    // A trace starts from an empty store, with no history.
    fn new(trace: Trace) -> Self {
        Trial {
            trace,
            store: PublicationStore::new(),
            history: History::new(),
            place: 0,
        }
    }

    // One command, played, judged and noted.
    fn play(
        &mut self,
        fault: Fault,
        demand: Demand,
        (asked, fixed): (Command, Response),
    ) -> Result<(), Breach> {
        let played = broken::play(fault, self.store, asked);
        let answer = played.answer;
        let due = checker::due(demand, &self.history, asked, answer, fixed);
        self.store = played.table;
        self.history.note(asked, answer);
        self.place = self.place.wrapping_add(1);
        if answer == due {
            return Ok(());
        }
        Err(Breach {
            trace: self.trace,
            place: self.place,
            asked,
            answer,
            due,
        })
    }
}

// All traces: how many commands were judged, or the first answer that is not the due one.
fn tried(fault: Fault, demand: Demand) -> Result<u64, Breach> {
    let mut trial = Trial::new(Trace::P2);
    let mut judged: u64 = 0;
    for row in &ROWS {
        if row.trace != trial.trace {
            trial = Trial::new(row.trace);
        }
        for n in 0..row.times {
            trial.play(fault, demand, row.turn(n))?;
            judged = judged.wrapping_add(1);
        }
    }
    Ok(judged)
}

// A demand's line. Answers how many commands kept it; none if it is broken.
fn line(rt: &impl Print, fault: Fault, demand: Demand) -> io::Result<Option<u64>> {
    match tried(fault, demand) {
        Ok(judged) => {
            report::kept(rt, demand)?;
            Ok(Some(judged))
        }
        Err(breach) => {
            report::broken(rt, demand, breach)?;
            Ok(None)
        }
    }
}

// A broker's three lines.
fn show(rt: &impl Print, name: &str, fault: Fault) -> io::Result<()> {
    println!(rt; "{name}")?;
    let kind = line(rt, fault, Demand::Kind)?;
    let document = line(rt, fault, Demand::Document)?;
    let history = line(rt, fault, Demand::History)?;
    if let (Some(_), Some(_), Some(judged)) = (kind, document, history) {
        println!(rt; "  keeps all three: {judged} commands judged")?;
    }
    Ok(())
}

fn head(rt: &impl Print) -> io::Result<()> {
    println!(rt;
        "Our broker and nine broken ones play the same 13 traces. One checker, the same for all, reads each command and its answer."
    )?;
    println!(rt;
        "Demand 1: an answer of the command's kind; a refusal has a number of the command's row, and the offered handle comes back with it."
    )?;
    println!(rt; "Demand 2: the answer that document 01 fixes.")?;
    println!(rt;
        "Demand 3: by the history of answers: Relied until the leases are back, then the handle last accepted; the ledger; the count.\n"
    )?;
    report::head(rt)
}

// The brokers, by what is wrong with them.
const BROKERS: [(&str, Fault); 10] = [
    ("ours", Fault::Nobody),
    ("refuses everything", Fault::RefusesEverything),
    ("hands back the same handle", Fault::SameHandle),
    ("release does nothing", Fault::KeepsLeases),
    ("release drops all leases", Fault::DropsLeases),
    ("invents the count", Fault::InventsCount),
    (
        "tests the port against retained publications",
        Fault::TestsRetained,
    ),
    (
        "answers 6 for a lease never given out",
        Fault::SixForNeverGiven,
    ),
    ("leaves the handle in a reclaimed cell", Fault::LeavesHandle),
    (
        "hands back another handle when it refuses a publish",
        Fault::OtherHandleBack,
    ),
];

fn main(rt: HostRuntime) -> io::Result<()> {
    head(&rt)?;
    for (name, fault) in BROKERS {
        show(&rt, name, fault)?;
        if fault == Fault::LeavesHandle {
            println!(rt;
                "  The test of the table shows it (S5): without that test no answer would."
            )?;
        }
    }
    Ok(())
}
