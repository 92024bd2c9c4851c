//! What a program that uses the libraries calls first, in the order in which it needs it. It reads
//! a definition and reports that lie where it runs, and prints what the calls answer.
#![tactic(auto)]

ghost use Rattle.std.specs.Prelude.{◌≡◌, ◌<◌, ◌≤◌, true, false, length};
ghost use Rattle.cvr_report.specs.Head.{is_device_of};
ghost use Rattle.cvr_report.specs.Page.{volumes};
ghost use Rattle.cvr_run.specs.Outcome.{files_of, IsWhole, run_text};

use cdf_check::{Definition, check_report};
use cdf_types::{Memory, MemorySink, ReadFault, Sink};
use cvr_cli::{OverWrite, Request, Status, conflicts_text, currents_text, read_words, run};
use cvr_collect::{Cause, Event, Office, Outcome, PlainOffice, play};
use cvr_facts::{FactList, facts_of};
use cvr_report::{Heading, WriteFault, volumes, write_volume};
use cvr_tally::tally_text;
use std::alloc::{AllocError, Global};
use std::fs;
use std::io::Write;

// The reports, by their places from 0. The last one is refused.
static REPORTS: [&str; 4] = [
    "scan.json",
    "adjudicated.json",
    "corrected.json",
    "damaged.json",
];

// A command and its words, as they stand after the name of the program.
static WORDS: [&str; 6] = [
    "conflicts",
    "definition.json",
    "scan.json",
    "adjudicated.json",
    "corrected.json",
    "damaged.json",
];

// What happens between two offices: each takes in one report, then each takes in what the other
// holds. The last two events are refused: a damaged report, and an office that isn't there.
static EVENTS: [Event; 6] = [
    Event::Import { office: 0, file: 0 },
    Event::Import { office: 1, file: 1 },
    Event::Exchange { from: 0, to: 1 },
    Event::Exchange { from: 1, to: 0 },
    Event::Import { office: 1, file: 3 },
    Event::Exchange { from: 0, to: 2 },
];

// The date of a volume, and the device that makes it, which has to be one of the definition.
const DATE: &str = "2024-11-06T18:00:00-05:00";

const DEVICE: &str = "desk-1";

// The bytes that a sink takes in one call at most.
const PIECE: usize = 4096;

// The bytes of the reports.
fn read_reports(rt: &HostRuntime) -> anyhow::Result<Vec<Vec<u8>>> {
    let mut files = Vec::new(rt.alloc());
    for name in &REPORTS {
        files.push(fs::read(rt, *name)?)?;
    }
    Ok(files)
}

// The definition: any report that has no fault by itself. All reports are read beside it.
fn read_definition(rt: &HostRuntime) -> anyhow::Result<Definition> {
    let bytes = fs::read(rt, "definition.json")?;
    Ok(Definition::read(rt.alloc(), bytes.as_slice())?)
}

// Prints a fault of a file as the log of `cvr` has it: the code, the path and the number of the
// rule.
fn print_fault(rt: &HostRuntime, name: &str, fault: &ReadFault) -> anyhow::Result<()> {
    match fault {
        ReadFault::TooLong => println!(rt; "{name}: E1")?,
        ReadFault::NotJson => println!(rt; "{name}: E2")?,
        ReadFault::Schema { path, rule } => println!(rt; "{name}: E3 {path} {}", rule.number())?,
        ReadFault::Reference { path } => println!(rt; "{name}: E4 {path}")?,
        ReadFault::Disagrees { path } => println!(rt; "{name}: E5 {path}")?,
        ReadFault::Memory => println!(rt; "{name}: E6")?,
    }
    Ok(())
}

// The facts of a report. `check_report` answers what an accepted report has, as types, or its first
// fault; from those types `facts_of` makes the facts, each once: devices, headers of records, and
// their snapshots.
fn facts_in(alloc: Global, definition: &Definition, bytes: &[u8]) -> Result<FactList, ReadFault> {
    let report = check_report(alloc, definition, bytes)?;
    Ok(facts_of(alloc, definition, &report)?)
}

// Prints how many facts there are.
fn print_facts(rt: &HostRuntime, name: &str, facts: &FactList) -> anyhow::Result<()> {
    let devices = facts.devices.as_slice().len();
    let headers = facts.headers.as_slice().len();
    let snapshots = facts.snapshots.as_slice().len();
    println!(rt; "{name}: {devices} devices, {headers} headers, {snapshots} snapshots")?;
    Ok(())
}

// Checks each report beside the definition.
fn check(rt: &HostRuntime, definition: &Definition, files: &[Vec<u8>]) -> anyhow::Result<()> {
    for (name, file) in REPORTS.iter().zip(files) {
        match facts_in(rt.alloc(), definition, file.as_slice()) {
            Ok(facts) => print_facts(rt, name, &facts)?,
            Err(fault) => print_fault(rt, name, &fault)?,
        }
    }
    Ok(())
}

// Has an office take in a report. `import` checks it, and takes its facts; a report that is refused
// changes nothing. A fault also prints as a sentence.
fn import(
    rt: &HostRuntime,
    office: &mut PlainOffice,
    name: &str,
    bytes: &[u8],
) -> anyhow::Result<()> {
    match office.import(bytes) {
        Ok(receipt) => println!(rt;
            "{name}: {} records, {} new facts",
            receipt.cvrs, receipt.new_facts
        )?,
        Err(fault) => println!(rt; "{name}: {fault}")?,
    }
    Ok(())
}

// A new office, which holds the devices of its definition. Offices that are to exchange what they
// hold have the same definition.
fn new_office(rt: &HostRuntime, definition: &Definition) -> anyhow::Result<PlainOffice> {
    let alloc = rt.alloc();
    Ok(PlainOffice::new(alloc, definition.copy(alloc)?)?)
}

// An office that took in the reports.
fn collect(
    rt: &HostRuntime,
    definition: &Definition,
    files: &[Vec<u8>],
) -> anyhow::Result<PlainOffice> {
    let mut office = new_office(rt, definition)?;
    for (name, file) in REPORTS.iter().zip(files) {
        import(rt, &mut office, name, file.as_slice())?;
    }
    Ok(office)
}

// The lines of the tally, as `cvr tally` prints them.
fn tally_of(alloc: Global, office: &PlainOffice) -> Result<String, Memory> {
    tally_text(alloc, &office.totals(alloc)?)
}

// The lines of the conflicts, as `cvr conflicts` prints them.
fn conflicts_of(alloc: Global, office: &PlainOffice) -> Result<String, Memory> {
    conflicts_text(alloc, &office.conflicts(alloc)?)
}

// Prints what an office answers. `current`, `row`, `record_facts` and others answer for one record,
// or one row.
fn print_texts(rt: &HostRuntime, office: &PlainOffice) -> anyhow::Result<()> {
    print!(rt; "{}", currents_text(rt.alloc(), office)?)?;
    print!(rt; "{}", tally_of(rt.alloc(), office)?)?;
    print!(rt; "{}", conflicts_of(rt.alloc(), office)?)?;
    Ok(())
}

// Prints what became of an event.
fn print_outcome(rt: &HostRuntime, outcome: &Outcome) -> anyhow::Result<()> {
    match outcome {
        Outcome::Accepted(new_facts) => println!(rt; "{new_facts} new facts")?,
        Outcome::Refused(Cause::Read(fault)) => println!(rt; "refused: {fault}")?,
        Outcome::Refused(Cause::Join(fault)) => println!(rt; "refused: {fault}")?,
        Outcome::Refused(Cause::NoOffice) => println!(rt; "refused: no such office")?,
        Outcome::Refused(Cause::NoFile) => println!(rt; "refused: no such file")?,
    }
    Ok(())
}

// Plays events. A refused event changes nothing, and the next one follows.
fn played(
    alloc: Global,
    offices: &mut [PlainOffice],
    files: &[Vec<u8>],
    events: &[Event],
) -> Result<Vec<Outcome>, Memory> {
    play(alloc, offices, files, events)
}

// Plays the events, and prints what became of each.
fn print_events(
    rt: &HostRuntime,
    offices: &mut [PlainOffice],
    files: &[Vec<u8>],
) -> anyhow::Result<()> {
    let outcomes = played(rt.alloc(), offices, files, &EVENTS)?;
    for outcome in outcomes.iter() {
        print_outcome(rt, outcome)?;
    }
    Ok(())
}

// Has two new offices exchange what they hold.
fn exchange(rt: &HostRuntime, definition: &Definition, files: &[Vec<u8>]) -> anyhow::Result<()> {
    let one = new_office(rt, definition)?;
    let other = new_office(rt, definition)?;
    let mut offices = [one, other];
    print_events(rt, &mut offices, files)?;
    let [one, other] = &offices;
    println!(rt; "the same: {}", one.same(other))?;
    Ok(())
}

// Writes volume `i` of an office into memory. The conditions are those of `write_volume`.
fn write<O: Office>(
    alloc: Global,
    office: &O,
    heading: &Heading,
    i: usize,
) -> Result<MemorySink, WriteFault>
    requires number { 0 < i }
    requires within { i ≤ volumes (O.held office.now) }
    requires device { is_device_of (O.defined office.now) heading.now.device ≡ true }
{
    let mut volume = MemorySink::new(alloc, PIECE, 0);
    write_volume(alloc, office, heading, i, &mut volume)?;
    Ok(volume)
}

// Writes the volumes of an office, which show all that it holds, and has another office take them
// in as files. One volume is enough where no name has two bodies.
fn pass_on(rt: &HostRuntime, giver: &PlainOffice, taker: &mut PlainOffice) -> anyhow::Result<()> {
    let heading = Heading::new(rt.alloc(), giver.definition(), DATE, DEVICE)?;
    for i in 1..=volumes(giver) {
        let volume = write(rt.alloc(), giver, &heading, i)?;
        import(rt, taker, "volume", volume.taken())?;
    }
    Ok(())
}

// Passes on what an office holds to a new one by files, which then holds the same.
fn read_back(rt: &HostRuntime, office: &PlainOffice) -> anyhow::Result<()> {
    let mut taker = new_office(rt, office.definition())?;
    pass_on(rt, office, &mut taker)?;
    println!(rt; "the same: {}", taker.same(office))?;
    Ok(())
}

// The words of the command, as texts of their own.
fn words(alloc: Global) -> Result<Vec<String>, AllocError> {
    let mut words = Vec::new(alloc);
    for word in &WORDS {
        words.push(word.to_string(alloc)?)?;
    }
    Ok(words)
}

// What a run prints, in memory, and how it ends. The conditions are those of `run`. A `Vec` shows
// its bytes, so the contract says which they are: of a run that is whole, its text.
fn run_in_memory<L: Sink>(
    alloc: Global,
    request: &Request,
    def: &[u8],
    files: &[Vec<u8>],
    log: &mut L,
) -> (Status, Vec<u8>)
    requires log_working { (L.taken log.old).failed ≡ false }
    requires named { length request.now.paths ≡ length files.now }
    ensures { IsWhole result.0 → result.1.items
        ≡ run_text request.now.task def.now request.now.paths (files_of files.now) }
{
    let mut out = OverWrite::new(Vec::new(alloc));
    let status = run(alloc, request, def, files, &mut out, log);
    (status, out.into_inner())
}

// Runs the command over the reports, and prints what it has to print.
fn print_run(rt: &HostRuntime, files: &[Vec<u8>]) -> anyhow::Result<()> {
    let alloc = rt.alloc();
    let def = fs::read(rt, "definition.json")?;
    let request = read_words(alloc, words(alloc)?.as_slice())?;
    if request.paths.as_slice().len() == files.len() {
        let mut log = MemorySink::new(alloc, PIECE, 0);
        let (_, text) = run_in_memory(alloc, &request, def.as_slice(), files, &mut log);
        rt.stdout().write_all(text.as_slice())?;
    }
    Ok(())
}

// All that is shown of one office.
fn show_office(rt: &HostRuntime, definition: &Definition, files: &[Vec<u8>]) -> anyhow::Result<()> {
    let office = collect(rt, definition, files)?;
    print_texts(rt, &office)?;
    read_back(rt, &office)
}

// All that is shown of the reports.
fn show(rt: &HostRuntime, definition: &Definition) -> anyhow::Result<()> {
    let files = read_reports(rt)?;
    check(rt, definition, files.as_slice())?;
    show_office(rt, definition, files.as_slice())?;
    exchange(rt, definition, files.as_slice())?;
    print_run(rt, files.as_slice())
}

// What a function holds at each of its exits makes its proof long. So each function here holds
// little, and hands it on.
fn main(rt: HostRuntime) -> anyhow::Result<()> {
    let definition = read_definition(&rt)?;
    show(&rt, &definition)
}
