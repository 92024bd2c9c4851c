ghost use Rattle.std.specs.Prelude.{IfOk};
ghost use Rattle.cdf_typed.specs.Range.{ReportInRange};

use crate::files::Files;
use crate::offices::read_definition;
use cdf_check::{Definition, check_report};
use cdf_types::{Body, Memory, ReadFault, Report, Seq};
use cvr_facts::{BodySet, FactList, Join, SnapshotFact, facts_of, join_both};
use std::alloc::Global;

// The typed report of a file, of which only what `facts_of` needs is handed on.
fn report_of(alloc: Global, definition: &Definition, bytes: &[u8]) -> Result<Report, ReadFault>
    ensures { IfOk result (λ r. ReportInRange definition.now.contests r) }
{
    check_report(alloc, definition, bytes)
}

// The facts of a report.
fn facts_in(alloc: Global, definition: &Definition, bytes: &[u8]) -> Result<FactList, ReadFault> {
    let report = report_of(alloc, definition, bytes)?;
    Ok(facts_of(alloc, definition, &report)?)
}

// Writes a snapshot: its record, its id, its Type, and of each contest its place and the votes of
// each selection.
fn write_snapshot(text: &mut String, snapshot: &SnapshotFact) -> Result<(), Memory> {
    let key = &snapshot.key;
    write!(
        text,
        "{} {} {} {}",
        key.device,
        key.unique,
        snapshot.id,
        snapshot.kind.text()
    )?;
    for sums in snapshot.votes.as_slice() {
        write!(text, ", {}: {:?}", sums.contest, sums.votes.as_slice())?;
    }
    text.push_str("\n")?;
    Ok(())
}

// Writes the bodies of devices and headers, and each snapshot, as their copies have them.
fn write_facts(alloc: Global, text: &mut String, list: &FactList) -> Result<(), Memory> {
    for device in list.devices.as_slice() {
        writeln!(text, "{}", device.copy()?.body)?;
    }
    for header in list.headers.as_slice() {
        writeln!(text, "{}", header.copy()?.body)?;
    }
    for snapshot in list.snapshots.as_slice() {
        write_snapshot(text, &snapshot.copy(alloc)?)?;
    }
    Ok(())
}

// Writes the facts of a report, or why it is refused.
fn write_report(
    alloc: Global,
    text: &mut String,
    definition: &Definition,
    bytes: &[u8],
) -> Result<(), ReadFault> {
    match facts_in(alloc, definition, bytes) {
        Ok(list) => write_facts(alloc, text, &list)?,
        Err(ReadFault::Memory) => return Err(ReadFault::Memory),
        Err(fault) => writeln!(text, "{fault}")?,
    }
    Ok(())
}

/// What is written of the facts of reports.
pub fn printed_facts(alloc: Global, files: &Files) -> Result<String, ReadFault> {
    let definition = read_definition(alloc, files.definition.as_slice())?;
    let mut text = String::new(alloc);
    for report in &files.checked {
        write_report(alloc, &mut text, &definition, report.as_slice())?;
    }
    Ok(text)
}

// Writes faults of a path.
fn write_faults_at(text: &mut String, alloc: Global, path: &str) -> Result<(), Memory> {
    let reference = ReadFault::Reference {
        path: Body::new(path.to_string(alloc)?),
    };
    writeln!(text, "{reference}")?;
    let disagrees = ReadFault::Disagrees {
        path: Body::new(path.to_string(alloc)?),
    };
    writeln!(text, "{disagrees}")?;
    Ok(())
}

/// How faults of another form are printed.
pub fn printed_faults(alloc: Global) -> Result<String, ReadFault> {
    let mut text = String::new(alloc);
    write_faults_at(&mut text, alloc, "/GpUnit/0")?;
    for fault in &[ReadFault::TooLong, ReadFault::NotJson, ReadFault::Memory] {
        writeln!(text, "{fault}")?;
    }
    Ok(text)
}

// The set of these texts.
fn set_of(alloc: Global, texts: &[&str]) -> Result<BodySet, Memory> {
    let mut bodies = Seq::empty(alloc);
    for text in texts {
        bodies.push(Body::new(text.to_string(alloc)?))?;
    }
    BodySet::new(alloc, bodies.as_slice())
}

// A set that takes in two others, and then a third.
fn joined(alloc: Global) -> Result<BodySet, Memory> {
    let mut set = set_of(alloc, &["b", "b"])?;
    join_both(
        &mut set,
        &set_of(alloc, &["c", "a"])?,
        &set_of(alloc, &["a"])?,
    )?;
    set.join(&set_of(alloc, &["d", "c"])?)?;
    Ok(set)
}

/// The bodies of a joined set.
pub fn printed_sets(alloc: Global) -> Result<String, ReadFault> {
    let set = joined(alloc)?;
    let mut text = String::new(alloc);
    for place in 0..set.len() {
        writeln!(text, "{}", set.get(place))?;
    }
    Ok(text)
}
