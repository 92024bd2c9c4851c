use crate::files::Files;
use cdf_check::Definition;
use cdf_types::{Memory, ReadFault};
use cvr_cli::{conflicts_text, currents_text};
use cvr_collect::{JoinFault, Office};
use std::alloc::Global;

/// A definition.
pub fn read_definition(alloc: Global, bytes: &[u8]) -> Result<Definition, ReadFault> {
    Definition::read(alloc, bytes)
}

/// A new office beside a definition.
pub fn new_office<O: Office>(alloc: Global, bytes: &[u8]) -> Result<O, ReadFault> {
    let definition = read_definition(alloc, bytes)?;
    Ok(O::new(alloc, definition)?)
}

// Has an office take in a file, and answers how many facts are new. A function of its own, so that
// no other proof has to carry all that `import` ensures.
fn import_once<O: Office>(office: &mut O, bytes: &[u8]) -> Result<usize, ReadFault> {
    Ok(office.import(bytes)?.new_facts)
}

// The same, once more where memory is refused: the office is then as it was.
fn import<O: Office>(office: &mut O, bytes: &[u8]) -> Result<usize, ReadFault> {
    match import_once(office, bytes) {
        Err(ReadFault::Memory) => import_once(office, bytes),
        imported => imported,
    }
}

// Has an office take in what another holds, and answers how many facts are new.
fn join_once<O: Office>(office: &mut O, other: &O) -> Result<usize, ReadFault> {
    match office.join(other) {
        Ok(new_facts) => Ok(new_facts),
        Err(JoinFault::Memory) => Err(ReadFault::Memory),
        Err(JoinFault::OtherDefinition) => Err(ReadFault::NotJson),
    }
}

// The same, once more where memory is refused.
fn join<O: Office>(office: &mut O, other: &O) -> Result<usize, ReadFault> {
    match join_once(office, other) {
        Err(ReadFault::Memory) => join_once(office, other),
        joined => joined,
    }
}

// Has an office take in reports, and writes how many facts of each are new.
fn take<O: Office>(
    office: &mut O,
    reports: &[Vec<u8>],
    text: &mut String,
) -> Result<(), ReadFault> {
    for report in reports {
        let new_facts = import(office, report.as_slice())?;
        writeln!(text, "{new_facts} new facts")?;
    }
    Ok(())
}

/// Writes what an office answers: its counts of records, facts and most bodies of a name, current
/// snapshots, conflicts and the tally.
pub fn write_office<O: Office>(alloc: Global, office: &O, text: &mut String) -> Result<(), Memory> {
    let (records, facts) = (office.record_count(), office.fact_count());
    writeln!(text, "{records} {facts} {}", office.greatest_count())?;
    text.push_str(currents_text(alloc, office)?.as_str())?;
    text.push_str(conflicts_text(alloc, &office.conflicts(alloc)?)?.as_str())?;
    text.push_str(office.tally_text(alloc)?.as_str())?;
    Ok(())
}

/// An office that took in the reports.
pub fn office_of<O: Office + Drop>(alloc: Global, files: &Files) -> Result<O, ReadFault> {
    let mut office: O = new_office(alloc, files.definition.as_slice())?;
    let mut text = String::new(alloc);
    take(&mut office, &files.reports, &mut text)?;
    Ok(office)
}

/// What is written of an office that takes in the reports.
pub fn printed_imports<O: Office + Drop>(
    alloc: Global,
    files: &Files,
) -> Result<String, ReadFault> {
    let mut text = String::new(alloc);
    let mut office: O = new_office(alloc, files.definition.as_slice())?;
    take(&mut office, &files.reports, &mut text)?;
    write_office(alloc, &office, &mut text)?;
    Ok(text)
}

/// The same of one that took in the first report, and takes in what one of all reports holds.
pub fn printed_join<O: Office + Drop>(alloc: Global, files: &Files) -> Result<String, ReadFault> {
    let mut text = String::new(alloc);
    let other: O = office_of(alloc, files)?;
    let mut office: O = new_office(alloc, files.definition.as_slice())?;
    take(
        &mut office,
        files.reports.get(..1).unwrap_or(&[]),
        &mut text,
    )?;
    let new_facts = join(&mut office, &other)?;
    writeln!(text, "{new_facts} new facts")?;
    write_office(alloc, &office, &mut text)?;
    Ok(text)
}
