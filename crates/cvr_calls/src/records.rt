use crate::files::Files;
use crate::offices::office_of;
use cdf_types::{Body, Memory, ReadFault};
use cvr_collect::{Office, RecordFacts};
use cvr_tally::{Row, RowKey, tally_text};
use std::alloc::Global;

// Writes the bodies of a record's headers, and each id with the number of its snapshots.
fn write_record(text: &mut String, record: &RecordFacts<'_>) -> Result<(), Memory> {
    for header in record.headers.as_slice() {
        writeln!(text, "{}", header.body)?;
    }
    for under in record.ids.as_slice() {
        writeln!(text, "{} {}", under.id, under.snapshots.len())?;
    }
    Ok(())
}

// Writes all facts of the first record of an office.
fn write_first<O: Office>(alloc: Global, office: &O, text: &mut String) -> Result<(), Memory> {
    if let Some(key) = office.next_record(None) {
        writeln!(text, "{} {}", key.device, key.unique)?;
        if let Some(record) = office.record_facts(alloc, key)? {
            write_record(text, &record)?;
        }
    }
    Ok(())
}

/// What is written of all facts of a record with several headers, ids and bodies under one id.
pub fn printed_record<O: Office + Drop>(alloc: Global, files: &Files) -> Result<String, ReadFault> {
    let office: O = office_of(alloc, files)?;
    let mut text = String::new(alloc);
    write_first(alloc, &office, &mut text)?;
    Ok(text)
}

// Writes the ballots of a row and its votes.
fn write_row(text: &mut String, row: &Row) -> Result<(), Memory> {
    writeln!(text, "{} {:?}", row.ballots, row.votes.as_slice())?;
    Ok(())
}

// Writes the row of the first contest in a unit, of no batch.
fn write_row_in<O: Office>(
    alloc: Global,
    office: &O,
    unit: &str,
    text: &mut String,
) -> Result<(), Memory> {
    let key = RowKey {
        contest: 0,
        unit: Some(Body::new(unit.to_string(alloc)?)),
        batch: None,
    };
    match office.row(alloc, &key)? {
        Some(row) => write_row(text, &row)?,
        None => writeln!(text, "no row in {unit}")?,
    }
    Ok(())
}

/// What is written of rows, and of the totals.
pub fn printed_rows<O: Office + Drop>(alloc: Global, files: &Files) -> Result<String, ReadFault> {
    let office: O = office_of(alloc, files)?;
    let mut text = String::new(alloc);
    write_row_in(alloc, &office, "p1", &mut text)?;
    write_row_in(alloc, &office, "p2", &mut text)?;
    text.push_str(tally_text(alloc, &office.totals(alloc)?)?.as_str())?;
    Ok(text)
}
