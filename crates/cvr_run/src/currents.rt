ghost use Rattle.std.specs.Prelude.{◌≡◌, ◌++◌, ◌∷◌, [], OnOk, IfOk, string_bytes};
ghost use Rattle.cdf_types.specs.SnapshotKind.{snapshot_kind_text};
ghost use Rattle.cvr_facts.specs.Choosing.{current};
ghost use Rattle.cvr_fact_types.specs.Text.{word};
ghost use Rattle.cvr_run.specs.Currents.{line_of, currents};

use cdf_types::Memory;
use cvr_fact_types::text::push_word;
use cvr_facts::{RecordName, SnapshotFact};
use cvr_office::Office;
use std::alloc::Global;

// Adds the line of a snapshot.
fn push_snapshot(alloc: Global, text: &mut String, snapshot: &SnapshotFact) -> Result<(), Memory>
    ensures { OnOk result (string_bytes text.new ≡ string_bytes text.old
        ++ (word snapshot.now.key.device
        ++ (word snapshot.now.key.unique
        ++ (word snapshot.now.id ++ (snapshot_kind_text snapshot.now.kind ++ 10 ∷ []))))) }
{
    push_word(alloc, text, snapshot.key.device.as_str())?;
    push_word(alloc, text, snapshot.key.unique.as_str())?;
    push_word(alloc, text, snapshot.id.as_str())?;
    text.push_str(snapshot.kind.text())?;
    text.push_str("\n")?;
    Ok(())
}

// Adds the line of a record's current snapshot, if it has one.
fn push_line<O: Office>(
    alloc: Global,
    text: &mut String,
    office: &O,
    key: &RecordName,
) -> Result<(), Memory>
    ensures { OnOk result
        (string_bytes text.new ≡ string_bytes text.old
        ++ line_of key.now (current (O.held office.now) key.now)) }
{
    match office.current(key) {
        None => Ok(()),
        Some(snapshot) => push_snapshot(alloc, text, snapshot),
    }
}

/// The lines of an office's current snapshots, one for each record, in order of name (NIST SP
/// 1500-103, class CVRSnapshot).
///
/// # Errors
/// `Memory` where a growth was refused.
pub fn currents_text<O: Office>(alloc: Global, office: &O) -> Result<String, Memory>
    ensures { IfOk result (λ text. string_bytes text ≡ currents (O.held office.now)) }
{
    let mut text = String::new(alloc);
    let mut next = office.next_record(None);
    while let Some(key) = next {
        push_line(alloc, &mut text, office, key)?;
        next = office.next_record(Some(key));
    }
    Ok(text)
}
