ghost use Rattle.std.specs.Prelude.{◌≡◌, ◌++◌, OnOk, IfOk, string_bytes};
ghost use Rattle.std.specs.List.{flat_map};
ghost use Rattle.cvr_fact_types.specs.Text.{word};
ghost use Rattle.cvr_run.specs.Currents.{words_of, conflict_line, volumes_of, conflict_text};

use crate::number::push_number;
use cdf_types::Memory;
use cvr_fact_types::text::push_word;
use cvr_facts::RecordName;
use cvr_office::{Conflict, ConflictList, ConflictName};
use std::alloc::Global;

// Adds the name of a record.
fn push_record(alloc: Global, text: &mut String, key: &RecordName) -> Result<(), Memory>
    ensures { OnOk result
        (string_bytes text.new ≡ string_bytes text.old
        ++ (word key.now.device ++ word key.now.unique)) }
{
    push_word(alloc, text, key.device.as_str())?;
    push_word(alloc, text, key.unique.as_str())?;
    Ok(())
}

// Adds what has several bodies.
fn push_name(alloc: Global, text: &mut String, name: &ConflictName) -> Result<(), Memory>
    ensures { OnOk result (string_bytes text.new ≡ string_bytes text.old ++ words_of name.now) }
{
    match name {
        ConflictName::Device(id) => {
            text.push_str("device ")?;
            push_word(alloc, text, id.as_str())?;
        }
        ConflictName::Header(key) => {
            push_record(alloc, text, key)?;
            text.push_str("header ")?;
        }
        ConflictName::Snapshot(key, id) => {
            push_record(alloc, text, key)?;
            text.push_str("snapshot ")?;
            push_word(alloc, text, id.as_str())?;
        }
    }
    Ok(())
}

// Adds the line of a conflict.
fn push_conflict(alloc: Global, text: &mut String, conflict: &Conflict) -> Result<(), Memory>
    ensures { OnOk result
        (string_bytes text.new ≡ string_bytes text.old ++ conflict_line conflict.now) }
{
    push_name(alloc, text, &conflict.name)?;
    push_number(text, conflict.bodies)?;
    text.push_str("\n")?;
    Ok(())
}

// Adds the lines of conflicts.
fn push_conflicts(alloc: Global, text: &mut String, list: &[Conflict]) -> Result<(), Memory>
    ensures { OnOk result
        (string_bytes text.new ≡ string_bytes text.old ++ flat_map conflict_line list.now) }
{
    for conflict in list {
        push_conflict(alloc, text, conflict)?;
    }
    Ok(())
}

// How many volumes hold all the bodies, each at most one of a name.
fn volumes_of(list: &[Conflict]) -> usize
    ensures { result ≡ volumes_of list.now }
{
    list.iter()
        .map(|conflict| conflict.bodies)
        .max()
        .unwrap_or(1)
}

/// A line for each conflict, in order: what has several bodies, and how many. Then the number of
/// volumes.
///
/// # Errors
/// `Memory` where a growth was refused.
pub fn conflicts_text(alloc: Global, list: &ConflictList) -> Result<String, Memory>
    ensures { IfOk result (λ text. string_bytes text ≡ conflict_text list.now) }
{
    let list = list.as_slice();
    let mut text = String::new(alloc);
    push_conflicts(alloc, &mut text, list)?;
    text.push_str("volumes ")?;
    push_number(&mut text, volumes_of(list))?;
    text.push_str("\n")?;
    Ok(text)
}
