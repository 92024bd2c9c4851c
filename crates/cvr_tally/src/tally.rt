ghost use Rattle.std.specs.Prelude.{◌≡◌, ◌<◌, ◌++◌, ◌∷◌, OnOk, IfOk, length, string_bytes};
ghost use Rattle.std.specs.List.{flat_map, zip};
ghost use Rattle.json.specs.Print as print;
ghost use Rattle.cvr_tally.specs.Contests.{contests_of};
ghost use Rattle.cvr_tally.specs.Text.{key_words, part_text, row_line, selection, tally_text};

use crate::contest_ids::ContestIds;
use crate::key::RowKey;
use crate::row::{Row, push_number, push_numbers};
use crate::totals::Totals;
use cdf_types::{Body, Memory};
use cvr_fact_types::text::quoted;
use std::alloc::Global;

// Adds a space and a text as a JSON string.
fn push_text(alloc: Global, text: &mut String, word: &str) -> Result<(), Memory>
    ensures { OnOk result
        (string_bytes text.new ≡ string_bytes text.old ++ 32 ∷ print.quoted word.now) }
{
    text.push_str(" ")?;
    text.push_str(quoted(alloc, word)?.as_str())?;
    Ok(())
}

// Adds a unit or a batch, or that there is none.
fn push_part(alloc: Global, text: &mut String, name: &Option<Body>) -> Result<(), Memory>
    ensures { OnOk result (string_bytes text.new ≡ string_bytes text.old ++ part_text name.now) }
{
    match name {
        None => text.push_str(" null")?,
        Some(name) => push_text(alloc, text, name.as_str())?,
    }
    Ok(())
}

// Adds the key of a row.
fn push_key(
    alloc: Global,
    text: &mut String,
    contests: &[ContestIds],
    key: &RowKey,
) -> Result<(), Memory>
    requires { key.now.contest < length contests.now }
    ensures { OnOk result
        (string_bytes text.new ≡ string_bytes text.old
        ++ key_words (contests_of contests.now) key.now) }
{
    text.push_str(quoted(alloc, contests[key.contest].id.as_str())?.as_str())?;
    push_part(alloc, text, &key.unit)?;
    push_part(alloc, text, &key.batch)?;
    Ok(())
}

// Adds the id of a selection, and its votes.
fn push_selection(alloc: Global, text: &mut String, id: &Body, votes: u128) -> Result<(), Memory>
    ensures { OnOk result
        (string_bytes text.new ≡ string_bytes text.old ++ selection (id.now, votes)) }
{
    push_text(alloc, text, id.as_str())?;
    push_number(text, votes)?;
    Ok(())
}

// Adds the selections of a contest, each with its votes.
fn push_selections(
    alloc: Global,
    text: &mut String,
    ids: &[Body],
    votes: &[u128],
) -> Result<(), Memory>
    ensures { OnOk result
        (string_bytes text.new ≡ string_bytes text.old
        ++ flat_map selection (zip ids.now votes.now)) }
{
    for (id, count) in ids.iter().zip(votes) {
        push_selection(alloc, text, id, *count)?;
    }
    Ok(())
}

// Adds the line of a row.
fn push_row(
    alloc: Global,
    text: &mut String,
    contests: &[ContestIds],
    key: &RowKey,
    row: &Row,
) -> Result<(), Memory>
    requires { key.now.contest < length contests.now }
    ensures { OnOk result
        (string_bytes text.new ≡ string_bytes text.old
        ++ row_line (contests_of contests.now) (key.now, row.now)) }
{
    let ids = contests[key.contest].selections.as_slice();
    push_key(alloc, text, contests, key)?;
    push_numbers(text, row)?;
    push_selections(alloc, text, ids, row.votes.as_slice())?;
    text.push_str("\n")?;
    Ok(())
}

/// A line for each row of a tally, in order of key: its contest, unit and batch, its numbers, and
/// the votes of each selection of the contest (NIST SP 1500-103, class CVRContest).
///
/// # Errors
/// `Memory` where a growth was refused.
pub fn tally_text(alloc: Global, totals: &Totals) -> Result<String, Memory>
    ensures { IfOk result
        (λ text. string_bytes text ≡ tally_text totals.now.contests totals.now.rows) }
{
    let contests = totals.contests();
    let mut text = String::new(alloc);
    for (key, row) in totals.rows() {
        push_row(alloc, &mut text, contests, key, row)?;
    }
    Ok(text)
}
