ghost use Rattle.std.specs.Prelude.{◌≡◌, ℕ, List, IfOk, OnOk, string_bytes};
ghost use Rattle.std.specs.FinMap.{get};
ghost use Rattle.std.specs.Option.{IfSome};
ghost use Rattle.std.specs.List.Sorted.{IsStrictlySortedBy};
ghost use Rattle.cvr_tally.specs.declared.key.RowKey.{RowKey};
ghost use Rattle.cvr_office.specs.Place.{any_cmp};
ghost use Rattle.cvr_office.specs.Plain.{set_of, IsPlain};
ghost use Rattle.cvr_office.specs.Runs.{AreSpelled};
ghost use Rattle.cvr_office.specs.Tallied.{row, rows, tally, total_limit, IsBelow};
ghost use Rattle.cvr_office.specs.Adding.{AreSums, CurrentsAreSums, key_for, sums_for, added_sums};
ghost use Rattle.cvr_office.specs.Adding.{row_with, HaveRoom};

use cdf_check::Definition;
use cdf_types::Memory;
use cvr_facts::{HeaderFact, RecordName, VoteSums};
use cvr_lists::records::{current_in, header_in, next_record_in};
use cvr_lists::shared::SharedFact;
use cvr_tally::{Row, RowKey, Totals, tally_text};
use std::alloc::Global;

// The rows of the tally, record by record.
pub(crate) fn totals_in(
    alloc: Global,
    definition: &Definition,
    facts: &[SharedFact],
) -> Result<Totals, Memory>
    requires { IsPlain definition.now facts.now }
    ensures rows { IfOk result (λ t. t.rows ≡ rows definition.now.contests (set_of facts.now)) }
    ensures contests { IfOk result (λ t. t.contests ≡ definition.now.contests) }
    ensures below { IfOk result (λ t. (q : RowKey) → IfSome (get t.rows q) (IsBelow total_limit)) }
{
    let mut totals = Totals::new(alloc, definition)?;
    let mut next = next_record_in(facts, None);
    while let Some(name) = next {
        add_record(&mut totals, facts, name)?;
        next = next_record_in(facts, Some(name));
    }
    Ok(totals)
}

// The lines of these rows.
pub(crate) fn tally_in(
    alloc: Global,
    definition: &Definition,
    facts: &[SharedFact],
) -> Result<String, Memory>
    requires { IsPlain definition.now facts.now }
    ensures { IfOk result
        (λ text. string_bytes text ≡ tally definition.now.contests (set_of facts.now)) }
{
    let totals = totals_in(alloc, definition, facts)?;
    tally_text(alloc, &totals)
}

// The row of a key, if a record stands in it.
pub(crate) fn row_in(
    alloc: Global,
    definition: &Definition,
    facts: &[SharedFact],
    key: &RowKey,
) -> Result<Option<Row>, Memory>
    requires { IsPlain definition.now facts.now }
    ensures row { IfOk result
        (λ found. found ≡ row definition.now.contests (set_of facts.now) key.now) }
    ensures below { IfOk result (λ found. IfSome found (IsBelow total_limit)) }
{
    let totals = totals_in(alloc, definition, facts)?;
    match totals.row(key) {
        Some(row) => Ok(Some(row.copy(alloc)?)),
        None => Ok(None),
    }
}

// Adds a record to the rows that it stands in, if it has a header and a snapshot.
fn add_record(totals: &mut Totals, facts: &[SharedFact], name: &RecordName) -> Result<(), Memory>
    requires rises { IsStrictlySortedBy any_cmp facts.now }
    requires spelled { AreSpelled totals.old.contests facts.now }
    requires sums { CurrentsAreSums totals.old.contests (set_of facts.now) }
    requires room { HaveRoom totals.old.rows }
    ensures rows { OnOk result ((q : RowKey) → get totals.new.rows q
        ≡ row_with totals.old.contests q (get totals.old.rows q)
        (added_sums totals.old.contests (set_of facts.now) q name.now)) }
    ensures contests { OnOk result (totals.new.contests ≡ totals.old.contests) }
{
    let Some(header) = header_in(facts, name) else {
        return Ok(());
    };
    let Some(snapshot) = current_in(facts, name) else {
        return Ok(());
    };
    add_sums(totals, header, snapshot.votes.as_slice())
}

// Adds the sums of a snapshot to the rows of its contests under a header.
fn add_sums(totals: &mut Totals, header: &HeaderFact, votes: &[VoteSums]) -> Result<(), Memory>
    requires sums { AreSums totals.old.contests votes.now }
    requires room { HaveRoom totals.old.rows }
    ensures rows { OnOk result ((q : RowKey) → get totals.new.rows q
        ≡ row_with totals.old.contests q (get totals.old.rows q)
        (sums_for header.now.unit header.now.batch q votes.now)) }
    ensures contests { OnOk result (totals.new.contests ≡ totals.old.contests) }
{
    for sums in votes {
        let key = key_for(header, sums)?;
        totals.open_row(&key)?;
        totals.add(&key, sums);
    }
    Ok(())
}

// The key of the row that sums go to under a header.
fn key_for(header: &HeaderFact, sums: &VoteSums) -> Result<RowKey, Memory>
    ensures { IfOk result (λ key. key ≡ key_for header.now.unit header.now.batch sums.now) }
{
    RowKey::under(header, sums.contest)
}
