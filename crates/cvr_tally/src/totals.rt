ghost use Rattle.std.specs.Prelude.{◌≡◌, ◌<◌, ◌+◌, IfOk, OnOk, OnErr, IsSome, Some, false, length};
ghost use Rattle.std.specs.Option.{IfSome, option_map, unwrap_or};
ghost use Rattle.std.specs.Ordering.{is_eq};
ghost use Rattle.std.specs.BTreeMap.{get};
ghost use Rattle.std.specs.FinMap as rows;
ghost use Rattle.std.specs.Map.Iter.{ShowsInOrder, deref_pair};
ghost use Rattle.cdf_parts.specs.Places.{selections_at};
ghost use Rattle.cvr_tally.specs.declared.key.RowKey.{RowKey};
ghost use Rattle.cvr_tally.specs.declared.row.Row.{Row};
ghost use Rattle.cvr_tally.specs.Keys.{key_cmp};
ghost use Rattle.cvr_tally.specs.Contests.{contests_of};
ghost use Rattle.cvr_tally.specs.Rows.{IsTotals, HasRoom, HasSums, zero_row, row_plus, row_minus};
ghost use Rattle.cvr_tally.specs.Rows.{row_closed, rows_plus, rows_minus, rows_opened, rows_closed};

use crate::contest_ids::{ContestIds, contest_ids, copy_ids};
use crate::key::RowKey;
use crate::moves::Moves;
use crate::row::{Row, add_to, take_from};
use cdf_definition::Definition;
use cdf_types::Memory;
use cvr_fact_types::VoteSums;
use std::alloc::Global;
use std::collections::{BTreeMap, btree_map};
use std::marker::Model;

/// The rows of a tally beside the contest and selection ids of their definition. Contracts also see
/// how often a row was changed: a number without bytes at run time.
#[derive(Drop)]
pub struct Totals {
    contests: Vec<ContestIds>,
    rows: BTreeMap<RowKey, Row>,
    moves: Moves,
}

impl Model for Totals {
    ghost use Rattle.std.specs.Prelude.{map};
    ghost use Rattle.std.specs.FinMap.{from_entries};
    ghost use Rattle.cvr_tally.specs.Rows.{TotalsValue, IsTotals, coded_totals};

    ghost Value = { TotalsValue };

    ghost coded = { coded_totals };

    ghost view = { λ a. record {
      contests = map (λ c. (c.id, c.selections)) a.contests.items;
      rows = from_entries a.rows.entries;
      moves = a.moves;
    } };

    ghost invariant = { λ a. IsTotals (record {
      contests = map (λ c. (c.id, c.selections)) a.contests.items;
      rows = from_entries a.rows.entries;
      moves = a.moves;
    }) };
}

impl Totals {
    /// No rows, beside the ids of a definition.
    ///
    /// # Errors
    /// `Memory` where a growth was refused.
    pub fn new(alloc: Global, definition: &Definition) -> Result<Totals, Memory>
        ensures { IfOk result
            (λ t. t ≡ record { contests = definition.now.contests; rows = rows.empty; moves = 0 }) }
    {
        Ok(Totals {
            contests: contest_ids(alloc, definition)?,
            rows: BTreeMap::new(alloc),
            moves: Moves::new(),
        })
    }

    /// Equal rows beside equal ids. Its changes are counted from 0.
    ///
    /// # Errors
    /// `Memory` where a growth was refused.
    pub fn copy(&self, alloc: Global) -> Result<Totals, Memory>
        ensures { IfOk result
            (λ t. t ≡ record { contests = self.now.contests; rows = self.now.rows; moves = 0 }) }
    {
        let moves = Moves::new();
        Ok(Totals {
            contests: copy_ids(alloc, &self.contests)?,
            rows: copy_rows(alloc, &self.rows)?,
            moves,
        })
    }

    /// Makes a row of zeros where there is none.
    ///
    /// # Errors
    /// `Memory` where a growth was refused; nothing has then changed.
    pub fn open_row(&mut self, key: &RowKey) -> Result<(), Memory>
        requires { key.now.contest < length self.old.contests }
        ensures ok { OnOk result
            (self.new.rows ≡ rows_opened self.old.contests self.old.rows key.now) }
        ensures err { OnErr result (self.new.rows ≡ self.old.rows) }
        ensures moves { self.new.moves ≡ self.old.moves }
        ensures contests { self.new.contests ≡ self.old.contests }
    {
        let alloc = *self.contests.allocator();
        let selections = self.contests[key.contest].selections.as_slice().len();
        if let Err(refused) = open_at(alloc, &mut self.rows, key, selections) {
            return Err(refused);
        }
        Ok(())
    }

    /// Adds the sums of one ballot to an open row. Takes no memory.
    pub fn add(&mut self, key: &RowKey, sums: &VoteSums)
        requires open { IsSome (rows.get self.old.rows key.now) }
        requires votes { length sums.now.votes
            ≡ length (selections_at self.old.contests key.now.contest) }
        requires room { IfSome (rows.get self.old.rows key.now) (λ r. HasRoom r sums.now) }
        ensures rows { self.new.rows ≡ rows_plus self.old.rows key.now sums.now }
        ensures moves { self.new.moves ≡ self.old.moves + 1 }
        ensures contests { self.new.contests ≡ self.old.contests }
        ensures whole { IsTotals self.old }
    {
        add_at(&mut self.rows, key, sums);
        self.moves = self.moves.next();
    }

    /// Takes the sums of one ballot out of an open row. Takes no memory.
    pub fn take(&mut self, key: &RowKey, sums: &VoteSums)
        requires open { IsSome (rows.get self.old.rows key.now) }
        requires votes { length sums.now.votes
            ≡ length (selections_at self.old.contests key.now.contest) }
        requires has { IfSome (rows.get self.old.rows key.now) (λ r. HasSums r sums.now) }
        ensures rows { self.new.rows ≡ rows_minus self.old.rows key.now sums.now }
        ensures moves { self.new.moves ≡ self.old.moves + 1 }
        ensures contests { self.new.contests ≡ self.old.contests }
        ensures whole { IsTotals self.old }
    {
        take_at(&mut self.rows, key, sums);
        self.moves = self.moves.next();
    }

    /// Removes the row where its ballots are 0; else nothing. Takes no memory.
    pub fn close_empty(&mut self, key: &RowKey)
        ensures rows { self.new.rows ≡ rows_closed self.old.rows key.now }
        ensures moves { self.new.moves ≡ self.old.moves }
        ensures contests { self.new.contests ≡ self.old.contests }
    {
        close_at(&mut self.rows, key);
    }

    /// Does nothing. Its contract says that each row is one of a contest of the definition, with a
    /// number for each of its selections.
    pub fn are_whole(&self)
        ensures { IsTotals self.now }
    {
        let _ = self.contests();
    }

    // The ids of the contests: each row is of one of them. Takes no memory.
    pub(crate) fn contests(&self) -> &[ContestIds]
        ensures ids { contests_of result.now ≡ self.now.contests }
        ensures rows { IsTotals self.now }
    {
        self.contests.as_slice()
    }

    /// The row of a key, if it is open. Takes no memory.
    pub fn row(&self, key: &RowKey) -> Option<&Row>
        ensures { option_map (λ r. r.now) result ≡ rows.get self.now.rows key.now }
    {
        self.rows.get(key)
    }

    /// The rows in order of key. Takes no memory.
    pub fn rows(&self) -> btree_map::Iter<'_, RowKey, Row>
        ensures rest { result ≡ rows.entries self.now.rows }
        ensures runs { ShowsInOrder (deref_pair {K = RowKey} {X = Row}) }
    {
        self.rows.iter()
    }
}

// Makes a row of zeros where there is none.
fn open_at(
    alloc: Global,
    rows: &mut BTreeMap<RowKey, Row>,
    key: &RowKey,
    selections: usize,
) -> Result<(), Memory>
    ensures here { OnOk result
        (get key_cmp rows.new key.now
        ≡ Some (unwrap_or (get key_cmp rows.old key.now) (zero_row selections))) }
    ensures others { (q : RowKey) → is_eq (key_cmp key.now q) ≡ false → get key_cmp rows.new q
        ≡ get key_cmp rows.old q }
    ensures err { OnErr result ((q : RowKey) → get key_cmp rows.new q ≡ get key_cmp rows.old q) }
{
    if rows.contains_key(key) {
        return Ok(());
    }
    let fresh = key.copy()?;
    let zeros = Row::zeros(alloc, selections)?;
    rows.insert(fresh, zeros)?;
    Ok(())
}

// Adds the sums to the row of a key.
fn add_at(rows: &mut BTreeMap<RowKey, Row>, key: &RowKey, sums: &VoteSums)
    requires long { IfSome (get key_cmp rows.old key.now)
        (λ r. length sums.now.votes ≡ length r.votes) }
    requires room { IfSome (get key_cmp rows.old key.now) (λ r. HasRoom r sums.now) }
    ensures here { get key_cmp rows.new key.now
        ≡ option_map (λ r. row_plus r sums.now) (get key_cmp rows.old key.now) }
    ensures others { (q : RowKey) → is_eq (key_cmp key.now q) ≡ false → get key_cmp rows.new q
        ≡ get key_cmp rows.old q }
{
    if let Some(row) = rows.get_mut(key) {
        add_to(row, sums);
    }
}

// Takes the sums out of the row of a key.
fn take_at(rows: &mut BTreeMap<RowKey, Row>, key: &RowKey, sums: &VoteSums)
    requires long { IfSome (get key_cmp rows.old key.now)
        (λ r. length sums.now.votes ≡ length r.votes) }
    requires has { IfSome (get key_cmp rows.old key.now) (λ r. HasSums r sums.now) }
    ensures here { get key_cmp rows.new key.now
        ≡ option_map (λ r. row_minus r sums.now) (get key_cmp rows.old key.now) }
    ensures others { (q : RowKey) → is_eq (key_cmp key.now q) ≡ false → get key_cmp rows.new q
        ≡ get key_cmp rows.old q }
{
    if let Some(row) = rows.get_mut(key) {
        take_from(row, sums);
    }
}

// Removes the row of a key where it has no ballots.
fn close_at(rows: &mut BTreeMap<RowKey, Row>, key: &RowKey)
    ensures here { get key_cmp rows.new key.now ≡ row_closed (get key_cmp rows.old key.now) }
    ensures others { (q : RowKey) → is_eq (key_cmp key.now q) ≡ false → get key_cmp rows.new q
        ≡ get key_cmp rows.old q }
{
    let empty = match rows.get(key) {
        Some(row) => row.ballots == 0,
        None => false,
    };
    if empty {
        let _ = rows.remove(key);
    }
}

// Equal rows under equal keys.
fn copy_rows(alloc: Global, rows: &BTreeMap<RowKey, Row>) -> Result<BTreeMap<RowKey, Row>, Memory>
    ensures { IfOk result (λ copies. copies.entries ≡ rows.now.entries) }
{
    let mut copies = BTreeMap::new(alloc);
    for (key, row) in rows.iter() {
        copies.insert(key.copy()?, row.copy(alloc)?)?;
    }
    Ok(copies)
}
