// A content with a key of its rows, by which these are found.
ghost use Rattle.std.specs.Prelude.{◌≡◌, ◌<◌, ◌≤◌, ◌+◌, ℕ, List, OnOk, IfOk, true, false};
ghost use Rattle.std.specs.Prelude.{if◌then◌else◌, length};
ghost use Rattle.std.specs.Bool.{OnTrue};
ghost use Rattle.std.specs.FinMap.{get};
ghost use Rattle.cvr_tally.specs.Rows.{row_closed, limit_of};
ghost use Rattle.cvr_tally.specs.declared.key.RowKey.{RowKey};
ghost use Rattle.cvr_fact_types.specs.Columns.{Column};
ghost use Rattle.cvr_cached.specs.Contents.{pairs_of, IsKeyOf};
ghost use Rattle.cvr_cached.specs.Cells.{cell, shares, has_row, is_row_of, AreFit};

use crate::content::RecordContent;
use crate::remembered::are_of_same_contests;
use cdf_types::Memory;
use cvr_tally::{RowKey, Totals};
use std::marker::Model;

// A content with a key of its rows. A key has copies of a unit and a batch, so one is made only
// where rows are changed. Contracts see it as the list of its facts.
pub(crate) struct KeyedContent {
    pub(crate) content: RecordContent,
    // It has the header's unit and batch; its contest is that of the row that was touched last.
    key: RowKey,
}

// By hand: what holds one has shorter proofs than with a derived `Drop`.
impl Drop for KeyedContent {
    fn drop(self) {
        let KeyedContent { content: _, key: _ } = self;
    }
}

impl Model for KeyedContent {
    ghost use Rattle.std.specs.Prelude.{List};
    ghost use Rattle.cvr_office.specs.declared.any_fact.AnyFact.{AnyFact};
    ghost use Rattle.cvr_cached.specs.Contents.{IsKeyOf};

    ghost Value = { List AnyFact };

    ghost view = { λ a. a.content };

    ghost invariant = { λ a. IsKeyOf a.content a.key };
}

impl KeyedContent {
    // This content, with a key made for it.
    pub(crate) fn of(content: RecordContent) -> Result<KeyedContent, Memory>
        ensures { IfOk result (λ keyed. keyed ≡ content) }
    {
        let key = content.key()?;
        Ok(KeyedContent { content, key })
    }

    // This content, with a key of its rows.
    pub(crate) fn under(content: RecordContent, key: RowKey) -> KeyedContent
        requires { IsKeyOf content key }
        ensures { result ≡ content }
    {
        KeyedContent { content, key }
    }

    // The content alone.
    pub(crate) fn into_content(self) -> RecordContent
        ensures { result ≡ self }
    {
        let KeyedContent { content, key: _ } = self;
        content
    }

    // Whether its rows are known to be those of another content: both have one unit and one batch,
    // and the same contests in the same order. Takes no memory.
    pub(crate) fn has_rows_of(&self, other: &KeyedContent) -> bool
        ensures { OnTrue result ((q : RowKey) → is_row_of self.now q ≡ is_row_of other.now q) }
    {
        let sums = self.content.votes();
        let others = other.content.votes();
        self.key.unit == other.key.unit
            && self.key.batch == other.key.batch
            && are_of_same_contests(sums, others)
    }

    // Makes those of its rows that aren't there, of zeros. After an Err some may be open.
    pub(crate) fn open_rows(&mut self, totals: &mut Totals) -> Result<(), Memory>
        requires { AreFit totals.old.contests (pairs_of self.old) }
        ensures same { self.new ≡ self.old }
        ensures here { OnOk result
            ((q : RowKey) → is_row_of self.old q ≡ true → has_row totals.new.rows q ≡ true) }
        ensures stay { (q : RowKey) → has_row totals.old.rows q ≡ true → has_row totals.new.rows q
            ≡ true }
        ensures cells { (q : RowKey) (j : Column) → cell totals.new.rows q j
            ≡ cell totals.old.rows q j }
        ensures others { (q : RowKey) → is_row_of self.old q ≡ false → get totals.new.rows q
            ≡ get totals.old.rows q }
        ensures closed { (q : RowKey) → row_closed (get totals.new.rows q)
            ≡ row_closed (get totals.old.rows q) }
        ensures moves { totals.new.moves ≡ totals.old.moves }
        ensures contests { totals.new.contests ≡ totals.old.contests }
    {
        let key = &mut self.key;
        for sums in self.content.votes() {
            key.contest = sums.contest;
            if let Err(refused) = totals.open_row(key) {
                return Err(refused);
            }
        }
        Ok(())
    }

    // Removes those of its rows that have no ballots. Takes no memory.
    pub(crate) fn close_rows(&mut self, totals: &mut Totals)
        ensures same { self.new ≡ self.old }
        ensures rows { (q : RowKey) → get totals.new.rows q
            ≡ (if is_row_of self.old q then row_closed (get totals.old.rows q)
            else get totals.old.rows q) }
        ensures moves { totals.new.moves ≡ totals.old.moves }
        ensures contests { totals.new.contests ≡ totals.old.contests }
    {
        let key = &mut self.key;
        for sums in self.content.votes() {
            key.contest = sums.contest;
            totals.close_empty(key);
        }
    }

    // Adds its sums to its rows, which are open: those of its current snapshot, if it has a header.
    // Takes no memory.
    pub(crate) fn add_votes(&mut self, totals: &mut Totals)
        requires fit { AreFit totals.old.contests (pairs_of self.old) }
        requires open_at { (q : RowKey) → is_row_of self.old q ≡ true → has_row totals.old.rows q
            ≡ true }
        requires room { (q : RowKey) (j : Column) → cell totals.old.rows q j
            + shares (pairs_of self.old) q j < limit_of j }
        ensures same { self.new ≡ self.old }
        ensures cells { (q : RowKey) (j : Column) → cell totals.new.rows q j
            ≡ cell totals.old.rows q j + shares (pairs_of self.old) q j }
        ensures stand { (q : RowKey) → has_row totals.new.rows q ≡ has_row totals.old.rows q }
        ensures moves { totals.new.moves ≡ totals.old.moves + length (pairs_of self.old) }
        ensures contests { totals.new.contests ≡ totals.old.contests }
    {
        let key = &mut self.key;
        for sums in self.content.votes() {
            key.contest = sums.contest;
            totals.add(key, sums);
        }
    }

    // Takes its sums out of its rows. Takes no memory.
    pub(crate) fn take_votes(&mut self, totals: &mut Totals)
        requires fit { AreFit totals.old.contests (pairs_of self.old) }
        requires enough { (q : RowKey) (j : Column) → shares (pairs_of self.old) q j
            ≤ cell totals.old.rows q j }
        ensures same { self.new ≡ self.old }
        ensures cells { (q : RowKey) (j : Column) → cell totals.new.rows q j
            + shares (pairs_of self.old) q j ≡ cell totals.old.rows q j }
        ensures stand { (q : RowKey) → has_row totals.new.rows q ≡ has_row totals.old.rows q }
        ensures moves { totals.new.moves ≡ totals.old.moves + length (pairs_of self.old) }
        ensures contests { totals.new.contests ≡ totals.old.contests }
    {
        let key = &mut self.key;
        for sums in self.content.votes() {
            key.contest = sums.contest;
            totals.take(key, sums);
        }
    }
}
