ghost use Rattle.std.specs.Prelude.{◌≡◌, ◌+◌, List, IfOk, [], option_map, length};
ghost use Rattle.std.specs.Ordering.{eq_by_cmp};
ghost use Rattle.std.specs.List.Sorted.{IsStrictlySortedBy};
ghost use Rattle.std.specs.Cmp.{partial_equiv_from_equiv, eq_by_cmp_equiv};
ghost use Rattle.std.specs.Cmp.Lexicographic.{pointwise, lists_equiv};
ghost use Rattle.cvr_office.specs.Place.{any_cmp, any_total};
ghost use Rattle.cvr_office.specs.Plain.{IsPut};
ghost use Rattle.cvr_office.specs.declared.any_fact.AnyFact.{AnyFact};
ghost use Rattle.cvr_cached.specs.Fresh.{AreApart};
ghost use Rattle.cvr_cached.specs.Growths.{IsGrowth, IsGrowing, grown_content};
ghost use Rattle.cvr_cached.specs.Contents.{header_in, current_in, current_sums, IsKeyOf};
ghost use Rattle.cvr_cached.specs.Shown.{HasChosen, IsShown};

use crate::growth::{Growth, grow, growth_of, no_key};
use crate::remembered::{
    current_place, header_fact_at, header_place, place_among, push_at, snapshot_at, votes_at,
};
use cdf_types::Memory;
use cvr_facts::{HeaderFact, SnapshotFact, VoteSums};
use cvr_lists::putting::{copies, put_in};
use cvr_lists::shared::SharedFact;
use cvr_tally::RowKey;
use std::alloc::Global;
use std::marker::Model;
use std::mem::replace;

// The facts of one record, each once and in order, with the places of its header and its current
// snapshot. Contracts see it as the list of its facts.
pub(crate) struct RecordContent {
    facts: Vec<SharedFact>,
    header: Option<usize>,
    current: Option<usize>,
}

// By hand: what holds one has shorter proofs than with a derived `Drop`.
impl Drop for RecordContent {
    fn drop(self) {
        let RecordContent {
            facts: _,
            header: _,
            current: _,
        } = self;
    }
}

impl Model for RecordContent {
    ghost use Rattle.std.specs.Prelude.{List};
    ghost use Rattle.cvr_office.specs.declared.any_fact.AnyFact.{AnyFact};
    ghost use Rattle.cvr_cached.specs.Contents.{IsRemembered};

    ghost Value = { List AnyFact };

    ghost view = { λ a. a.facts.items };

    ghost invariant = { λ a. IsRemembered a.facts.items a.header a.current };
}

impl RecordContent {
    // No facts. Takes no memory.
    pub(crate) fn empty(alloc: Global) -> RecordContent
        ensures { result ≡ [] }
    {
        RecordContent {
            facts: Vec::new(alloc),
            header: None,
            current: None,
        }
    }

    // These facts.
    fn of(facts: Vec<SharedFact>) -> RecordContent
        requires { IsStrictlySortedBy any_cmp facts.items }
        ensures { result ≡ facts.items }
    {
        let header = header_place(&facts);
        let current = current_place(&facts);
        RecordContent {
            facts,
            header,
            current,
        }
    }

    // What others bring, which aren't among its facts, and a few facts that show what it does then.
    pub(crate) fn growing(
        &self,
        alloc: Global,
        fresh: Vec<SharedFact>,
    ) -> Result<(RecordContent, Growth), Memory>
        requires rises { IsStrictlySortedBy any_cmp fresh.items }
        requires apart { AreApart self.now fresh.items }
        ensures growing { IfOk result (λ r. IsGrowing self.now r.0 r.1) }
        ensures put { IfOk result
            (λ r. IsPut self.now fresh.items (grown_content self.now r.0 r.1)) }
        ensures long { IfOk result (λ r. length (grown_content self.now r.0 r.1)
            ≡ length self.now + length fresh.items) }
    {
        if self.facts.is_empty() {
            let none = Growth {
                fresh: Vec::new(alloc),
                room: Vec::new(alloc),
                key: no_key(),
            };
            return Ok((RecordContent::of(fresh), none));
        }
        let few = self.shown_with(alloc, &fresh)?;
        let key = self.key()?;
        let growth = growth_of(alloc, &self.facts, fresh, key)?;
        Ok((few, growth))
    }

    // Takes in what comes, by a few facts that show what it does then. Takes no memory.
    pub(crate) fn grow(&mut self, few: RecordContent, growth: Growth)
        requires growth { IsGrowth self.old growth }
        requires shown { IsShown few (grown_content self.old few growth) }
        ensures { self.new ≡ grown_content self.old few growth }
    {
        if self.facts.is_empty() {
            *self = few;
            return;
        }
        let mut facts = self.take().into_facts();
        grow(&mut facts, growth);
        *self = few.among(facts);
    }

    // Takes it away, and leaves no facts. Takes no memory.
    pub(crate) fn take(&mut self) -> RecordContent
        ensures taken { result ≡ self.old }
        ensures left { self.new ≡ [] }
    {
        let alloc = *self.facts.allocator();
        replace(self, RecordContent::empty(alloc))
    }

    // Its facts alone.
    fn into_facts(self) -> Vec<SharedFact>
        ensures is { result.items ≡ self }
        ensures rises { IsStrictlySortedBy any_cmp self }
    {
        let RecordContent {
            facts,
            header: _,
            current: _,
        } = self;
        facts
    }

    // A few facts that show what it does once others are put in, which aren't among its own.
    fn shown_with(&self, alloc: Global, fresh: &[SharedFact]) -> Result<RecordContent, Memory>
        requires rises { IsStrictlySortedBy any_cmp fresh.now }
        requires apart { AreApart self.now fresh.now }
        ensures { IfOk result (λ shown. (new : List AnyFact) → IsPut self.now fresh.now new
            → IsShown shown new) }
    {
        let found = self.remembered(alloc)?;
        let mut facts = copies(alloc, fresh)?;
        put_in(&mut facts, found)?;
        Ok(RecordContent::of(facts))
    }

    // Its header and its current snapshot.
    fn remembered(&self, alloc: Global) -> Result<Vec<SharedFact>, Memory>
        ensures chosen { IfOk result (λ found. HasChosen found.items self.now) }
        ensures rises { IsStrictlySortedBy any_cmp self.now }
    {
        let mut found = Vec::new(alloc);
        push_at(&mut found, &self.facts, self.header)?;
        push_at(&mut found, &self.facts, self.current)?;
        Ok(found)
    }

    // More facts, which show the same.
    fn among(self, facts: Vec<SharedFact>) -> RecordContent
        requires rises { IsStrictlySortedBy any_cmp facts.items }
        requires shown { IsShown self facts.items }
        ensures { result ≡ facts.items }
    {
        let RecordContent {
            facts: few,
            header,
            current,
        } = self;
        let header = place_among(&facts, &few, header);
        let current = place_among(&facts, &few, current);
        RecordContent {
            facts,
            header,
            current,
        }
    }

    // Its facts, in order. Takes no memory.
    pub(crate) fn facts(&self) -> &[SharedFact]
        ensures is { result.now ≡ self.now }
        ensures rises { IsStrictlySortedBy any_cmp self.now }
    {
        &self.facts
    }

    // Its greatest header. Takes no memory.
    pub(crate) fn header(&self) -> Option<&HeaderFact>
        ensures { option_map (λ h. h.now) result ≡ header_in self.now }
    {
        header_fact_at(&self.facts, self.header)
    }

    // Its current snapshot. Takes no memory.
    pub(crate) fn current(&self) -> Option<&SnapshotFact>
        ensures { option_map (λ s. s.now) result ≡ current_in self.now }
    {
        snapshot_at(&self.facts, self.current)
    }

    // The sums that it adds to its rows, none if it has no header. Takes no memory.
    pub(crate) fn votes(&self) -> &[VoteSums]
        ensures { result.now ≡ current_sums self.now }
    {
        votes_at(&self.facts, self.header, self.current)
    }

    // A key of its rows.
    pub(crate) fn key(&self) -> Result<RowKey, Memory>
        ensures { IfOk result (IsKeyOf self.now) }
    {
        match self.header() {
            Some(header) => RowKey::under(header, 0),
            None => Ok(no_key()),
        }
    }
}

// Contents are equal where their facts are, in order.
impl PartialEq for RecordContent {
    ghost eq = { pointwise (eq_by_cmp any_cmp) };

    ghost laws = { partial_equiv_from_equiv (lists_equiv (eq_by_cmp_equiv any_total)) };

    fn eq(&self, other: &RecordContent) -> bool {
        self.facts == other.facts
    }
}
