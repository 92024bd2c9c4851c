use crate::listing::{conflicts_over, greatest_count_over, next_over};
use crate::store::Store;
use cdf_check::Definition;
use cdf_types::{Body, Memory, ReadFault};
use cvr_facts::{HeaderFact, RecordName, SnapshotFact};
use cvr_lists::devices::{device_body_in, device_count_in, next_device_in};
use cvr_lists::read_facts;
use cvr_lists::record_lists::{grouped, headers_down};
use cvr_office::{ConflictList, JoinFault, Office, Receipt, RecordFacts};
use cvr_tally::{Row, RowKey, Totals, tally_text};
use std::alloc::Global;
use std::marker::Model;

/// An office that remembers what it answers: the content of each record by its name, and the rows
/// of the tally.
pub struct CachedOffice {
    definition: Definition,
    store: Store,
}

// By hand: what holds one has shorter proofs than with a derived `Drop`.
impl Drop for CachedOffice {
    fn drop(self) {
        let CachedOffice {
            definition: _,
            store: _,
        } = self;
    }
}

impl Model for CachedOffice {
    ghost use Rattle.cvr_office.specs.Plain.{content_of};
    ghost use Rattle.cvr_cached.specs.Held.{Holding, coded_holding, facts_of, IsCached};

    ghost Value = { Holding };

    ghost coded = { coded_holding };

    ghost view = { λ a. record {
      content = content_of a.definition (facts_of a.store);
      moves = a.store.totals.moves;
    } };

    ghost invariant = { λ a. IsCached a.definition a.store };
}

impl CachedOffice {
    ghost use Rattle.std.specs.Prelude.{◌≡◌};
    ghost use Rattle.std.specs.FinMap.{get};
    ghost use Rattle.std.specs.Option.{IfSome};
    ghost use Rattle.cvr_tally.specs.declared.key.RowKey.{RowKey};
    ghost use Rattle.cvr_office.specs.Tallied.{rows, total_limit, IsBelow};

    /// The running totals: the rows of the tally, which no import or join makes anew. Each number
    /// is below 2^118. Takes no memory.
    pub fn kept(&self) -> &Totals
        ensures rows { result.now.rows
            ≡ rows self.now.content.frame.contests self.now.content.facts }
        ensures contests { result.now.contests ≡ self.now.content.frame.contests }
        ensures below { (q : RowKey) → IfSome (get result.now.rows q) (IsBelow total_limit) }
        ensures moves { result.now.moves ≡ self.now.moves }
    {
        let store = &self.store;
        &store.totals
    }
}

impl Office for CachedOffice {
    ghost use Rattle.std.specs.Prelude.{◌≡◌, ◌≤◌, ◌+◌, ◌*◌, ◌⊎◌, OnOk, OnErr, IfOk, IfErr, length};
    ghost use Rattle.std.specs.Prelude.{Some};
    ghost use Rattle.std.specs.FinSet.{union};
    ghost use Rattle.cdf_parts.specs.Parts.{record_count};
    ghost use Rattle.cdf_form.specs.Reading.{IsMemory};
    ghost use Rattle.cdf_definition.specs.Acceptance.{Valid, first_refusal, value_in};
    ghost use Rattle.cdf_definition.specs.Frame.{IsSame};
    ghost use Rattle.cvr_facts.specs.Reports.{facts};
    ghost use Rattle.cvr_office.specs.Readers.{growth};
    ghost use Rattle.cvr_office.specs.declared.fault.JoinFault.TheVariants as join_fault;
    ghost use Rattle.cvr_cached.specs.Moves.{move_count};

    ghost held = { λ o. o.content.facts };

    ghost defined = { λ o. o.content.frame };

    fn new(alloc: Global, definition: Definition) -> Result<Self, Memory> {
        let store = Store::new(alloc, &definition)?;
        Ok(CachedOffice { definition, store })
    }

    fn definition(&self) -> &Definition {
        &self.definition
    }

    /// As `Office` has it. Moves count how often a row is changed: for each record that gains a
    /// fact, once for each contest of the snapshot that was current, and once for each of the one
    /// that is current then. So n new facts take at most 2 times n times the number of contests,
    /// and a refused call takes none.
    fn import(&mut self, bytes: &[u8]) -> Result<Receipt, ReadFault>
        ensures content { OnOk result
            (self.new.content.facts ≡ union self.old.content.facts (facts bytes.now)) }
        ensures valid { OnOk result (Valid self.old.content.frame bytes.now) }
        ensures cvrs { IfOk result (λ r. r.cvrs ≡ record_count (value_in bytes.now)) }
        ensures new_facts { IfOk result
            (λ r. r.new_facts ≡ growth self.old.content.facts (facts bytes.now)) }
        ensures first { IfErr result
            (λ e. ¬ IsMemory e → first_refusal self.old.content.frame bytes.now ≡ Some e) }
        ensures unchanged { OnErr result (self.new.content.facts ≡ self.old.content.facts) }
        ensures definition { self.new.content.frame ≡ self.old.content.frame }
        ensures moves { OnOk result (self.new.moves ≡ self.old.moves
            + move_count self.old.content.frame.contests self.old.content.facts
            self.new.content.facts) }
        ensures moves_rise { self.old.moves ≤ self.new.moves }
        ensures moves_few { IfOk result
            (λ r. self.new.moves ≤ self.old.moves
            + 2 * length self.old.content.frame.contests * r.new_facts) }
        ensures moves_stay { OnErr result (self.new.moves ≡ self.old.moves) }
    {
        let store = &self.store;
        let alloc = *store.devices.allocator();
        let file = read_facts(alloc, &self.definition, bytes)?;
        let (cvrs, records) = (file.cvrs, file.records);
        let new_facts = self.store.take_in(&file.devices, records)?;
        Ok(Receipt { cvrs, new_facts })
    }

    /// As `Office` has it, and moves as those of `import`.
    fn join(&mut self, other: &Self) -> Result<usize, JoinFault>
        ensures content { OnOk result
            (self.new.content.facts ≡ union self.old.content.facts other.now.content.facts) }
        ensures same { OnOk result (IsSame self.old.content.frame other.now.content.frame) }
        ensures new_facts { IfOk result
            (λ n. n ≡ growth self.old.content.facts other.now.content.facts) }
        ensures fault { IfErr result
            (λ e. ((e ≡ join_fault.OtherDefinition)
            × ¬ IsSame self.old.content.frame other.now.content.frame)
            ⊎ ((e ≡ join_fault.Memory) × IsSame self.old.content.frame other.now.content.frame)) }
        ensures unchanged { OnErr result (self.new.content.facts ≡ self.old.content.facts) }
        ensures definition { self.new.content.frame ≡ self.old.content.frame }
        ensures moves { OnOk result (self.new.moves ≡ self.old.moves
            + move_count self.old.content.frame.contests self.old.content.facts
            self.new.content.facts) }
        ensures moves_rise { self.old.moves ≤ self.new.moves }
        ensures moves_few { IfOk result
            (λ n. self.new.moves ≤ self.old.moves
            + 2 * length self.old.content.frame.contests * n) }
        ensures moves_stay { OnErr result (self.new.moves ≡ self.old.moves) }
    {
        if !self.definition.same(&other.definition) {
            return Err(JoinFault::OtherDefinition);
        }
        match self.store.take_contents(&other.store) {
            Ok(new_facts) => Ok(new_facts),
            Err(_) => Err(JoinFault::Memory),
        }
    }

    fn same(&self, other: &Self) -> bool {
        self.definition.same(&other.definition) && self.store.holds_the_same(&other.store)
    }

    fn current(&self, key: &RecordName) -> Option<&SnapshotFact> {
        let store = &self.store;
        store.records.get(key)?.current()
    }

    fn header(&self, key: &RecordName) -> Option<&HeaderFact> {
        let store = &self.store;
        store.records.get(key)?.header()
    }

    fn record_facts(
        &self,
        alloc: Global,
        key: &RecordName,
    ) -> Result<Option<RecordFacts<'_>>, Memory> {
        let store = &self.store;
        let Some(content) = store.records.get(key) else {
            return Ok(None);
        };
        let headers = headers_down(alloc, content.facts())?;
        let ids = grouped(alloc, content.facts())?;
        Ok(Some(RecordFacts { headers, ids }))
    }

    fn next_record(&self, after: Option<&RecordName>) -> Option<&RecordName> {
        let store = &self.store;
        next_over(&store.records, after)
    }

    fn next_device(&self, after: Option<&str>) -> Option<&str> {
        let store = &self.store;
        next_device_in(&store.devices, after)
    }

    fn device_count(&self, id: &str) -> usize {
        let store = &self.store;
        device_count_in(&store.devices, id)
    }

    fn device_body(&self, id: &str, k: usize) -> Option<&Body> {
        let store = &self.store;
        device_body_in(&store.devices, id, k)
    }

    fn conflicts(&self, alloc: Global) -> Result<ConflictList, Memory> {
        let store = &self.store;
        conflicts_over(alloc, &store.devices, &store.records)
    }

    fn row(&self, alloc: Global, key: &RowKey) -> Result<Option<Row>, Memory> {
        let store = &self.store;
        match store.totals.row(key) {
            Some(row) => Ok(Some(row.copy(alloc)?)),
            None => Ok(None),
        }
    }

    fn totals(&self, alloc: Global) -> Result<Totals, Memory> {
        let store = &self.store;
        let totals = store.totals.copy(alloc)?;
        Ok(totals)
    }

    fn tally_text(&self, alloc: Global) -> Result<String, Memory> {
        let store = &self.store;
        let text = tally_text(alloc, &store.totals)?;
        Ok(text)
    }

    fn record_count(&self) -> usize {
        let store = &self.store;
        store.records.len()
    }

    fn fact_count(&self) -> usize {
        let store = &self.store;
        store.count
    }

    fn greatest_count(&self) -> usize {
        let store = &self.store;
        greatest_count_over(&store.devices, &store.records)
    }
}
