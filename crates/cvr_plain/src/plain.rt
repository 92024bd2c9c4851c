use crate::tallying::{row_in, tally_in, totals_in};
use cdf_check::Definition;
use cdf_types::{Body, Memory, ReadFault};
use cvr_facts::{HeaderFact, RecordName, SnapshotFact};
use cvr_lists::conflicts::{conflicts_in, greatest_count_in};
use cvr_lists::devices::{device_body_in, device_count_in, next_device_in};
use cvr_lists::putting::{own_devices, put_copies, put_in};
use cvr_lists::reading::read_facts;
use cvr_lists::record_lists::record_facts_in;
use cvr_lists::records::{current_in, header_in, next_record_in, record_count_in};
use cvr_lists::shared::SharedFact;
use cvr_office::{ConflictList, JoinFault, Office, Receipt, RecordFacts};
use cvr_tally::{Row, RowKey, Totals};
use std::alloc::Global;
use std::marker::Model;

/// An office that keeps its facts in one list, and computes each answer anew from it.
pub struct PlainOffice {
    definition: Definition,
    facts: Vec<SharedFact>,
}

// By hand: what holds one has shorter proofs than with a derived `Drop`.
impl Drop for PlainOffice {
    fn drop(self) {
        let PlainOffice {
            definition: _,
            facts: _,
        } = self;
    }
}

impl Model for PlainOffice {
    ghost use Rattle.cvr_office.specs.Plain.{Content, coded_content, content_of, IsPlain};

    ghost Value = { Content };

    ghost coded = { coded_content };

    ghost view = { λ a. content_of a.definition a.facts.items };

    ghost invariant = { λ a. IsPlain a.definition a.facts.items };
}

impl Office for PlainOffice {
    ghost held = { λ o. o.facts };

    ghost defined = { λ o. o.frame };

    fn new(alloc: Global, definition: Definition) -> Result<Self, Memory> {
        let mut facts = Vec::new(alloc);
        put_in(&mut facts, own_devices(alloc, &definition)?)?;
        definition.made_of_a_report();
        Ok(PlainOffice { definition, facts })
    }

    fn definition(&self) -> &Definition {
        &self.definition
    }

    fn import(&mut self, bytes: &[u8]) -> Result<Receipt, ReadFault> {
        let alloc = *self.facts.allocator();
        let mut file = read_facts(alloc, &self.definition, bytes)?;
        let cvrs = file.cvrs;
        file.devices.append(&mut file.records)?;
        let new_facts = put_in(&mut self.facts, file.devices)?;
        Ok(Receipt { cvrs, new_facts })
    }

    fn join(&mut self, other: &Self) -> Result<usize, JoinFault> {
        if !self.definition.same(&other.definition) {
            return Err(JoinFault::OtherDefinition);
        }
        match put_copies(&mut self.facts, &other.facts) {
            Ok(new_facts) => Ok(new_facts),
            Err(_) => Err(JoinFault::Memory),
        }
    }

    fn same(&self, other: &Self) -> bool {
        self.facts == other.facts && self.definition.same(&other.definition)
    }

    fn current(&self, key: &RecordName) -> Option<&SnapshotFact> {
        current_in(&self.facts, key)
    }

    fn header(&self, key: &RecordName) -> Option<&HeaderFact> {
        header_in(&self.facts, key)
    }

    fn record_facts(
        &self,
        alloc: Global,
        key: &RecordName,
    ) -> Result<Option<RecordFacts<'_>>, Memory> {
        let found = record_facts_in(alloc, &self.facts, key)?;
        Ok(found)
    }

    fn next_record(&self, after: Option<&RecordName>) -> Option<&RecordName> {
        next_record_in(&self.facts, after)
    }

    fn next_device(&self, after: Option<&str>) -> Option<&str> {
        next_device_in(&self.facts, after)
    }

    fn device_count(&self, id: &str) -> usize {
        device_count_in(&self.facts, id)
    }

    fn device_body(&self, id: &str, k: usize) -> Option<&Body> {
        device_body_in(&self.facts, id, k)
    }

    fn conflicts(&self, alloc: Global) -> Result<ConflictList, Memory> {
        conflicts_in(alloc, &self.facts)
    }

    fn row(&self, alloc: Global, key: &RowKey) -> Result<Option<Row>, Memory> {
        let found = row_in(alloc, &self.definition, &self.facts, key)?;
        Ok(found)
    }

    fn totals(&self, alloc: Global) -> Result<Totals, Memory> {
        let totals = totals_in(alloc, &self.definition, &self.facts)?;
        Ok(totals)
    }

    fn tally_text(&self, alloc: Global) -> Result<String, Memory> {
        let text = tally_in(alloc, &self.definition, &self.facts)?;
        Ok(text)
    }

    fn record_count(&self) -> usize {
        record_count_in(&self.facts)
    }

    fn fact_count(&self) -> usize {
        self.facts.len()
    }

    fn greatest_count(&self) -> usize {
        greatest_count_in(&self.facts)
    }
}
