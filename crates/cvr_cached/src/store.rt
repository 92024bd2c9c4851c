use crate::content::RecordContent;
use crate::plan::{Plan, plan_of, plan_of_contents};
use crate::taking::{carry_out, devices_growth, grow_devices};
use cdf_definition::Definition;
use cdf_types::{Memory, sum_or_memory};
use cvr_facts::RecordName;
use cvr_lists::putting;
use cvr_lists::shared::SharedFact;
use cvr_tally::Totals;
use std::alloc::Global;
use std::collections::BTreeMap;
use std::marker::Model;

// What an office keeps: the facts of devices, the contents of records, and the running totals.
#[derive(Drop)]
pub(crate) struct Store {
    pub(crate) devices: Vec<SharedFact>,
    pub(crate) records: BTreeMap<RecordName, RecordContent>,
    pub(crate) totals: Totals,
    // How many facts there are.
    pub(crate) count: usize,
}

impl Model for Store {
    ghost use Rattle.std.specs.Coded.{codes};
    ghost use Rattle.cvr_tally.specs.Rows.{coded_totals};
    ghost use Rattle.cvr_cached.specs.Held.{Stored, IsHeld};

    ghost Value = { Stored };

    ghost coded = { Prim.hlevel (codes, coded_totals) };

    ghost view = { λ s.
        record { devices = s.devices.items; records = s.records.entries; totals = s.totals } };

    ghost invariant = { λ s. IsHeld
        (record { devices = s.devices.items; records = s.records.entries; totals = s.totals })
        s.count };
}

impl Store {
    ghost use Rattle.std.specs.Prelude.{◌≡◌, ◌↔◌, ◌++◌, OnErr, IfOk, IsTrue, None, Some, List};
    ghost use Rattle.std.specs.List.{Contains};
    ghost use Rattle.std.specs.List.Sorted.{IsStrictlySortedBy};
    ghost use Rattle.cvr_fact_types.specs.declared.name.RecordName.{RecordName};
    ghost use Rattle.cvr_office.specs.declared.any_fact.AnyFact.{AnyFact};
    ghost use Rattle.cvr_office.specs.CanHold.{starting_content};
    ghost use Rattle.cvr_office.specs.Names.{record_of};
    ghost use Rattle.cvr_office.specs.Place.{fact_of, any_cmp};
    ghost use Rattle.cvr_office.specs.Plain.{set_of};
    ghost use Rattle.cvr_cached.specs.Held.{facts_of, IsCached, CanTake};
    ghost use Rattle.cvr_cached.specs.Taking.{IsPlanOf, IsTaken};

    // What an office of this definition starts with: the devices of the definition, and no record.
    pub(crate) fn new(alloc: Global, definition: &Definition) -> Result<Store, Memory>
        ensures cached { IfOk result (λ s. IsCached definition.now s) }
        ensures content { IfOk result
            (λ s. set_of (facts_of s) ≡ starting_content definition.now) }
    {
        let mut devices = Vec::new(alloc);
        putting::put_in(&mut devices, putting::own_devices(alloc, definition)?)?;
        let totals = Totals::new(alloc, definition)?;
        definition.made_of_a_report();
        let count = devices.len();
        Ok(Store {
            devices,
            records: BTreeMap::new(alloc),
            totals,
            count,
        })
    }

    // Takes in facts of devices, and those of records in order: all of them, or none. Answers how
    // many were new.
    pub(crate) fn take_in(
        &mut self,
        devices: &[SharedFact],
        more: Vec<SharedFact>,
    ) -> Result<usize, Memory>
        requires devices { (f : AnyFact) → Contains devices.now f → record_of (fact_of f) ≡ None }
        requires named { (f : AnyFact) → Contains more.items f
            → (k : RecordName) × (record_of (fact_of f) ≡ Some k) }
        requires rises { IsStrictlySortedBy any_cmp more.items }
        requires allowed { CanTake self.old (devices.now ++ more.items) }
        ensures taken { IfOk result (IsTaken self.old (devices.now ++ more.items) self.new) }
        ensures unchanged { OnErr result (self.new ≡ self.old) }
    {
        let alloc = *self.devices.allocator();
        let plan = plan_of(alloc, &self.records, more)?;
        self.settle(devices, plan)
    }

    // Takes in what another has: all of it, or nothing. Answers how many facts were new.
    pub(crate) fn take_contents(&mut self, other: &Store) -> Result<usize, Memory>
        requires { CanTake self.old (facts_of other.now) }
        ensures taken { IfOk result (IsTaken self.old (facts_of other.now) self.new) }
        ensures unchanged { OnErr result (self.new ≡ self.old) }
    {
        let alloc = *self.devices.allocator();
        let plan = plan_of_contents(alloc, &self.records, &other.records)?;
        self.settle(&other.devices, plan)
    }

    // Puts in facts of devices and what was planned: all of it, or nothing.
    fn settle(&mut self, devices: &[SharedFact], plan: Plan) -> Result<usize, Memory>
        requires { (more : List AnyFact) × IsPlanOf self.old more devices.now plan }
        ensures taken { (more : List AnyFact) → IsPlanOf self.old more devices.now plan
            → IfOk result (IsTaken self.old more self.new) }
        ensures unchanged { OnErr result (self.new ≡ self.old) }
    {
        let alloc = *self.devices.allocator();
        let (growth, longer) = devices_growth(alloc, &self.devices, devices)?;
        let new_facts = sum_or_memory(longer, plan.new_facts)?;
        let count = sum_or_memory(self.count, new_facts)?;
        let put = carry_out(alloc, &mut self.records, &mut self.totals, plan);
        // Called for their contracts: names rise in every map, and rows of totals are whole.
        let _ = self.records.len();
        self.totals.are_whole();
        put?;
        grow_devices(&mut self.devices, growth);
        self.count = count;
        Ok(new_facts)
    }

    // Whether both have the same facts. Takes no memory.
    pub(crate) fn holds_the_same(&self, other: &Store) -> bool
        ensures { IsTrue result ↔ (set_of (facts_of self.now) ≡ set_of (facts_of other.now)) }
    {
        self.devices == other.devices && self.records == other.records
    }
}
