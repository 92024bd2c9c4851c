ghost use Rattle.std.specs.Prelude.{◌≡◌, OnOk, IfOk, IsTrue, Some, false};
ghost use Rattle.std.specs.List.{Contains};
ghost use Rattle.std.specs.FinSet.{contains};
ghost use Rattle.cvr_office.specs.declared.any_fact.AnyFact.{AnyFact};
ghost use Rattle.std.specs.List.Sorted.{IsStrictlySortedBy};
ghost use Rattle.std.specs.BTreeMap.{get};
ghost use Rattle.cvr_fact_types.specs.Facts.{name_cmp};
ghost use Rattle.cvr_fact_types.specs.declared.name.RecordName.{RecordName};
ghost use Rattle.cvr_office.specs.Names.{record_of};
ghost use Rattle.cvr_office.specs.Place.{fact_of, any_cmp};
ghost use Rattle.cvr_office.specs.Plain.{set_of, IsPut};
ghost use Rattle.cvr_office.specs.Runs.{run};
ghost use Rattle.cvr_cached.specs.Contents.{facts_at};
ghost use Rattle.cvr_cached.specs.Fresh.{fresh, is_fresh};
ghost use Rattle.cvr_cached.specs.Plans.{IsAdded, IsPlan, IsStep};

use crate::content::RecordContent;
use crate::growth::Growth;
use crate::keyed::KeyedContent;
use cdf_types::{Memory, sum_or_memory};
use cvr_facts::RecordName;
use cvr_lists::putting::copies;
use cvr_lists::records::{first_record, take_run};
use cvr_lists::shared::SharedFact;
use std::alloc::Global;
use std::collections::{BTreeMap, VecDeque};

// What changes in contents. Those that stand are left as they are till it is carried out.
#[derive(Drop)]
pub(crate) struct Plan {
    // Of each record that gains facts a few, which show what all do then.
    pub(crate) contents: Vec<(RecordName, KeyedContent)>,
    // What comes to each of these, by place.
    pub(crate) growths: Vec<Growth>,
    // How many facts are new.
    pub(crate) new_facts: usize,
}

// What facts of records, in order, change in these contents. The facts go there record by record.
pub(crate) fn plan_of(
    alloc: Global,
    records: &BTreeMap<RecordName, RecordContent>,
    more: Vec<SharedFact>,
) -> Result<Plan, Memory>
    requires more { IsStrictlySortedBy any_cmp more.items }
    requires named { (f : AnyFact) → Contains more.items f
        → (k : RecordName) × (record_of (fact_of f) ≡ Some k) }
    requires rise { (q : RecordName)
        → IsStrictlySortedBy any_cmp (facts_at (get name_cmp records.now q)) }
    ensures { IfOk result (IsPlan (get name_cmp records.now) (λ k. run k more.items)) }
{
    let mut plan = Plan {
        contents: Vec::new(alloc),
        growths: Vec::new(alloc),
        new_facts: 0,
    };
    let mut rest = VecDeque::from(more);
    while let Some(first) = first_record(&rest) {
        let name = first.copy()?;
        let group = take_run(alloc, &mut rest, &name)?;
        add_change(alloc, &mut plan, records, name, group)?;
    }
    Ok(plan)
}

// What another office's contents change in these.
pub(crate) fn plan_of_contents(
    alloc: Global,
    records: &BTreeMap<RecordName, RecordContent>,
    theirs: &BTreeMap<RecordName, RecordContent>,
) -> Result<Plan, Memory>
    requires { (q : RecordName)
        → IsStrictlySortedBy any_cmp (facts_at (get name_cmp records.now q)) }
    ensures { IfOk result (IsPlan (get name_cmp records.now)
        (λ k. facts_at (get name_cmp theirs.now k))) }
{
    let mut plan = Plan {
        contents: Vec::new(alloc),
        growths: Vec::new(alloc),
        new_facts: 0,
    };
    for (name, content) in theirs.iter() {
        add_join(alloc, &mut plan, records, name, content)?;
    }
    Ok(plan)
}

// Adds what facts change in a record's content, if they do.
fn add_change(
    alloc: Global,
    plan: &mut Plan,
    records: &BTreeMap<RecordName, RecordContent>,
    name: RecordName,
    group: Vec<SharedFact>,
) -> Result<(), Memory>
    requires { IsStrictlySortedBy any_cmp group.items }
    ensures { OnOk result (IsStep (facts_at (get name_cmp records.now name))
        group.items name plan.old plan.new) }
{
    let none = RecordContent::empty(alloc);
    let old = records.get(&name).unwrap_or(&none);
    if has_all(old.facts(), &group) {
        return Ok(());
    }
    push_change(alloc, plan, name, old, group)
}

// Adds what another office's content of a record changes in its content, if it does.
fn add_join(
    alloc: Global,
    plan: &mut Plan,
    records: &BTreeMap<RecordName, RecordContent>,
    name: &RecordName,
    theirs: &RecordContent,
) -> Result<(), Memory>
    ensures { OnOk result (IsStep (facts_at (get name_cmp records.now name.now))
        theirs.now name.now plan.old plan.new) }
{
    let none = RecordContent::empty(alloc);
    let old = records.get(name).unwrap_or(&none);
    if has_all(old.facts(), theirs.facts()) {
        return Ok(());
    }
    let more = copies(alloc, theirs.facts())?;
    push_change(alloc, plan, name.copy()?, old, more)
}

// Adds to a plan what more facts change in a record's content, of which some are new.
fn push_change(
    alloc: Global,
    plan: &mut Plan,
    name: RecordName,
    old: &RecordContent,
    more: Vec<SharedFact>,
) -> Result<(), Memory>
    requires rises { IsStrictlySortedBy any_cmp more.items }
    requires some { (x : AnyFact) × Contains more.items x
        × (contains (set_of old.now) (fact_of x) ≡ false) }
    ensures { OnOk result (IsAdded old.now more.items name plan.old plan.new) }
{
    let fresh = fresh_of(old.facts(), more);
    let new_facts = sum_or_memory(plan.new_facts, fresh.len())?;
    let (few, growth) = old.growing(alloc, fresh)?;
    let keyed = KeyedContent::of(few)?;
    plan.contents.push((name, keyed))?;
    plan.growths.push(growth)?;
    plan.new_facts = new_facts;
    Ok(())
}

// Whether all of a group are among the facts.
pub(crate) fn has_all(facts: &[SharedFact], group: &[SharedFact]) -> bool
    requires { IsStrictlySortedBy any_cmp facts.now }
    ensures all { IsTrue result → IsPut facts.now group.now facts.now }
    ensures some { result ≡ false → (x : AnyFact)
        × Contains group.now x × (contains (set_of facts.now) (fact_of x) ≡ false) }
{
    for fact in group {
        if facts.binary_search(fact).is_err() {
            return false;
        }
    }
    true
}

// Those of more facts that aren't among the facts. Takes no memory.
pub(crate) fn fresh_of(facts: &[SharedFact], mut more: Vec<SharedFact>) -> Vec<SharedFact>
    requires { IsStrictlySortedBy any_cmp facts.now }
    ensures { result.items ≡ fresh facts.now more.items }
{
    more.retain(|fact| is_fresh(facts, fact));
    more
}

fn is_fresh(facts: &[SharedFact], fact: &SharedFact) -> bool
    ensures { IsStrictlySortedBy any_cmp facts.now → result ≡ is_fresh facts.now fact.now }
{
    facts.binary_search(fact).is_err()
}
