// Puts what is taken in beside what stands: all of it, or none.
ghost use Rattle.std.specs.Prelude.{◌≡◌, ◌+◌, OnOk, OnErr, IfOk, length};
ghost use Rattle.std.specs.List.{sum_by};
ghost use Rattle.std.specs.List.Sorted.{IsStrictlySortedBy};
ghost use Rattle.std.specs.Option.{IfSome};
ghost use Rattle.std.specs.Map.{values_of};
ghost use Rattle.std.specs.BTreeMap.{get};
ghost use Rattle.cvr_fact_types.specs.declared.name.RecordName.{RecordName};
ghost use Rattle.cvr_fact_types.specs.Facts.{name_cmp};
ghost use Rattle.cvr_office.specs.Place.{any_cmp};
ghost use Rattle.cvr_office.specs.Plain.{IsPut};
ghost use Rattle.cvr_cached.specs.Contents.{facts_at};
ghost use Rattle.cvr_cached.specs.Cells.{total, IsTableOf};
ghost use Rattle.cvr_cached.specs.Growths.{IsGrowth, AreGrowing, grown};
ghost use Rattle.cvr_cached.specs.Plans.{planned, content_with, all_moves, AreTallied, IsRoomy};

use crate::commit::commit_all;
use crate::content::RecordContent;
use crate::growth::{Growth, grow, growth_of, no_key};
use crate::names::{close_names, open_names};
use crate::plan::{Plan, fresh_of, has_all};
use crate::rows::{add_rows, close_rows, open_rows};
use cdf_types::Memory;
use cvr_facts::RecordName;
use cvr_lists::putting::put_copies;
use cvr_lists::shared::SharedFact;
use cvr_tally::Totals;
use std::alloc::Global;
use std::collections::BTreeMap;

// What others bring to the devices, unless these are all among them, and how many they are.
pub(crate) fn devices_growth(
    alloc: Global,
    devices: &[SharedFact],
    theirs: &[SharedFact],
) -> Result<(Option<Growth>, usize), Memory>
    requires { IsStrictlySortedBy any_cmp devices.now }
    ensures growth { IfOk result (λ r. IfSome r.0 (IsGrowth devices.now)) }
    ensures put { IfOk result (λ r. IsPut devices.now theirs.now (grown devices.now r.0)) }
    ensures longer { IfOk result (λ r.
        length devices.now + r.1 ≡ length (grown devices.now r.0)) }
{
    if has_all(devices, theirs) {
        return Ok((None, 0));
    }
    let mut more = Vec::new(alloc);
    put_copies(&mut more, theirs)?;
    let growth = growth_of(alloc, devices, fresh_of(devices, more), no_key())?;
    let longer = growth.fresh.len();
    Ok((Some(growth), longer))
}

// Puts what comes among the devices, if anything does. Takes no memory.
pub(crate) fn grow_devices(devices: &mut Vec<SharedFact>, growth: Option<Growth>)
    requires rises { IsStrictlySortedBy any_cmp devices.old.items }
    requires growth { IfSome growth (IsGrowth devices.old.items) }
    ensures { devices.new.items ≡ grown devices.old.items growth }
{
    if let Some(growth) = growth {
        grow(devices, growth);
    }
}

// Carries out a plan: all of it, or nothing.
pub(crate) fn carry_out(
    alloc: Global,
    records: &mut BTreeMap<RecordName, RecordContent>,
    totals: &mut Totals,
    plan: Plan,
) -> Result<(), Memory>
    requires tallied { AreTallied records.old.entries totals.old.rows }
    requires growing { AreGrowing (get name_cmp records.old) plan.contents.items
        plan.growths.items }
    requires room { IsRoomy totals.old.contests records.old.entries
        (planned (get name_cmp records.old) plan) }
    ensures records { OnOk result ((q : RecordName) → get name_cmp records.new q
        ≡ content_with (planned (get name_cmp records.old) plan) (get name_cmp records.old) q) }
    ensures counted { OnOk result (sum_by length (values_of records.new.entries)
        + sum_by (λ c. length (facts_at (get name_cmp records.old c.0)))
        (planned (get name_cmp records.old) plan) ≡ sum_by length (values_of records.old.entries)
        + sum_by (λ c. length c.1) (planned (get name_cmp records.old) plan)) }
    ensures agrees { OnOk result (IsTableOf (total records.new.entries) totals.new.rows) }
    ensures moves { OnOk result (totals.new.moves ≡ totals.old.moves
        + all_moves (get name_cmp records.old) (planned (get name_cmp records.old) plan)) }
    ensures contests { totals.new.contests ≡ totals.old.contests }
    ensures unchanged { OnErr result ((totals.new ≡ totals.old)
        × ((q : RecordName) → get name_cmp records.new q ≡ get name_cmp records.old q)) }
{
    let Plan {
        mut contents,
        growths,
        new_facts: _,
    } = plan;
    if let Err(refused) = open_names(alloc, records, &contents) {
        close_names(records, &contents);
        return Err(refused);
    }
    if let Err(refused) = open_rows(totals, &mut contents) {
        close_rows(totals, &mut contents);
        close_names(records, &contents);
        return Err(refused);
    }
    add_rows(totals, &mut contents);
    commit_all(records, totals, contents, growths);
    Ok(())
}
