// What is read off a map of contents as a whole.
ghost use Rattle.std.specs.Prelude.{◌≡◌, ◌++◌, ◌∷◌, IfOk, None, Some, map, option_map};
ghost use Rattle.std.specs.List.{flat_map};
ghost use Rattle.std.specs.List.Sorted.{IsStrictlySortedBy};
ghost use Rattle.std.specs.Map.{keys_of};
ghost use Rattle.cvr_fact_types.specs.Facts.{name_cmp};
ghost use Rattle.cvr_office.specs.Names.{conflicts, most, greatest_count};
ghost use Rattle.cvr_office.specs.Place.{any_cmp};
ghost use Rattle.cvr_office.specs.Plain.{set_of};
ghost use Rattle.cvr_office.specs.Readers.{next};

use crate::content::RecordContent;
use cdf_types::{Memory, Seq};
use cvr_facts::RecordName;
use cvr_lists::conflicts::{conflicts_in, greatest_count_in};
use cvr_lists::shared::SharedFact;
use cvr_office::ConflictList;
use std::alloc::Global;
use std::collections::BTreeMap;
use std::ops::Bound;

// The least name above the given one, or the least of all. Takes no memory.
pub(crate) fn next_over<'a>(
    records: &'a BTreeMap<RecordName, RecordContent>,
    after: Option<&RecordName>,
) -> Option<&'a RecordName>
    ensures { option_map (λ k. k.now) result
        ≡ next name_cmp (keys_of records.now.entries) (option_map (λ k. k.now) after.entry) }
{
    match after {
        Some(name) => next_above(records, name),
        None => least_name(records),
    }
}

// The least name above this one. Takes no memory.
fn next_above<'a>(
    records: &'a BTreeMap<RecordName, RecordContent>,
    name: &RecordName,
) -> Option<&'a RecordName>
    ensures { option_map (λ k. k.now) result
        ≡ next name_cmp (keys_of records.now.entries) (Some name.now) }
{
    match records
        .range((Bound::Excluded(name), Bound::Unbounded))
        .next()
    {
        Some((above, _)) => Some(above),
        None => None,
    }
}

// The least name of all. Takes no memory.
fn least_name(records: &BTreeMap<RecordName, RecordContent>) -> Option<&RecordName>
    ensures { option_map (λ k. k.now) result ≡ next name_cmp (keys_of records.now.entries) None }
{
    match records.first_key_value() {
        Some((least, _)) => Some(least),
        None => None,
    }
}

// The names with two bodies or more: those of devices, then record by record.
pub(crate) fn conflicts_over(
    alloc: Global,
    devices: &[SharedFact],
    records: &BTreeMap<RecordName, RecordContent>,
) -> Result<ConflictList, Memory>
    requires { IsStrictlySortedBy any_cmp devices.now }
    ensures { IfOk result
        (λ list. list ≡ conflicts (set_of devices.now)
        ++ flat_map (λ e. conflicts (set_of e.1)) records.now.entries) }
{
    let mut list = conflicts_in(alloc, devices)?.into_vec();
    for (_, content) in records.iter() {
        list.append(&mut conflicts_in(alloc, content.facts())?.into_vec())?;
    }
    Ok(Seq::new(list))
}

// The greatest number of bodies under one name, 0 where there is none. Takes no memory.
pub(crate) fn greatest_count_over(
    devices: &[SharedFact],
    records: &BTreeMap<RecordName, RecordContent>,
) -> usize
    requires { IsStrictlySortedBy any_cmp devices.now }
    ensures { result ≡ most
        (greatest_count (set_of devices.now)
        ∷ map (λ e. greatest_count (set_of e.1)) records.now.entries) }
{
    let mut greatest = greatest_count_in(devices);
    for (_, content) in records.iter() {
        greatest = greatest.max(greatest_count_in(content.facts()));
    }
    greatest
}
