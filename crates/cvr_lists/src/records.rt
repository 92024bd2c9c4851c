ghost use Rattle.std.specs.Prelude.{◌≡◌, List, OnOk, IfOk, take, drop, option_map, None, false};
ghost use Rattle.std.specs.Prelude.{not, length};
ghost use Rattle.cdf_parts.specs.Places.{Contest};
ghost use Rattle.std.specs.List.{last_or, filter, Contains};
ghost use Rattle.std.specs.List.Sorted.{IsStrictlySortedBy};
ghost use Rattle.std.specs.Ordering.{is_lt};
ghost use Rattle.cvr_fact_types.specs.Facts.{name_cmp};
ghost use Rattle.cvr_facts.specs.Stands.{IsSpelledHeader};
ghost use Rattle.cvr_office.specs.declared.any_fact.AnyFact.{AnyFact};
ghost use Rattle.cvr_office.specs.declared.any_fact.AnyFact.TheVariants as any;
ghost use Rattle.cvr_office.specs.Names.{record_of, records};
ghost use Rattle.cvr_office.specs.Place.{fact_of, any_cmp};
ghost use Rattle.cvr_office.specs.Plain.{set_of};
ghost use Rattle.cvr_office.specs.Readers.{next, IsHeader, IsCurrent};
ghost use Rattle.cvr_office.specs.Runs.{record_order, is_of, first_record, run, headers, snapshots};
ghost use Rattle.cvr_office.specs.Runs.{chosen_snapshot, IsChosen, AreSpelled};

use crate::shared::SharedFact;
use cdf_types::Memory;
use cvr_facts::{HeaderFact, RecordName, SnapshotFact, choice_cmp};
use cvr_office::any_fact::AnyFact;
use std::alloc::Global;
use std::cmp::Ordering;
use std::collections::VecDeque;

// The least record name above the given one, or the least of all. Takes no memory.
pub fn next_record_in<'a>(
    facts: &'a [SharedFact],
    after: Option<&RecordName>,
) -> Option<&'a RecordName>
    requires { IsStrictlySortedBy any_cmp facts.now }
    ensures { option_map (λ k. k.now) result
        ≡ next name_cmp (records (set_of facts.now)) (option_map (λ k. k.now) after.entry) }
{
    let place = facts.partition_point(|fact| record_name(fact) <= after);
    record_name(facts.get(place)?)
}

// How many records there are. Takes no memory.
pub fn record_count_in(facts: &[SharedFact]) -> usize
    requires { IsStrictlySortedBy any_cmp facts.now }
    ensures { result ≡ length (records (set_of facts.now)) }
{
    let mut count = 0;
    let mut last = None;
    for fact in facts {
        let name = record_name(fact);
        if name > last {
            count += 1;
            last = name;
        }
    }
    count
}

// The record that a fact is of, if it is of one.
fn record_name(fact: &SharedFact) -> Option<&RecordName>
    ensures { option_map (λ k. k.now) result ≡ record_of (fact_of fact.now) }
{
    match fact.fact() {
        AnyFact::Device(_) => None,
        AnyFact::Header(header) => Some(&header.key),
        AnyFact::Snapshot(snapshot) => Some(&snapshot.key),
    }
}

// How a fact's record stands to this one; a device stands before all records.
fn record_order(fact: &SharedFact, key: &RecordName) -> Ordering
    ensures { result ≡ record_order key.now fact.now }
{
    match fact.fact() {
        AnyFact::Device(_) => Ordering::Less,
        AnyFact::Header(header) => header.key.cmp(key),
        AnyFact::Snapshot(snapshot) => snapshot.key.cmp(key),
    }
}

// The facts of a record: its headers, then its snapshots by id.
pub(crate) fn run_of<'a>(facts: &'a [SharedFact], key: &RecordName) -> &'a [SharedFact]
    requires { IsStrictlySortedBy any_cmp facts.now }
    ensures { result.now ≡ run key.now facts.now }
{
    let start = facts.partition_point(|fact| record_order(fact, key).is_lt());
    let rest = &facts[start..];
    let end = rest.partition_point(|fact| record_order(fact, key).is_eq());
    &rest[..end]
}

// The record of the first fact, if it is of one. Takes no memory.
pub fn first_record(facts: &VecDeque<SharedFact>) -> Option<&RecordName>
    ensures { option_map (λ k. k.now) result ≡ first_record facts.now.items }
{
    record_name(facts.front()?)
}

// Takes the facts of a record out of facts in order, of which none is of a lesser record.
pub fn take_run(
    alloc: Global,
    facts: &mut VecDeque<SharedFact>,
    key: &RecordName,
) -> Result<Vec<SharedFact>, Memory>
    requires rises { IsStrictlySortedBy any_cmp facts.old.items }
    requires least { (x : AnyFact) → Contains facts.old.items x → is_lt (record_order key.now x)
        ≡ false }
    ensures run { IfOk result (λ taken. taken.items ≡ run key.now facts.old.items) }
    ensures rest { OnOk result
        (facts.new.items ≡ filter (λ x. not (is_of key.now x)) facts.old.items) }
{
    let count = facts.partition_point(|fact| record_order(fact, key).is_eq());
    take_front(alloc, facts, count)
}

// Takes so many facts from the front.
fn take_front(
    alloc: Global,
    facts: &mut VecDeque<SharedFact>,
    count: usize,
) -> Result<Vec<SharedFact>, Memory>
    ensures front { IfOk result (λ taken. taken.items ≡ take count facts.old.items) }
    ensures rest { OnOk result (facts.new.items ≡ drop count facts.old.items) }
{
    let mut taken = Vec::with_capacity(alloc, count)?;
    for place in 0..count {
        if let Some(fact) = facts.pop_front() {
            taken.push(fact)?;
        }
    }
    Ok(taken)
}

// The header of a record: the last of its run.
pub fn header_in<'a>(facts: &'a [SharedFact], key: &RecordName) -> Option<&'a HeaderFact>
    requires rises { IsStrictlySortedBy any_cmp facts.now }
    requires spelled { (h : HeaderFact) → Contains facts.now (any.Header h) → IsSpelledHeader h }
    ensures { IsHeader (set_of facts.now) key.now (option_map (λ h. h.now) result) }
{
    last_header(run_of(facts, key))
}

fn last_header(run: &[SharedFact]) -> Option<&HeaderFact>
    ensures { option_map (λ h. h.now) result ≡ last_or None (headers run.now) }
{
    let mut last = None;
    for fact in run {
        if let AnyFact::Header(header) = fact.fact() {
            last = Some(header);
        }
    }
    last
}

// The current snapshot of a record: the greatest of its run by the order of choosing.
pub fn current_in<'a>(facts: &'a [SharedFact], key: &RecordName) -> Option<&'a SnapshotFact>
    requires { IsStrictlySortedBy any_cmp facts.now }
    ensures { (contests : List Contest) → AreSpelled contests facts.now
        → IsCurrent contests (set_of facts.now) key.now (option_map (λ s. s.now) result) }
{
    greatest_snapshot(run_of(facts, key))
}

fn greatest_snapshot(run: &[SharedFact]) -> Option<&SnapshotFact>
    ensures { IsChosen (snapshots run.now) (option_map (λ s. s.now) result) }
{
    let mut greatest = None;
    for fact in run {
        if let AnyFact::Snapshot(snapshot) = fact.fact() {
            greatest = Some(greater(greatest, snapshot));
        }
    }
    greatest
}

// The greater of two snapshots, or the only one.
fn greater<'a>(one: Option<&'a SnapshotFact>, other: &'a SnapshotFact) -> &'a SnapshotFact
    ensures { result.now ≡ chosen_snapshot (option_map (λ s. s.now) one.entry) other.now }
{
    match one {
        Some(one) if choice_cmp(one, other).is_gt() => one,
        _ => other,
    }
}
