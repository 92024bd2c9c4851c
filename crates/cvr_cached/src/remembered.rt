// What a content remembers of its facts: where its header and its current snapshot stand.
ghost use Rattle.std.specs.Prelude.{◌≡◌, ◌<◌, ◌+◌, ◌++◌, OnOk, option_map, drop};
ghost use Rattle.std.specs.Prelude.{length, map};
ghost use Rattle.std.specs.Bool.{OnTrue};
ghost use Rattle.std.specs.List.{Contains};
ghost use Rattle.std.specs.List.Sorted.{IsStrictlySortedBy};
ghost use Rattle.std.specs.Option.{IfSome, option_to_list};
ghost use Rattle.cvr_office.specs.Place.{any_cmp};
ghost use Rattle.cvr_cached.specs.Shown.{fact_at};
ghost use Rattle.cvr_cached.specs.Contents.{header_at, current_at, header_in, current_in};
ghost use Rattle.cvr_cached.specs.Contents.{current_sums};

use cdf_types::Memory;
use cvr_facts::{HeaderFact, SnapshotFact, VoteSums, choice_cmp};
use cvr_lists::shared::SharedFact;
use cvr_office::any_fact::AnyFact;

// The place of the last header.
pub(crate) fn header_place(facts: &[SharedFact]) -> Option<usize>
    ensures { header_at facts.now result ≡ header_in facts.now }
{
    let mut last = None;
    for (place, fact) in facts.iter().enumerate() {
        if let AnyFact::Header(_) = fact.fact() {
            last = Some(place);
        }
    }
    last
}

// The place of the greatest snapshot by the order of choosing.
pub(crate) fn current_place(facts: &[SharedFact]) -> Option<usize>
    ensures { current_at facts.now result ≡ current_in facts.now }
{
    let mut greatest = None;
    let mut place = facts.len();
    while place > 0 {
        place -= 1;
        greatest = greater_place(facts, place, greatest);
    }
    greatest
}

// The place of the greatest snapshot from a place on, given that of those after it.
fn greater_place(facts: &[SharedFact], place: usize, behind: Option<usize>) -> Option<usize>
    requires within { place < length facts.now }
    requires behind { current_at facts.now behind ≡ current_in (drop (place + 1) facts.now) }
    ensures { current_at facts.now result ≡ current_in (drop place facts.now) }
{
    let AnyFact::Snapshot(snapshot) = facts[place].fact() else {
        return behind;
    };
    match snapshot_at(facts, behind) {
        Some(other) if !choice_cmp(snapshot, other).is_gt() => behind,
        _ => Some(place),
    }
}

// Puts the fact at a place behind a list.
pub(crate) fn push_at(
    list: &mut Vec<SharedFact>,
    facts: &[SharedFact],
    place: Option<usize>,
) -> Result<(), Memory>
    ensures { OnOk result (list.new.items ≡ list.old.items ++ option_to_list
        (fact_at facts.now place)) }
{
    if let Some(fact) = fact_at(facts, place) {
        list.push(fact.share()?)?;
    }
    Ok(())
}

// The place of a fact among facts in order, given its place in another list.
pub(crate) fn place_among(
    facts: &[SharedFact],
    few: &[SharedFact],
    place: Option<usize>,
) -> Option<usize>
    requires rises { IsStrictlySortedBy any_cmp facts.now }
    requires among { IfSome (fact_at few.now place) (Contains facts.now) }
    ensures { fact_at facts.now result ≡ fact_at few.now place }
{
    facts.binary_search(fact_at(few, place)?).ok()
}

// The fact at a place.
fn fact_at(facts: &[SharedFact], place: Option<usize>) -> Option<&SharedFact>
    ensures { option_map (λ f. f.now) result ≡ fact_at facts.now place }
{
    facts.get(place?)
}

// The header at a place.
pub(crate) fn header_fact_at(facts: &[SharedFact], place: Option<usize>) -> Option<&HeaderFact>
    ensures { option_map (λ h. h.now) result ≡ header_at facts.now place }
{
    match facts.get(place?)?.fact() {
        AnyFact::Header(header) => Some(header),
        _ => None,
    }
}

// The snapshot at a place.
pub(crate) fn snapshot_at(facts: &[SharedFact], place: Option<usize>) -> Option<&SnapshotFact>
    ensures { option_map (λ s. s.now) result ≡ current_at facts.now place }
{
    match facts.get(place?)?.fact() {
        AnyFact::Snapshot(snapshot) => Some(snapshot),
        _ => None,
    }
}

// The sums that a content adds to the tally, by the places of its header and its current snapshot.
pub(crate) fn votes_at(
    facts: &[SharedFact],
    header: Option<usize>,
    current: Option<usize>,
) -> &[VoteSums]
    requires head { header_at facts.now header ≡ header_in facts.now }
    requires current { current_at facts.now current ≡ current_in facts.now }
    ensures { result.now ≡ current_sums facts.now }
{
    if header_fact_at(facts, header).is_none() {
        return &[];
    }
    let Some(snapshot) = snapshot_at(facts, current) else {
        return &[];
    };
    snapshot.votes.as_slice()
}

// Whether sums are of the same contests, in the same order. Takes no memory.
pub(crate) fn are_of_same_contests(sums: &[VoteSums], others: &[VoteSums]) -> bool
    ensures { OnTrue result (map (λ v. v.contest) sums.now ≡ map (λ v. v.contest) others.now) }
{
    if sums.len() != others.len() {
        return false;
    }
    for (place, one) in sums.iter().enumerate() {
        if one.contest != others[place].contest {
            return false;
        }
    }
    true
}
