ghost use Rattle.std.specs.Prelude.{◌≡◌, ℕ, List, IfOk, map, reverse, Some};
ghost use Rattle.std.specs.List.{dedup};
ghost use Rattle.cdf_parts.specs.Places.{Contest};
ghost use Rattle.std.specs.List.Sorted.{IsStrictlySortedBy};
ghost use Rattle.std.specs.Prelude.{bytes_eq};
ghost use Rattle.cvr_office.specs.Place.{any_cmp};
ghost use Rattle.cvr_office.specs.Plain.{set_of};
ghost use Rattle.cvr_office.specs.Readers.{AreRecordFacts};
ghost use Rattle.cvr_office.specs.Runs.{headers, snapshots, AreSpelled};
ghost use Rattle.cvr_lists.specs.Groups.{id_order, with_id, ids, RisesById, IsFalling, AreGrouped};

use crate::records::run_of;
use crate::shared::SharedFact;
use cdf_types::Memory;
use cvr_facts::{HeaderFact, RecordName, SnapshotFact, choice_cmp};
use cvr_office::any_fact::AnyFact;
use cvr_office::{IdFacts, RecordFacts};
use std::alloc::Global;
use std::cmp::Ordering;

// All facts of a record, where there are any.
pub fn record_facts_in<'a>(
    alloc: Global,
    facts: &'a [SharedFact],
    key: &RecordName,
) -> Result<Option<RecordFacts<'a>>, Memory>
    requires { IsStrictlySortedBy any_cmp facts.now }
    ensures { IfOk result
        (λ found. (contests : List Contest) → AreSpelled contests facts.now
        → AreRecordFacts contests (set_of facts.now) key.now found) }
{
    let run = run_of(facts, key);
    if run.is_empty() {
        return Ok(None);
    }
    let headers = headers_down(alloc, run)?;
    let ids = grouped(alloc, run)?;
    Ok(Some(RecordFacts { headers, ids }))
}

// The headers of a run, the last first.
pub fn headers_down(alloc: Global, run: &[SharedFact]) -> Result<Vec<&HeaderFact>, Memory>
    ensures { IfOk result (λ found. map (λ h. h.now) found.items ≡ reverse (headers run.now)) }
{
    let mut headers = Vec::new(alloc);
    for fact in run {
        if let AnyFact::Header(header) = fact.fact() {
            headers.push(header)?;
        }
    }
    headers.reverse();
    Ok(headers)
}

// The ids of a run's snapshots, each with its snapshots.
pub fn grouped(alloc: Global, run: &[SharedFact]) -> Result<Vec<IdFacts<'_>>, Memory>
    requires { RisesById run.now }
    ensures { IfOk result (λ groups. AreGrouped run.now groups.items) }
{
    let ids = ids_in(alloc, run)?;
    let mut groups = Vec::with_capacity(alloc, ids.len())?;
    for id in ids.iter() {
        groups.push(IdFacts {
            id,
            snapshots: falling(alloc, with_id(run, id))?,
        })?;
    }
    Ok(groups)
}

// The ids of a run's snapshots, each once.
fn ids_in(alloc: Global, run: &[SharedFact]) -> Result<Vec<&str>, Memory>
    ensures { IfOk result (λ found. map (λ i. i.now) found.items ≡ dedup bytes_eq (ids run.now)) }
{
    let mut ids = Vec::new(alloc);
    for fact in run {
        if let AnyFact::Snapshot(snapshot) = fact.fact() {
            ids.push(snapshot.id.as_str())?;
        }
    }
    ids.dedup();
    Ok(ids)
}

// How a fact's snapshot id stands to this one; a header stands before all snapshots.
fn id_order(fact: &SharedFact, id: &str) -> Ordering
    ensures { result ≡ id_order id.now fact.now }
{
    match fact.fact() {
        AnyFact::Snapshot(snapshot) => snapshot.id.as_str().cmp(id),
        _ => Ordering::Less,
    }
}

// The snapshots of a run that have this id.
fn with_id<'a>(run: &'a [SharedFact], id: &str) -> &'a [SharedFact]
    requires { RisesById run.now }
    ensures { result.now ≡ with_id id.now run.now }
{
    let start = run.partition_point(|fact| id_order(fact, id).is_lt());
    let rest = &run[start..];
    let end = rest.partition_point(|fact| id_order(fact, id).is_eq());
    &rest[..end]
}

// The snapshots among these facts, the greatest first by the order of choosing.
fn falling(alloc: Global, facts: &[SharedFact]) -> Result<Vec<&SnapshotFact>, Memory>
    ensures { IfOk result
        (λ found. IsFalling (snapshots facts.now) (map (λ s. s.now) found.items)) }
{
    let mut snapshots = snapshots_in(alloc, facts)?;
    snapshots.sort_unstable_by(|one, other| choice_cmp(one, other));
    snapshots.reverse();
    Ok(snapshots)
}

fn snapshots_in(alloc: Global, facts: &[SharedFact]) -> Result<Vec<&SnapshotFact>, Memory>
    ensures { IfOk result (λ found. map (λ s. s.now) found.items ≡ snapshots facts.now) }
{
    let mut snapshots = Vec::new(alloc);
    for fact in facts {
        if let AnyFact::Snapshot(snapshot) = fact.fact() {
            snapshots.push(snapshot)?;
        }
    }
    Ok(snapshots)
}
