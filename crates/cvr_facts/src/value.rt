ghost use Rattle.std.specs.Prelude.{◌≡◌, IfOk, List, false};
ghost use Rattle.serde_json.specs.Written.{has_float};
ghost use Rattle.cdf_node.specs.View.{view};
ghost use Rattle.cdf_parts.specs.Places.{Contest};
ghost use Rattle.cdf_typed.specs.Typed.{cvr_of, snapshot_of};
ghost use Rattle.cdf_typed.specs.Range.{SnapshotInRange};
ghost use Rattle.cvr_facts.specs.Lists.{stated_header, stated_under, record_name};

use crate::sums::sums_in;
use cdf_node::Node;
use cdf_parts::contests::Contests;
use cdf_parts::{items_at, text_at, text_in};
use cdf_typed::{compact, header_text, kind_of, moment_of, own_text, own_text_in};
use cdf_types::Memory;
use cvr_fact_types::{HeaderFact, RecordName, SnapshotFact};
use std::alloc::Global;

/// The header of a record, straight from its value.
///
/// # Errors
/// `Memory` where a growth was refused.
pub fn header_in(alloc: Global, cvr: &Node<'_>) -> Result<HeaderFact, Memory>
    requires { has_float (view cvr.now) ≡ false }
    ensures { IfOk result (λ fact. (contests : List Contest)
        → fact ≡ stated_header (cvr_of contests (view cvr.now))) }
{
    Ok(HeaderFact {
        key: name_in(alloc, cvr)?,
        unit: own_text_in(alloc, text_in("BallotStyleUnitId", cvr))?,
        batch: own_text_in(alloc, text_in("BatchId", cvr))?,
        body: header_text(alloc, cvr)?,
    })
}

// The name of a record, straight from its value.
fn name_in(alloc: Global, cvr: &Node<'_>) -> Result<RecordName, Memory>
    ensures { IfOk result (λ name. (contests : List Contest)
        → name ≡ record_name (cvr_of contests (view cvr.now))) }
{
    Ok(RecordName {
        device: own_text(alloc, text_at("CreatingDeviceId", cvr))?,
        unique: own_text(alloc, text_at("UniqueId", cvr))?,
    })
}

/// A snapshot of the record with this name, straight from its value.
///
/// # Errors
/// `Memory` where a growth was refused.
pub fn snapshot_in(
    alloc: Global,
    contests: &Contests,
    key: &RecordName,
    snapshot: &Node<'_>,
) -> Result<SnapshotFact, Memory>
    requires whole { has_float (view snapshot.now) ≡ false }
    requires range { SnapshotInRange contests.now (snapshot_of contests.now (view snapshot.now)) }
    ensures { IfOk result (λ fact. fact
        ≡ stated_under contests.now key.now (snapshot_of contests.now (view snapshot.now))) }
{
    Ok(SnapshotFact {
        key: key.copy()?,
        id: own_text(alloc, text_at("@id", snapshot))?,
        kind: kind_of(snapshot),
        moment: moment_of(snapshot),
        votes: sums_in(alloc, contests, items_at("CVRContest", snapshot))?,
        body: compact(alloc, snapshot)?,
    })
}
