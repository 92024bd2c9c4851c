ghost use Rattle.std.specs.Prelude.{◌≡◌, IfOk, map, false, bytes_eq, option_map};
ghost use Rattle.std.specs.List.{list_any, position};
ghost use Rattle.serde_json.specs.Written.{has_float, compact_text};
ghost use Rattle.cdf_node.specs.View.{view, members_view};
ghost use Rattle.cdf_parts.specs.Removing.{without};
ghost use Rattle.cdf_typed.specs.Instants.{later};
ghost use Rattle.cdf_typed.specs.Typed.{kind_of, instant_in, moment_of, snapshot_of, header_of};
ghost use Rattle.cdf_typed.specs.Typed.{cvr_of, device_of, report_of};

use crate::listed::kind_named;
use crate::votes::read_contests;
use cdf_node::Node;
use cdf_parts::contests::Contests;
use cdf_parts::{instant, items_at, text_at, text_in};
use cdf_types::{Body, Cvr, Memory, Moment, Report, ReportingDevice, Seq, Snapshot, SnapshotKind};
use std::alloc::Global;

/// A text of its own.
///
/// # Errors
/// `Memory` where a growth was refused.
pub fn own_text(alloc: Global, text: &str) -> Result<Body, Memory>
    ensures { IfOk result (λ b. b ≡ text.now) }
{
    Ok(Body::new(String::from_str(alloc, text)?))
}

/// A text of its own, if there is one.
///
/// # Errors
/// `Memory` where a growth was refused.
pub fn own_text_in(alloc: Global, text: Option<&str>) -> Result<Option<Body>, Memory>
    ensures { IfOk result (λ b. b ≡ option_map (λ s. s.now) text.entry) }
{
    match text {
        None => Ok(None),
        Some(text) => Ok(Some(own_text(alloc, text)?)),
    }
}

/// The compact text of a value. It has no room for more: such texts are most of what a report
/// holds.
///
/// # Errors
/// `Memory` where a growth was refused.
pub fn compact(alloc: Global, value: &Node<'_>) -> Result<Body, Memory>
    requires { has_float (view value.now) ≡ false }
    ensures { IfOk result (λ b. b ≡ compact_text (view value.now)) }
{
    let mut text = value.to_string(alloc)?;
    text.shrink_to_fit();
    Ok(Body::new(text))
}

/// The kind of a snapshot (member Type), `Original` where it names none. Takes no memory.
pub fn kind_of(snapshot: &Node<'_>) -> SnapshotKind
    ensures { result ≡ kind_of (view snapshot.now) }
{
    kind_named(text_at("Type", snapshot)).unwrap_or(SnapshotKind::Original)
}

// The later of two instants.
fn later(one: Option<Moment>, other: Option<Moment>) -> Option<Moment>
    ensures { result ≡ later one other }
{
    match one {
        None => other,
        Some(a) => match other {
            None => one,
            Some(b) => if a > b { one } else { other },
        },
    }
}

// The instant of an annotation.
fn instant_in(annotation: &Node<'_>) -> Option<Moment>
    ensures { result ≡ instant_in (view annotation.now) }
{
    match text_in("TimeStamp", annotation) {
        None => None,
        Some(text) => match instant(text) {
            None => None,
            Some(nanoseconds) => Some(Moment::new(nanoseconds)),
        },
    }
}

/// The greatest instant of a snapshot's annotations (class Annotation, member TimeStamp). Takes no
/// memory.
pub fn moment_of(snapshot: &Node<'_>) -> Option<Moment>
    ensures { result ≡ moment_of (view snapshot.now) }
{
    let mut latest = None;
    for annotation in items_at("Annotation", snapshot) {
        latest = later(latest, instant_in(annotation));
    }
    latest
}

fn read_snapshot(alloc: Global, contests: &Contests, value: &Node<'_>) -> Result<Snapshot, Memory>
    requires { has_float (view value.now) ≡ false }
    ensures { IfOk result (λ s. s ≡ snapshot_of contests.now (view value.now)) }
{
    Ok(Snapshot {
        id: own_text(alloc, text_at("@id", value))?,
        kind: kind_of(value),
        moment: moment_of(value),
        contests: read_contests(alloc, contests, items_at("CVRContest", value))?,
        body: compact(alloc, value)?,
    })
}

fn read_snapshots(
    alloc: Global,
    contests: &Contests,
    values: &[Node<'_>],
) -> Result<Seq<Snapshot>, Memory>
    requires { list_any has_float (map view values.now) ≡ false }
    ensures { IfOk result (λ s. s ≡ map (snapshot_of contests.now) (map view values.now)) }
{
    let mut snapshots = Vec::with_capacity(alloc, values.len())?;
    for value in values {
        snapshots.push(read_snapshot(alloc, contests, value)?)?;
    }
    Ok(Seq::new(snapshots))
}

// The place of the member of a name.
fn place_of(members: &[(&str, Node<'_>)], name: &str) -> Option<usize>
    ensures { result ≡ position (λ member. bytes_eq name.now member.0.now) members.now }
{
    members.iter().position(|member| name == member.0)
}

// Takes out the member of a name.
fn take_out<'t>(members: &mut Vec<(&'t str, Node<'t>)>, name: &str)
    ensures { members_view members.new.items ≡ without name.now (members_view members.old.items) }
{
    if let Some(place) = place_of(members, name) {
        let _ = members.remove(place);
    }
}

/// The compact text of a record without its members CVRSnapshot and CurrentSnapshotId.
///
/// # Errors
/// `Memory` where a growth was refused.
pub fn header_text(alloc: Global, cvr: &Node<'_>) -> Result<Body, Memory>
    requires { has_float (view cvr.now) ≡ false }
    ensures { IfOk result (λ b. b ≡ compact_text (header_of (view cvr.now))) }
{
    let Some(members) = cvr.as_object() else {
        return compact(alloc, &Node::Null);
    };
    let mut others = Vec::from_slice(alloc, members)?;
    take_out(&mut others, "CVRSnapshot");
    take_out(&mut others, "CurrentSnapshotId");
    compact(alloc, &Node::Object(&others))
}

/// The typed record of a value that has the form of a record (NIST SP 1500-103, class CVR), as
/// `read_report` gives it.
///
/// # Errors
/// `Memory` where a growth was refused.
pub fn read_cvr(alloc: Global, contests: &Contests, cvr: &Node<'_>) -> Result<Cvr, Memory>
    requires { has_float (view cvr.now) ≡ false }
    ensures { IfOk result (λ c. c ≡ cvr_of contests.now (view cvr.now)) }
{
    let device = own_text(alloc, text_at("CreatingDeviceId", cvr))?;
    let unique = own_text(alloc, text_at("UniqueId", cvr))?;
    let unit = own_text_in(alloc, text_in("BallotStyleUnitId", cvr))?;
    let batch = own_text_in(alloc, text_in("BatchId", cvr))?;
    let snapshots = read_snapshots(alloc, contests, items_at("CVRSnapshot", cvr))?;
    let body = header_text(alloc, cvr)?;
    Ok(Cvr {
        device,
        unique,
        unit,
        batch,
        body,
        snapshots,
    })
}

fn read_cvrs(alloc: Global, contests: &Contests, values: &[Node<'_>]) -> Result<Seq<Cvr>, Memory>
    requires { list_any has_float (map view values.now) ≡ false }
    ensures { IfOk result (λ s. s ≡ map (cvr_of contests.now) (map view values.now)) }
{
    let mut cvrs = Vec::with_capacity(alloc, values.len())?;
    for value in values {
        cvrs.push(read_cvr(alloc, contests, value)?)?;
    }
    Ok(Seq::new(cvrs))
}

fn read_device(alloc: Global, value: &Node<'_>) -> Result<ReportingDevice, Memory>
    requires { has_float (view value.now) ≡ false }
    ensures { IfOk result (λ d. d ≡ device_of (view value.now)) }
{
    Ok(ReportingDevice {
        id: own_text(alloc, text_at("@id", value))?,
        body: compact(alloc, value)?,
    })
}

fn read_devices(alloc: Global, values: &[Node<'_>]) -> Result<Seq<ReportingDevice>, Memory>
    requires { list_any has_float (map view values.now) ≡ false }
    ensures { IfOk result (λ s. s ≡ map device_of (map view values.now)) }
{
    let mut devices = Vec::with_capacity(alloc, values.len())?;
    for value in values {
        devices.push(read_device(alloc, value)?)?;
    }
    Ok(Seq::new(devices))
}

/// The typed report of a value that has the form of a report (NIST SP 1500-103, class
/// CastVoteRecordReport). Contests and selections are given by their places in `contests`. Where a
/// part is absent or of another kind, a default stands for it: the empty text, 0, no mark, the kind
/// `Original`, the first contest.
///
/// The typed report has no CurrentSnapshotId: code above can't rely on what a file calls current.
/// That no default stands for a part that is demanded is said of accepted files, by `defaults` of
/// `cdf_check`.
///
/// # Errors
/// `Memory` where a growth was refused.
pub fn read_report(alloc: Global, contests: &Contests, report: &Node<'_>) -> Result<Report, Memory>
    requires whole { has_float (view report.now) ≡ false }
    ensures { IfOk result (λ r. r ≡ report_of contests.now (view report.now)) }
{
    let devices = read_devices(alloc, items_at("ReportingDevice", report))?;
    let cvrs = read_cvrs(alloc, contests, items_at("CVR", report))?;
    Ok(Report { devices, cvrs })
}
