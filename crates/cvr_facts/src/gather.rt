ghost use Rattle.std.specs.Prelude.{◌≡◌, ◌++◌, ℕ, List, IfOk, OnOk, map};
ghost use Rattle.std.specs.List.{Contains, flat_map};
ghost use Rattle.std.specs.FinSet.{from_list};
ghost use Rattle.cdf_types.specs.declared.report.Cvr.{Cvr};
ghost use Rattle.cdf_typed.specs.Range.{SnapshotInRange, CvrInRange, ReportInRange};
ghost use Rattle.cvr_fact_types.specs.Facts.{fact_cmp};
ghost use Rattle.cvr_facts.specs.Lists.{record_name, stated_device, stated_header, stated_snapshot};
ghost use Rattle.cvr_facts.specs.Lists.{stated_snapshots, stated_list, facts_in, ListsRise};
ghost use Rattle.cvr_facts.specs.Lists.{AreFactsOf, IsReportOf};
ghost use Rattle.cvr_facts.specs.Reports.{facts};
ghost use Rattle.cvr_facts.specs.Stands.{ListIsSpelled};

use crate::list::{FactList, in_order};
use crate::sums::sums_in;
use cdf_definition::Definition;
use cdf_types::{Cvr, Memory, Report, ReportingDevice, Snapshot};
use cvr_fact_types::text::copy_optional;
use cvr_fact_types::{DeviceFact, HeaderFact, RecordName, SnapshotFact};
use std::alloc::Global;

/// The facts of a report that was accepted beside a definition, each once and in order: of each
/// reporting device, of each cast vote record and of each of its snapshots, with the sums of its
/// contests (NIST SP 1500-103, class CastVoteRecordReport).
///
/// That the report is in range is what `check_report` ensures (`range`).
///
/// # Errors
/// `Memory` where a growth was refused.
pub fn facts_of(alloc: Global, definition: &Definition, report: &Report) -> Result<FactList, Memory>
    requires { ReportInRange definition.now.contests report.now }
    ensures facts { IfOk result
        (λ list. from_list {R = fact_cmp} (facts_in list)
        ≡ from_list (facts_in (stated_list definition.now.contests report.now))) }
    ensures once { IfOk result ListsRise }
    ensures stated { IfOk result (AreFactsOf definition.now.contests report.now) }
    ensures file { IfOk result
        (λ list. (bytes : List ℕ) → IsReportOf definition.now bytes report.now
        → from_list (facts_in list) ≡ facts bytes) }
    ensures spelled { IfOk result
        (λ list. (bytes : List ℕ) → IsReportOf definition.now bytes report.now
        → ListIsSpelled definition.now.contests list) }
{
    let devices = devices_in(alloc, report.devices.as_slice())?;
    let headers = headers_in(alloc, report.cvrs.as_slice())?;
    let snapshots = snapshots_in(alloc, definition, report.cvrs.as_slice())?;
    Ok(FactList {
        devices: in_order(devices),
        headers: in_order(headers),
        snapshots: in_order(snapshots),
    })
}

// The facts of the devices, in order of the file.
fn devices_in(alloc: Global, devices: &[ReportingDevice]) -> Result<Vec<DeviceFact>, Memory>
    ensures { IfOk result (λ facts. facts.items ≡ map stated_device devices.now) }
{
    let mut facts = Vec::with_capacity(alloc, devices.len())?;
    for device in devices {
        facts.push(device_of(device)?)?;
    }
    Ok(facts)
}

// The fact of a device.
fn device_of(device: &ReportingDevice) -> Result<DeviceFact, Memory>
    ensures { IfOk result (λ fact. fact ≡ stated_device device.now) }
{
    Ok(DeviceFact {
        id: device.id.copy()?,
        body: device.body.copy()?,
    })
}

// The headers of the records, in order of the file.
fn headers_in(alloc: Global, cvrs: &[Cvr]) -> Result<Vec<HeaderFact>, Memory>
    ensures { IfOk result (λ facts. facts.items ≡ map stated_header cvrs.now) }
{
    let mut facts = Vec::with_capacity(alloc, cvrs.len())?;
    for cvr in cvrs {
        facts.push(header_of(cvr)?)?;
    }
    Ok(facts)
}

// The header of a record.
fn header_of(cvr: &Cvr) -> Result<HeaderFact, Memory>
    ensures { IfOk result (λ fact. fact ≡ stated_header cvr.now) }
{
    Ok(HeaderFact {
        key: record_name(cvr)?,
        unit: copy_optional(&cvr.unit)?,
        batch: copy_optional(&cvr.batch)?,
        body: cvr.body.copy()?,
    })
}

// The name of a record.
fn record_name(cvr: &Cvr) -> Result<RecordName, Memory>
    ensures { IfOk result (λ name. name ≡ record_name cvr.now) }
{
    Ok(RecordName {
        device: cvr.device.copy()?,
        unique: cvr.unique.copy()?,
    })
}

// The snapshots of all the records, in order of the file.
fn snapshots_in(
    alloc: Global,
    definition: &Definition,
    cvrs: &[Cvr],
) -> Result<Vec<SnapshotFact>, Memory>
    requires { (cvr : Cvr) → Contains cvrs.now cvr → CvrInRange definition.now.contests cvr }
    ensures { IfOk result
        (λ facts. facts.items ≡ flat_map (stated_snapshots definition.now.contests) cvrs.now) }
{
    let mut facts = Vec::new(alloc);
    for cvr in cvrs {
        add_snapshots(alloc, definition, cvr, &mut facts)?;
    }
    Ok(facts)
}

// Adds the snapshots of a record.
fn add_snapshots(
    alloc: Global,
    definition: &Definition,
    cvr: &Cvr,
    facts: &mut Vec<SnapshotFact>,
) -> Result<(), Memory>
    requires { CvrInRange definition.now.contests cvr.now }
    ensures { OnOk result
        (facts.new.items ≡ facts.old.items ++ stated_snapshots definition.now.contests cvr.now) }
{
    for snapshot in cvr.snapshots.as_slice() {
        facts.push(snapshot_of(alloc, definition, cvr, snapshot)?)?;
    }
    Ok(())
}

// A snapshot of a record.
fn snapshot_of(
    alloc: Global,
    definition: &Definition,
    cvr: &Cvr,
    snapshot: &Snapshot,
) -> Result<SnapshotFact, Memory>
    requires { SnapshotInRange definition.now.contests snapshot.now }
    ensures { IfOk result
        (λ fact. fact ≡ stated_snapshot definition.now.contests cvr.now snapshot.now) }
{
    Ok(SnapshotFact {
        key: record_name(cvr)?,
        id: snapshot.id.copy()?,
        kind: snapshot.kind,
        moment: snapshot.moment,
        votes: sums_in(alloc, definition.contests(), snapshot.contests.as_slice())?,
        body: snapshot.body.copy()?,
    })
}
