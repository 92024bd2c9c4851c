// A volume, written piece by piece.
ghost use Rattle.std.specs.Prelude.{◌≡◌, ◌<◌, ◌≤◌, ◌++◌, OnOk, OnErr, IfOk, IfErr, false, true};
ghost use Rattle.std.specs.Prelude.{is_some};
ghost use Rattle.std.specs.List.{Contains};
ghost use Rattle.serde_json.specs.Written.{comma_if};
ghost use Rattle.cdf_types.specs.Device.{Appends, AppendsProperPrefix};
ghost use Rattle.cvr_office.specs.Names.{records, devices};
ghost use Rattle.cvr_office.specs.Readers.{device_list};
ghost use Rattle.cvr_office.specs.CanHold.{CanHold};
ghost use Rattle.cvr_report.specs.Record.{comma_list};
ghost use Rattle.cvr_report.specs.Head.{is_device_of};
ghost use Rattle.cvr_report.specs.Page.{volumes, shown_body};
ghost use Rattle.cvr_report.specs.Volume.{volume};
ghost use Rattle.cvr_report.specs.Writes.{Writes, WritesOrLess, is_write_device, list_text};
ghost use Rattle.cvr_report.specs.Writes.{record_piece};
ghost use Rattle.cvr_report.specs.Pieces.{head_text, middle_text, end_text, party_text};
ghost use Rattle.cvr_report.specs.Pieces.{record_text, record_texts, device_texts};

use crate::fault::WriteFault;
use crate::heading::Heading;
use crate::record::{push_joined, push_shown};
use crate::shown::stands;
use cdf_check::Definition;
use cdf_types::{Body, Memory, Sink, write_all};
use cvr_fact_types::text::push_quoted;
use cvr_facts::RecordName;
use cvr_office::Office;
use std::alloc::Global;

/// How many volumes the content of an office makes: the greatest number of bodies under one name,
/// and at least 1. Takes no memory.
pub fn volumes<O: Office>(office: &O) -> usize
    ensures { result ≡ volumes (O.held office.now) }
{
    office.greatest_count().max(1)
}

// Writes a piece.
fn write_piece<W: Sink>(out: &mut W, piece: &[u8]) -> Result<(), WriteFault>
    requires { (W.taken out.old).failed ≡ false }
    ensures { WritesOrLess (W.taken out.old) (W.taken out.new) result
        piece.now }
{
    write_all(out, piece)?;
    Ok(())
}

// Writes the text of a record, if it stands in volume `i`.
fn write_record<O: Office, W: Sink>(
    alloc: Global,
    office: &O,
    i: usize,
    key: &RecordName,
    later: bool,
    buffer: &mut Vec<u8>,
    out: &mut W,
) -> Result<bool, WriteFault>
    requires working { (W.taken out.old).failed ≡ false }
    requires number { 0 < i }
    requires listed { Contains (records (O.held office.now)) key.now }
    requires can_hold { CanHold (O.defined office.now) (O.held office.now) }
    ensures stands { IfOk result (λ b. b ≡ is_some (record_text (O.held office.now) i key.now)) }
    ensures written { Writes (W.taken out.old) (W.taken out.new) result
        (record_piece later (record_text (O.held office.now) i key.now)) }
{
    let Some(found) = office.record_facts(alloc, key)? else {
        return Ok(false);
    };
    if !stands(&found, i) {
        return Ok(false);
    }
    buffer.clear();
    let lead = if later { "," } else { ",\"CVR\":[" };
    buffer.extend_from_slice(lead.as_bytes())?;
    push_shown(alloc, buffer, &found, i)?;
    write_piece(out, buffer.as_slice())?;
    Ok(true)
}

// Writes the member of the records.
fn write_records<O: Office, W: Sink>(
    alloc: Global,
    office: &O,
    i: usize,
    buffer: &mut Vec<u8>,
    out: &mut W,
) -> Result<(), WriteFault>
    requires working { (W.taken out.old).failed ≡ false }
    requires number { 0 < i }
    requires can_hold { CanHold (O.defined office.now) (O.held office.now) }
    ensures { Writes (W.taken out.old) (W.taken out.new) result
        (list_text false (record_texts (O.held office.now) i (records (O.held office.now)))) }
{
    let mut later = false;
    let mut next = office.next_record(None);
    'records: while let Some(key) = next {
        let stands = write_record(alloc, office, i, key, later, buffer, out)?;
        later = later || stands;
        next = office.next_record(Some(key));
    }
    let end = if later { "]" } else { "" };
    write_piece(out, end.as_bytes())
}

// Writes the body of a device that volume `i` shows.
fn write_device<O: Office, W: Sink>(
    office: &O,
    i: usize,
    id: &str,
    later: bool,
    out: &mut W,
) -> Result<(), WriteFault>
    requires working { (W.taken out.old).failed ≡ false }
    ensures { Writes (W.taken out.old) (W.taken out.new) result
        (comma_if later ++ shown_body i (device_list (O.held office.now) id.now)) }
{
    let lead = if later { "," } else { "" };
    write_piece(out, lead.as_bytes())?;
    match office.device_body(id, i.min(office.device_count(id))) {
        Some(body) => write_piece(out, body.as_str().as_bytes()),
        None => Ok(()),
    }
}

// Writes the bodies of devices that volume `i` shows.
fn write_devices<O: Office, W: Sink>(office: &O, i: usize, out: &mut W) -> Result<(), WriteFault>
    requires working { (W.taken out.old).failed ≡ false }
    ensures { Writes (W.taken out.old) (W.taken out.new) result
        (comma_list false (device_texts (O.held office.now) i (devices (O.held office.now)))) }
{
    let mut later = false;
    let mut next = office.next_device(None);
    'devices: while let Some(id) = next {
        write_device(office, i, id, later, out)?;
        later = true;
        next = office.next_device(Some(id));
    }
    Ok(())
}

// Adds the texts of the definition and the heading, from the Election to the devices.
fn push_middle(
    alloc: Global,
    buffer: &mut Vec<u8>,
    definition: &Definition,
    heading: &Heading,
) -> Result<(), Memory>
    ensures { OnOk result
        (buffer.new.items ≡ buffer.old.items
        ++ middle_text definition.now heading.now.date heading.now.device) }
{
    buffer.extend_from_slice(b",\"Election\":[")?;
    buffer.extend_from_slice(definition.election().as_str().as_bytes())?;
    buffer.extend_from_slice(b"],\"GeneratedDate\":")?;
    push_quoted(alloc, buffer, heading.date())?;
    buffer.extend_from_slice(b",\"GpUnit\":[")?;
    push_joined(buffer, definition.units())?;
    buffer.extend_from_slice(b"]")?;
    push_parties(buffer, definition.parties())?;
    buffer.extend_from_slice(b",\"ReportGeneratingDeviceIds\":[")?;
    push_quoted(alloc, buffer, heading.device())?;
    buffer.extend_from_slice(b"],\"ReportType\":[\"aggregated\"],\"ReportingDevice\":[")?;
    Ok(())
}

// Adds the member of the parties, if there are any.
fn push_parties(buffer: &mut Vec<u8>, parties: &[Body]) -> Result<(), Memory>
    ensures { OnOk result (buffer.new.items ≡ buffer.old.items ++ party_text parties.now) }
{
    if parties.is_empty() {
        return Ok(());
    }
    buffer.extend_from_slice(b",\"Party\":[")?;
    push_joined(buffer, parties)?;
    buffer.extend_from_slice(b"]")?;
    Ok(())
}

/// Writes volume `i` of what an office holds under a heading, as a report (NIST SP 1500-103, class
/// CastVoteRecordReport), piece by piece and one record at a time.
///
/// # Errors
/// `Device` exactly where the output has failed; `Memory` where a growth was refused. The output
/// has then taken a prefix of the volume, and not all of it.
pub fn write_volume<O: Office, W: Sink>(
    alloc: Global,
    office: &O,
    heading: &Heading,
    i: usize,
    out: &mut W,
) -> Result<(), WriteFault>
    requires working { (W.taken out.old).failed ≡ false }
    requires number { 0 < i }
    requires within { i ≤ volumes (O.held office.now) }
    requires device { is_device_of (O.defined office.now) heading.now.device ≡ true }
    ensures volume { OnOk result (Appends (W.taken out.old) (W.taken out.new)
        (volume (O.defined office.now) heading.now (O.held office.now) i)) }
    ensures working { OnOk result ((W.taken out.new).failed ≡ false) }
    ensures fault { IfErr result (λ e. (W.taken out.new).failed ≡ is_write_device e) }
    ensures front { OnErr result (AppendsProperPrefix (W.taken out.old) (W.taken out.new)
        (volume (O.defined office.now) heading.now (O.held office.now) i)) }
{
    write_report(alloc, office, heading, i, out)
}

// Writes a volume, whatever its number and the heading's device.
fn write_report<O: Office, W: Sink>(
    alloc: Global,
    office: &O,
    heading: &Heading,
    i: usize,
    out: &mut W,
) -> Result<(), WriteFault>
    requires working { (W.taken out.old).failed ≡ false }
    requires number { 0 < i }
    ensures { WritesOrLess (W.taken out.old) (W.taken out.new) result
        (volume (O.defined office.now) heading.now (O.held office.now) i) }
{
    let definition = office.definition();
    let mut buffer = Vec::new(alloc);
    write_piece(out, b"{\"@type\":\"CVR.CastVoteRecordReport\"")?;
    write_records(alloc, office, i, &mut buffer, out)?;
    buffer.clear();
    push_middle(alloc, &mut buffer, definition, heading)?;
    write_piece(out, buffer.as_slice())?;
    write_devices(office, i, out)?;
    write_piece(out, b"],\"Version\":\"1.0.0\"}")
}
