// A record of a volume, as text.
ghost use Rattle.std.specs.Prelude.{◌≡◌, ◌<◌, ◌++◌, length, OnOk, false};
ghost use Rattle.serde_json.specs.Data.{object, Items, Members};
ghost use Rattle.serde_json.specs.Written.{compact_text, comma_if};
ghost use Rattle.cdf_parts.specs.Proper.{MembersAreWell};
ghost use Rattle.cdf_definition.specs.Frame.{Frame};
ghost use Rattle.cvr_fact_types.specs.declared.name.RecordName.{RecordName};
ghost use Rattle.cvr_fact_types.specs.Facts.{Facts};
ghost use Rattle.cvr_office.specs.CanHold.{CanHold};
ghost use Rattle.cvr_office.specs.Readers.{AreAllFactsOf};
ghost use Rattle.cvr_report.specs.Record.{HasHeaderMembers, cvr_object, item_texts, comma_list};
ghost use Rattle.cvr_report.specs.Page.{shown_record};
ghost use Rattle.cvr_report.specs.Volume.{record_data};
ghost use Rattle.cvr_report.specs.Found.{HaveSnapshots, CanShow, shown_bodies};

use crate::ids::push_id;
use crate::scan::cut;
use crate::shown::{shown_current, shown_header, shown_snapshot};
use cdf_types::{Body, Memory};
use cvr_office::{IdFacts, RecordFacts};
use std::alloc::Global;

// Adds a text, with a comma before it unless it is the first.
fn push_later(out: &mut Vec<u8>, later: bool, text: &Body) -> Result<(), Memory>
    ensures { OnOk result (out.new.items ≡ out.old.items ++ (comma_if later ++ text.now)) }
{
    if later {
        out.extend_from_slice(b",")?;
    }
    out.extend_from_slice(text.as_str().as_bytes())?;
    Ok(())
}

// Adds texts with commas between them.
pub(crate) fn push_joined(out: &mut Vec<u8>, texts: &[Body]) -> Result<(), Memory>
    ensures { OnOk result (out.new.items ≡ out.old.items ++ comma_list false texts.now) }
{
    let mut later = false;
    for text in texts {
        push_later(out, later, text)?;
        later = true;
    }
    Ok(())
}

// Adds the snapshots that volume `i` shows, with commas between them.
fn push_snapshots(out: &mut Vec<u8>, ids: &[IdFacts<'_>], i: usize) -> Result<(), Memory>
    requires number { 0 < i }
    requires some { HaveSnapshots ids.now }
    ensures { OnOk result
        (out.new.items ≡ out.old.items ++ comma_list false (shown_bodies i ids.now)) }
{
    let mut later = false;
    for under in ids {
        push_later(out, later, &shown_snapshot(under, i).body)?;
        later = true;
    }
    Ok(())
}

// Adds a record, made of a header, the snapshots that volume `i` shows and the id of the current
// one.
fn push_record(
    alloc: Global,
    out: &mut Vec<u8>,
    header: &Body,
    ids: &[IdFacts<'_>],
    i: usize,
    current: &str,
) -> Result<(), Memory>
    requires header { 0 < length header.now }
    requires number { 0 < i }
    requires some { HaveSnapshots ids.now }
    ensures { OnOk result ((ms : Members) (ds : Items) → MembersAreWell ms → HasHeaderMembers ms
        → header.now ≡ compact_text (object ms) → shown_bodies i ids.now ≡ item_texts ds
        → out.new.items ≡ out.old.items ++ compact_text (cvr_object ms ds current.now)) }
{
    let text = header.as_str().as_bytes();
    let (front, rest) = text.split_at(cut(text, 1, b"CVRSnapshot"));
    let (middle, end) = rest.split_at(cut(rest, 0, b"CurrentSnapshotId"));
    out.extend_from_slice(front)?;
    out.extend_from_slice(b",\"CVRSnapshot\":[")?;
    push_snapshots(out, ids, i)?;
    out.extend_from_slice(b"]")?;
    out.extend_from_slice(middle)?;
    out.extend_from_slice(b",\"CurrentSnapshotId\":")?;
    push_id(alloc, out, current)?;
    out.extend_from_slice(end)?;
    Ok(())
}

// Adds the record that volume `i` shows of these facts.
pub(crate) fn push_shown(
    alloc: Global,
    out: &mut Vec<u8>,
    found: &RecordFacts<'_>,
    i: usize,
) -> Result<(), Memory>
    requires number { 0 < i }
    requires some { CanShow found.now }
    ensures { OnOk result
        ((frame : Frame) (s : Facts) (key : RecordName) → CanHold frame s
        → AreAllFactsOf frame.contests s key found.now
        → out.new.items ≡ out.old.items ++ compact_text (record_data (shown_record s i key))) }
{
    let header = shown_header(found.headers.as_slice(), i);
    let ids = found.ids.as_slice();
    push_record(alloc, out, &header.body, ids, i, shown_current(ids, i))
}
