//! What notes say of the place of a fault.
use crate::differing::first_difference;
use crate::pointed::{pointed, record_of};
use crate::seen::{Flaw, see};
use crate::shown::Shown;
use crate::words::{Kind, fault_words, kind_words};
use bumpalo::Bump;
use cdf_node::{Node, read_text};
use cdf_parts::{items_at, text_at};
use cdf_types::{ReadFault, Rule};
use json::Scratch;
use std::alloc::Global;
use std::str;

// What stands where a value isn't there.
const ABSENT: &str = "-";

// The text of a value.
fn text_of(alloc: Global, value: Option<Node<'_>>) -> Option<String> {
    match value {
        Some(value) => value.to_string(alloc).ok(),
        None => String::from_str(alloc, ABSENT).ok(),
    }
}

// The device and the UniqueId of a record.
fn name_of(alloc: Global, record: Node<'_>) -> Option<String> {
    let device = text_of(alloc, record.get("CreatingDeviceId").copied())?;
    let id = text_of(alloc, record.get("UniqueId").copied())?;
    format!(in alloc;
        "{} {}",
        Shown::cut(device.as_str()),
        Shown::cut(id.as_str())
    )
    .ok()
}

// The value at a path, and the record in which it lies. None where a value stands that should be
// absent, or the other way round: the file isn't the one that was refused.
fn standing_at(alloc: Global, report: Node<'_>, path: &str, is_absent: bool) -> Option<String> {
    let value = pointed(report, path);
    if value.is_none() != is_absent {
        return None;
    }
    let value = text_of(alloc, value)?;
    let value = Shown::cut(value.as_str());
    match record_of(report, path) {
        Some(record) if record.is_object() => {
            let record = name_of(alloc, record)?;
            format!(in alloc; " (value: {value}; record: {record})").ok()
        }
        _ => format!(in alloc; " (value: {value})").ok(),
    }
}

// The first difference of the object at a path from that of the definition with its id.
fn differing_at(alloc: Global, report: Node<'_>, path: &str, def: Node<'_>) -> Option<String> {
    let found = pointed(report, path)?;
    let (list, _) = path.strip_prefix('/')?.split_once('/')?;
    let id = text_at("@id", &found);
    let Some(known) = items_at(list, &def)
        .iter()
        .find(|item| text_at("@id", item) == id)
    else {
        let id = text_of(alloc, found.get("@id").copied())?;
        let id = Shown::cut(id.as_str());
        return format!(in alloc;
            " (first difference: {path}/@id: {id}, in the definition {ABSENT})"
        ).ok();
    };
    let found = first_difference(alloc, found, *known).ok()?;
    let (one, other) = (text_of(alloc, found.one)?, text_of(alloc, found.other)?);
    if one.as_str() == other.as_str() {
        return None;
    }
    let below = found.path(alloc).ok()?;
    let (below, one, other) = (
        Shown::new(below.as_str()),
        Shown::cut(one.as_str()),
        Shown::cut(other.as_str()),
    );
    format!(in alloc; " (first difference: {path}{below}: {one}, in the definition {other})").ok()
}

// Whether a value says of itself that it is a report.
fn is_report(value: Node<'_>) -> bool {
    text_at("@type", &value) == "CVR.CastVoteRecordReport"
}

// The value of a text.
fn value_of<'t>(bump: &'t Bump, bytes: &'t [u8], scratch: &'t mut Scratch) -> Option<Node<'t>> {
    read_text(bump, str::from_utf8(bytes).ok()?, scratch).ok()?
}

// What is said of a file that is no JSON.
fn no_json(alloc: Global, bytes: &[u8]) -> Option<String> {
    let (kind, flaw) = see(alloc, bytes)?;
    let words = kind_words(kind);
    match flaw {
        Some(Flaw { line, column }) => {
            format!(in alloc; "no JSON at line {line}, byte {column}. {words}").ok()
        }
        None => String::from_str(alloc, words).ok(),
    }
}

// What is said of a file that is JSON: what stands at the place of its fault.
fn in_json(alloc: Global, fault: &ReadFault, bytes: &[u8], def: &[u8]) -> Option<String> {
    let (bump, mut scratch) = (Bump::new(alloc), Scratch::new(alloc));
    let report = value_of(&bump, bytes, &mut scratch)?;
    let words = fault_words(fault);
    match fault {
        ReadFault::Schema { path, rule } => {
            let stands = standing_at(alloc, report, path.as_str(), *rule == Rule::Missing)?;
            if is_report(report) {
                format!(in alloc; "{words}{stands}").ok()
            } else {
                format!(in alloc; "{words}{stands}. {}", kind_words(Kind::Json)).ok()
            }
        }
        ReadFault::Reference { path } => {
            let stands = standing_at(alloc, report, path.as_str(), false)?;
            format!(in alloc; "{words}{stands}").ok()
        }
        ReadFault::Disagrees { path } => {
            let mut scratch = Scratch::new(alloc);
            let def = value_of(&bump, def, &mut scratch)?;
            let differs = differing_at(alloc, report, path.as_str(), def)?;
            format!(in alloc; "{words}{differs}").ok()
        }
        _ => None,
    }
}

/// Why a file was refused, with what stands in it: beside the words on its fault the value at the
/// place of the fault, the record in which it lies, and the first difference from the definition;
/// of no report what it seems to be. None where the file isn't such a one, or memory is refused.
pub fn standing(alloc: Global, fault: &ReadFault, bytes: &[u8], def: &[u8]) -> Option<String> {
    match fault {
        ReadFault::NotJson => no_json(alloc, bytes),
        _ => in_json(alloc, fault, bytes, def),
    }
}
