ghost use Rattle.std.specs.Prelude.{◌≡◌, ◌↔◌, codes, IfOk, IsTrue, true};
ghost use Rattle.cdf_node.specs.View.{view};
ghost use Rattle.cdf_form.specs.Tables.{entries_of};
ghost use Rattle.cdf_form.specs.ByEntry.{HasEntry};
ghost use Rattle.cdf_form.specs.Laws.{is_keyed, are_keyed};
ghost use Rattle.cdf_definition.specs.Resolves.{AllName};
ghost use Rattle.cdf_parts.specs.Parts.{ids_at};
ghost use Rattle.cdf_definition.specs.Lists.{is_list, HasEntries, HasRest};

use crate::look::{Each, Look, Text};
use crate::references::class_in;
use cdf_form::float::has_fraction;
use cdf_form::found::Stop;
use cdf_form::table::{Class, Group, Key, Member, class_members};
use cdf_form::walk::walk;
use cdf_node::Node;
use cdf_parts::ids::Ids;
use cdf_types::Memory;
use std::alloc::Global;

// Whether a member's value is one of a report's lists.
fn is_list(name: &str) -> bool
    ensures { result ≡ is_list name.now }
{
    name == "Election" || name == "GpUnit" || name == "Party"
}

// Whether an entry holds of a value.
fn has_entry(alloc: Global, value: &Node<'_>, entry: &Member) -> Result<bool, Memory>
    requires { is_keyed entry.now.kind ≡ true }
    ensures { IfOk result (λ is. IsTrue is
        ↔ HasEntry entry.now.required entry.now.name.now entry.now.kind (view value.now)) }
{
    let Some(member) = value.get(entry.name) else {
        return Ok(!entry.required);
    };
    match walk(alloc, false, member, entry.kind, Key::Free) {
        Ok(()) => Ok(true),
        Err(Stop::Memory(refused)) => Err(refused),
        Err(Stop::Fault(_)) => Ok(false),
    }
}

// Whether each of these entries holds of a value, but for those of lists.
fn has_entries(alloc: Global, value: &Node<'_>, entries: &'static [Member]) -> Result<bool, Memory>
    requires { are_keyed (entries_of entries.now) ≡ true }
    ensures { IfOk result (λ is. IsTrue is ↔ HasEntries (entries_of entries.now) (view value.now)) }
{
    for entry in entries {
        if !is_list(entry.name) && !has_entry(alloc, value, entry)? {
            return Ok(false);
        }
    }
    Ok(true)
}

// Whether each device that is said to have generated a report is among these.
fn generated_by(alloc: Global, devices: &Ids, value: &Node<'_>) -> Result<bool, Memory>
    ensures { IfOk result (λ is. IsTrue is
        ↔ AllName devices.now (codes "ReportGeneratingDeviceIds") (view value.now)) }
{
    let found = Each(Text(devices), "ReportGeneratingDeviceIds").look(alloc, value)?;
    Ok(found.is_none())
}

/// Whether the rest of a value is that of a report, beside its lists. Its devices have these ids.
///
/// # Errors
/// `Memory` where a growth was refused.
pub fn has_rest(alloc: Global, devices: &Ids, value: &Node<'_>) -> Result<bool, Memory>
    requires { devices.now ≡ ids_at (codes "ReportingDevice") (view value.now) }
    ensures { IfOk result (λ is. IsTrue is ↔ HasRest (view value.now)) }
{
    if has_fraction(value) {
        return Ok(false);
    }
    let Some(Class::CastVoteRecordReport) = class_in(Group::Reports, value) else {
        return Ok(false);
    };
    let entries = class_members(Class::CastVoteRecordReport);
    Ok(has_entries(alloc, value, entries)? && generated_by(alloc, devices, value)?)
}
