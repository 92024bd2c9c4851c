ghost use Rattle.std.specs.Prelude.{◌≡◌, ◌↔◌, [], codes, false, None, IfOk, IfErr, IsTrue, OnOk};
ghost use Rattle.std.specs.Prelude.{option_map};
ghost use Rattle.serde_json.specs.Data.{Data};
ghost use Rattle.serde_json.specs.Find.{get};
ghost use Rattle.serde_json.specs.Read.{read as read_data};
ghost use Rattle.cdf_node.specs.View.{view};
ghost use Rattle.serde_json.specs.Written.{has_float};
ghost use Rattle.cdf_pull.specs.Fold.{IsFolded};
ghost use Rattle.cdf_form.specs.Found.{StopsAt, fault_of};
ghost use Rattle.cdf_parts.specs.Parts.{array_at};
ghost use Rattle.cdf_typed.specs.Typed.{report_of};
ghost use Rattle.cdf_definition.specs.Agreement.{disagreements};
ghost use Rattle.cdf_definition.specs.Sound.{IsSound};
ghost use Rattle.cdf_definition.specs.Lists.{HasLists};
ghost use Rattle.cdf_check.specs.Seen.{IsSeen, first_of_file, form_refusal, is_array, Accepts};
ghost use Rattle.cdf_check.specs.Seen.{IsJudged};
ghost use Rattle.cdf_check.specs.Within.{RestSettles};

use crate::fractions::file_fraction;
use crate::keep::Keep;
use crate::record_names::RecordNames;
use crate::seen::Seen;
use crate::unnamed::reference_fault;
use cdf_definition::{Definition, check_value, has_rest};
use cdf_form::float::find_float;
use cdf_form::found::{Found, Step, Stop};
use cdf_form::leaf::class_of;
use cdf_form::read::{document_fault, fault_refusal};
use cdf_form::table::Group;
use cdf_node::Node;
use cdf_parts::ids::Ids;
use cdf_parts::items_at;
use cdf_typed::read_report;
use cdf_types::{Body, Memory, ReadFault, ReportingDevice, Rule, Seq};
use std::alloc::Global;

// Looks for the first fault of a file whose numbers are whole in its records, from what is left
// beside these and from their first fault of form.
fn first_fault<'a>(
    alloc: Global,
    left: &Node<'a>,
    of_records: Option<Found<'static>>,
) -> Result<(), Stop<'a>>
    ensures none { OnOk result
        (first_of_file (view left.now) (option_map fault_of of_records.entry) ≡ None) }
    ensures fault { IfErr result (λ s.
        StopsAt s (first_of_file (view left.now) (option_map fault_of of_records.entry))) }
{
    find_float(alloc, left)?;
    if let Err(stop) = class_of(alloc, Group::Reports, left) {
        return Err(stop);
    }
    if let Some(found) = of_records {
        let stop: Stop<'a> = Stop::found(alloc, found);
        return Err(stop.under(Step::Member("CVR")));
    }
    document_fault(alloc, left)
}

// Why a file is refused for its numbers or its form, if it is.
fn form_fault<T: Drop>(
    alloc: Global,
    left: &Node<'_>,
    seen: Seen<T>,
) -> Result<Option<ReadFault>, Memory>
    ensures { IfOk result (λ made. made ≡ form_refusal (view left.now) seen) }
{
    let Some(members) = left.as_object() else {
        return Ok(None);
    };
    let (fraction, form) = match seen {
        Seen::Right(_names, _records) => (None, None),
        Seen::Unsettled => (None, None),
        Seen::Form(found) => (None, Some(found)),
        Seen::Fraction(path) => (Some(path), None),
    };
    if let Some(path) = file_fraction(alloc, members, fraction)? {
        return Ok(Some(ReadFault::Schema {
            path,
            rule: Rule::NotWhole,
        }));
    }
    match first_fault(alloc, left, form) {
        Ok(()) => Ok(None),
        Err(Stop::Memory(refused)) => Err(refused),
        Err(Stop::Fault(found)) => Ok(Some(fault_refusal(alloc, &found)?)),
    }
}

// The reporting devices of a report.
fn devices_in(
    alloc: Global,
    definition: &Definition,
    report: &Node<'_>,
) -> Result<Seq<ReportingDevice>, Memory>
    requires { has_float (view report.now) ≡ false }
    ensures { IfOk result (λ devices. devices
        ≡ (report_of definition.now.contests (view report.now)).devices) }
{
    Ok(read_report(alloc, definition.contests(), report)?.devices)
}

// Whether what is left beside records is sound and agrees.
fn stands(alloc: Global, definition: &Definition, left: &Node<'_>) -> Result<bool, Memory>
    ensures { IfOk result (λ is. IsTrue is
        ↔ (IsSound (view left.now) × (disagreements definition.now (view left.now) ≡ []))) }
{
    match check_value(alloc, definition, left) {
        Ok(()) => Ok(true),
        Err(fault) => {
            fault.or_memory()?;
            Ok(false)
        }
    }
}

// Whether that holds, and it lists what the records name, where it has the definition's lists.
// Nothing is wrong with these, so the rest alone is looked at.
fn rest_settles(
    alloc: Global,
    definition: &Definition,
    left: &Node<'_>,
    names: &RecordNames,
) -> Result<bool, Memory>
    requires lists { HasLists definition.now (view left.now) }
    requires none { array_at (codes "CVR") (view left.now) ≡ [] }
    ensures { IfOk result (λ is. IsTrue is ↔ RestSettles definition.now (view left.now) names.now) }
{
    let devices = Ids::of_items(alloc, items_at("ReportingDevice", left))?;
    Ok(
        has_rest(alloc, &devices, left)?
            && names.devices.are_among(&devices)
            && names.units.are_among(definition.unit_ids())
            && names.parties.are_among(definition.party_ids()),
    )
}

// Whether a file is accepted, by what was seen of its records. What is left is checked once, and
// not for its first fault, which is of interest only where the file is refused.
fn is_accepted<T>(
    alloc: Global,
    definition: &Definition,
    left: &Node<'_>,
    seen: &Seen<T>,
) -> Result<bool, Memory>
    requires { array_at (codes "CVR") (view left.now) ≡ [] }
    ensures { IfOk result (λ is. IsTrue is ↔ Accepts definition.now (view left.now) seen.now) }
{
    let Seen::Right(names, _) = seen else {
        return Ok(false);
    };
    if definition.has_lists(left) {
        return rest_settles(alloc, definition, left, names);
    }
    Ok(names.are_listed(alloc, left)? && stands(alloc, definition, left)?)
}

// The reporting devices of a value without records, and what is kept of none.
#[tactic(auto, using(cdf_form::proofs::Laws::whole_document))]
fn judge_whole<K: Keep>(
    alloc: Global,
    definition: &Definition,
    value: &Node<'_>,
    keep: &K,
) -> Result<(Seq<ReportingDevice>, K::Kept), ReadFault>
where
    K::Kept: Drop,
    requires { array_at (codes "CVR") (view value.now) ≡ [] }
    ensures { IsJudged (K.keeps keep.now definition.now.contests) definition.now
        (view value.now) result }
{
    check_value(alloc, definition, value)?;
    Ok((devices_in(alloc, definition, value)?, keep.none(alloc)))
}

// Whether an array stands at the records' name.
fn has_records(value: &Node<'_>) -> bool
    ensures { result ≡ is_array (get (codes "CVR") (view value.now)) }
{
    match value.get("CVR") {
        Some(Node::Array(_)) => true,
        _ => false,
    }
}

/// The reporting devices of a file, and what is kept of its records, from what was seen of these
/// and what is left beside them.
///
/// # Errors
/// As `check_report`.
pub(crate) fn judge<K: Keep>(
    alloc: Global,
    definition: &Definition,
    text: &str,
    left: &Node<'_>,
    keep: &K,
    seen: Seen<K::Kept>,
) -> Result<(Seq<ReportingDevice>, K::Kept), ReadFault>
where
    K::Kept: Drop,
    requires { IsFolded (IsSeen (K.keeps keep.now definition.now.contests) definition.now) text.now
        (codes "CVR")
        (view left.now) seen }
    ensures { (d : Data) → read_data text.now ≡ Some d
        → IsJudged (K.keeps keep.now definition.now.contests) definition.now d result }
{
    if !has_records(left) {
        return judge_whole(alloc, definition, left, keep);
    }
    definition.made_of_a_report();
    if !is_accepted(alloc, definition, left, &seen)? {
        return match form_fault(alloc, left, seen)? {
            Some(fault) => Err(fault),
            None => Err(reference_fault(alloc, definition, text, left)?),
        };
    }
    match seen {
        Seen::Right(_names, records) => Ok((devices_in(alloc, definition, left)?, records)),
        Seen::Unsettled => unreachable!(),
        Seen::Form(_found) => unreachable!(),
        Seen::Fraction(_path) => unreachable!(),
    }
}
