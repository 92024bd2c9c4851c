ghost use Rattle.std.specs.Prelude.{◌≡◌, None, OnOk, IfErr};
ghost use Rattle.serde_json.specs.Written.{has_float, items_have_float, members_have_float};
ghost use Rattle.cdf_node.specs.View.{view, items_view, members_view};
ghost use Rattle.cdf_form.specs.Form.{first, float_faults, items_floats, members_floats};
ghost use Rattle.cdf_form.specs.Found.{StopsAt};

use crate::found::{Step, Stop};
use cdf_node::Node;
use cdf_types::Rule;
use std::alloc::Global;

/// Whether a number that isn't whole stands anywhere in a value. Takes no memory.
// It stands in both loops below, so that a text or a number costs them no call.
#[cycle(whole)]
#[inline(always)]
pub fn has_fraction(value: &Node<'_>) -> bool
    ensures { result ≡ has_float (view value.now) }
{
    match value {
        Node::Null | Node::Bool(_) | Node::String(_) => false,
        Node::Number(number) => number.is_f64(),
        Node::Array(items) => items_have_fraction(items),
        Node::Object(members) => members_have_fraction(members),
    }
}

#[cycle(whole)]
fn items_have_fraction(items: &[Node<'_>]) -> bool
    ensures { result ≡ items_have_float (items_view items.now) }
{
    for item in items {
        if has_fraction(item) {
            return true;
        }
    }
    false
}

#[cycle(whole)]
fn members_have_fraction(members: &[(&str, Node<'_>)]) -> bool
    ensures { result ≡ members_have_float (members_view members.now) }
{
    for member in members {
        if has_fraction(&member.1) {
            return true;
        }
    }
    false
}

/// Looks for the first number that isn't whole, in the order of the walk.
///
/// # Errors
/// `Fault` with rule `NotWhole` where there is one; `Memory` where a growth was refused.
#[cycle(floats)]
pub fn find_float<'t>(alloc: Global, value: &Node<'t>) -> Result<(), Stop<'t>>
    ensures none { OnOk result (first (float_faults (view value.now)) ≡ None) }
    ensures fault { IfErr result (λ s. StopsAt s (first (float_faults (view value.now)))) }
{
    match value {
        Node::Null | Node::Bool(_) | Node::String(_) => Ok(()),
        Node::Number(number) => if number.is_f64() {
            Err(Stop::at(alloc, Rule::NotWhole))
        } else {
            Ok(())
        },
        Node::Array(items) => find_in_items(alloc, items),
        Node::Object(members) => find_in_members(alloc, members),
    }
}

#[cycle(floats)]
fn find_in_items<'t>(alloc: Global, items: &[Node<'t>]) -> Result<(), Stop<'t>>
    ensures none { OnOk result (first (items_floats (items_view items.now) 0) ≡ None) }
    ensures fault { IfErr result (λ s. StopsAt s (first (items_floats (items_view items.now) 0))) }
{
    for (place, item) in items.iter().enumerate() {
        match find_float(alloc, item) {
            Ok(()) => {}
            Err(stop) => return Err(stop.under(Step::Item(place))),
        }
    }
    Ok(())
}

#[cycle(floats)]
fn find_in_members<'t>(alloc: Global, members: &[(&'t str, Node<'t>)]) -> Result<(), Stop<'t>>
    ensures none { OnOk result (first (members_floats (members_view members.now)) ≡ None) }
    ensures fault { IfErr result
        (λ s. StopsAt s (first (members_floats (members_view members.now)))) }
{
    for member in members {
        match find_float(alloc, &member.1) {
            Ok(()) => {}
            Err(stop) => return Err(stop.under(Step::Member(member.0))),
        }
    }
    Ok(())
}
