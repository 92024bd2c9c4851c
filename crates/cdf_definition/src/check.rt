ghost use Rattle.std.specs.Prelude.{◌≡◌, [], Some, IfOk, IfErr, OnOk, false, option_map};
ghost use Rattle.cdf_node.specs.View.{view};
ghost use Rattle.serde_json.specs.Written.{has_float};
ghost use Rattle.cdf_types.specs.declared.fault.ReadFault.TheVariants.{Reference, Disagrees};
ghost use Rattle.cdf_form.specs.Form as form;
ghost use Rattle.cdf_form.specs.Found.{path_of};
ghost use Rattle.cdf_form.specs.Path.{path_text};
ghost use Rattle.cdf_form.specs.Reading.{IsMemory, refusal_of, document_faults};
ghost use Rattle.cdf_form.specs.Form.{first};
ghost use Rattle.cdf_definition.specs.References.{missing_paths};
ghost use Rattle.cdf_definition.specs.Agreement.{disagreements};
ghost use Rattle.cdf_definition.specs.Sound.{IsSound};
ghost use Rattle.cdf_definition.specs.Acceptance.{own_refusal, value_refusal};

use crate::agreement::first_differing;
use crate::definition::Definition;
use crate::look::first_of;
use crate::references::first_missing;
use cdf_form::found::{Path, Stop};
use cdf_form::path::pointer;
use cdf_form::read::{document_fault, fault_refusal};
use cdf_node::Node;
use cdf_types::{Memory, ReadFault};
use std::alloc::Global;

// Whether the numbers and the form of a report are right.
fn check_form(alloc: Global, value: &Node<'_>) -> Result<(), ReadFault>
    ensures ok { OnOk result (document_faults (view value.now) ≡ []) }
    ensures err { IfErr result (λ e. ¬ IsMemory e
        → option_map refusal_of (form.first (document_faults (view value.now))) ≡ Some e) }
{
    match document_fault(alloc, value) {
        Ok(()) => Ok(()),
        Err(Stop::Memory(refused)) => Err(refused.into()),
        Err(Stop::Fault(found)) => Err(fault_refusal(alloc, &found)?),
    }
}

// Whether every text of a report that has to name something does.
fn check_references(alloc: Global, value: &Node<'_>) -> Result<(), ReadFault>
    ensures ok { OnOk result (missing_paths (view value.now) ≡ []) }
    ensures err { IfErr result (λ e. ¬ IsMemory e
        → option_map (λ p. Reference (path_text p)) (first (missing_paths (view value.now)))
        ≡ Some e) }
{
    match first_missing(alloc, value)? {
        None => Ok(()),
        Some(path) => Err(ReadFault::Reference {
            path: pointer(alloc, &path)?,
        }),
    }
}

/// Whether a value can serve as a definition.
///
/// # Errors
/// `Schema` at the first fault of numbers or of form; else `Reference` at the first text that names
/// nothing. `Memory` in place of either where a growth was refused.
pub fn check_own(alloc: Global, value: &Node<'_>) -> Result<(), ReadFault>
    ensures ok { OnOk result (IsSound (view value.now)) }
    ensures err { IfErr result (λ e. ¬ IsMemory e → own_refusal (view value.now) ≡ Some e) }
{
    check_form(alloc, value)?;
    check_references(alloc, value)?;
    Ok(())
}

// The first object of a report that isn't the definition's.
#[tactic(auto, using(crate::proofs::Items::first_or))]
fn disagreement(
    alloc: Global,
    definition: &Definition,
    value: &Node<'_>,
) -> Result<Option<Path<'static>>, Memory>
    requires { has_float (view value.now) ≡ false }
    ensures { IfOk result (λ o. option_map path_of o
        ≡ first (disagreements definition.now (view value.now))) }
{
    first_of!(
        first_differing(alloc, definition.elections(), "Election", value),
        first_differing(alloc, definition.named_units(), "GpUnit", value),
        first_differing(alloc, definition.named_parties(), "Party", value),
    )
}

// Whether every object of a report that has to be the definition's is.
fn check_agreement(
    alloc: Global,
    definition: &Definition,
    value: &Node<'_>,
) -> Result<(), ReadFault>
    requires { has_float (view value.now) ≡ false }
    ensures ok { OnOk result (disagreements definition.now (view value.now) ≡ []) }
    ensures err { IfErr result (λ e. ¬ IsMemory e
        → option_map (λ p. Disagrees (path_text p))
        (first (disagreements definition.now (view value.now))) ≡ Some e) }
{
    match disagreement(alloc, definition, value)? {
        None => Ok(()),
        Some(path) => Err(ReadFault::Disagrees {
            path: pointer(alloc, &path)?,
        }),
    }
}

/// Whether a value is accepted beside a definition.
///
/// # Errors
/// As `check_own`; else `Disagrees` at the first object that isn't the definition's.
#[tactic(auto, using(cdf_form::proofs::Laws::whole_document))]
pub fn check_value(
    alloc: Global,
    definition: &Definition,
    value: &Node<'_>,
) -> Result<(), ReadFault>
    ensures sound { OnOk result (IsSound (view value.now)) }
    ensures agrees { OnOk result (disagreements definition.now (view value.now) ≡ []) }
    ensures err { IfErr result (λ e. ¬ IsMemory e
        → value_refusal definition.now (view value.now) ≡ Some e) }
{
    check_own(alloc, value)?;
    check_agreement(alloc, definition, value)?;
    Ok(())
}
