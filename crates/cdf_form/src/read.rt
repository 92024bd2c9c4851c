ghost use Rattle.std.specs.Prelude.{◌≡◌, ◌≤◌, None, Option, Some, IfErr, IfOk, IsUtf8, OnOk};
ghost use Rattle.std.specs.Prelude.{length};
ghost use Rattle.serde_json.specs.Data.{Data};
ghost use Rattle.cdf_node.specs.Order.{IsSorted};
ghost use Rattle.cdf_node.specs.View.{view};
ghost use Rattle.cdf_types.specs.declared.fault.ReadFault.{ReadFault};
ghost use Rattle.cdf_form.specs.Form.{first};
ghost use Rattle.cdf_form.specs.Found.{StopsAt, fault_of};
ghost use Rattle.cdf_form.specs.Records.{cvr_faults};
ghost use Rattle.cdf_form.specs.Reading.{document_faults, max_file, of_file, refusal_of};

use crate::float::find_float;
use crate::found::{Found, Stop};
use crate::path::pointer;
use crate::table::{Group, Key, Kind, Leaf};
use crate::walk::walk;
use cdf_node::Node;
use cdf_types::{Memory, ReadFault};
use simdutf8::compat::from_utf8;
use std::alloc::Global;

/// The most bytes that a file may have.
pub const MAX_FILE: usize = 67_108_864;

/// The text of a file (UTF-8, RFC 3629). Takes no memory.
///
/// # Errors
/// `TooLong` above 67,108,864 bytes; `NotJson` where the bytes are no UTF-8.
pub fn file_text(bytes: &[u8]) -> Result<&str, ReadFault>
    ensures text { IfOk result (λ text. text.now ≡ bytes.now) }
    ensures short { OnOk result (length bytes.now ≤ max_file) }
    ensures utf8 { OnOk result (IsUtf8 bytes.now) }
    ensures err { IfErr result (λ e.
        (refusal : Data → Option ReadFault) → of_file refusal bytes.now ≡ Some e) }
{
    if bytes.len() > MAX_FILE {
        return Err(ReadFault::TooLong);
    }
    match from_utf8(bytes) {
        Ok(text) => Ok(text),
        Err(_) => Err(ReadFault::NotJson),
    }
}

/// Looks for the first fault of a document: of its numbers, then of its form.
///
/// That there is no fault here doesn't say that a file is accepted: its references, and its
/// agreement with a definition, are looked at apart.
///
/// # Errors
/// `Fault` at the first fault; `Memory` where a growth was refused.
pub fn document_fault<'t>(alloc: Global, value: &Node<'t>) -> Result<(), Stop<'t>>
    ensures none { OnOk result (first (document_faults (view value.now)) ≡ None) }
    ensures fault { IfErr result (λ s. StopsAt s (first (document_faults (view value.now)))) }
{
    find_float(alloc, value)?;
    let report = Kind::One(Leaf::Object(Group::Reports));
    walk(alloc, false, value, report, Key::Free)
}

/// Looks for the first fault of the form of a cast vote record by itself (class CVR), as it was
/// read: names rise in each of its objects.
///
/// # Errors
/// `Fault` at the first fault of form; `Memory` where a growth was refused.
pub fn cvr_fault(alloc: Global, value: &Node<'_>) -> Result<(), Stop<'static>>
    requires { IsSorted (view value.now) }
    ensures none { OnOk result (first (cvr_faults (view value.now)) ≡ None) }
    ensures fault { IfErr result (λ s. StopsAt s (first (cvr_faults (view value.now)))) }
{
    let record = Kind::One(Leaf::Object(Group::Cvrs));
    walk(alloc, true, value, record, Key::Free)
}

/// The answer that reports a fault of form.
///
/// # Errors
/// `Memory` where a growth was refused.
pub fn fault_refusal(alloc: Global, found: &Found<'_>) -> Result<ReadFault, Memory>
    ensures { IfOk result (λ e. e ≡ refusal_of (fault_of found.now)) }
{
    Ok(ReadFault::Schema {
        path: pointer(alloc, &found.path)?,
        rule: found.rule,
    })
}
