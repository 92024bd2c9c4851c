ghost use Rattle.std.specs.Prelude.{◌≡◌, ◌⊎◌, ◌++◌, IfOk, OnOk, OnErr, string_bytes};
ghost use Rattle.json.specs.Print.{quoted};
ghost use Rattle.cvr_fact_types.specs.Text.{word};

use cdf_types::{Body, Memory};
use json::Writer;
use serde_json::Value;
use std::alloc::Global;
use std::mem;

/// An equal text, where there is one.
///
/// # Errors
/// `Memory` where a growth was refused.
pub fn copy_optional(text: &Option<Body>) -> Result<Option<Body>, Memory>
    ensures { IfOk result (λ copy. copy ≡ text.now) }
{
    match text {
        Some(body) => Ok(Some(body.copy()?)),
        None => Ok(None),
    }
}

/// A text as a JSON string (RFC 8259), with its quotes.
///
/// # Errors
/// `Memory` where a growth was refused.
pub fn quoted(alloc: Global, text: &str) -> Result<String, Memory>
    ensures { IfOk result (λ s. string_bytes s ≡ quoted text.now) }
{
    let value = Value::String(String::from_str(alloc, text)?);
    Ok(value.to_string(alloc)?)
}

/// Adds a text as a JSON string (RFC 8259), with its quotes, to bytes.
///
/// # Errors
/// `Memory` where a growth was refused. The bytes are then as they were.
#[tactic(auto, using(crate::proofs::Printed::none_printed, crate::proofs::Printed::text_printed))]
pub fn push_quoted(alloc: Global, out: &mut Vec<u8>, text: &str) -> Result<(), Memory>
    ensures ok { OnOk result (out.new.items ≡ out.old.items ++ quoted text.now) }
    ensures err { OnErr result (out.new.items ≡ out.old.items) }
{
    let mut writer = Writer::new(mem::replace(out, Vec::new(alloc)));
    let done = writer.string(text);
    *out = writer.into_inner();
    Ok(done?)
}

/// Adds a text as a JSON string, and a space.
///
/// # Errors
/// `Memory` where a growth was refused. The text is then as it was, or all but the space was added.
pub fn push_word(alloc: Global, text: &mut String, name: &str) -> Result<(), Memory>
    ensures ok { OnOk result (string_bytes text.new ≡ string_bytes text.old ++ word name.now) }
    ensures err { OnErr result
        ((string_bytes text.new ≡ string_bytes text.old)
        ⊎ (string_bytes text.new ≡ string_bytes text.old ++ quoted name.now)) }
{
    text.push_str(quoted(alloc, name)?.as_str())?;
    text.push_str(" ")?;
    Ok(())
}
