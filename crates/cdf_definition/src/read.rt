ghost use Rattle.std.specs.Prelude.{◌≡◌, Option, None, Some, IfOk, IfErr, OnOk};
ghost use Rattle.serde_json.specs.Data.{Data};
ghost use Rattle.cdf_node.specs.View.{view};
ghost use Rattle.cdf_types.specs.declared.fault.ReadFault.{ReadFault};
ghost use Rattle.cdf_form.specs.Reading.{IsMemory, of_file};
ghost use Rattle.cdf_definition.specs.Sound.{IsSound};
ghost use Rattle.cdf_definition.specs.Acceptance.{Holds, Sound, first_unsound, frame_in};

use crate::check::check_own;
use crate::definition::Definition;
use bumpalo::Bump;
use cdf_form::read::file_text;
use cdf_node::{Node, read_text};
use cdf_types::ReadFault;
use json::Scratch;
use std::alloc::Global;

// The value of a file.
fn value_of_file<'t>(
    bump: &'t Bump,
    bytes: &'t [u8],
    scratch: &'t mut Scratch,
) -> Result<Node<'t>, ReadFault>
    ensures ok { IfOk result (λ v. Holds bytes.now (view v)) }
    ensures err { IfErr result (λ e. ¬ IsMemory e
        → (refusal : Data → Option ReadFault) → of_file refusal bytes.now ≡ Some e) }
{
    match read_text(bump, file_text(bytes)?, scratch) {
        Ok(Some(value)) => Ok(value),
        Ok(None) => Err(ReadFault::NotJson),
        Err(_) => Err(ReadFault::Memory),
    }
}

// The value of a file that can serve as a definition.
fn sound_value<'t>(
    alloc: Global,
    bump: &'t Bump,
    bytes: &'t [u8],
    scratch: &'t mut Scratch,
) -> Result<Node<'t>, ReadFault>
    ensures value { IfOk result (λ v. Holds bytes.now (view v)) }
    ensures sound { IfOk result (λ v. IsSound (view v)) }
    ensures first { IfErr result (λ e. ¬ IsMemory e → first_unsound bytes.now ≡ Some e) }
{
    let value = value_of_file(bump, bytes, scratch)?;
    check_own(alloc, &value)?;
    Ok(value)
}

impl Definition {
    /// The definition that a file holds: any report that has no fault by itself, with or without
    /// cast vote records.
    ///
    /// The records of the file are checked, and not taken.
    ///
    /// # Errors
    /// The first of these that applies, and no definition: `TooLong` above 67,108,864 bytes;
    /// `NotJson` where the file is no JSON text as `serde_json` reads it (RFC 8259; at most 127
    /// deep); `Schema` with rule `NotWhole` at the first number that isn't a whole one; `Schema` at
    /// the first fault of form; `Reference` at the first text that names nothing in the file.
    /// `Memory` in place of any answer where a growth was refused.
    pub fn read(alloc: Global, bytes: &[u8]) -> Result<Definition, ReadFault>
        ensures sound { OnOk result (Sound bytes.now) }
        ensures frame { IfOk result (λ def. def ≡ frame_in bytes.now) }
        ensures first { IfErr result (λ e. ¬ IsMemory e → first_unsound bytes.now ≡ Some e) }
    {
        let bump = Bump::new(alloc);
        let mut scratch = Scratch::new(alloc);
        let value = sound_value(alloc, &bump, bytes, &mut scratch)?;
        Ok(Definition::of_report(alloc, &value)?)
    }
}
