ghost use Rattle.std.specs.Prelude.{◌≡◌, ◌++◌, IfOk, OnOk, map, reverse, string_bytes};
ghost use Rattle.std.specs.Char.{encode_utf8};
ghost use Rattle.cdf_form.specs.Path.{escape, step_text, path_text};
ghost use Rattle.cdf_form.specs.Found.{step_of, path_of};

use crate::found::{Path, Step};
use cdf_types::Body;
use itoa::Buffer;
use std::alloc::{AllocError, Global};

fn push_char(text: &mut String, c: char) -> Result<(), AllocError>
    ensures { OnOk result
        (string_bytes text.new ≡ string_bytes text.old ++ escape (encode_utf8 c)) }
{
    match c {
        '~' => text.push_str("~0"),
        '/' => text.push_str("~1"),
        _ => text.push(c),
    }
}

fn push_escaped(text: &mut String, name: &str) -> Result<(), AllocError>
    ensures { OnOk result (string_bytes text.new ≡ string_bytes text.old ++ escape name.now) }
{
    for c in name.chars() {
        push_char(text, c)?;
    }
    Ok(())
}

fn push_step(text: &mut String, step: Step<'_>) -> Result<(), AllocError>
    ensures { OnOk result
        (string_bytes text.new ≡ string_bytes text.old ++ step_text (step_of step.entry)) }
{
    text.push_str("/")?;
    match step {
        Step::Member(name) => push_escaped(text, name),
        Step::Item(place) => {
            let mut buffer = Buffer::new();
            text.push_str(buffer.format(place))
        }
    }
}

// The text of a path whose innermost step comes first.
fn path_text(alloc: Global, steps: &[Step<'_>]) -> Result<String, AllocError>
    ensures { IfOk result (λ s. string_bytes s ≡ path_text (reverse (map step_of steps.now))) }
{
    let mut text = String::new(alloc);
    let mut left = steps.len();
    while left > 0 {
        left -= 1;
        push_step(&mut text, steps[left])?;
    }
    Ok(text)
}

/// The JSON Pointer (RFC 6901) of a path.
///
/// # Errors
/// An `AllocError` where a growth was refused.
pub fn pointer(alloc: Global, path: &Path<'_>) -> Result<Body, AllocError>
    ensures { IfOk result (λ text. text ≡ path_text (path_of path.now)) }
{
    Ok(Body::new(path_text(alloc, &path.steps)?))
}
