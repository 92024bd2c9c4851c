ghost use Rattle.std.specs.Prelude.{◌≡◌, ◌++◌, OnOk, decimal, string_bytes};

use cdf_types::Memory;
use itoa::Buffer;

/// Adds a number, in decimal digits.
///
/// # Errors
/// `Memory` where a growth was refused.
pub fn push_number(text: &mut String, number: usize) -> Result<(), Memory>
    ensures { OnOk result (string_bytes text.new ≡ string_bytes text.old ++ decimal number) }
{
    let mut buffer = Buffer::new();
    text.push_str(buffer.format(number))?;
    Ok(())
}
