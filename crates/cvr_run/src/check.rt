ghost use Rattle.std.specs.Prelude.{◌≡◌, ◌++◌, OnOk, string_bytes};
ghost use Rattle.cvr_run.specs.Outcome.{count_line};

use crate::number::push_number;
use cdf_types::Memory;

/// Adds the line of an accepted file: its path and the number of its cast vote records.
///
/// # Errors
/// `Memory` where a growth was refused. The text is then a prefix of the longer one.
pub fn push_count(text: &mut String, path: &str, records: usize) -> Result<(), Memory>
    ensures { OnOk result
        (string_bytes text.new ≡ string_bytes text.old ++ count_line path.now records) }
{
    text.push_str(path)?;
    text.push_str(" ")?;
    push_number(text, records)?;
    text.push_str("\n")?;
    Ok(())
}
