ghost use Rattle.std.specs.Prelude.{◌≡◌, IfOk, IfErr, OnOk, None, Some, length};
ghost use Rattle.cdf_form.specs.Reading.{IsMemory};
ghost use Rattle.cdf_parts.specs.Parts.{record_count};
ghost use Rattle.cdf_definition.specs.Acceptance.{first_refusal, value_in};

use cdf_check::{Definition, Keep, check_file};
use cdf_node::Node;
use cdf_parts::contests::Contests;
use cdf_types::{Memory, ReadFault};
use std::alloc::Global;

// Keeps the number of the records.
#[derive(Drop)]
struct Count;

impl Keep for Count {
    type Kept = usize;

    ghost keeps = { λ _ _ cvrs n. n ≡ length cvrs };

    fn none(&self, _alloc: Global) -> usize {
        0
    }

    fn keep(
        &self,
        _alloc: Global,
        _contests: &Contests,
        kept: &mut usize,
        place: usize,
        _cvr: &Node<'_>,
    ) -> Result<(), Memory> {
        *kept = place + 1;
        Ok(())
    }
}

/// The number of cast vote records of a file that is accepted beside the definition.
///
/// # Errors
/// As `check_report`.
#[tactic(auto, using(crate::proofs::Accepted::none_refuses))]
pub fn count_records(
    alloc: Global,
    definition: &Definition,
    bytes: &[u8],
) -> Result<usize, ReadFault>
    ensures accepted { OnOk result (first_refusal definition.now bytes.now ≡ None) }
    ensures count { IfOk result (λ n. n ≡ record_count (value_in bytes.now)) }
    ensures fault { IfErr result
        (λ e. ¬ IsMemory e → first_refusal definition.now bytes.now ≡ Some e) }
{
    let (_, count) = check_file(alloc, definition, bytes, &Count)?;
    Ok(count)
}
