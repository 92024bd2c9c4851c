ghost use Rattle.std.specs.Prelude.{◌≡◌, ◌≢◌, ◌+◌, ◌++◌, ℕ, List, length, map, IfOk, IfErr, IfNone};
ghost use Rattle.std.specs.Prelude.{IfSome};
ghost use Rattle.cvr_call.specs.Pieces.{AreCut};
ghost use Rattle.cvr_call.specs.declared.fault.CallFault.TheVariants.{Pieces};

use crate::fault::CallFault;
use std::alloc::Global;

// What stands before an end, and what stands behind it.
fn cut_at(bytes: &[u8], place: usize, end: usize) -> Option<(&[u8], &[u8])>
    ensures cut { IfSome result (λ parts. parts.0.now ++ parts.1.now ≡ bytes.now) }
    ensures ended { IfSome result (λ parts. place + length parts.0.now ≡ end) }
    ensures none { IfNone result ((piece rest : List ℕ) → piece ++ rest ≡ bytes.now
        → place + length piece ≢ end) }
{
    bytes.split_at_checked(end.checked_sub(place)?)
}

/// The pieces of an input, each of which ends at its place, and the last with the input.
///
/// # Errors
/// `Pieces` where they don't; `Memory` where a growth was refused.
pub fn pieces_in<'a>(
    alloc: Global,
    input: &'a [u8],
    ends: &[usize],
) -> Result<Vec<&'a [u8]>, CallFault>
    ensures cut { IfOk result
        (λ pieces. AreCut 0 input.now ends.now (map (λ piece. piece.now) pieces.items)) }
    ensures only { IfOk result (λ pieces. (others : List (List ℕ))
        → AreCut 0 input.now ends.now others → others ≡ map (λ piece. piece.now) pieces.items) }
    ensures none { IfErr result (λ fault. fault ≡ Pieces → (others : List (List ℕ))
        → ¬ AreCut 0 input.now ends.now others) }
{
    let mut pieces = Vec::new(alloc);
    let mut rest = input;
    let mut place = 0;
    for end in ends {
        let Some((piece, more)) = cut_at(rest, place, *end) else {
            return Err(CallFault::Pieces);
        };
        pieces.push(piece)?;
        rest = more;
        place = *end;
    }
    if rest.is_empty() {
        Ok(pieces)
    } else {
        Err(CallFault::Pieces)
    }
}
