ghost use Rattle.std.specs.Prelude.{◌≡◌, All, IsUtf8, map, string_bytes, IfOk, IfErr, OnOk};
ghost use Rattle.cvr_call.specs.declared.fault.CallFault.TheVariants.{Pieces};

use crate::fault::CallFault;
use std::alloc::Global;

/// The words that pieces are.
///
/// # Errors
/// `Pieces` where one isn't a text; `Memory` where a growth was refused.
pub fn words_in(alloc: Global, pieces: &[&[u8]]) -> Result<Vec<String>, CallFault>
    ensures words { IfOk result
        (λ words. map string_bytes words.items ≡ map (λ piece. piece.now) pieces.now) }
    ensures texts { OnOk result (All (λ piece. IsUtf8 piece.now) pieces.now) }
    ensures none { IfErr result (λ fault. fault ≡ Pieces
        → ¬ All (λ piece. IsUtf8 piece.now) pieces.now) }
{
    let mut words = Vec::new(alloc);
    for piece in pieces {
        let Ok(word) = str::from_utf8(piece) else {
            return Err(CallFault::Pieces);
        };
        words.push(word.to_string(alloc)?)?;
    }
    Ok(words)
}
