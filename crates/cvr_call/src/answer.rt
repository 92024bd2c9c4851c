ghost use Rattle.std.specs.Prelude.{◌≡◌, Some, [], false, map, string_bytes, IfOk, IfErr, OnOk};
ghost use Rattle.cvr_call.specs.declared.fault.CallFault.TheVariants.{Pieces, Memory};
ghost use Rattle.cvr_call.specs.Given.{Given, IsInput, files_in, opener_over};
ghost use Rattle.cvr_run.specs.Responds.{Responds};
ghost use Rattle.cvr_call.specs.Responds.{IsAnswer, IsSoFar};

use crate::fault::CallFault;
use crate::files::GivenFiles;
use crate::pieces::pieces_in;
use crate::words::words_in;
use cdf_types::{MemorySink, Sink};
use cvr_cli::{Happened, Status, respond};
use std::alloc::Global;

// Does what the words ask for, over the files that a call is given.
fn answer(
    alloc: Global,
    words: &[String],
    files: &mut GivenFiles<'_>,
    out: &mut MemorySink,
    log: &mut MemorySink,
) -> Status
    requires working { out.old.has_failed ≡ false }
    requires log_working { log.old.has_failed ≡ false }
    ensures { Responds (map string_bytes words.now) result
        (record {
          opener = opener_over (files_in (map (λ piece. piece.now) files.old.pieces.now));
          out = record { bytes = Some out.old.taken; failed = out.old.has_failed };
          log = record { bytes = Some log.old.taken; failed = log.old.has_failed };
        })
        (record {
          opener = opener_over (files_in (map (λ piece. piece.now) files.new.pieces.now));
          out = record { bytes = Some out.new.taken; failed = out.new.has_failed };
          log = record { bytes = Some log.new.taken; failed = log.new.has_failed };
        })
        (out.new ≡ out.old) }
{
    let mut happened = Happened::new(alloc, false);
    respond(alloc, files, words, out, log, &mut happened)
}

/// Does what the words of an input ask for, over its files.
///
/// # Errors
/// `Pieces` where the input isn't words and files: nothing is printed or logged then. `Memory`
/// where a growth was refused for the words, for the places of the pieces, for the paths of the
/// files, or for what is printed or logged; other growths are the run's.
pub fn answer_input(
    alloc: Global,
    input: &[u8],
    ends: &[usize],
    words: usize,
    out: &mut MemorySink,
    log: &mut MemorySink,
) -> Result<Status, CallFault>
    requires working { out.old.has_failed ≡ false }
    requires log_working { log.old.has_failed ≡ false }
    requires empty { out.old.taken ≡ [] }
    requires log_empty { log.old.taken ≡ [] }
    ensures answered { IfOk result (λ status. (given : Given)
        → IsInput input.now ends.now words given → IsAnswer given
        (record { status = status; text = out.new.taken; log = log.new.taken })) }
    ensures so_far { IfErr result (λ fault. fault ≡ Memory → (given : Given)
        → IsInput input.now ends.now words given → IsSoFar given out.new.taken log.new.taken) }
    ensures some { OnOk result ((given : Given) × IsInput input.now ends.now words given) }
    ensures none { IfErr result (λ fault. fault ≡ Pieces
        → (given : Given) → ¬ IsInput input.now ends.now words given) }
    ensures quiet { IfErr result (λ fault. fault ≡ Pieces → out.new.taken ≡ []) }
    ensures log_quiet { IfErr result (λ fault. fault ≡ Pieces → log.new.taken ≡ []) }
{
    let pieces = pieces_in(alloc, input, ends)?;
    let Some((words, files)) = pieces.as_slice().split_at_checked(words) else {
        return Err(CallFault::Pieces);
    };
    if files.len() % 2 != 0 {
        return Err(CallFault::Pieces);
    }
    let words = words_in(alloc, words)?;
    let mut files = GivenFiles::new(alloc, files)?;
    let status = answer(alloc, words.as_slice(), &mut files, out, log);
    if out.failed() || log.failed() {
        return Err(CallFault::Memory);
    }
    Ok(status)
}
