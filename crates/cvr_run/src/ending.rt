ghost use Rattle.std.specs.Prelude.{◌≡◌};
ghost use Rattle.cvr_run.specs.declared.status.Status.TheVariants.{Memory as NoMemory};
ghost use Rattle.cvr_run.specs.Log.{memory_line, Logs};
ghost use Rattle.cvr_run.specs.Printing.{end_line, status_after};

use crate::log::say_memory;
use crate::printing::{PrintFault, say_fault};
use crate::refusals::Refusals;
use crate::status::Status;
use cdf_types::Sink;

/// Ends a run without a text, since memory ran out.
pub fn end_in_memory<L: Sink>(log: &mut L) -> Status
    ensures status { result ≡ NoMemory }
    ensures log { Logs (L.taken log.old) (L.taken log.new) memory_line }
{
    say_memory(log);
    Status::Memory
}

/// Ends a run after what was printed, in which no file or step is missing.
pub fn end_with<L: Sink>(printed: Result<(), PrintFault>, refusals: Refusals, log: &mut L) -> Status
    ensures status { result ≡ status_after printed refusals }
    ensures log { Logs (L.taken log.old) (L.taken log.new) (end_line printed) }
{
    match printed {
        Ok(()) => refusals.status(),
        Err(fault) => {
            say_fault(log, fault);
            if refusals.path_unspelled {
                Status::Memory
            } else {
                fault.status()
            }
        }
    }
}
