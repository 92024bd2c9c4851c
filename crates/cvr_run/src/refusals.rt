ghost use Rattle.std.specs.Prelude.{◌≡◌, ◌||◌, ◌⊎◌, Bool, true, false};
ghost use Rattle.cvr_run.specs.Log.{cause_line, memory_line, has_path_in, Logs};
ghost use Rattle.cvr_run.specs.Refusals.{wants_memory};

use crate::log::{log_cause, say_memory};
use crate::status::Status;
use cdf_types::{Memory, ReadFault, Sink};
use cvr_office::{Cause, JoinFault};
use std::alloc::Global;

/// What a run has refused so far.
#[derive(Clone, Copy, Debug, PartialEq, Eq)]
pub struct Refusals {
    /// Something was refused.
    pub any_refusal: bool,
    /// A file or a step was refused since memory ran out, so that it would be missing from a text.
    pub file_lacking: bool,
    /// A path could not be spelled for a log line, since memory ran out.
    pub path_unspelled: bool,
}

// Whether something was refused since memory ran out.
fn wants_memory(cause: &Cause) -> bool
    ensures { result ≡ wants_memory cause.now }
{
    match cause {
        Cause::Read(ReadFault::Memory) | Cause::Join(JoinFault::Memory) => true,
        _ => false,
    }
}

impl Refusals {
    ghost use Rattle.cvr_office.specs.declared.event.Cause.TheVariants.{Read};
    ghost use Rattle.cvr_run.specs.Refusals.{wants_memory, status_of};

    /// Nothing was refused. Takes no memory.
    pub fn none() -> Refusals
        ensures any_refusal { result.any_refusal ≡ false }
        ensures file_lacking { result.file_lacking ≡ false }
        ensures path_unspelled { result.path_unspelled ≡ false }
    {
        Refusals {
            any_refusal: false,
            file_lacking: false,
            path_unspelled: false,
        }
    }

    /// Notes a refusal, and reports it in the log. Where memory runs out for the spelling of its
    /// path, that is logged in its place.
    pub fn note<L: Sink>(&mut self, alloc: Global, log: &mut L, what: &str, cause: &Cause)
        ensures any_refusal { self.new.any_refusal ≡ true }
        ensures file_lacking { self.new.file_lacking
            ≡ (self.old.file_lacking || wants_memory cause.now) }
        ensures is_logged { (self.new.path_unspelled ≡ self.old.path_unspelled)
            × Logs (L.taken log.old) (L.taken log.new) (cause_line what.now cause.now)
            ⊎ (has_path_in cause.now ≡ true) × (self.new.path_unspelled ≡ true)
            × Logs (L.taken log.old) (L.taken log.new) memory_line }
    {
        self.any_refusal = true;
        if wants_memory(cause) {
            self.file_lacking = true;
        }
        if let Err(_) = log_cause(alloc, log, what, cause) {
            self.path_unspelled = true;
            say_memory(log);
        }
    }

    /// The status of a run that printed its text. Takes no memory.
    pub fn status(&self) -> Status
        ensures { result ≡ status_of self.now }
    {
        if self.file_lacking || self.path_unspelled {
            Status::Memory
        } else if self.any_refusal {
            Status::Refused
        } else {
            Status::Done
        }
    }
}
