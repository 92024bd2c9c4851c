ghost use Rattle.std.specs.Prelude.{◌≡◌, List, false, length, map, option_map};
ghost use Rattle.std.specs.List.{list_any};
ghost use Rattle.cvr_run.specs.Refusals.{cause_in, is_refusal, is_want, AreDue, Due};
ghost use Rattle.cvr_run.specs.Logged.{LogsFirst};

use crate::refusals::Refusals;
use cdf_types::{Body, Sink};
use cvr_office::{Cause, Outcome};
use cvr_words::Step;
use std::alloc::Global;

/// A file or a step of a run, as the words name it.
pub trait Argument {
    ghost use Rattle.std.specs.Prelude.{List, ℕ};

    // its text
    ghost spelled: { Self → List ℕ };

    /// What stands in a log line for it. Takes no memory.
    fn text(&self) -> &str
        ensures { result.now ≡ spelled self.now };
}

// the path of a file
impl Argument for Body {
    ghost spelled = { λ path. path };

    fn text(&self) -> &str {
        self.as_str()
    }
}

impl Argument for Step {
    ghost spelled = { λ step. step.text };

    fn text(&self) -> &str {
        self.text.as_str()
    }
}

// The cause for which an event was refused.
fn cause_in(outcome: &Outcome) -> Option<&Cause>
    ensures { option_map (λ c. c.now) result ≡ cause_in outcome.now }
{
    match outcome {
        Outcome::Accepted(_) => None,
        Outcome::Refused(cause) => Some(cause),
    }
}

/// Reports each file or step that was refused in the log, in order.
pub fn note_refused<A: Argument, L: Sink>(
    alloc: Global,
    arguments: &[A],
    outcomes: &[Outcome],
    log: &mut L,
) -> Refusals
    requires { length arguments.now ≡ length outcomes.now }
    ensures any_refusal { result.any_refusal ≡ list_any is_refusal outcomes.now }
    ensures file_lacking { result.file_lacking ≡ list_any is_want outcomes.now }
    ensures log { (dues : List Due) → AreDue dues outcomes.now → LogsFirst
        (record { texts = map A.spelled arguments.now; dues = dues })
        (length outcomes.now) result (L.taken log.old) (L.taken log.new) }
{
    let mut refusals = Refusals::none();
    for (place, outcome) in outcomes.iter().enumerate() {
        if let Some(cause) = cause_in(outcome) {
            refusals.note(alloc, log, arguments[place].text(), cause);
        }
    }
    refusals
}
