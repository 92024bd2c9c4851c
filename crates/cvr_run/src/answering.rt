ghost use Rattle.std.specs.Prelude.{◌≡◌, map, false, string_bytes};
ghost use Rattle.cvr_run.specs.Answered.{bad_step_line, IsGiven, LogsWords};
ghost use Rattle.cvr_run.specs.Log.{Logs};
ghost use Rattle.cvr_run.specs.Responds.{NotesEach, Works};

use crate::ending::{end_in_memory, end_with};
use crate::happened::Happened;
use crate::log::say;
use crate::opening::Open;
use crate::printing::print_text;
use crate::refusals::Refusals;
use crate::status::Status;
use crate::working::run_request;
use cdf_types::Sink;
use cvr_office::Office;
use cvr_words::{LoggedFault, read_line};
use std::alloc::Global;

/// Reports what is wrong with words. Takes no memory.
pub fn log_refused<L: Sink>(log: &mut L, text: &str)
    ensures { Logs (L.taken log.old) (L.taken log.new) text.now }
{
    say(log, &[text.as_bytes()]);
}

// Reports a step that has no form.
fn log_bad_step<L: Sink>(log: &mut L, step: &str)
    ensures { Logs (L.taken log.old) (L.taken log.new) (bad_step_line step.now) }
{
    let step = step.as_bytes();
    say(log, &[step, b": L3\n"]);
}

// Says why words ask for no request: help is printed, all else goes to the log. Takes no memory.
fn answer_fault<W: Sink, L: Sink>(fault: &LoggedFault, out: &mut W, log: &mut L) -> Status
    requires { (W.taken out.old).failed ≡ false }
    ensures { LogsWords fault.now result
        (record { out = W.taken out.old; log = L.taken log.old })
        (record { out = W.taken out.new; log = L.taken log.new })
        (out.new ≡ out.old) }
{
    match fault {
        LoggedFault::Refused { text } => {
            log_refused(log, text.as_str());
            Status::CommandLine
        }
        LoggedFault::Help { text } => {
            let printed = print_text(text.as_str(), out);
            end_with(printed, Refusals::none(), log)
        }
        LoggedFault::BadStep { step, .. } => {
            log_bad_step(log, step.as_str());
            Status::CommandLine
        }
        LoggedFault::Memory => end_in_memory(log),
    }
}

/// Does the request that the words after the program's name ask for, or says why they ask for none.
pub fn work<C: Office + Drop, O: Open, W: Sink, L: Sink>(
    alloc: Global,
    opener: &mut O,
    words: &[String],
    out: &mut W,
    log: &mut L,
    happened: &mut Happened,
) -> Status
    requires working { (W.taken out.old).failed ≡ false }
    requires log_working { (L.taken log.old).failed ≡ false }
    ensures works { Works (map string_bytes words.now) result
        (record { opener = O.state opener.old; out = W.taken out.old; log = L.taken log.old })
        (record { opener = O.state opener.new; out = W.taken out.new; log = L.taken log.new })
        (out.new ≡ out.old) }
    ensures happened { NotesEach
        (IsGiven (O.state opener.old).at (map string_bytes words.now)) result happened.new }
{
    match read_line(alloc, words) {
        Ok(request) => {
            let status = run_request::<C, O, W, L>(alloc, opener, &request, out, log, happened);
            happened.request = Some(request);
            status
        }
        Err(fault) => answer_fault(&fault, out, log),
    }
}
