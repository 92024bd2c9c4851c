//! What notes name of what happened.
ghost use Rattle.std.specs.Prelude.{◌≡◌, ◌<◌, ◌-◌, length, false, true, None, Some};
ghost use Rattle.std.specs.List.{filter};
ghost use Rattle.cvr_run.specs.Refusals.{is_refusal};
ghost use Rattle.cvr_screen.specs.Given.{is_given};

use cdf_types::ReadFault;
use cvr_office::Outcome;
use cvr_run::{NAMED, Status, count_refused};
use cvr_words::{Act, Request, Step, Task};

// The text of a step, and the place of the file that it imports.
fn imported(step: &Step) -> Option<(&str, usize)> {
    match step.act {
        Act::Import { path, .. } => Some((step.text.as_str(), path)),
        Act::Exchange { .. } => None,
    }
}

/// What a log line begins with for the file or the step at this place, and the place of its file.
/// None of an exchange.
pub fn named(request: &Request, place: usize) -> Option<(&str, usize)> {
    match &request.task {
        Task::Drill { steps, .. } => imported(steps.as_slice().get(place)?),
        _ => Some((request.paths.as_slice().get(place)?.as_str(), place)),
    }
}

/// The path of the file at this place: of the definition at 0, and then of the files in order.
pub fn file_at(request: &Request, place: usize) -> Option<&str> {
    match place.checked_sub(1) {
        None => Some(request.def.as_str()),
        Some(behind) => Some(request.paths.as_slice().get(behind)?.as_str()),
    }
}

/// How many of the files or steps that were refused aren't among the first ten.
pub fn unnamed(outcomes: &[Outcome]) -> usize
    ensures { result ≡ length (filter is_refusal outcomes.now) - 10 }
{
    count_refused(outcomes).saturating_sub(NAMED)
}

/// The path of a fault in its file, where it has one.
pub fn path_of(fault: &ReadFault) -> Option<&str> {
    match fault {
        ReadFault::Schema { path, .. }
        | ReadFault::Reference { path }
        | ReadFault::Disagrees { path } => Some(path.as_str()),
        _ => None,
    }
}

/// What the notes at the end of a run are about.
#[derive(Clone, Copy, Debug, PartialEq, Eq)]
pub enum Topic {
    /// What happened in it.
    Run,
    /// What the system answered.
    System,
    /// The words that it was given.
    Words,
}

/// What the notes are about at the end of a run with this status, if there are any.
pub fn topic_of(is_terminal: bool, status: &Status) -> Option<Topic>
    ensures quiet { is_terminal ≡ false → result ≡ None }
    ensures memory { status.now ≡ Status.Memory → result ≡ None }
    ensures done { is_terminal ≡ true → status.now ≡ Status.Done → result ≡ Some Topic.Run }
    ensures refused { is_terminal ≡ true → status.now ≡ Status.Refused → result ≡ Some Topic.Run }
    ensures device { is_terminal ≡ true → status.now ≡ Status.Device → result ≡ Some Topic.System }
    ensures words { is_terminal ≡ true → status.now ≡ Status.CommandLine
        → result ≡ Some Topic.Words }
{
    if !is_terminal {
        return None;
    }
    match status {
        Status::Done | Status::Refused => Some(Topic::Run),
        Status::Device => Some(Topic::System),
        Status::CommandLine => Some(Topic::Words),
        Status::Memory => None,
    }
}

// Whether the definition is among the files, too.
fn is_among_files(request: &Request) -> bool
    ensures { result ≡ is_given request.now }
{
    request.paths.as_slice().contains(&request.def)
}

/// How many records of the definition are not counted: all that it has, unless it is among the
/// files; None where there are none.
pub fn uncounted(own: usize, request: &Request) -> Option<usize>
    ensures none { own ≡ 0 → result ≡ None }
    ensures given { is_given request.now ≡ true → result ≡ None }
    ensures own { is_given request.now ≡ false → 0 < own → result ≡ Some own }
{
    if own > 0 && !is_among_files(request) {
        Some(own)
    } else {
        None
    }
}
