ghost use Rattle.std.specs.Prelude.{◌≡◌, length, take};
ghost use Rattle.std.specs.List.{filter};
ghost use Rattle.cvr_run.specs.Happened.{refused_places};
ghost use Rattle.cvr_run.specs.Refusals.{is_refusal};

use arrayvec::ArrayVec;
use cvr_office::{Cause, Outcome};
use cvr_words::Request;
use std::alloc::Global;

/// What happened in a run, beside its status.
#[derive(Drop)]
pub struct Happened {
    /// Names with several texts are to be counted.
    pub counts_several: bool,
    /// What was asked for, where it was done.
    pub request: Option<Request>,
    /// Why the definition was refused.
    pub definition: Option<Cause>,
    /// What became of each file, or of each step of a drill, in order.
    pub outcomes: Vec<Outcome>,
    /// How many names have several texts, where that was counted.
    pub several: Option<usize>,
}

impl Happened {
    ghost use Rattle.std.specs.Prelude.{◌≡◌, [], None, Some};

    /// Nothing has happened. Takes no memory.
    pub fn new(alloc: Global, counts_several: bool) -> Happened
        ensures counts { result.counts_several ≡ counts_several }
        ensures request { result.request ≡ None }
        ensures definition { result.definition ≡ None }
        ensures outcomes { result.outcomes.items ≡ [] }
        ensures several { result.several ≡ None }
    {
        Happened {
            counts_several,
            request: None,
            definition: None,
            outcomes: Vec::new(alloc),
            several: None,
        }
    }

    /// Keeps why the definition was refused. Takes no memory.
    pub fn refuse(&mut self, alloc: Global, cause: Cause)
        ensures definition { self.new.definition ≡ Some cause }
        ensures outcomes { self.new.outcomes.items ≡ [] }
        ensures several { self.new.several ≡ None }
    {
        self.definition = Some(cause);
        self.outcomes = Vec::new(alloc);
        self.several = None;
    }

    /// Keeps what became of each file or step beside a definition that is accepted. Takes no
    /// memory.
    pub fn note(&mut self, outcomes: Vec<Outcome>, several: Option<usize>)
        ensures definition { self.new.definition ≡ None }
        ensures outcomes { self.new.outcomes.items ≡ outcomes.items }
        ensures several { self.new.several ≡ several }
    {
        self.definition = None;
        self.outcomes = outcomes;
        self.several = several;
    }
}

/// How many of the refused files or steps are named.
pub const NAMED: usize = 10;

// Whether a file or a step was refused.
fn is_refusal(outcome: &Outcome) -> bool
    ensures { result ≡ is_refusal outcome.now }
{
    matches!(outcome, Outcome::Refused(_))
}

/// The places of the first ten files or steps that were refused, in order. Takes no memory.
pub fn first_refused(outcomes: &[Outcome]) -> ArrayVec<usize, NAMED>
    ensures { result.items ≡ take 10 (refused_places 0 outcomes.now) }
{
    let mut places = ArrayVec::new();
    for (place, outcome) in outcomes.iter().enumerate() {
        if is_refusal(outcome) && places.len() < NAMED {
            places.push(place);
        }
    }
    places
}

/// How many files or steps were refused. Takes no memory.
pub fn count_refused(outcomes: &[Outcome]) -> usize
    ensures { result ≡ length (filter is_refusal outcomes.now) }
{
    outcomes
        .iter()
        .filter(|outcome| is_refusal(outcome))
        .count()
}
