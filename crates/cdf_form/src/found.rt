use cdf_types::{Memory, Rule};
use std::alloc::{AllocError, Global};

/// A step from a value into one of its parts: a member by name, or an item by place from 0.
#[derive(Clone, Copy)]
pub enum Step<'a> {
    /// The member of this name.
    Member(&'a str),
    /// The item at this place.
    Item(usize),
}

/// The way from a value to one of its parts.
#[derive(Drop)]
pub struct Path<'a> {
    /// The steps, the innermost first.
    pub steps: Vec<Step<'a>>,
}

/// A fault that was found.
#[derive(Drop)]
pub struct Found<'a> {
    /// The rule that is broken.
    pub rule: Rule,
    /// Where it is broken.
    pub path: Path<'a>,
}

/// Why a walk stops: at a fault, or out of memory. A fault has a block of its own, so that what a
/// walk answers is short: mostly there is none.
#[derive(Drop)]
pub enum Stop<'a> {
    /// The first fault.
    Fault(Box<Found<'a>>),
    /// Out of memory.
    Memory(Memory),
}

impl<'a> From<AllocError> for Stop<'a> {
    ghost use Rattle.std.specs.Prelude.{Option};
    ghost use Rattle.cdf_form.specs.Form.{Fault};
    ghost use Rattle.cdf_form.specs.Found.{StopsAt};

    ghost from_gives = { λ _ s. (o : Option Fault) → StopsAt s o };

    fn from(refused: AllocError) -> Stop<'a> {
        Stop::Memory(refused.into())
    }
}

impl<'a> Path<'a> {
    ghost use Rattle.std.specs.Prelude.{◌≡◌, ◌∷◌, [], IfOk};
    ghost use Rattle.cdf_form.specs.Found.{path_of, step_of};

    /// The value itself. Takes no memory.
    pub fn here(alloc: Global) -> Path<'a>
        ensures { path_of result ≡ [] }
    {
        Path {
            steps: Vec::new(alloc),
        }
    }

    /// The same path, from the value that the step starts at.
    ///
    /// # Errors
    /// An `AllocError` where a growth was refused.
    pub fn under(self, step: Step<'a>) -> Result<Path<'a>, AllocError>
        ensures { IfOk result (λ p. path_of p ≡ step_of step.entry ∷ path_of self.entry) }
    {
        let Path { mut steps } = self;
        steps.push(step)?;
        Ok(Path { steps })
    }
}

impl<'a> Stop<'a> {
    ghost use Rattle.std.specs.Prelude.{Some, option_map, Option};
    ghost use Rattle.cdf_form.specs.Form.{Fault, here, deeper_fault};
    ghost use Rattle.cdf_form.specs.Found.{StopsAt, step_of, fault_of};

    /// A fault that was found; out of memory where it can't have a block.
    pub fn found(alloc: Global, found: Found<'a>) -> Stop<'a>
        ensures { StopsAt result (Some (fault_of found.entry)) }
    {
        match Box::new(alloc, found) {
            Ok(found) => Stop::Fault(found),
            Err(refused) => Stop::Memory(refused.into()),
        }
    }

    /// A fault at the value itself; out of memory where it can't have a block.
    pub fn at(alloc: Global, rule: Rule) -> Stop<'a>
        ensures { StopsAt result (Some (here rule)) }
    {
        let path = Path::here(alloc);
        Stop::found(alloc, Found { rule, path })
    }

    /// The same cause, from the value that the step starts at; out of memory where the path can't
    /// grow.
    pub fn under(self, step: Step<'a>) -> Stop<'a>
        ensures { (o : Option Fault) → StopsAt self.entry o
            → StopsAt result (option_map (deeper_fault (step_of step.entry)) o) }
    {
        match self {
            Stop::Memory(refused) => Stop::Memory(refused),
            Stop::Fault(mut found) => match found.path.steps.push(step) {
                Ok(()) => Stop::Fault(found),
                Err(refused) => Stop::Memory(refused.into()),
            },
        }
    }
}
