ghost use Rattle.std.specs.Prelude.{◌≡◌, ◌∷◌, ◌++◌, [], IfErr, IfOk, None, OnOk, length, map};
ghost use Rattle.cvr_words.specs.Step.{path_in};
ghost use Rattle.cvr_words.specs.Steps.{act_at, bad_place, form_of, paths_of, step_at, steps_of};
ghost use Rattle.cvr_words.specs.Steps.{IsBadStep};
ghost use Rattle.cvr_words.specs.declared.fault.LoggedFault.TheVariants.{BadStep};

use crate::fault::LoggedFault;
use crate::request::{Act, Step};
use crate::step::{Form, read_step};
use crate::text::body;
use cdf_types::{Body, Memory, Seq};
use std::alloc::Global;

/// The steps of a drill, with the paths that they name.
#[derive(Drop)]
pub(crate) struct Steps {
    pub(crate) steps: Seq<Step>,
    pub(crate) paths: Seq<Body>,
}

// What a form does, where the next path stands at the place.
fn act_of(form: Form<'_>, place: usize) -> Act
    ensures { result ≡ act_at place (form_of form.entry) }
{
    match form {
        Form::Import(office, _path) => Act::Import {
            office,
            path: place,
        },
        Form::Exchange(from, to) => Act::Exchange { from, to },
    }
}

fn add_step(
    alloc: Global,
    steps: &mut Seq<Step>,
    paths: &mut Seq<Body>,
    text: &str,
    form: Form<'_>,
) -> Result<(), Memory>
    ensures steps { OnOk result
        (steps.new ≡ steps.old ++ step_at (length paths.old) text.now (form_of form.entry) ∷ []) }
    ensures paths { OnOk result (paths.new ≡ paths.old ++ path_in (form_of form.entry)) }
{
    let act = act_of(form, paths.as_slice().len());
    let text = body(alloc, text)?;
    steps.push(Step { text, act })?;
    if let Form::Import(_office, path) = form {
        paths.push(body(alloc, path)?)?;
    }
    Ok(())
}

// The fault of a step that has no form.
fn bad_step(alloc: Global, place: usize, text: &str) -> Result<LoggedFault, Memory>
    ensures { IfOk result (λ f. f ≡ BadStep place text.now) }
{
    let step = body(alloc, text)?;
    Ok(LoggedFault::BadStep { place, step })
}

/// The steps of the texts, with the paths that they name: each import has its own.
///
/// # Errors
/// `BadStep` with the place of the first text that has no form, and that text; `Memory`.
pub(crate) fn read_steps(alloc: Global, texts: &[&str]) -> Result<Steps, LoggedFault>
    ensures formed { IfOk result (λ r. bad_place (map (λ t. t.now) texts.now) ≡ None) }
    ensures steps { IfOk result (λ r. r.steps ≡ steps_of 0 (map (λ t. t.now) texts.now)) }
    ensures paths { IfOk result (λ r. r.paths ≡ paths_of (map (λ t. t.now) texts.now)) }
    ensures err { IfErr result (λ f. IsBadStep (map (λ t. t.now) texts.now) f) }
{
    let mut steps = Seq::empty(alloc);
    let mut paths = Seq::empty(alloc);
    for place in 0..texts.len() {
        match read_step(texts[place]) {
            Some(form) => add_step(alloc, &mut steps, &mut paths, texts[place], form)?,
            None => {
                let fault = bad_step(alloc, place, texts[place])?;
                return Err(fault);
            }
        }
    }
    Ok(Steps { steps, paths })
}
