ghost use Rattle.std.specs.Prelude.{◌≡◌, ◌<◌, length, map, slice_index_or, IfOk, []};
ghost use Rattle.cdf_parts.specs.Places.{contest_ids, selections_at};

use cdf_definition::Definition;
use cdf_types::{Body, Memory, Seq};
use std::alloc::Global;

// The ids of a contest and of its selections, by place (NIST SP 1500-103, classes Contest and
// ContestSelection).
#[derive(Drop)]
pub(crate) struct ContestIds {
    pub(crate) id: Body,
    pub(crate) selections: Seq<Body>,
}

// The ids of the contests of a definition, in order.
pub(crate) fn contest_ids(alloc: Global, definition: &Definition) -> Result<Vec<ContestIds>, Memory>
    ensures { IfOk result
        (λ ids. map (λ c. (c.id, c.selections)) ids.items ≡ definition.now.contests) }
{
    let mut ids = Vec::with_capacity(alloc, definition.contest_count())?;
    for contest in 0..definition.contest_count() {
        ids.push(ids_of(alloc, definition, contest)?)?;
    }
    Ok(ids)
}

// The ids of the contest at a place.
fn ids_of(alloc: Global, definition: &Definition, contest: usize) -> Result<ContestIds, Memory>
    requires { contest < length definition.now.contests }
    ensures id { IfOk result
        (λ c. c.id ≡ slice_index_or (contest_ids definition.now.contests) contest []) }
    ensures selections { IfOk result
        (λ c. c.selections ≡ selections_at definition.now.contests contest) }
{
    Ok(ContestIds {
        id: body_of(alloc, definition.contest(contest))?,
        selections: selections_of(alloc, definition, contest)?,
    })
}

// The ids of the selections of the contest at a place, in order.
fn selections_of(
    alloc: Global,
    definition: &Definition,
    contest: usize,
) -> Result<Seq<Body>, Memory>
    requires { contest < length definition.now.contests }
    ensures { IfOk result (λ ids. ids ≡ selections_at definition.now.contests contest) }
{
    let mut ids = Vec::with_capacity(alloc, definition.selection_count(contest))?;
    for place in 0..definition.selection_count(contest) {
        ids.push(body_of(alloc, definition.selection(contest, place))?)?;
    }
    Ok(Seq::new(ids))
}

// The text.
fn body_of(alloc: Global, text: &str) -> Result<Body, Memory>
    ensures { IfOk result (λ b. b ≡ text.now) }
{
    Ok(Body::new(String::from_str(alloc, text)?))
}

// Equal ids, in order.
pub(crate) fn copy_ids(alloc: Global, contests: &[ContestIds]) -> Result<Vec<ContestIds>, Memory>
    ensures { IfOk result (λ copies. copies.items ≡ contests.now) }
{
    let mut copies = Vec::with_capacity(alloc, contests.len())?;
    for contest in contests {
        copies.push(copy_contest(alloc, contest)?)?;
    }
    Ok(copies)
}

// Equal ids of one contest.
fn copy_contest(alloc: Global, contest: &ContestIds) -> Result<ContestIds, Memory>
    ensures { IfOk result (λ copy. copy ≡ contest.now) }
{
    Ok(ContestIds {
        id: contest.id.copy()?,
        selections: copy_bodies(alloc, contest.selections.as_slice())?,
    })
}

// Equal texts, in order.
fn copy_bodies(alloc: Global, bodies: &[Body]) -> Result<Seq<Body>, Memory>
    ensures { IfOk result (λ copies. copies ≡ bodies.now) }
{
    let mut copies = Vec::with_capacity(alloc, bodies.len())?;
    for body in bodies {
        copies.push(body.copy()?)?;
    }
    Ok(Seq::new(copies))
}
