ghost use Rattle.std.specs.Prelude.{◌≡◌, IfOk, option_map, map};
ghost use Rattle.cdf_node.specs.View.{view};
ghost use Rattle.cdf_typed.specs.Typed.{position_of, selection_vote_of, contest_vote_of};

use crate::as_vote::{AsContestVote, AsPosition, AsSelectionVote};
use cdf_node::Node;
use cdf_parts::contests::Contests;
use cdf_parts::ids::Ids;
use cdf_parts::text_at;
use cdf_types::{ContestVote, Memory, Position, SelectionVote, Seq};
use std::alloc::Global;

fn read_positions(alloc: Global, values: &[Node<'_>]) -> Result<Seq<Position>, Memory>
    ensures { IfOk result (λ s. s ≡ map (λ v. position_of (view v)) values.now) }
{
    let mut positions = Vec::with_capacity(alloc, values.len())?;
    for value in values {
        positions.push(value.position())?;
    }
    Ok(Seq::new(positions))
}

fn read_selection(
    alloc: Global,
    ids: Option<&Ids>,
    value: &Node<'_>,
) -> Result<SelectionVote, Memory>
    ensures { IfOk result (λ s. s
        ≡ selection_vote_of (option_map (λ i. i.now) ids.entry) (view value.now)) }
{
    Ok(SelectionVote {
        selection: value.selection(ids),
        positions: read_positions(alloc, value.positions())?,
    })
}

fn read_selections(
    alloc: Global,
    ids: Option<&Ids>,
    values: &[Node<'_>],
) -> Result<Seq<SelectionVote>, Memory>
    ensures { IfOk result (λ s. s
        ≡ map (λ v. selection_vote_of (option_map (λ i. i.now) ids.entry) (view v)) values.now) }
{
    let mut selections = Vec::with_capacity(alloc, values.len())?;
    for value in values {
        selections.push(read_selection(alloc, ids, value)?)?;
    }
    Ok(Seq::new(selections))
}

fn read_contest(alloc: Global, contests: &Contests, value: &Node<'_>) -> Result<ContestVote, Memory>
    ensures { IfOk result (λ c. c ≡ contest_vote_of contests.now (view value.now)) }
{
    let ids = contests.selections_of(text_at("ContestId", value));
    Ok(ContestVote {
        contest: value.contest(contests).unwrap_or(0),
        overvotes: value.overvotes(),
        undervotes: value.undervotes(),
        write_ins: value.write_ins(),
        selections: read_selections(alloc, ids, value.selections())?,
    })
}

/// What a snapshot has for each contest, in order (class CVRContest).
///
/// # Errors
/// `Memory` where a growth was refused.
pub fn read_contests(
    alloc: Global,
    contests: &Contests,
    values: &[Node<'_>],
) -> Result<Seq<ContestVote>, Memory>
    ensures { IfOk result (λ s. s ≡ map (contest_vote_of contests.now) (map view values.now)) }
{
    let mut votes = Vec::with_capacity(alloc, values.len())?;
    for value in values {
        votes.push(read_contest(alloc, contests, value)?)?;
    }
    Ok(Seq::new(votes))
}
