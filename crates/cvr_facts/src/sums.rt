ghost use Rattle.std.specs.Prelude.{◌≡◌, ◌<◌, ◌+◌, List, [], IfOk, if◌then◌else◌, map, length};
ghost use Rattle.std.specs.Prelude.{is_none, slice_index, slice_set};
ghost use Rattle.std.specs.List.{sum_by};
ghost use Rattle.std.specs.Option.{IfSome, option_map_or};
ghost use Rattle.cdf_parts.specs.Places.{Contest};
ghost use Rattle.cdf_typed.specs.Range.{ContestInRange};
ghost use Rattle.cvr_facts.specs.Sums.{counts, is_pending, votes_among, sums_of, sums_in};
ghost use Rattle.cvr_facts.specs.Sums.{sum_limit, AreBelow, AreInRange};

use cdf_parts::contests::Contests;
use cdf_typed::{AsContestVote, AsPosition, AsSelectionVote};
use cdf_types::{Allocation, Indication, Memory, Position, Seq};
use cvr_fact_types::VoteSums;
use std::alloc::Global;

// Whether the votes of a position count: as it says, else where it is marked.
fn counts(position: &Position) -> bool
    ensures { result ≡ counts position.now }
{
    match position.allocation {
        Some(allocation) => allocation == Allocation::Yes,
        None => position.indication == Indication::Yes,
    }
}

// Whether a position is marked while it isn't settled whether its votes count.
fn is_pending(position: &Position) -> bool
    ensures { result ≡ is_pending position.now }
{
    position.allocation == Some(Allocation::Unknown) && position.indication == Indication::Yes
}

// The votes of a position where they are of a sort, else 0.
fn votes_where(is: bool, position: &Position) -> u64
    ensures { result ≡ if is then position.now.votes else 0 }
{
    if is { position.votes } else { 0 }
}

// The votes of the positions of a contest selection.
#[derive(Clone, Copy)]
struct Votes {
    // Those that count.
    counted: u64,
    // Those that are pending.
    pending: u64,
}

// The votes of positions.
fn votes_of<P: AsPosition>(positions: &[P]) -> Votes
    requires { sum_by (λ p. p.votes) (map P.position positions.now) < sum_limit }
    ensures counted { result.counted ≡ votes_among counts (map P.position positions.now) }
    ensures pending { result.pending ≡ votes_among is_pending (map P.position positions.now) }
{
    let mut counted = 0;
    let mut pending = 0;
    for position in positions {
        let position = position.position();
        counted += votes_where(counts(&position), &position);
        pending += votes_where(is_pending(&position), &position);
    }
    Votes { counted, pending }
}

// Adds the votes of one more contest selection, which names this place or none.
#[tactic(auto, using(crate::proofs::Columns::below_in_each))]
fn add_selection(sums: &mut VoteSums, votes: &mut [u64], place: Option<usize>, added: Votes)
    requires place { IfSome place (λ p. p < length votes.old) }
    requires room { AreBelow sum_limit (record sums.old { votes = votes.old }) }
    requires few { (added.counted < sum_limit) × (added.pending < sum_limit) }
    ensures votes { votes.new ≡ option_map_or
        (λ p. slice_set votes.old p (slice_index votes.old p + added.counted)) place votes.old }
    ensures sums { sums.new ≡ record sums.old {
      pending = sums.old.pending + added.pending;
      unassigned = sums.old.unassigned + (if is_none place then added.counted else 0);
    } }
{
    sums.pending += added.pending;
    match place {
        Some(place) => votes[place] += added.counted,
        None => sums.unassigned += added.counted,
    }
}

// The sums of the contest at a place before any of its selections is seen, without their votes.
fn first_sums<V: AsContestVote>(alloc: Global, contest: usize, vote: &V) -> VoteSums
    ensures { (contests : List Contest) → contest ≡ (V.contest_vote contests vote.now).contest
        → result ≡ record (sums_of contests (V.contest_vote contests vote.now)) {
          votes = [];
          pending = 0;
          unassigned = 0;
        } }
{
    VoteSums {
        contest,
        votes: Seq::empty(alloc),
        overvotes: vote.overvotes(),
        undervotes: vote.undervotes(),
        write_ins: vote.write_ins(),
        pending: 0,
        unassigned: 0,
    }
}

// The sums of a contest.
fn sums_of<V: AsContestVote>(
    alloc: Global,
    contests: &Contests,
    vote: &V,
) -> Result<VoteSums, Memory>
    requires { ContestInRange contests.now (V.contest_vote contests.now vote.now) }
    ensures { IfOk result (λ v. v ≡ sums_of contests.now (V.contest_vote contests.now vote.now)) }
{
    let named = vote.contest(contests);
    let contest = named.unwrap_or(0);
    let own = contests.selections(contest);
    let ids = named.and(Some(own));
    let mut sums = first_sums(alloc, contest, vote);
    let mut votes = vec![in alloc; 0; own.len()]?;
    for selection in vote.selections() {
        let added = votes_of(selection.positions());
        add_selection(
            &mut sums,
            votes.as_mut_slice(),
            selection.selection(ids),
            added,
        );
    }
    Ok(VoteSums {
        votes: Seq::new(votes),
        ..sums
    })
}

// The sums of each contest of a snapshot, in order of place.
pub(crate) fn sums_in<V: AsContestVote>(
    alloc: Global,
    contests: &Contests,
    votes: &[V],
) -> Result<Seq<VoteSums>, Memory>
    requires { AreInRange contests.now (map (V.contest_vote contests.now) votes.now) }
    ensures { IfOk result (λ v. v
        ≡ sums_in contests.now (map (V.contest_vote contests.now) votes.now)) }
{
    let mut sums = Vec::with_capacity(alloc, votes.len())?;
    for vote in votes {
        sums.push(sums_of(alloc, contests, vote)?)?;
    }
    sums.sort_unstable_by_key(|s| s.contest);
    Ok(Seq::new(sums))
}
