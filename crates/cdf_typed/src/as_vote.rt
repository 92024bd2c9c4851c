//! Votes that are typed already, or stand in a JSON value: both are read alike.
ghost use Rattle.std.specs.Prelude.{◌≡◌, List, Option, Some, option_map, unwrap_or, map, codes};
ghost use Rattle.cdf_node.specs.View.{view};
ghost use Rattle.cdf_types.specs.declared.report.Position.{Position};
ghost use Rattle.cdf_types.specs.declared.report.SelectionVote.{SelectionVote};
ghost use Rattle.cdf_types.specs.declared.report.ContestVote.{ContestVote};
ghost use Rattle.cdf_parts.specs.Parts.{text_at};
ghost use Rattle.cdf_parts.specs.Places.{Texts, Contest, selections_at, selections_of};
ghost use Rattle.cdf_typed.specs.Typed.{position_of, selection_place, selection_vote_of};
ghost use Rattle.cdf_typed.specs.Typed.{contest_vote_of};

use crate::listed::{allocation_named, count_at, indication_named};
use cdf_node::Node;
use cdf_parts::contests::Contests;
use cdf_parts::ids::Ids;
use cdf_parts::{items_at, text_at, text_in};
use cdf_types::{ContestVote, Indication, Position, SelectionVote};

/// A mark's place on the ballot (NIST SP 1500-103, class SelectionPosition).
pub trait AsPosition {
    ghost position: { Self → Position };

    /// The position that it is. Takes no memory.
    fn position(&self) -> Position
        ensures { result ≡ position self.now };
}

/// What a snapshot has for one contest selection (NIST SP 1500-103, class CVRContestSelection).
pub trait AsSelectionVote {
    type Position: AsPosition;

    // beside the ids of the selections of its contest
    ghost selection_vote: { Option Texts → Self → SelectionVote };

    /// The place of the selection that it names, among these ids. Takes no memory.
    fn selection(&self, ids: Option<&Ids>) -> Option<usize>
        ensures { result
            ≡ (selection_vote (option_map (λ i. i.now) ids.entry) self.now).selection };

    /// Its positions, in order. Takes no memory.
    fn positions(&self) -> &[Self::Position]
        ensures { (ids : Option Texts) → map Self.Position.position result.now
            ≡ (selection_vote ids self.now).positions };
}

/// What a snapshot has for one contest (NIST SP 1500-103, class CVRContest).
pub trait AsContestVote {
    type Selection: AsSelectionVote;

    ghost contest_vote: { List Contest → Self → ContestVote };

    // the ids that its selections are named by, where they are named
    ghost selection_ids: { List Contest → Self → Option Texts };

    /// The place of its contest, if it names one of them; else it counts as of the first. Takes no
    /// memory.
    fn contest(&self, contests: &Contests) -> Option<usize>
        ensures place { unwrap_or result 0 ≡ (contest_vote contests.now self.now).contest }
        ensures ids { option_map (λ place. selections_at contests.now place) result
            ≡ selection_ids contests.now self.now };

    /// Votes lost to overvoting, 0 where absent. Takes no memory.
    fn overvotes(&self) -> u64
        ensures { (contests : List Contest) → result ≡ (contest_vote contests self.now).overvotes };

    /// Votes not made, 0 where absent. Takes no memory.
    fn undervotes(&self) -> u64
        ensures { (contests : List Contest) → result
            ≡ (contest_vote contests self.now).undervotes };

    /// Write-ins, 0 where absent. Takes no memory.
    fn write_ins(&self) -> u64
        ensures { (contests : List Contest) → result ≡ (contest_vote contests self.now).write_ins };

    /// Its contest selections, in order. Takes no memory.
    fn selections(&self) -> &[Self::Selection]
        ensures { (contests : List Contest)
            → map (Self.Selection.selection_vote (selection_ids contests self.now)) result.now
            ≡ (contest_vote contests self.now).selections };
}

impl AsPosition for Position {
    ghost position = { λ p. p };

    fn position(&self) -> Position {
        *self
    }
}

impl AsPosition for Node<'_> {
    ghost position = { λ v. position_of (view v) };

    fn position(&self) -> Position {
        Position {
            indication: indication_named(text_at("HasIndication", self)).unwrap_or(Indication::No),
            allocation: text_in("IsAllocable", self).and_then(allocation_named),
            votes: count_at("NumberVotes", self),
        }
    }
}

impl AsSelectionVote for SelectionVote {
    type Position = Position;

    ghost selection_vote = { λ _ s. s };

    fn selection(&self, _ids: Option<&Ids>) -> Option<usize> {
        self.selection
    }

    fn positions(&self) -> &[Position] {
        self.positions.as_slice()
    }
}

// The place of the selection that is named among those of its contest.
fn selection_place(ids: Option<&Ids>, id: Option<&str>) -> Option<usize>
    ensures { result
        ≡ selection_place (option_map (λ i. i.now) ids.entry) (option_map (λ s. s.now) id.entry) }
{
    ids?.find(id?)
}

impl<'t> AsSelectionVote for Node<'t> {
    type Position = Node<'t>;

    ghost selection_vote = { λ ids v. selection_vote_of ids (view v) };

    fn selection(&self, ids: Option<&Ids>) -> Option<usize> {
        selection_place(ids, text_in("ContestSelectionId", self))
    }

    fn positions(&self) -> &[Node<'t>] {
        items_at("SelectionPosition", self)
    }
}

impl AsContestVote for ContestVote {
    type Selection = SelectionVote;

    ghost contest_vote = { λ _ c. c };

    ghost selection_ids = { λ contests c. Some (selections_at contests c.contest) };

    fn contest(&self, _contests: &Contests) -> Option<usize> {
        Some(self.contest)
    }

    fn overvotes(&self) -> u64 {
        self.overvotes
    }

    fn undervotes(&self) -> u64 {
        self.undervotes
    }

    fn write_ins(&self) -> u64 {
        self.write_ins
    }

    fn selections(&self) -> &[SelectionVote] {
        self.selections.as_slice()
    }
}

impl<'t> AsContestVote for Node<'t> {
    type Selection = Node<'t>;

    ghost contest_vote = { λ contests v. contest_vote_of contests (view v) };

    ghost selection_ids = { λ contests v.
        selections_of contests (text_at (codes "ContestId") (view v)) };

    fn contest(&self, contests: &Contests) -> Option<usize> {
        contests.ids().find(text_at("ContestId", self))
    }

    fn overvotes(&self) -> u64 {
        count_at("Overvotes", self)
    }

    fn undervotes(&self) -> u64 {
        count_at("Undervotes", self)
    }

    fn write_ins(&self) -> u64 {
        count_at("WriteIns", self)
    }

    fn selections(&self) -> &[Node<'t>] {
        items_at("CVRContestSelection", self)
    }
}
