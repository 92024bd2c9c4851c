ghost use Rattle.std.specs.Prelude.{◌≡◌, option_map, IfOk, codes, map, bytes_eq};
ghost use Rattle.std.specs.List.{list_any};
ghost use Rattle.cdf_node.specs.View.{view};
ghost use Rattle.cdf_form.specs.Form.{class_in, first};
ghost use Rattle.cdf_parts.specs.Parts.{ids_at, id_of};
ghost use Rattle.cdf_form.specs.Found.{path_of};
ghost use Rattle.cdf_definition.specs.Paths.{each};
ghost use Rattle.cdf_definition.specs.Scoped.{scope_view, contests_alone};
ghost use Rattle.cdf_definition.specs.References.{in_contest_vote, in_snapshot};
ghost use Rattle.cdf_definition.specs.References.{in_cvr, in_selection, in_contest, in_election};
ghost use Rattle.cdf_definition.specs.References.{in_report, one, missing_paths};

use crate::look::{Each, Look, One, Text, first_of};
use crate::scope::Scope;
use cdf_form::found::{Path, Step};
use cdf_form::leaf::find_class;
use cdf_form::table::{Class, Group, classes};
use cdf_node::Node;
use cdf_parts::contests::Contests;
use cdf_parts::ids::Ids;
use cdf_parts::{items_at, text_at, text_in};
use cdf_types::Memory;
use std::alloc::Global;

// Each struct looks at a value of one class, in the order of the names of its members, or at one of
// these members alone, and holds the ids that the value's texts can name.

#[derive(Drop)]
struct InContestVote<'a>(&'a Contests);

impl Look for InContestVote<'_> {
    ghost missing = { λ s d. in_contest_vote (contests_alone s.0.now) d };

    // The selections, where their contest is one of the report's, and else the contest. So a
    // contest that is known is looked up once.
    #[tactic(auto, using(crate::proofs::Contests::in_known, crate::proofs::Contests::in_unknown))]
    fn look(&self, alloc: Global, value: &Node<'_>) -> Result<Option<Path<'static>>, Memory> {
        let contests = self.0;
        let ids = contests.selections_of(text_at("ContestId", value));
        match ids {
            Some(ids) => {
                Each(One(ids, "ContestSelectionId"), "CVRContestSelection").look(alloc, value)
            }
            None => One(contests.ids(), "ContestId").look(alloc, value),
        }
    }
}

/// The contests and selections that the snapshots of a record name.
#[derive(Drop)]
pub struct InSnapshots<'a>(pub &'a Contests);

impl Look for InSnapshots<'_> {
    ghost missing = { λ s d.
        each (in_snapshot (contests_alone s.0.now)) (codes "CVRSnapshot") d };

    fn look(&self, alloc: Global, value: &Node<'_>) -> Result<Option<Path<'static>>, Memory> {
        Each(Each(InContestVote(self.0), "CVRContest"), "CVRSnapshot").look(alloc, value)
    }
}

/// The id of the current snapshot, where the record has none of that id.
#[derive(Drop)]
pub struct Current;

impl Look for Current {
    ghost missing = { λ _ d. one (ids_at (codes "CVRSnapshot") d) (codes "CurrentSnapshotId") d };

    fn look(&self, alloc: Global, value: &Node<'_>) -> Result<Option<Path<'static>>, Memory> {
        match text_in("CurrentSnapshotId", value) {
            Some(id) if !has_id(items_at("CVRSnapshot", value), id) => {
                Ok(Some(Path::here(alloc).under(Step::Member("CurrentSnapshotId"))?))
            }
            _ => Ok(None),
        }
    }
}

// Whether one of the items has the id. (A record has few snapshots, so no `Ids` are made of them.)
fn has_id(items: &[Node<'_>], id: &str) -> bool
    ensures { result ≡ list_any (bytes_eq id.now) (map id_of (map view items.now)) }
{
    for item in items {
        if id == text_at("@id", item) {
            return true;
        }
    }
    false
}

#[derive(Drop)]
pub struct InCvr<'a>(pub &'a Scope);

impl Look for InCvr<'_> {
    ghost missing = { λ s d. in_cvr (scope_view s.0.now) d };

    #[tactic(auto, using(crate::proofs::Items::first_or))]
    fn look(&self, alloc: Global, value: &Node<'_>) -> Result<Option<Path<'static>>, Memory> {
        let scope = self.0;
        first_of!(
            One(&scope.units, "BallotStyleUnitId").look(alloc, value),
            InSnapshots(&scope.contests).look(alloc, value),
            One(&scope.devices, "CreatingDeviceId").look(alloc, value),
            Current.look(alloc, value),
            One(&scope.elections, "ElectionId").look(alloc, value),
            Each(Text(&scope.parties), "PartyIds").look(alloc, value),
        )
    }
}

// The class that an object has at `@type`, if it is one of the group.
pub(crate) fn class_in(group: Group, value: &Node<'_>) -> Option<Class>
    ensures { result ≡ class_in group (view value.now) }
{
    find_class(classes(group), value.get("@type")?.as_str()?)
}

#[derive(Drop)]
struct InSelection<'a>(&'a Scope, &'a Ids);

impl Look for InSelection<'_> {
    ghost missing = { λ s d. in_selection (scope_view s.0.now) s.1.now d };

    fn look(&self, alloc: Global, value: &Node<'_>) -> Result<Option<Path<'static>>, Memory> {
        let scope = self.0;
        match class_in(Group::ContestSelections, value) {
            Some(Class::CandidateSelection) => {
                Each(Text(self.1), "CandidateIds").look(alloc, value)
            }
            Some(Class::PartySelection) => {
                Each(Text(&scope.parties), "PartyIds").look(alloc, value)
            }
            _ => Ok(None),
        }
    }
}

// The contests of an election, whose candidates are its own.
#[derive(Drop)]
struct InContests<'a>(&'a Scope);

impl Look for InContests<'_> {
    ghost missing = { λ s d. each (in_contest (scope_view s.0.now)
        (ids_at (codes "Candidate") d)) (codes "Contest") d };

    fn look(&self, alloc: Global, value: &Node<'_>) -> Result<Option<Path<'static>>, Memory> {
        let candidates = Ids::of_items(alloc, items_at("Candidate", value))?;
        let in_contest = Each(InSelection(self.0, &candidates), "ContestSelection");
        Each(in_contest, "Contest").look(alloc, value)
    }
}

#[derive(Drop)]
struct InElection<'a>(&'a Scope);

impl Look for InElection<'_> {
    ghost missing = { λ s d. in_election (scope_view s.0.now) d };

    #[tactic(auto, using(crate::proofs::Items::first_or))]
    fn look(&self, alloc: Global, value: &Node<'_>) -> Result<Option<Path<'static>>, Memory> {
        let scope = self.0;
        first_of!(
            Each(One(&scope.parties, "PartyId"), "Candidate").look(alloc, value),
            InContests(scope).look(alloc, value),
            One(&scope.units, "ElectionScopeId").look(alloc, value),
        )
    }
}

// The first text of a report that is none of the ids.
#[tactic(auto, using(crate::proofs::Items::first_or))]
fn look_in_report(
    alloc: Global,
    scope: &Scope,
    report: &Node<'_>,
) -> Result<Option<Path<'static>>, Memory>
    ensures { IfOk result (λ o. option_map path_of o
        ≡ first (in_report (scope_view scope.now) (view report.now))) }
{
    first_of!(
        Each(InCvr(scope), "CVR").look(alloc, report),
        Each(InElection(scope), "Election").look(alloc, report),
        Each(Text(&scope.devices), "ReportGeneratingDeviceIds").look(alloc, report),
    )
}

/// The path of the first text of a report that names nothing in it, if there is one.
///
/// # Errors
/// `Memory` where a growth was refused.
pub fn first_missing(alloc: Global, report: &Node<'_>) -> Result<Option<Path<'static>>, Memory>
    ensures { IfOk result (λ o. option_map path_of o ≡ first (missing_paths (view report.now))) }
{
    let scope = Scope::of_report(alloc, report)?;
    look_in_report(alloc, &scope, report)
}
