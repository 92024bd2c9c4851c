//! Laws of lists of facts in order, which offices keep.
ghost use Rattle.cvr_lists.specs.ListLaws.{SameListsLaw, PutGrowthLaw, SpelledPutLaw, StartSetLaw};
ghost use Rattle.cvr_lists.specs.ListLaws.{PlainStartLaw};
ghost use Rattle.cvr_lists.specs.ListLaws.{LastHeaderLaw, GreatestSnapshotLaw, IdsRiseLaw};
ghost use Rattle.cvr_lists.specs.ListLaws.{RunsRiseLaw, NoRunLaw, WholeRunLaw, NamedLaw};
ghost use Rattle.cvr_lists.specs.ListLaws.{ConflictRunsLaw, GreatestRunLaw};
ghost use Rattle.cvr_lists.specs.SumLaws.{CurrentSumsLaw, SnapshotSumsLaw, SumsAtLaw, RowMoreLaw};
ghost use Rattle.cvr_lists.specs.SumLaws.{AddedLaw, NoHeaderLaw, NoCurrentLaw};

/// Lists with one set hold the same facts. A list grows by the facts that were not in it, and what
/// is spelled stays so.
pub fn putting()
    ensures same { SameListsLaw }
    ensures growth { PutGrowthLaw }
    ensures spelled { SpelledPutLaw }
{}

/// The devices of a definition are what an office starts with.
pub fn starting()
    ensures set { StartSetLaw }
    ensures start { PlainStartLaw }
{}

/// The run of a record has its header last of its headers, its current snapshot as the greatest of
/// its snapshots, and all facts of it. What has no run is no record. The runs stand in order of
/// their records.
pub fn runs()
    ensures header { LastHeaderLaw }
    ensures current { GreatestSnapshotLaw }
    ensures ids { IdsRiseLaw }
    ensures records { RunsRiseLaw }
    ensures none { NoRunLaw }
    ensures whole { WholeRunLaw }
{}

/// A fact has one name. The conflicts are the runs of two facts or more under one name.
pub fn names()
    ensures named { NamedLaw }
    ensures conflicts { ConflictRunsLaw }
    ensures greatest { GreatestRunLaw }
{}

/// The sums of each snapshot are of contests of the definition, once each.
pub fn sums()
    ensures currents { CurrentSumsLaw }
    ensures snapshots { SnapshotSumsLaw }
    ensures at { SumsAtLaw }
{}

/// A row with one record more is the row with what that record adds: the sums of its current
/// snapshot, where it has a header.
pub fn added()
    ensures row { RowMoreLaw }
    ensures sums { AddedLaw }
    ensures no_header { NoHeaderLaw }
    ensures no_current { NoCurrentLaw }
{}
