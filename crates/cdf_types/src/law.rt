// Laws that the types keep, each the contract of a function that does nothing.
ghost use Rattle.std.specs.Prelude.{◌≡◌, ℤ, true, false};
ghost use Rattle.std.specs.Ordering.{nat_cmp, int_cmp};
ghost use Rattle.cdf_types.specs.Listed.{AreDistinct};
ghost use Rattle.cdf_types.specs.Mark.{indication_text, allocation_text};
ghost use Rattle.cdf_types.specs.MemorySource.{can_fail, failing_call};
ghost use Rattle.cdf_types.specs.ReportKind.{report_kind_text};
ghost use Rattle.cdf_types.specs.SnapshotKind.{snapshot_kind_text, snapshot_kind_rank};
ghost use Rattle.cdf_types.specs.Status.{cvr_status_text, contest_status_text};
ghost use Rattle.cdf_types.specs.Status.{selection_status_text, position_status_text};
ghost use Rattle.cdf_types.specs.VoteVariation.{vote_variation_text};

use crate::moment::Moment;
use crate::snapshot_kind::SnapshotKind;

/// No listed text stands for two values of a type. So `from_text` gives back what `text` spells.
pub fn listed_texts_are_distinct()
    ensures snapshot_kind { AreDistinct snapshot_kind_text }
    ensures indication { AreDistinct indication_text }
    ensures allocation { AreDistinct allocation_text }
    ensures cvr_status { AreDistinct cvr_status_text }
    ensures contest_status { AreDistinct contest_status_text }
    ensures selection_status { AreDistinct selection_status_text }
    ensures position_status { AreDistinct position_status_text }
    ensures report_kind { AreDistinct report_kind_text }
    ensures vote_variation { AreDistinct vote_variation_text }
{}

/// Kinds are ordered by rank.
pub fn kinds_are_ordered_by_rank()
    ensures { (a b : SnapshotKind) →
        ⟦<SnapshotKind as Ord>⟧.cmp a b ≡ nat_cmp (snapshot_kind_rank a) (snapshot_kind_rank b) }
{}

/// Moments are ordered as instants.
pub fn moments_are_ordered_by_time()
    ensures { (a b : ℤ) → ⟦<Moment as Ord>⟧.cmp a b ≡ int_cmp a b }
{}

/// Worked examples of sources in memory: one that fails at no call can't fail, and one that fails
/// at its next call, or at its fourth, can.
pub fn sources_fail_where_set()
    ensures none { can_fail (failing_call 0) ≡ false }
    ensures next { can_fail (failing_call 1) ≡ true }
    ensures fourth { can_fail (failing_call 4) ≡ true }
{}
