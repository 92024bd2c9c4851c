ghost use Rattle.std.specs.Prelude.{◌≡◌};
ghost use Rattle.std.specs.List.{Any, Contains};
ghost use Rattle.std.specs.List.Sorted.{IsStrictlySortedBy};
ghost use Rattle.std.specs.declared.cmp.Ordering.TheVariants.{Equal};

use cdf_types::Seq;
use cvr_fact_types::{DeviceFact, HeaderFact, SnapshotFact};

/// The facts of a report, each once.
#[derive(Drop)]
pub struct FactList {
    /// In order of id, then of body.
    pub devices: Seq<DeviceFact>,
    /// In order of record, then of body.
    pub headers: Seq<HeaderFact>,
    /// In order of record, then of id, then of body.
    pub snapshots: Seq<SnapshotFact>,
}

// The facts in order, one of those that tie.
pub(crate) fn in_order<T: Ord + Drop>(mut facts: Vec<T>) -> Seq<T>
    ensures once { IsStrictlySortedBy T.cmp result }
    ensures stated { (fact : T) → Contains result fact → Contains facts.items fact }
    ensures each { (fact : T) → Contains facts.items fact
        → Any (λ other. T.cmp fact other ≡ Equal) result }
{
    facts.sort_unstable();
    facts.dedup();
    Seq::new(facts)
}
