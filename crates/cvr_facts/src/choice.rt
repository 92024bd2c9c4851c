ghost use Rattle.std.specs.Prelude.{◌≡◌};
ghost use Rattle.cvr_facts.specs.Choosing.{fact_choice};

use cvr_fact_types::SnapshotFact;
use std::cmp::Ordering;

/// The order in which a record's current snapshot is chosen, which is this project's own: by the
/// rank of the kind, then by the moment, where none is before all, then by the bytes of the body
/// (NIST SP 1500-103, class CVRSnapshot). Takes no memory.
pub fn choice_cmp(one: &SnapshotFact, other: &SnapshotFact) -> Ordering
    ensures { result ≡ fact_choice one.now other.now }
{
    one.kind
        .cmp(&other.kind)
        .then_with(|| one.moment.cmp(&other.moment))
        .then_with(|| one.body.cmp(&other.body))
}
