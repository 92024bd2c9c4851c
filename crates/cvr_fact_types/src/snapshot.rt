ghost use Rattle.std.specs.Prelude.{◌≡◌, IfOk, refl};
ghost use Rattle.std.specs.Ordering.{as_partial_cmp, eq_by_cmp};
ghost use Rattle.std.specs.Cmp.{eq_by_cmp_equiv, partial_equiv_from_equiv};
ghost use Rattle.std.specs.Cmp.{partial_order_from_total};
ghost use Rattle.cvr_fact_types.specs.Orders.{snapshot_cmp, snapshot_total};

use crate::name::RecordName;
use crate::sums::VoteSums;
use cdf_types::{Body, Memory, Moment, Seq, SnapshotKind};
use std::alloc::Global;
use std::cmp::Ordering;

/// A snapshot of a cast vote record as a fact (NIST SP 1500-103, class CVRSnapshot). Facts are
/// ordered by record, then by id, then by body, and equal where all three are.
#[derive(Drop)]
pub struct SnapshotFact {
    /// The record's name.
    pub key: RecordName,
    /// The snapshot's `@id`.
    pub id: Body,
    /// Its stage (member Type).
    pub kind: SnapshotKind,
    /// The greatest instant among its annotations (class Annotation, member TimeStamp).
    pub moment: Option<Moment>,
    /// The sums of each of its contests, in order of the contest's place.
    pub votes: Seq<VoteSums>,
    /// The compact JSON text of the snapshot.
    pub body: Body,
}

impl SnapshotFact {
    /// An equal fact, in every field.
    ///
    /// # Errors
    /// `Memory` where a growth was refused.
    pub fn copy(&self, alloc: Global) -> Result<SnapshotFact, Memory>
        ensures { IfOk result (λ f. f ≡ self.now) }
    {
        Ok(SnapshotFact {
            key: self.key.copy()?,
            id: self.id.copy()?,
            kind: self.kind,
            moment: self.moment,
            votes: copy_votes(alloc, self.votes.as_slice())?,
            body: self.body.copy()?,
        })
    }
}

// Equal sums, in order.
fn copy_votes(alloc: Global, votes: &[VoteSums]) -> Result<Seq<VoteSums>, Memory>
    ensures { IfOk result (λ copies. copies ≡ votes.now) }
{
    let mut copies = Vec::with_capacity(alloc, votes.len())?;
    for sums in votes {
        copies.push(sums.copy(alloc)?)?;
    }
    Ok(Seq::new(copies))
}

impl PartialEq for SnapshotFact {
    ghost eq = { eq_by_cmp snapshot_cmp };

    ghost laws = { partial_equiv_from_equiv (eq_by_cmp_equiv snapshot_total) };

    fn eq(&self, other: &SnapshotFact) -> bool {
        self.cmp(other).is_eq()
    }
}

impl Eq for SnapshotFact {
    ghost laws = { eq_by_cmp_equiv snapshot_total };
}

impl Ord for SnapshotFact {
    ghost cmp = { snapshot_cmp };

    ghost total = { snapshot_total };

    ghost matches_partial_cmp = { λ _ _. refl };

    ghost matches_eq = { λ _ _. refl };

    fn cmp(&self, other: &SnapshotFact) -> Ordering {
        self.key
            .cmp(&other.key)
            .then_with(|| self.id.cmp(&other.id))
            .then_with(|| self.body.cmp(&other.body))
    }
}

impl PartialOrd for SnapshotFact {
    ghost partial_cmp = { as_partial_cmp snapshot_cmp };

    ghost laws = { partial_order_from_total snapshot_total };

    fn partial_cmp(&self, other: &SnapshotFact) -> Option<Ordering> {
        Some(self.cmp(other))
    }
}
