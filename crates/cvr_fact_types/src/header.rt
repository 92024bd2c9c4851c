ghost use Rattle.std.specs.Prelude.{◌≡◌, IfOk, refl};
ghost use Rattle.std.specs.Ordering.{as_partial_cmp, eq_by_cmp};
ghost use Rattle.std.specs.Cmp.{eq_by_cmp_equiv, partial_equiv_from_equiv};
ghost use Rattle.std.specs.Cmp.{partial_order_from_total};
ghost use Rattle.cvr_fact_types.specs.Orders.{header_cmp, header_total};

use crate::name::RecordName;
use crate::text::copy_optional;
use cdf_types::{Body, Memory};
use std::cmp::Ordering;

/// The header of a cast vote record as a fact (NIST SP 1500-103, class CVR). Facts are ordered by
/// record, then by body, and equal where both are.
#[derive(Drop)]
pub struct HeaderFact {
    /// The record's name.
    pub key: RecordName,
    /// The GpUnit of its ballot style (member BallotStyleUnitId).
    pub unit: Option<Body>,
    /// Its batch (member BatchId).
    pub batch: Option<Body>,
    /// The compact JSON text of the object without its members CVRSnapshot and CurrentSnapshotId.
    pub body: Body,
}

impl HeaderFact {
    /// An equal fact, in every field.
    ///
    /// # Errors
    /// `Memory` where a growth was refused.
    pub fn copy(&self) -> Result<HeaderFact, Memory>
        ensures { IfOk result (λ f. f ≡ self.now) }
    {
        Ok(HeaderFact {
            key: self.key.copy()?,
            unit: copy_optional(&self.unit)?,
            batch: copy_optional(&self.batch)?,
            body: self.body.copy()?,
        })
    }
}

impl PartialEq for HeaderFact {
    ghost eq = { eq_by_cmp header_cmp };

    ghost laws = { partial_equiv_from_equiv (eq_by_cmp_equiv header_total) };

    fn eq(&self, other: &HeaderFact) -> bool {
        self.cmp(other).is_eq()
    }
}

impl Eq for HeaderFact {
    ghost laws = { eq_by_cmp_equiv header_total };
}

impl Ord for HeaderFact {
    ghost cmp = { header_cmp };

    ghost total = { header_total };

    ghost matches_partial_cmp = { λ _ _. refl };

    ghost matches_eq = { λ _ _. refl };

    fn cmp(&self, other: &HeaderFact) -> Ordering {
        self.key
            .cmp(&other.key)
            .then_with(|| self.body.cmp(&other.body))
    }
}

impl PartialOrd for HeaderFact {
    ghost partial_cmp = { as_partial_cmp header_cmp };

    ghost laws = { partial_order_from_total header_total };

    fn partial_cmp(&self, other: &HeaderFact) -> Option<Ordering> {
        Some(self.cmp(other))
    }
}
