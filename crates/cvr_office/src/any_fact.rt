ghost use Rattle.std.specs.Prelude.{refl};
ghost use Rattle.std.specs.Ordering.{as_partial_cmp, eq_by_cmp};
ghost use Rattle.std.specs.Cmp.{partial_equiv_from_equiv, partial_order_from_total};
ghost use Rattle.std.specs.Cmp.{eq_by_cmp_equiv};
ghost use Rattle.cvr_office.specs.Place.{any_cmp, any_total};

use cvr_facts::{DeviceFact, HeaderFact, RecordName, SnapshotFact};
use std::cmp::Ordering;

// A fact of any kind. Devices come before records, a record's headers before its snapshots; facts
// of one name go by body.
#[derive(Drop)]
pub enum AnyFact {
    Device(DeviceFact),
    Header(HeaderFact),
    Snapshot(SnapshotFact),
}

impl PartialEq for AnyFact {
    ghost eq = { eq_by_cmp any_cmp };

    ghost laws = { partial_equiv_from_equiv (eq_by_cmp_equiv any_total) };

    fn eq(&self, other: &AnyFact) -> bool {
        self.cmp(other).is_eq()
    }
}

impl Eq for AnyFact {
    ghost laws = { eq_by_cmp_equiv any_total };
}

impl Ord for AnyFact {
    ghost cmp = { any_cmp };

    ghost total = { any_total };

    ghost matches_partial_cmp = { λ _ _. refl };

    ghost matches_eq = { λ _ _. refl };

    fn cmp(&self, other: &AnyFact) -> Ordering {
        match (self, other) {
            (AnyFact::Device(one), AnyFact::Device(other)) => one.cmp(other),
            (AnyFact::Device(_), _) => Ordering::Less,
            (_, AnyFact::Device(_)) => Ordering::Greater,
            (AnyFact::Header(one), AnyFact::Header(other)) => one.cmp(other),
            (AnyFact::Header(one), AnyFact::Snapshot(other)) => {
                one.key.cmp(&other.key).then(Ordering::Less)
            }
            (AnyFact::Snapshot(one), AnyFact::Header(other)) => {
                one.key.cmp(&other.key).then(Ordering::Greater)
            }
            (AnyFact::Snapshot(one), AnyFact::Snapshot(other)) => one.cmp(other),
        }
    }
}

impl PartialOrd for AnyFact {
    ghost partial_cmp = { as_partial_cmp any_cmp };

    ghost laws = { partial_order_from_total any_total };

    fn partial_cmp(&self, other: &AnyFact) -> Option<Ordering> {
        Some(self.cmp(other))
    }
}
