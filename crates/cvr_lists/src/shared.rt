ghost use Rattle.std.specs.Prelude.{◌≡◌, IfOk, refl};
ghost use Rattle.std.specs.Ordering.{as_partial_cmp, eq_by_cmp};
ghost use Rattle.std.specs.Cmp.{partial_equiv_from_equiv, partial_order_from_total};
ghost use Rattle.std.specs.Cmp.{eq_by_cmp_equiv};
ghost use Rattle.cvr_office.specs.Place.{any_cmp, any_total};

use cdf_types::Memory;
use cvr_office::any_fact::AnyFact;
use std::alloc::Global;
use std::cmp::Ordering;
use std::marker::Model;
use std::rc::Rc;

// A fact that several lists share, so that a copy of a list copies no texts.
#[derive(Drop)]
pub struct SharedFact {
    fact: Rc<AnyFact>,
}

impl Model for SharedFact {
    ghost use Rattle.cvr_office.specs.declared.any_fact.AnyFact.{AnyFact};

    ghost Value = { AnyFact };

    ghost view = { λ s. s.fact.value };
}

impl SharedFact {
    // A fact for lists to share.
    pub fn new(alloc: Global, fact: AnyFact) -> Result<SharedFact, Memory>
        ensures { IfOk result (λ s. s ≡ fact) }
    {
        Ok(SharedFact {
            fact: Rc::new(alloc, fact)?,
        })
    }

    // The fact. Takes no memory.
    pub fn fact(&self) -> &AnyFact
        ensures { result.now ≡ self.now }
    {
        self.fact.as_ref()
    }

    // The same fact, for one more list. It takes no memory, but the number of lists has an end.
    pub fn share(&self) -> Result<SharedFact, Memory>
        ensures { IfOk result (λ s. s ≡ self.now) }
    {
        Ok(SharedFact {
            fact: self.fact.clone()?,
        })
    }
}

impl PartialEq for SharedFact {
    ghost eq = { eq_by_cmp any_cmp };

    ghost laws = { partial_equiv_from_equiv (eq_by_cmp_equiv any_total) };

    fn eq(&self, other: &SharedFact) -> bool {
        self.fact() == other.fact()
    }
}

impl Eq for SharedFact {
    ghost laws = { eq_by_cmp_equiv any_total };
}

impl Ord for SharedFact {
    ghost cmp = { any_cmp };

    ghost total = { any_total };

    ghost matches_partial_cmp = { λ _ _. refl };

    ghost matches_eq = { λ _ _. refl };

    fn cmp(&self, other: &SharedFact) -> Ordering {
        self.fact().cmp(other.fact())
    }
}

impl PartialOrd for SharedFact {
    ghost partial_cmp = { as_partial_cmp any_cmp };

    ghost laws = { partial_order_from_total any_total };

    fn partial_cmp(&self, other: &SharedFact) -> Option<Ordering> {
        Some(self.cmp(other))
    }
}
