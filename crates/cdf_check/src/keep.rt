ghost use Rattle.std.specs.Prelude.{◌≡◌, ◌<◌, ◌^◌, ◌∷◌, ◌++◌, [], false, length, List, None, OnOk};
ghost use Rattle.serde_json.specs.Written.{has_float};
ghost use Rattle.cdf_node.specs.View.{view};
ghost use Rattle.cdf_types.specs.declared.report.Cvr.{Cvr};
ghost use Rattle.cdf_form.specs.Form.{first};
ghost use Rattle.cdf_parts.specs.Places.{Contest};
ghost use Rattle.cdf_form.specs.Records.{cvr_faults};
ghost use Rattle.cdf_typed.specs.Range.{CvrInRange};
ghost use Rattle.cdf_typed.specs.Typed.{cvr_of};

use cdf_node::Node;
use cdf_parts::contests::Contests;
use cdf_types::{Cvr, Memory};
use std::alloc::Global;

/// What is kept of the cast vote records of a file, which are handed over one at a time.
pub trait Keep {
    type Kept;

    ghost keeps: { Self → List Contest → List Cvr → Self.Kept → Type 0 };

    /// What is kept of no records.
    fn none(&self, alloc: Global) -> Self::Kept
        ensures { (contests : List Contest) → keeps self.now contests [] result };

    /// Keeps the next record, which stands at this place in its array. It has no fault of numbers
    /// or form, and its contests and selections are among these.
    ///
    /// # Errors
    /// `Memory` where a growth was refused.
    fn keep(
        &self,
        alloc: Global,
        contests: &Contests,
        kept: &mut Self::Kept,
        place: usize,
        cvr: &Node<'_>,
    ) -> Result<(), Memory>
        requires whole { has_float (view cvr.now) ≡ false }
        requires form { first (cvr_faults (view cvr.now)) ≡ None }
        requires range { CvrInRange contests.now (cvr_of contests.now (view cvr.now)) }
        requires few { place < 2 ^ 63 }
        ensures { OnOk result ((cs : List Cvr) → place ≡ length cs
            → keeps self.now contests.now cs kept.old
            → keeps self.now contests.now (cs ++ cvr_of contests.now (view cvr.now) ∷ [])
            kept.new) };
}
