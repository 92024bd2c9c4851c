//! The order of row keys is the defined one.
ghost use Rattle.std.specs.Prelude.{◌≡◌};
ghost use Rattle.cvr_tally.specs.Keys.{key_cmp};

use crate::key::RowKey;

/// Row keys are ordered by contest, then by unit, then by batch; none comes before every text,
/// texts go by their bytes.
pub fn keys_are_ordered()
    ensures { (a b : RowKey) → ⟦<RowKey as Ord>⟧.cmp a b ≡ key_cmp a b }
{}
