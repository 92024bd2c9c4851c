ghost use Rattle.std.specs.Prelude.{◌≡◌, ◌+◌};

use std::marker::Model;
use std::snapshot::Snapshot;

/// A number that contracts see, and that has no bytes at run time. It counts changes.
///
/// It shows contracts what was before it: nothing, or the number that is one less.
#[derive(Drop)]
pub(crate) struct Moves {
    before: Snapshot<Option<Snapshot<Moves>>>,
}

impl Model for Moves {
    ghost use Rattle.std.specs.Prelude.{ℕ, ◌+◌};
    ghost use Rattle.std.specs.Option.{option_map, unwrap_or};
    ghost use Rattle.std.proofs.Common.{arith};

    ghost Value = { ℕ };

    ghost view = { λ a. unwrap_or (option_map (λ m. m.value + 1) a.before.value) 0 };

    ghost size = { λ n. n };

    ghost size_decreases = { λ a h. Prim.grind (arith) };
}

impl Moves {
    /// None yet.
    pub(crate) fn new() -> Moves
        ensures { result ≡ 0 }
    {
        Moves {
            before: Snapshot::of(&None),
        }
    }

    /// One more.
    pub(crate) fn next(&self) -> Moves
        ensures { result ≡ self.now + 1 }
    {
        Moves {
            before: Snapshot::of(&Some(Snapshot::of(self))),
        }
    }
}
