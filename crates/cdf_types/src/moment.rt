ghost use Rattle.std.specs.Prelude.{◌≡◌};

use std::marker::Model;

/// An instant: nanoseconds since 1970-01-01T00:00:00Z. A later one is greater.
#[derive(Clone, Copy, Debug, PartialEq, Eq, PartialOrd, Ord)]
pub struct Moment {
    nanoseconds: i128,
}

impl Model for Moment {
    ghost use Rattle.std.specs.Prelude.{ℤ};

    ghost Value = { ℤ };

    ghost view = { λ m. m.nanoseconds };

    ghost inverse = { λ n. record { nanoseconds = n } };
}

impl Moment {
    /// The instant so many nanoseconds after 1970-01-01T00:00:00Z. Takes no memory.
    pub fn new(nanoseconds: i128) -> Moment
        ensures { result ≡ nanoseconds }
    {
        Moment { nanoseconds }
    }

    /// Nanoseconds since 1970-01-01T00:00:00Z. Takes no memory.
    pub fn nanoseconds(&self) -> i128
        ensures { result ≡ self.now }
    {
        self.nanoseconds
    }
}
