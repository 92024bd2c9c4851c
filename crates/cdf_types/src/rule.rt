ghost use Rattle.std.specs.Prelude.{◌≡◌};
ghost use Rattle.cdf_types.specs.Rule.{number_of};

/// A rule of form that a place in a file breaks (this project's own numbering).
#[derive(Clone, Copy, Debug, PartialEq, Eq)]
pub enum Rule {
    /// The value isn't an object.
    NotObject,
    /// A member that the profile demands is absent.
    Missing,
    /// The value is of another JSON kind than the member has.
    WrongKind,
    /// The text isn't one of the enumeration's.
    NotListed,
    /// `@type` names a class that can't stand here.
    WrongClass,
    /// A name is empty.
    EmptyText,
    /// A count is below 0 or above 4,294,967,295.
    OutOfRange,
    /// An array has too few items.
    TooFew,
    /// An array has too many items.
    TooMany,
    /// `FractionalVotes` or `TotalFractionalVotes` is there.
    Fractional,
    /// `jiff` reads no instant from the text, or it has a `[`: it has to be a date-time with an
    /// offset, with at most nine digits of fraction and of an instant that `jiff` has.
    NotMoment,
    /// An earlier item of the array has the same `@id`.
    RepeatedId,
    /// An earlier contest of the snapshot has the same `ContestId`.
    RepeatedContest,
    /// A number, anywhere in the file, isn't whole.
    NotWhole,
}

impl Rule {
    /// The rule's number in docs/FAULTS.md. Takes no memory.
    pub fn number(&self) -> u8
        ensures { result ≡ number_of self.now }
    {
        match self {
            Rule::NotObject => 1,
            Rule::Missing => 2,
            Rule::WrongKind => 3,
            Rule::NotListed => 4,
            Rule::WrongClass => 5,
            Rule::EmptyText => 6,
            Rule::OutOfRange => 7,
            Rule::TooFew => 8,
            Rule::TooMany => 9,
            Rule::Fractional => 10,
            Rule::NotMoment => 11,
            Rule::RepeatedId => 12,
            Rule::RepeatedContest => 13,
            Rule::NotWhole => 14,
        }
    }
}
