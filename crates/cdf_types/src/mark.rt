ghost use Rattle.std.specs.Prelude.{◌≡◌, ◌↔◌, Some};
ghost use Rattle.cdf_types.specs.Mark.{indication_text, allocation_text};

/// Whether a position bears a mark (NIST SP 1500-103, enumeration IndicationStatus).
#[derive(Clone, Copy, Debug, PartialEq, Eq)]
pub enum Indication {
    /// There is no mark.
    No,
    /// It isn't known.
    Unknown,
    /// There is a mark.
    Yes,
}

impl Indication {
    /// The value that the text stands for, None where it isn't listed. Takes no memory.
    pub fn from_text(text: &str) -> Option<Indication>
        ensures listed { (indication : Indication) →
            (result ≡ Some indication) ↔ (text.now ≡ indication_text indication) }
    {
        match text {
            "no" => Some(Indication::No),
            "unknown" => Some(Indication::Unknown),
            "yes" => Some(Indication::Yes),
            _ => None,
        }
    }

    /// The text of the standard for it. Takes no memory.
    pub fn text(&self) -> &'static str
        ensures { result.now ≡ indication_text self.now }
    {
        match self {
            Indication::No => "no",
            Indication::Unknown => "unknown",
            Indication::Yes => "yes",
        }
    }
}

/// Whether the votes of a position are to be counted (NIST SP 1500-103, enumeration
/// AllocationStatus).
#[derive(Clone, Copy, Debug, PartialEq, Eq)]
pub enum Allocation {
    /// The votes aren't to be counted.
    No,
    /// It isn't decided.
    Unknown,
    /// The votes are to be counted.
    Yes,
}

impl Allocation {
    /// The value that the text stands for, None where it isn't listed. Takes no memory.
    pub fn from_text(text: &str) -> Option<Allocation>
        ensures listed { (allocation : Allocation) →
            (result ≡ Some allocation) ↔ (text.now ≡ allocation_text allocation) }
    {
        match text {
            "no" => Some(Allocation::No),
            "unknown" => Some(Allocation::Unknown),
            "yes" => Some(Allocation::Yes),
            _ => None,
        }
    }

    /// The text of the standard for it. Takes no memory.
    pub fn text(&self) -> &'static str
        ensures { result.now ≡ allocation_text self.now }
    {
        match self {
            Allocation::No => "no",
            Allocation::Unknown => "unknown",
            Allocation::Yes => "yes",
        }
    }
}
