ghost use Rattle.std.specs.Prelude.{◌≡◌, ◌↔◌, Some};
ghost use Rattle.cdf_types.specs.VoteVariation.{vote_variation_text};

/// How the votes of a contest are counted (NIST SP 1500-103, enumeration VoteVariation).
#[derive(Clone, Copy, Debug, PartialEq, Eq)]
pub enum VoteVariation {
    /// Any number of selections may be approved.
    Approval,
    /// Points by rank (Borda).
    Borda,
    /// Several votes for one selection are allowed.
    Cumulative,
    /// More than half of the votes.
    Majority,
    /// N of M selections.
    NOfM,
    /// Another, named in `OtherVoteVariation`.
    Other,
    /// Most of the votes.
    Plurality,
    /// Seats by shares of the votes.
    Proportional,
    /// A score for each selection.
    Range,
    /// Ranked-choice voting.
    Rcv,
    /// A stated share above half.
    SuperMajority,
}

impl VoteVariation {
    /// The value that the text stands for, None where it isn't listed. Takes no memory.
    pub fn from_text(text: &str) -> Option<VoteVariation>
        ensures listed { (variation : VoteVariation) →
            (result ≡ Some variation) ↔ (text.now ≡ vote_variation_text variation) }
    {
        match text {
            "approval" => Some(VoteVariation::Approval),
            "borda" => Some(VoteVariation::Borda),
            "cumulative" => Some(VoteVariation::Cumulative),
            "majority" => Some(VoteVariation::Majority),
            "n-of-m" => Some(VoteVariation::NOfM),
            "other" => Some(VoteVariation::Other),
            "plurality" => Some(VoteVariation::Plurality),
            "proportional" => Some(VoteVariation::Proportional),
            "range" => Some(VoteVariation::Range),
            "rcv" => Some(VoteVariation::Rcv),
            "super-majority" => Some(VoteVariation::SuperMajority),
            _ => None,
        }
    }

    /// The text of the standard for it. Takes no memory.
    pub fn text(&self) -> &'static str
        ensures { result.now ≡ vote_variation_text self.now }
    {
        match self {
            VoteVariation::Approval => "approval",
            VoteVariation::Borda => "borda",
            VoteVariation::Cumulative => "cumulative",
            VoteVariation::Majority => "majority",
            VoteVariation::NOfM => "n-of-m",
            VoteVariation::Other => "other",
            VoteVariation::Plurality => "plurality",
            VoteVariation::Proportional => "proportional",
            VoteVariation::Range => "range",
            VoteVariation::Rcv => "rcv",
            VoteVariation::SuperMajority => "super-majority",
        }
    }
}
