ghost use Rattle.std.specs.Prelude.{◌≡◌, ◌↔◌, Some};
ghost use Rattle.cdf_types.specs.Status.{cvr_status_text, contest_status_text};
ghost use Rattle.cdf_types.specs.Status.{selection_status_text, position_status_text};

/// What is known of a whole record (NIST SP 1500-103, enumeration CVRStatus).
#[derive(Clone, Copy, Debug, PartialEq, Eq)]
pub enum CvrStatus {
    /// Someone has to look at it.
    NeedsAdjudication,
    /// Another, named in `OtherStatus`.
    Other,
}

impl CvrStatus {
    /// The value that the text stands for, None where it isn't listed. Takes no memory.
    pub fn from_text(text: &str) -> Option<CvrStatus>
        ensures listed { (status : CvrStatus) →
            (result ≡ Some status) ↔ (text.now ≡ cvr_status_text status) }
    {
        match text {
            "needs-adjudication" => Some(CvrStatus::NeedsAdjudication),
            "other" => Some(CvrStatus::Other),
            _ => None,
        }
    }

    /// The text of the standard for it. Takes no memory.
    pub fn text(&self) -> &'static str
        ensures { result.now ≡ cvr_status_text self.now }
    {
        match self {
            CvrStatus::NeedsAdjudication => "needs-adjudication",
            CvrStatus::Other => "other",
        }
    }
}

/// What is known of the votes of one contest (NIST SP 1500-103, enumeration ContestStatus).
#[derive(Clone, Copy, Debug, PartialEq, Eq)]
pub enum ContestStatus {
    /// Rules of the contest made it invalid.
    InvalidatedRules,
    /// No selection is marked.
    NotIndicated,
    /// Another, named in `OtherStatus`.
    Other,
    /// More selections are marked than may be.
    Overvoted,
    /// Fewer selections are marked than may be.
    Undervoted,
}

impl ContestStatus {
    /// The value that the text stands for, None where it isn't listed. Takes no memory.
    pub fn from_text(text: &str) -> Option<ContestStatus>
        ensures listed { (status : ContestStatus) →
            (result ≡ Some status) ↔ (text.now ≡ contest_status_text status) }
    {
        match text {
            "invalidated-rules" => Some(ContestStatus::InvalidatedRules),
            "not-indicated" => Some(ContestStatus::NotIndicated),
            "other" => Some(ContestStatus::Other),
            "overvoted" => Some(ContestStatus::Overvoted),
            "undervoted" => Some(ContestStatus::Undervoted),
            _ => None,
        }
    }

    /// The text of the standard for it. Takes no memory.
    pub fn text(&self) -> &'static str
        ensures { result.now ≡ contest_status_text self.now }
    {
        match self {
            ContestStatus::InvalidatedRules => "invalidated-rules",
            ContestStatus::NotIndicated => "not-indicated",
            ContestStatus::Other => "other",
            ContestStatus::Overvoted => "overvoted",
            ContestStatus::Undervoted => "undervoted",
        }
    }
}

/// What is known of the votes for one contest selection (NIST SP 1500-103, enumeration
/// ContestSelectionStatus).
#[derive(Clone, Copy, Debug, PartialEq, Eq)]
pub enum SelectionStatus {
    /// Rules of the contest made it.
    GeneratedRules,
    /// Rules of the contest made it invalid.
    InvalidatedRules,
    /// Someone has to look at it.
    NeedsAdjudication,
    /// Another, named in `OtherStatus`.
    Other,
}

impl SelectionStatus {
    /// The value that the text stands for, None where it isn't listed. Takes no memory.
    pub fn from_text(text: &str) -> Option<SelectionStatus>
        ensures listed { (status : SelectionStatus) →
            (result ≡ Some status) ↔ (text.now ≡ selection_status_text status) }
    {
        match text {
            "generated-rules" => Some(SelectionStatus::GeneratedRules),
            "invalidated-rules" => Some(SelectionStatus::InvalidatedRules),
            "needs-adjudication" => Some(SelectionStatus::NeedsAdjudication),
            "other" => Some(SelectionStatus::Other),
            _ => None,
        }
    }

    /// The text of the standard for it. Takes no memory.
    pub fn text(&self) -> &'static str
        ensures { result.now ≡ selection_status_text self.now }
    {
        match self {
            SelectionStatus::GeneratedRules => "generated-rules",
            SelectionStatus::InvalidatedRules => "invalidated-rules",
            SelectionStatus::NeedsAdjudication => "needs-adjudication",
            SelectionStatus::Other => "other",
        }
    }
}

/// What is known of one position (NIST SP 1500-103, enumeration PositionStatus).
#[derive(Clone, Copy, Debug, PartialEq, Eq)]
pub enum PositionStatus {
    /// Someone has looked at it and decided.
    Adjudicated,
    /// Rules of the contest made it.
    GeneratedRules,
    /// Rules of the contest made it invalid.
    InvalidatedRules,
    /// Another, named in `OtherStatus`.
    Other,
}

impl PositionStatus {
    /// The value that the text stands for, None where it isn't listed. Takes no memory.
    pub fn from_text(text: &str) -> Option<PositionStatus>
        ensures listed { (status : PositionStatus) →
            (result ≡ Some status) ↔ (text.now ≡ position_status_text status) }
    {
        match text {
            "adjudicated" => Some(PositionStatus::Adjudicated),
            "generated-rules" => Some(PositionStatus::GeneratedRules),
            "invalidated-rules" => Some(PositionStatus::InvalidatedRules),
            "other" => Some(PositionStatus::Other),
            _ => None,
        }
    }

    /// The text of the standard for it. Takes no memory.
    pub fn text(&self) -> &'static str
        ensures { result.now ≡ position_status_text self.now }
    {
        match self {
            PositionStatus::Adjudicated => "adjudicated",
            PositionStatus::GeneratedRules => "generated-rules",
            PositionStatus::InvalidatedRules => "invalidated-rules",
            PositionStatus::Other => "other",
        }
    }
}
