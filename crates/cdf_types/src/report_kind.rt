ghost use Rattle.std.specs.Prelude.{◌≡◌, ◌↔◌, Some};
ghost use Rattle.cdf_types.specs.ReportKind.{report_kind_text};

/// What a report is (NIST SP 1500-103, enumeration ReportType).
#[derive(Clone, Copy, Debug, PartialEq, Eq)]
pub enum ReportKind {
    /// With results of adjudication.
    Adjudicated,
    /// Gathered from several devices.
    Aggregated,
    /// Of the device that made the records.
    OriginatingDeviceExport,
    /// Another, named in `OtherReportType`.
    Other,
    /// Of a round of ranked-choice counting.
    RcvRound,
}

impl ReportKind {
    /// The value that the text stands for, None where it isn't listed. Takes no memory.
    pub fn from_text(text: &str) -> Option<ReportKind>
        ensures listed { (kind : ReportKind) →
            (result ≡ Some kind) ↔ (text.now ≡ report_kind_text kind) }
    {
        match text {
            "adjudicated" => Some(ReportKind::Adjudicated),
            "aggregated" => Some(ReportKind::Aggregated),
            "originating-device-export" => Some(ReportKind::OriginatingDeviceExport),
            "other" => Some(ReportKind::Other),
            "rcv-round" => Some(ReportKind::RcvRound),
            _ => None,
        }
    }

    /// The text of the standard for it. Takes no memory.
    pub fn text(&self) -> &'static str
        ensures { result.now ≡ report_kind_text self.now }
    {
        match self {
            ReportKind::Adjudicated => "adjudicated",
            ReportKind::Aggregated => "aggregated",
            ReportKind::OriginatingDeviceExport => "originating-device-export",
            ReportKind::Other => "other",
            ReportKind::RcvRound => "rcv-round",
        }
    }
}
