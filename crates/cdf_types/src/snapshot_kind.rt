ghost use Rattle.std.specs.Prelude.{◌≡◌, ◌↔◌, Some};
ghost use Rattle.cdf_types.specs.SnapshotKind.{snapshot_kind_text, snapshot_kind_rank};

/// Which stage of a record a snapshot shows (NIST SP 1500-103, enumeration CVRType),
/// in the order of choosing, which is this project's own.
#[derive(Clone, Copy, Debug, PartialEq, Eq, PartialOrd, Ord)]
pub enum SnapshotKind {
    /// As the device read the ballot.
    Original,
    /// After rules of the contest were applied.
    Interpreted,
    /// After adjudication.
    Modified,
}

impl SnapshotKind {
    /// The value that the text stands for, None where it isn't listed. Takes no memory.
    pub fn from_text(text: &str) -> Option<SnapshotKind>
        ensures listed { (kind : SnapshotKind) →
            (result ≡ Some kind) ↔ (text.now ≡ snapshot_kind_text kind) }
    {
        match text {
            "original" => Some(SnapshotKind::Original),
            "interpreted" => Some(SnapshotKind::Interpreted),
            "modified" => Some(SnapshotKind::Modified),
            _ => None,
        }
    }

    /// The text of the standard for it. Takes no memory.
    pub fn text(&self) -> &'static str
        ensures { result.now ≡ snapshot_kind_text self.now }
    {
        match self {
            SnapshotKind::Original => "original",
            SnapshotKind::Interpreted => "interpreted",
            SnapshotKind::Modified => "modified",
        }
    }

    /// Its place in the order of choosing, from 0 for `Original` to 2 for `Modified`. Takes no
    /// memory.
    pub fn rank(&self) -> u8
        ensures { result ≡ snapshot_kind_rank self.now }
    {
        match self {
            SnapshotKind::Original => 0,
            SnapshotKind::Interpreted => 1,
            SnapshotKind::Modified => 2,
        }
    }
}
