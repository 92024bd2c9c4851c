use crate::body::Body;
use crate::mark::{Allocation, Indication};
use crate::moment::Moment;
use crate::seq::Seq;
use crate::snapshot_kind::SnapshotKind;

/// One accepted file (NIST SP 1500-103, class CastVoteRecordReport).
#[derive(Drop)]
pub struct Report {
    /// Its reporting devices, in order (member ReportingDevice).
    pub devices: Seq<ReportingDevice>,
    /// Its cast vote records, in order (member CVR).
    pub cvrs: Seq<Cvr>,
}

/// A device that made records (NIST SP 1500-103, class ReportingDevice).
#[derive(Drop)]
pub struct ReportingDevice {
    /// Its name in the file (member @id).
    pub id: Body,
    /// The compact JSON text of the object.
    pub body: Body,
}

/// The record of one ballot (NIST SP 1500-103, class CVR). Device and unique text name it.
#[derive(Drop)]
pub struct Cvr {
    /// The device that made it (member CreatingDeviceId), not empty.
    pub device: Body,
    /// Its name at that device (member UniqueId), not empty.
    pub unique: Body,
    /// The GpUnit of its ballot style (member BallotStyleUnitId).
    pub unit: Option<Body>,
    /// Its batch (member BatchId).
    pub batch: Option<Body>,
    /// The compact JSON text of the object without its members CVRSnapshot and CurrentSnapshotId.
    pub body: Body,
    /// Its snapshots, in order (member CVRSnapshot), one at least.
    pub snapshots: Seq<Snapshot>,
}

/// A record at one stage of its reading (NIST SP 1500-103, class CVRSnapshot).
#[derive(Drop)]
pub struct Snapshot {
    /// Its name within the record (member @id), not empty.
    pub id: Body,
    /// The stage (member Type).
    pub kind: SnapshotKind,
    /// The greatest instant among its annotations (class Annotation, member TimeStamp).
    pub moment: Option<Moment>,
    /// Its contests, in order (member CVRContest).
    pub contests: Seq<ContestVote>,
    /// The compact JSON text of the object.
    pub body: Body,
}

/// What a snapshot has for one contest (NIST SP 1500-103, class CVRContest).
#[derive(Drop)]
pub struct ContestVote {
    /// The contest's place in the definition's Contest array, from 0 (member ContestId).
    pub contest: usize,
    /// Votes lost to overvoting, 0 where absent, at most 4,294,967,295 (member Overvotes).
    pub overvotes: u64,
    /// Votes not made, 0 where absent, at most 4,294,967,295 (member Undervotes).
    pub undervotes: u64,
    /// Write-ins, 0 where absent, at most 4,294,967,295 (member WriteIns).
    pub write_ins: u64,
    /// Its contest selections, in order, at most 65,536 (member CVRContestSelection).
    pub selections: Seq<SelectionVote>,
}

/// What a snapshot has for one contest selection (NIST SP 1500-103, class CVRContestSelection).
#[derive(Drop)]
pub struct SelectionVote {
    /// The selection's place in the contest's ContestSelection array, from 0 (member
    /// ContestSelectionId).
    pub selection: Option<usize>,
    /// Its positions, in order, 1 to 64 (member SelectionPosition).
    pub positions: Seq<Position>,
}

/// A mark's place on the ballot (NIST SP 1500-103, class SelectionPosition).
#[derive(Clone, Copy, Debug, PartialEq, Eq)]
pub struct Position {
    /// Whether there is a mark (member HasIndication).
    pub indication: Indication,
    /// Whether its votes are to be counted (member IsAllocable).
    pub allocation: Option<Allocation>,
    /// Its votes, at most 4,294,967,295 (member NumberVotes).
    pub votes: u64,
}
