//! The words of the Cast Vote Records Common Data Format (NIST SP 1500-103) as types.
#![tactic(auto)]

mod body;
mod device;
mod fault;
pub mod law;
mod mark;
mod memory_sink;
mod memory_source;
mod moment;
mod report;
mod report_kind;
mod rule;
mod seq;
mod snapshot_kind;
mod status;
mod vote_variation;

pub use body::Body;
pub use device::{DeviceFault, Sink, Source, write_all};
pub use fault::{Memory, ReadFault, sum_or_memory};
pub use mark::{Allocation, Indication};
pub use memory_sink::MemorySink;
pub use memory_source::MemorySource;
pub use moment::Moment;
pub use report::{ContestVote, Cvr, Position, Report, ReportingDevice, SelectionVote, Snapshot};
pub use report_kind::ReportKind;
pub use rule::Rule;
pub use seq::Seq;
pub use snapshot_kind::SnapshotKind;
pub use status::{ContestStatus, CvrStatus, PositionStatus, SelectionStatus};
pub use vote_variation::VoteVariation;
