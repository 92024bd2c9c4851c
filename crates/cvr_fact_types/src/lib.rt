//! What cast vote record reports say, as values (NIST SP 1500-103): names of records, devices,
//! headers and snapshots as facts, their sums and their orders; texts as JSON strings.
#![tactic(auto)]

mod device;
mod header;
mod name;
mod snapshot;
mod sums;
pub mod text;

pub use device::DeviceFact;
pub use header::HeaderFact;
pub use name::RecordName;
pub use snapshot::SnapshotFact;
pub use sums::VoteSums;
