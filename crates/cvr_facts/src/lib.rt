//! Facts of cast vote record reports (NIST SP 1500-103): devices, headers and snapshots of records,
//! the order in which a current snapshot is chosen, and the joining of sets.
#![tactic(auto)]

mod bodies;
mod choice;
pub mod examples;
mod gather;
mod join;
pub mod law;
mod list;
mod sums;
mod value;

pub use bodies::BodySet;
pub use choice::choice_cmp;
pub use cvr_fact_types::{DeviceFact, HeaderFact, RecordName, SnapshotFact, VoteSums};
pub use gather::facts_of;
pub use join::{Join, join_both};
pub use list::FactList;
pub use value::{header_in, snapshot_in};
