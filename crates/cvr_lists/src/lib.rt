//! What an office holds as a list of facts in order: those of a file, of a record, of a device and
//! of a name in it.
#![tactic(auto)]

pub mod conflicts;
pub mod devices;
pub mod kept;
pub mod list_law;
pub mod putting;
pub mod reading;
pub mod record_lists;
pub mod records;
pub mod shared;

pub use reading::{FileFacts, read_facts};
