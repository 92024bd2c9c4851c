//! The commands of `cvr` over any office: what is printed of a definition and files, and the
//! devices it goes through.
#![tactic(auto)]

mod answering;
mod check;
mod code;
mod collecting;
mod conflicts;
mod currents;
mod drilling;
mod ending;
pub mod examples;
mod explaining;
mod file;
mod given;
mod happened;
pub mod law;
mod listed;
mod listed_paths;
mod listed_request;
mod listing;
mod log;
mod memory_files;
mod merge;
mod noting;
mod number;
mod offices;
mod opening;
mod over;
mod own_words;
mod printing;
mod reading;
mod refusals;
mod responding;
mod status;
mod tasks;
mod working;

pub use answering::work;
pub use conflicts::conflicts_text;
pub use currents::currents_text;
pub use file::{FileFault, HELD, read_file};
pub use happened::{Happened, NAMED, count_refused, first_refused};
pub use listing::{Listing, listing_of};
pub use memory_files::{MemoryFile, MemoryFiles};
pub use merge::{MergeFault, print_volume};
pub use opening::Open;
pub use over::{OverRead, OverWrite};
pub use printing::PrintFault;
pub use responding::respond;
pub use status::Status;
pub use tasks::run;
