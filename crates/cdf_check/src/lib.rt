//! Which files are accepted as cast vote record reports (NIST SP 1500-103), and what is answered
//! for the others: a file is judged as it is read.
#![tactic(auto)]

pub mod bodies;
pub mod defaults;
pub mod examples;
mod fractions;
mod judge;
mod keep;
pub mod law;
mod read;
mod record_names;
mod seen;
mod text_set;
mod typed;
mod unnamed;

pub use cdf_definition::Definition;
pub use keep::Keep;
pub use read::{check_file, check_report};
