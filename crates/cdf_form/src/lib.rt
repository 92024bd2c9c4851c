//! The form of a cast vote record report (NIST SP 1500-103): the class tables as data, the first
//! fault of a file against them.
#![tactic(auto)]

pub mod examples;
pub mod float;
pub mod found;
pub mod law;
pub mod leaf;
pub mod path;
pub mod read;
pub mod table;
pub mod walk;
