//! What whole runs have in common, from the bytes of their files to the bytes that they print.
#![tactic(auto)]

pub mod examples;
pub mod law;
