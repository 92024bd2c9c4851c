//! An office that keeps its facts in one list, and computes each answer anew from it.
#![tactic(auto)]

mod plain;
mod tallying;

pub use plain::PlainOffice;
