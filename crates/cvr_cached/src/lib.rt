//! An office that remembers what it answers: contents by record, and running totals.
#![tactic(auto)]

mod cached;
mod commit;
mod content;
pub mod examples;
mod growth;
mod keyed;
pub mod law;
mod listing;
mod names;
mod plan;
mod remembered;
mod rows;
mod store;
mod taking;

pub use cached::CachedOffice;
