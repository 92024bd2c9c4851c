//! The parts of a cast vote record report's value (NIST SP 1500-103), ids by place and by text, and
//! the laws of compact text.
#![tactic(auto)]

pub mod contests;
mod hints;
pub mod ids;
pub mod law;
mod noting;
pub mod part;
pub mod text_law;

pub use part::{election_items, instant, items_at, text_at, text_in};
