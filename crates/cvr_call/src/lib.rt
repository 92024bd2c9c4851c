//! The program as one call of C: words and files in memory in, a text, a log and a status out; and
//! offices that live between calls.
#![tactic(auto)]

mod answer;
mod call;
pub mod examples;
mod fault;
mod files;
mod loose;
mod office;
mod offices;
mod pieces;
mod refusal;
mod volume;
mod words;

pub use call::{CvrSizes, cvr_call};
pub use office::CvrOffice;
pub use offices::{
    CvrReceipt, cvr_office_conflicts, cvr_office_currents, cvr_office_drop, cvr_office_import,
    cvr_office_join_itself, cvr_office_join_other, cvr_office_new, cvr_office_tally,
};
pub use refusal::CvrRefusal;
pub use volume::cvr_office_volume;
