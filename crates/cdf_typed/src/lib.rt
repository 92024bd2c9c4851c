//! The typed report of a value that has the form of a report (NIST SP 1500-103).
#![tactic(auto)]

mod as_vote;
mod listed;
mod records;
mod votes;

pub use as_vote::{AsContestVote, AsPosition, AsSelectionVote};
pub use records::{
    compact, header_text, kind_of, moment_of, own_text, own_text_in, read_cvr, read_report,
};
