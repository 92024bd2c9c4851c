//! Rows of totals, which go up and down ballot by ballot, and their text.
#![tactic(auto)]

mod contest_ids;
mod counts;
pub mod examples;
mod key;
pub mod law;
mod moves;
mod row;
mod tally;
mod totals;

pub use counts::Counts;
pub use key::RowKey;
pub use row::Row;
pub use tally::tally_text;
pub use totals::Totals;
