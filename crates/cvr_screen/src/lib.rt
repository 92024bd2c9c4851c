//! What the program shows where standard error is a terminal, beside what it prints: a line while
//! files are read, and notes at the end of a run.
#![tactic(auto)]

mod again;
mod differing;
mod naming;
mod notes;
mod pointed;
mod progress;
mod seen;
mod shown;
mod standing;
mod tried;
mod watched;
mod words;

pub use notes::Notes;
pub use progress::{Cleared, Progress};
pub use watched::{Log, Watched};
