//! The words of the command line, and what they ask for.
#![tactic(auto)]

pub mod examples;
mod fault;
pub mod law;
mod line;
mod matches;
mod number;
mod read;
mod request;
mod step;
mod steps;
mod text;

pub use fault::{LoggedFault, WordFault};
pub use read::{read_line, read_words};
pub use request::{Act, Request, Step, Task};
