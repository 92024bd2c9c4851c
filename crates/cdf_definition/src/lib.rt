//! The election definition (NIST SP 1500-103): what is kept of a report, what its texts have to
//! name, and whether a value is accepted beside it.
#![tactic(auto)]

mod agreement;
mod check;
mod definition;
mod gather;
pub mod law;
mod lists;
mod look;
mod named;
mod naming;
mod read;
mod references;
mod rest;
mod scope;
mod tree;

pub use check::check_value;
pub use definition::Definition;
pub use look::Look;
pub use naming::names_own;
pub use references::InCvr;
pub use rest::has_rest;
pub use scope::Scope;
