//! An office, which collects cast vote records; the events by which records come to it; and the
//! laws of both.
#![tactic(auto)]

pub mod any_fact;
mod conflict;
mod event;
pub mod examples;
mod fault;
pub mod law;
mod office;
mod playing;
mod record_facts;

pub use conflict::{Conflict, ConflictList, ConflictName};
pub use event::{Cause, Event, Outcome};
pub use fault::JoinFault;
pub use office::{Office, Receipt};
pub use playing::play;
pub use record_facts::{IdFacts, RecordFacts};
