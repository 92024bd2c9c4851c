//! Offices that collect cast vote records: what they are, the events among them, and two kinds.
#![tactic(auto)]

pub use cvr_cached::CachedOffice;
pub use cvr_lists::read_facts;
pub use cvr_office::{
    Cause, Conflict, ConflictList, ConflictName, Event, IdFacts, JoinFault, Office, Outcome,
    Receipt, RecordFacts, examples, law, play,
};
pub use cvr_plain::PlainOffice;
