use thiserror::Error;

/// Why an office didn't take in another's facts.
#[derive(Clone, Copy, Debug, PartialEq, Eq, Error)]
pub enum JoinFault {
    /// The definitions differ.
    #[error("the definitions differ")]
    OtherDefinition,
    /// A growth was refused.
    #[error("out of memory")]
    Memory,
}
