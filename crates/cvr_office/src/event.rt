use crate::fault::JoinFault;
use cdf_types::ReadFault;
use thiserror::Error;

/// Something that happens among offices and files, each named by its place, from 0.
#[derive(Clone, Copy, Debug, PartialEq, Eq)]
pub enum Event {
    /// An office takes in a file.
    Import {
        /// The office.
        office: usize,
        /// The file.
        file: usize,
    },
    /// The office `to` takes in what the office `from` holds, which stays as it is.
    Exchange {
        /// The office that gives.
        from: usize,
        /// The office that takes.
        to: usize,
    },
}

/// Why an event was refused.
#[derive(Debug, Drop, Error)]
pub enum Cause {
    /// The file isn't accepted.
    #[error(transparent)]
    Read(ReadFault),
    /// The facts couldn't be joined.
    #[error(transparent)]
    Join(JoinFault),
    /// There is no such office.
    #[error("there is no such office")]
    NoOffice,
    /// There is no such file.
    #[error("there is no such file")]
    NoFile,
}

/// What became of an event.
#[derive(Drop)]
pub enum Outcome {
    /// It took place, and brought this many new facts.
    Accepted(usize),
    /// It changed nothing.
    Refused(Cause),
}
