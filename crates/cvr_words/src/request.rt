use cdf_types::{Body, Seq};
use std::num::NonZeroU32;

/// What the words ask for.
#[derive(Drop)]
pub struct Request {
    /// What is to be done.
    pub task: Task,
    /// The path of the definition, as given.
    pub def: Body,
    /// The paths of the files, as given, in order; of a drill those of its imports.
    pub paths: Seq<Body>,
}

/// What is to be done with the files.
#[derive(Drop)]
pub enum Task {
    /// Print the current snapshot of each cast vote record.
    Currents,
    /// Print the names with two bodies or more.
    Conflicts,
    /// Print the rows of the tally.
    Tally,
    /// Print each accepted file with the number of its cast vote records.
    Check,
    /// Print one volume of a report of all that the files hold.
    Merge {
        /// When the report is made, as given.
        date: Body,
        /// The id of the device that makes it, as given.
        device: Body,
        /// Which volume, from 1.
        volume: NonZeroU32,
    },
    /// Play the steps of several offices, and print what each holds.
    Drill {
        /// How many offices, from 1 to 64.
        offices: u32,
        /// The steps, in order.
        steps: Seq<Step>,
    },
}

/// A step of a drill.
#[derive(Drop)]
pub struct Step {
    /// Its text, as given.
    pub text: Body,
    /// What it does.
    pub act: Act,
}

/// What a step does. It names offices by their numbers, from 1, as in the words.
#[derive(Clone, Copy, Debug, PartialEq, Eq)]
pub enum Act {
    /// An office takes in a file.
    Import {
        /// The office.
        office: u32,
        /// The place of the file among the files of the request, from 0.
        path: usize,
    },
    /// The office `to` takes in what the office `from` holds, which stays as it is.
    Exchange {
        /// The office that gives.
        from: u32,
        /// The office that takes.
        to: u32,
    },
}
