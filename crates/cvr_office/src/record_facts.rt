use cvr_facts::{HeaderFact, SnapshotFact};

/// The snapshots of a record under one id.
#[derive(Drop)]
pub struct IdFacts<'a> {
    /// The snapshots' `@id`.
    pub id: &'a str,
    /// Its snapshots, greatest first in the order of choosing.
    pub snapshots: Vec<&'a SnapshotFact>,
}

/// All facts of a record.
#[derive(Drop)]
pub struct RecordFacts<'a> {
    /// Its headers, greatest first by bytes.
    pub headers: Vec<&'a HeaderFact>,
    /// Its snapshots by id, in byte order.
    pub ids: Vec<IdFacts<'a>>,
}
