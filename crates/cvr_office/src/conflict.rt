use cdf_types::{Body, Seq};
use cvr_facts::RecordName;

/// The name of facts: a fact without its body.
#[derive(PartialEq, Eq, Drop)]
pub enum ConflictName {
    /// The `@id` of a reporting device (NIST SP 1500-103, class ReportingDevice).
    Device(Body),
    /// A cast vote record, for its headers (class CVR).
    Header(RecordName),
    /// A cast vote record and the `@id` of one of its snapshots (class CVRSnapshot).
    Snapshot(RecordName, Body),
}

/// A name with two bodies or more.
#[derive(Drop)]
pub struct Conflict {
    /// What has several bodies.
    pub name: ConflictName,
    /// How many bodies it has, from 2.
    pub bodies: usize,
}

/// Conflicts in order: devices by id; then records by name, the header before its snapshots, these
/// by id.
pub type ConflictList = Seq<Conflict>;
