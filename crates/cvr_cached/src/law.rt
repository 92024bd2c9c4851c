//! Laws of parts that are joined, of lists that are merged, of offices of two kinds, and of how
//! often rows are changed.
ghost use Rattle.std.specs.FinSet.{empty, union};
ghost use Rattle.cvr_office.specs.Plain.{set_of};
ghost use Rattle.cvr_cached.specs.Kinds.{KindsLaw};
ghost use Rattle.cvr_cached.specs.Merged.{MergedLaw};
ghost use Rattle.cvr_cached.specs.Moves.{NothingMovesLaw, RowsOfRecordLaw};
ghost use Rattle.cvr_cached.specs.Wholes.{WholesLaw};

use cvr_facts::Join;
use cvr_office::Office;

/// Parts stand under names of records. Where the part of each name is the join of two others', all
/// parts together are the join of all of theirs. This follows from the laws of `Join` alone. The
/// union of facts keeps these laws (`law::joining` of `cvr_facts`), so it holds of what two offices
/// have under each name.
pub fn wholes_are_joined<J: Join>()
    ensures parts { WholesLaw J.held J.joined J.nothing }
    ensures contents { WholesLaw set_of union empty }
{}

/// A list of facts in order, merged with another that has none of them, is in order and has the
/// facts of both.
pub fn lists_are_merged()
    ensures { MergedLaw }
{}

/// Offices of one kind and of another that held the same facts, place by place, and played the same
/// events with the same outcomes, hold the same facts. So one that remembers answers as a plain one
/// of an equal definition, and its running totals are the rows that the plain one computes.
pub fn kinds_hold_the_same<One: Office, Other: Office>()
    ensures { KindsLaw One.held One.defined Other.held Other.defined }
{}

/// The contests of a record's current snapshot, by which moves are counted, are as many as the rows
/// that the record stands in. Where no fact is new, no row is changed.
pub fn moving()
    ensures rows { RowsOfRecordLaw }
    ensures none { NothingMovesLaw }
{}
