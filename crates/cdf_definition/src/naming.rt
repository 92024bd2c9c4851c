ghost use Rattle.std.specs.Prelude.{◌↔◌, IfOk, IsTrue};
ghost use Rattle.cdf_node.specs.View.{view};
ghost use Rattle.cdf_definition.specs.Naming.{NamesOwn};

use crate::definition::Definition;
use crate::look::{Look, One};
use crate::references::{Current, InSnapshots};
use cdf_node::Node;
use cdf_types::Memory;
use std::alloc::Global;

/// Whether the contests, selections and election that a record names are the definition's, and its
/// current snapshot is its own.
///
/// # Errors
/// `Memory` where a growth was refused.
pub fn names_own(alloc: Global, definition: &Definition, cvr: &Node<'_>) -> Result<bool, Memory>
    ensures { IfOk result (λ is. IsTrue is ↔ NamesOwn definition.now (view cvr.now)) }
{
    let snapshots = InSnapshots(definition.contests());
    if snapshots.look(alloc, cvr)?.is_some() {
        return Ok(false);
    }
    if Current.look(alloc, cvr)?.is_some() {
        return Ok(false);
    }
    let election = One(definition.elections().ids(), "ElectionId");
    Ok(election.look(alloc, cvr)?.is_none())
}
