ghost use Rattle.std.specs.Prelude.{◌≡◌, IfOk, option_map};
ghost use Rattle.std.specs.Bool.{OnTrue};
ghost use Rattle.serde_json.specs.Find.{get};
ghost use Rattle.cdf_node.specs.View.{view};
ghost use Rattle.cdf_definition.specs.Tree.{owned};

use crate::tree::Tree;
use cdf_node::Node;
use cdf_types::Memory;
use std::alloc::{AllocError, Global};
use std::rc::Rc;

/// The Election, GpUnits and Parties of a report, as they stand in it.
pub(crate) struct Lists {
    pub elections: Option<Tree>,
    pub units: Option<Tree>,
    pub parties: Option<Tree>,
}

// By hand: what holds one has shorter proofs than with a derived `Drop`.
impl Drop for Lists {
    fn drop(self) {
        let Lists {
            elections: _,
            units: _,
            parties: _,
        } = self;
    }
}

// What stands at a name, if anything does.
fn tree_at(alloc: Global, name: &str, value: &Node<'_>) -> Result<Option<Tree>, Memory>
    ensures { IfOk result (λ tree. option_map owned tree ≡ get name.now (view value.now)) }
{
    match value.get(name) {
        None => Ok(None),
        Some(member) => Ok(Some(Tree::of_node(alloc, member)?)),
    }
}

// Whether this is what stands at a name.
fn stands_at(tree: &Option<Tree>, name: &str, value: &Node<'_>) -> bool
    ensures { OnTrue result (option_map owned tree.now ≡ get name.now (view value.now)) }
{
    match (tree, value.get(name)) {
        (None, None) => true,
        (Some(tree), Some(member)) => tree.is_same(member),
        _ => false,
    }
}

impl Lists {
    ghost use Rattle.std.specs.Prelude.{◌≡◌, IfOk};
    ghost use Rattle.std.specs.Bool.{OnTrue};
    ghost use Rattle.cdf_node.specs.View.{view};
    ghost use Rattle.cdf_definition.specs.Lists.{AreListsOf};

    /// Those of a report, to be shared.
    ///
    /// # Errors
    /// `Memory` where a growth was refused.
    pub(crate) fn of_report(alloc: Global, report: &Node<'_>) -> Result<Rc<Lists>, Memory>
        ensures { IfOk result (λ lists. AreListsOf lists.value (view report.now)) }
    {
        let lists = Lists {
            elections: tree_at(alloc, "Election", report)?,
            units: tree_at(alloc, "GpUnit", report)?,
            parties: tree_at(alloc, "Party", report)?,
        };
        Ok(share(alloc, lists)?)
    }

    /// Whether a value has the same. Takes no memory.
    pub(crate) fn are_in(&self, value: &Node<'_>) -> bool
        ensures { OnTrue result (AreListsOf self.now (view value.now)) }
    {
        stands_at(&self.elections, "Election", value)
            && stands_at(&self.units, "GpUnit", value)
            && stands_at(&self.parties, "Party", value)
    }
}

// Puts them where several can hold them.
fn share(alloc: Global, lists: Lists) -> Result<Rc<Lists>, AllocError>
    ensures { IfOk result (λ shared. shared.value ≡ lists) }
{
    Ok(Rc::new(alloc, lists)?)
}
