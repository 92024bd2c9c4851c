ghost use Rattle.std.specs.Prelude.{◌≡◌, ◌↔◌, ◌∷◌, ◌++◌, [], codes, IfOk, IsTrue, List, OnOk};
ghost use Rattle.serde_json.specs.Data.{Data};
ghost use Rattle.cdf_node.specs.View.{view};
ghost use Rattle.cdf_parts.specs.Parts.{ids_at};
ghost use Rattle.cdf_check.specs.Within.{lists, AreNamed, ListsNamed};

use crate::text_set::TextSet;
use cdf_node::Node;
use cdf_parts::ids::Ids;
use cdf_parts::{items_at, text_in};
use cdf_types::Memory;
use std::alloc::{AllocError, Global};

/// The devices, units and parties that records name, which the rest of their file has to list.
pub(crate) struct RecordNames {
    pub devices: TextSet,
    pub units: TextSet,
    pub parties: TextSet,
}

// By hand: what holds one has shorter proofs than with a derived `Drop`.
impl Drop for RecordNames {
    fn drop(self) {
        let RecordNames {
            devices: _,
            units: _,
            parties: _,
        } = self;
    }
}

impl RecordNames {
    /// Those of no records.
    pub(crate) fn new(alloc: Global) -> RecordNames
        ensures { AreNamed [] result }
    {
        RecordNames {
            devices: TextSet::new(alloc),
            units: TextSet::new(alloc),
            parties: TextSet::new(alloc),
        }
    }

    /// Adds those of one record more.
    ///
    /// # Errors
    /// An `AllocError` where a growth was refused.
    pub(crate) fn add(&mut self, alloc: Global, cvr: &Node<'_>) -> Result<(), AllocError>
        ensures { OnOk result ((ds : List Data) → AreNamed ds self.old
            → AreNamed (ds ++ view cvr.now ∷ []) self.new) }
    {
        self.devices
            .add_any(alloc, text_in("CreatingDeviceId", cvr))?;
        self.units
            .add_any(alloc, text_in("BallotStyleUnitId", cvr))?;
        self.parties.add_items(alloc, items_at("PartyIds", cvr))
    }

    /// Whether the rest of a file lists each of them.
    ///
    /// # Errors
    /// `Memory` where a growth was refused.
    pub(crate) fn are_listed(&self, alloc: Global, left: &Node<'_>) -> Result<bool, Memory>
        ensures { IfOk result (λ is. IsTrue is ↔ ListsNamed (view left.now) self.now) }
    {
        Ok(
            are_among(alloc, &self.devices, "ReportingDevice", left)?
                && are_among(alloc, &self.units, "GpUnit", left)?
                && are_among(alloc, &self.parties, "Party", left)?,
        )
    }
}

// Whether each of the texts is the id of an object in the array under a name.
fn are_among(alloc: Global, texts: &TextSet, name: &str, left: &Node<'_>) -> Result<bool, Memory>
    ensures { IfOk result (λ is. is ≡ lists (ids_at name.now (view left.now)) texts.now) }
{
    let ids = Ids::of_items(alloc, items_at(name, left))?;
    Ok(texts.are_among(&ids))
}
