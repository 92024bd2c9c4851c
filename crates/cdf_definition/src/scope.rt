use cdf_node::Node;
use cdf_parts::contests::Contests;
use cdf_parts::ids::Ids;
use cdf_parts::{election_items, items_at};
use cdf_types::Memory;
use std::alloc::Global;

/// The ids of a report that its texts can name.
pub struct Scope {
    /// Those of its elections (member Election).
    pub elections: Ids,
    /// Those of its units (member GpUnit).
    pub units: Ids,
    /// Those of its parties (member Party).
    pub parties: Ids,
    /// Those of its devices (member ReportingDevice).
    pub devices: Ids,
    /// The contests of its election, each with its selections.
    pub contests: Contests,
}

// By hand: what holds one has shorter proofs than with a derived `Drop`.
impl Drop for Scope {
    fn drop(self) {
        let Scope {
            elections: _,
            units: _,
            parties: _,
            devices: _,
            contests: _,
        } = self;
    }
}

impl Scope {
    ghost use Rattle.std.specs.Prelude.{◌≡◌, IfOk};
    ghost use Rattle.cdf_node.specs.View.{view};
    ghost use Rattle.cdf_definition.specs.References.{scope_of};
    ghost use Rattle.cdf_definition.specs.Scoped.{scope_view};

    /// The ids of a report.
    ///
    /// # Errors
    /// `Memory` where a growth was refused.
    pub fn of_report(alloc: Global, report: &Node<'_>) -> Result<Scope, Memory>
        ensures { IfOk result (λ s. scope_view s ≡ scope_of (view report.now)) }
    {
        Ok(Scope {
            elections: Ids::of_items(alloc, items_at("Election", report))?,
            units: Ids::of_items(alloc, items_at("GpUnit", report))?,
            parties: Ids::of_items(alloc, items_at("Party", report))?,
            devices: Ids::of_items(alloc, items_at("ReportingDevice", report))?,
            contests: Contests::of_items(alloc, election_items("Contest", report))?,
        })
    }
}
