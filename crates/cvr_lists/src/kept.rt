ghost use Rattle.std.specs.Prelude.{◌≡◌, ◌++◌, OnOk, false, map};
ghost use Rattle.std.specs.List.{Contains};
ghost use Rattle.serde_json.specs.Written.{has_float};
ghost use Rattle.cdf_node.specs.declared.node.Node.{Node};
ghost use Rattle.cdf_node.specs.View.{view};
ghost use Rattle.cdf_typed.specs.Typed.{snapshot_of};
ghost use Rattle.cdf_typed.specs.Range.{SnapshotInRange};
ghost use Rattle.cvr_lists.specs.Kept.{AreKept, snapshot_stated};

use crate::shared::SharedFact;
use cdf_check::Keep;
use cdf_node::Node;
use cdf_parts::contests::Contests;
use cdf_parts::items_at;
use cdf_types::Memory;
use cvr_facts::{RecordName, header_in, snapshot_in};
use cvr_office::any_fact::AnyFact;
use std::alloc::Global;

/// The facts of cast vote records, as the records come.
#[derive(Drop)]
pub struct KeptFacts {
    /// Of each record its header, then its snapshots.
    pub facts: Vec<SharedFact>,
    /// How many records there are.
    pub cvrs: usize,
}

/// Keeps the facts of the records of a file, and no typed record of it.
#[derive(Drop)]
pub struct Facts;

impl Keep for Facts {
    type Kept = KeptFacts;

    ghost keeps = { λ _ contests cvrs kept. AreKept contests cvrs kept };

    fn none(&self, alloc: Global) -> KeptFacts {
        KeptFacts {
            facts: Vec::new(alloc),
            cvrs: 0,
        }
    }

    // A record mostly has one snapshot, so its header is put before few.
    fn keep(
        &self,
        alloc: Global,
        contests: &Contests,
        kept: &mut KeptFacts,
        place: usize,
        cvr: &Node<'_>,
    ) -> Result<(), Memory> {
        let header = header_in(alloc, cvr)?;
        let snapshots = items_at("CVRSnapshot", cvr);
        let start = kept.facts.len();
        add_snapshots(alloc, contests, &header.key, snapshots, &mut kept.facts)?;
        let shared = SharedFact::new(alloc, AnyFact::Header(header))?;
        kept.facts.insert(start, shared)?;
        kept.cvrs = place + 1;
        Ok(())
    }
}

// Adds snapshots under the name of their record.
fn add_snapshots(
    alloc: Global,
    contests: &Contests,
    key: &RecordName,
    snapshots: &[Node<'_>],
    facts: &mut Vec<SharedFact>,
) -> Result<(), Memory>
    requires whole { (s : Node) → Contains snapshots.now s → has_float (view s) ≡ false }
    requires range { (s : Node) → Contains snapshots.now s
        → SnapshotInRange contests.now (snapshot_of contests.now (view s)) }
    ensures { OnOk result (facts.new.items ≡ facts.old.items
        ++ map (snapshot_stated contests.now key.now) snapshots.now) }
{
    for snapshot in snapshots {
        let fact = snapshot_in(alloc, contests, key, snapshot)?;
        facts.push(SharedFact::new(alloc, AnyFact::Snapshot(fact))?)?;
    }
    Ok(())
}
