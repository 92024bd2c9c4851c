ghost use Rattle.std.specs.Prelude.{◌≡◌};
ghost use Rattle.cdf_node.specs.View.{view};
ghost use Rattle.cdf_typed.specs.Typed.{kind_named, indication_named, allocation_named, count_at};

use cdf_node::Node;
use cdf_types::{Allocation, Indication, SnapshotKind};

/// The kind that a text names, if it names one.
pub fn kind_named(text: &str) -> Option<SnapshotKind>
    ensures { result ≡ kind_named text.now }
{
    SnapshotKind::from_text(text)
}

/// The indication that a text names, if it names one.
pub fn indication_named(text: &str) -> Option<Indication>
    ensures { result ≡ indication_named text.now }
{
    Indication::from_text(text)
}

/// The allocation that a text names, if it names one.
pub fn allocation_named(text: &str) -> Option<Allocation>
    ensures { result ≡ allocation_named text.now }
{
    Allocation::from_text(text)
}

/// The whole number from 0 under a name, or 0.
pub fn count_at(name: &str, value: &Node<'_>) -> u64
    ensures { result ≡ count_at name.now (view value.now) }
{
    match value.get(name) {
        None => 0,
        Some(member) => member.as_u64().unwrap_or(0),
    }
}
