ghost use Rattle.std.specs.Prelude.{◌≡◌, IfOk, false, map};
ghost use Rattle.std.specs.List.{list_any};
ghost use Rattle.cdf_node.specs.View.{view};
ghost use Rattle.serde_json.specs.Written.{has_float};
ghost use Rattle.cdf_definition.specs.Named.{id_and_text, by_id, map_entries};

use cdf_node::Node;
use cdf_parts::text_at;
use cdf_types::{Body, Memory};
use std::alloc::Global;
use std::collections::BTreeMap;

// The texts of objects by their ids.
pub(crate) fn gather(alloc: Global, items: &[Node<'_>]) -> Result<BTreeMap<String, Body>, Memory>
    requires { list_any has_float (map view items.now) ≡ false }
    ensures { IfOk result
        (λ m. map_entries m.entries ≡ by_id (map id_and_text (map view items.now))) }
{
    let mut texts = BTreeMap::new(alloc);
    for item in items {
        let id = String::from_str(alloc, text_at("@id", item))?;
        let body = Body::new(item.to_string(alloc)?);
        texts.insert(id, body)?;
    }
    Ok(texts)
}

// Equal texts, in order.
pub(crate) fn copy_bodies(alloc: Global, bodies: &[Body]) -> Result<Vec<Body>, Memory>
    ensures { IfOk result (λ copies. copies.items ≡ bodies.now) }
{
    let mut copies = Vec::with_capacity(alloc, bodies.len())?;
    for body in bodies {
        copies.push(body.copy()?)?;
    }
    Ok(copies)
}
