ghost use Rattle.std.specs.Prelude.{◌≡◌, option_map, IfOk, false};
ghost use Rattle.cdf_node.specs.View.{view};
ghost use Rattle.serde_json.specs.Written.{has_float};
ghost use Rattle.cdf_form.specs.Found.{path_of};
ghost use Rattle.cdf_form.specs.Form.{first};
ghost use Rattle.cdf_definition.specs.Paths.{each};
ghost use Rattle.cdf_definition.specs.Agreement.{agrees, differing_paths};

use crate::named::Named;
use cdf_form::found::{Path, Step};
use cdf_node::Node;
use cdf_parts::{items_at, text_at};
use cdf_types::Memory;
use std::alloc::Global;

// Whether an object has the text that stands beside its id.
fn agrees(alloc: Global, known: &Named, value: &Node<'_>) -> Result<bool, Memory>
    requires { has_float (view value.now) ≡ false }
    ensures { IfOk result (λ b. b ≡ agrees known.now (view value.now)) }
{
    match known.text_of(text_at("@id", value)) {
        None => Ok(false),
        Some(body) => {
            let text = value.to_string(alloc)?;
            Ok(text.as_str() == body.as_str())
        }
    }
}

/// The first object in the array under a name whose compact text isn't the known one beside its id.
///
/// # Errors
/// `Memory` where a growth was refused.
pub fn first_differing(
    alloc: Global,
    known: &Named,
    name: &'static str,
    value: &Node<'_>,
) -> Result<Option<Path<'static>>, Memory>
    requires { has_float (view value.now) ≡ false }
    ensures { IfOk result (λ o. option_map path_of o
        ≡ first (each (differing_paths known.now) name.now (view value.now))) }
{
    for (place, item) in items_at(name, value).iter().enumerate() {
        if !agrees(alloc, known, item)? {
            let found = Path::here(alloc).under(Step::Item(place))?;
            return Ok(Some(found.under(Step::Member(name))?));
        }
    }
    Ok(None)
}
