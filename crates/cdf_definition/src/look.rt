ghost use Rattle.std.specs.Prelude.{◌≡◌, List, ℕ, option_map, IfOk};
ghost use Rattle.serde_json.specs.Data.{Data};
ghost use Rattle.serde_json.specs.Find.{as_str};
ghost use Rattle.cdf_node.specs.View.{view};
ghost use Rattle.cdf_form.specs.Form.{first};
ghost use Rattle.cdf_definition.specs.Paths as paths;
ghost use Rattle.cdf_form.specs.Found.{path_of};
ghost use Rattle.cdf_definition.specs.Paths.{each};
ghost use Rattle.cdf_definition.specs.References.{unknown, one};

use cdf_form::found::{Path, Step};
use cdf_node::Node;
use cdf_parts::ids::Ids;
use cdf_parts::{items_at, text_in};
use cdf_types::Memory;
use std::alloc::Global;

/// A look for the first text of a value that names nothing.
pub trait Look {
    ghost missing: { Self → Data → List paths.Path };

    /// The path from the value to that text, or none.
    ///
    /// # Errors
    /// `Memory` where a growth was refused.
    fn look(&self, alloc: Global, value: &Node<'_>) -> Result<Option<Path<'static>>, Memory>
        ensures { IfOk result
            (λ o. option_map path_of o ≡ first (missing self.now (view value.now))) };
}

// The first of these answers that has a path, or none.
macro_rules! first_of {
    ($last:expr $(,)?) => { $last };
    ($look:expr, $($rest:tt)+) => {
        match $look? {
            None => first_of!($($rest)+),
            found => Ok(found),
        }
    };
}

pub(crate) use first_of;

/// A text that has to be one of the ids.
#[derive(Clone, Copy)]
pub struct Text<'a>(pub &'a Ids);

impl Look for Text<'_> {
    ghost missing = { λ s d. unknown s.0.now (as_str d) };

    fn look(&self, alloc: Global, value: &Node<'_>) -> Result<Option<Path<'static>>, Memory> {
        let ids = self.0;
        match value.as_str() {
            Some(id) if !ids.contains(id) => Ok(Some(Path::here(alloc))),
            _ => Ok(None),
        }
    }
}

/// The text under a name, which has to be one of the ids.
#[derive(Clone, Copy)]
pub struct One<'a>(pub &'a Ids, pub &'static str);

impl Look for One<'_> {
    ghost missing = { λ s d. one s.0.now s.1.now d };

    fn look(&self, alloc: Global, value: &Node<'_>) -> Result<Option<Path<'static>>, Memory> {
        let One(ids, name) = *self;
        match text_in(name, value) {
            Some(id) if !ids.contains(id) => {
                Ok(Some(Path::here(alloc).under(Step::Member(name))?))
            }
            _ => Ok(None),
        }
    }
}

/// Each item of the array under a name.
#[derive(Drop)]
pub struct Each<L: Drop>(pub L, pub &'static str);

impl<L: Look + Drop> Look for Each<L> {
    ghost missing = { λ s d. each (L.missing s.0) s.1.now d };

    fn look(&self, alloc: Global, value: &Node<'_>) -> Result<Option<Path<'static>>, Memory> {
        for (place, item) in items_at(self.1, value).iter().enumerate() {
            match self.0.look(alloc, item)? {
                None => {}
                Some(found) => {
                    return Ok(Some(found.under(Step::Item(place))?.under(Step::Member(self.1))?));
                }
            }
        }
        Ok(None)
    }
}
