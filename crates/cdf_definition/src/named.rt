use crate::gather::{copy_bodies, gather};
use cdf_node::Node;
use cdf_parts::ids::Ids;
use cdf_types::{Body, Memory};
use std::alloc::Global;
use std::collections::BTreeMap;
use std::marker::Model;

/// The compact texts of objects by their ids (member @id), in byte order of the ids. Contracts see
/// them as a list of id beside text.
pub struct Named {
    ids: Ids,
    bodies: Vec<Body>,
}

// By hand: what holds one has shorter proofs than with a derived `Drop`.
impl Drop for Named {
    fn drop(self) {
        let Named { ids: _, bodies: _ } = self;
    }
}

impl Model for Named {
    ghost use Rattle.std.specs.Prelude.{List, ◌≡◌, length};
    ghost use Rattle.std.specs.List.{zip};
    ghost use Rattle.cdf_definition.specs.Named.{IdText};

    ghost Value = { List IdText };

    ghost view = { λ n. zip n.ids n.bodies.items };

    ghost invariant = { λ n. length n.ids ≡ length n.bodies.items };
}

impl Named {
    ghost use Rattle.std.specs.Prelude.{◌≡◌, length, option_map, IfOk, false, map, IsTrue, ◌↔◌};
    ghost use Rattle.std.specs.List.{list_any, zip};
    ghost use Rattle.cdf_node.specs.View.{view};
    ghost use Rattle.serde_json.specs.Written.{has_float};
    ghost use Rattle.cdf_parts.specs.Ids.{bytes_of};
    ghost use Rattle.cdf_definition.specs.Named.{id_and_text, by_id, map_entries, ids_of, texts_of};
    ghost use Rattle.cdf_definition.specs.Named.{text_of};

    /// The texts of objects, in byte order of their ids; of several with one id the last.
    ///
    /// # Errors
    /// `Memory` where a growth was refused.
    pub fn of_items(alloc: Global, items: &[Node<'_>]) -> Result<Named, Memory>
        requires { list_any has_float (map view items.now) ≡ false }
        ensures { IfOk result (λ n. n ≡ by_id (map id_and_text (map view items.now))) }
    {
        Named::of_map(alloc, gather(alloc, items)?)
    }

    // The entries of a map.
    fn of_map(alloc: Global, texts: BTreeMap<String, Body>) -> Result<Named, Memory>
        ensures { IfOk result (λ n. n ≡ map_entries texts.entries) }
    {
        let mut ids = Vec::with_capacity(alloc, texts.len())?;
        let mut bodies = Vec::with_capacity(alloc, texts.len())?;
        for (id, body) in texts {
            ids.push(id)?;
            bodies.push(body)?;
        }
        Named::of(alloc, ids, bodies)
    }

    // Ids beside texts.
    fn of(alloc: Global, ids: Vec<String>, bodies: Vec<Body>) -> Result<Named, Memory>
        requires { length ids.items ≡ length bodies.items }
        ensures { IfOk result (λ n. n ≡ zip (bytes_of ids.items) bodies.items) }
    {
        Ok(Named {
            ids: Ids::of(alloc, ids)?,
            bodies,
        })
    }

    /// The same texts.
    ///
    /// # Errors
    /// `Memory` where a growth was refused.
    pub fn copy(&self, alloc: Global) -> Result<Named, Memory>
        ensures { IfOk result (λ n. n ≡ self.now) }
    {
        Ok(Named {
            ids: self.ids.copy(alloc)?,
            bodies: copy_bodies(alloc, &self.bodies)?,
        })
    }

    /// The ids, in byte order. Takes no memory.
    pub fn ids(&self) -> &Ids
        ensures { result.now ≡ ids_of self.now }
    {
        &self.ids
    }

    /// The texts, in byte order of their ids. Takes no memory.
    pub fn bodies(&self) -> &[Body]
        ensures { result.now ≡ texts_of self.now }
    {
        &self.bodies
    }

    /// The text that stands beside an id, if there is one. Takes no memory.
    pub fn text_of(&self, id: &str) -> Option<&Body>
        ensures { option_map (λ body. body.now) result ≡ text_of self.now id.now }
    {
        match self.ids.find(id) {
            None => None,
            Some(place) => Some(&self.bodies[place]),
        }
    }

    /// Whether the texts are the same. Takes no memory.
    pub fn same(&self, other: &Named) -> bool
        ensures { IsTrue result ↔ (texts_of self.now ≡ texts_of other.now) }
    {
        self.bodies() == other.bodies()
    }
}
