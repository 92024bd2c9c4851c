ghost use Rattle.std.specs.Prelude.{◌≡◌, ◌<◌, length, slice_index_or, map, IfOk, [], bytes_eq};
ghost use Rattle.std.specs.List.{list_any};
ghost use Rattle.cdf_node.specs.View.{view};
ghost use Rattle.cdf_parts.specs.Parts.{id_of};
ghost use Rattle.cdf_parts.specs.Places.{place_in};
ghost use Rattle.cdf_parts.specs.Ids.{bytes_of};

use crate::hints::{hinted, hints_of};
use crate::noting::note_place;
use crate::part::{copy_texts, text_at};
use cdf_node::Node;
use cdf_types::Memory;
use std::alloc::Global;
use std::collections::BTreeMap;
use std::marker::Model;

/// Ids (member @id) in order, which are found by place and by text. Contracts see them as the list
/// of their texts.
pub struct Ids {
    ids: Vec<String>,
    places: BTreeMap<String, usize>,
    // First places, in slots by a number made of the id: where `find` looks before `places`.
    hints: Vec<usize>,
}

// By hand: what holds one has shorter proofs than with a derived `Drop`.
impl Drop for Ids {
    fn drop(self) {
        let Ids {
            ids: _,
            places: _,
            hints: _,
        } = self;
    }
}

impl Model for Ids {
    ghost use Rattle.cdf_parts.specs.Places.{Texts};
    ghost use Rattle.cdf_parts.specs.Ids.{bytes_of, HasPlaces, HasHints};

    ghost Value = { Texts };

    ghost view = { λ n. bytes_of n.ids.items };

    ghost invariant = { λ n. HasPlaces n.places (bytes_of n.ids.items)
        × HasHints n.hints.items (bytes_of n.ids.items) };
}

impl Ids {
    /// The ids in the order that is given.
    ///
    /// # Errors
    /// `Memory` where a growth was refused.
    pub fn of(alloc: Global, ids: Vec<String>) -> Result<Ids, Memory>
        ensures { IfOk result (λ n. n ≡ bytes_of ids.items) }
    {
        let mut places = BTreeMap::new(alloc);
        for (place, id) in ids.iter().enumerate() {
            note_place(alloc, &mut places, id.as_str(), place)?;
        }
        let hints = hints_of(alloc, &ids, &places)?;
        Ok(Ids { ids, places, hints })
    }

    /// The ids of objects, in order; the empty text where one has none.
    ///
    /// # Errors
    /// `Memory` where a growth was refused.
    pub fn of_items(alloc: Global, items: &[Node<'_>]) -> Result<Ids, Memory>
        ensures { IfOk result (λ n. n ≡ map id_of (map view items.now)) }
    {
        Ids::of(alloc, ids_in(alloc, items)?)
    }

    /// The same ids.
    ///
    /// # Errors
    /// `Memory` where a growth was refused.
    pub fn copy(&self, alloc: Global) -> Result<Ids, Memory>
        ensures { IfOk result (λ n. n ≡ self.now) }
    {
        Ids::of(alloc, copy_texts(alloc, &self.ids)?)
    }

    /// How many there are. Takes no memory.
    pub fn len(&self) -> usize
        ensures { result ≡ length self.now }
    {
        self.ids.len()
    }

    /// The id at a place, from 0. Takes no memory.
    pub fn get(&self, place: usize) -> &str
        requires { place < length self.now }
        ensures { result.now ≡ slice_index_or self.now place [] }
    {
        self.ids[place].as_str()
    }

    /// The first place of an id, from 0. Takes no memory.
    pub fn find(&self, id: &str) -> Option<usize>
        ensures { result ≡ place_in self.now id.now }
    {
        match hinted(&self.hints, &self.ids, id) {
            Some(place) => Some(place),
            None => self.places.get(id).copied(),
        }
    }

    /// Whether a text is one of the ids. Takes no memory.
    #[tactic(auto, using(crate::proofs::Places::known_place))]
    pub fn contains(&self, id: &str) -> bool
        ensures { result ≡ list_any (bytes_eq id.now) self.now }
    {
        self.find(id).is_some()
    }
}

// The ids of objects, in order.
fn ids_in(alloc: Global, items: &[Node<'_>]) -> Result<Vec<String>, Memory>
    ensures { IfOk result (λ ids. bytes_of ids.items ≡ map id_of (map view items.now)) }
{
    let mut ids = Vec::with_capacity(alloc, items.len())?;
    for item in items {
        ids.push(String::from_str(alloc, text_at("@id", item))?)?;
    }
    Ok(ids)
}
