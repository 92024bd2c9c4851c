ghost use Rattle.std.specs.Prelude.{◌≡◌, ◌<◌, length, map, IfOk, option_map, codes};
ghost use Rattle.cdf_node.specs.View.{view};
ghost use Rattle.cdf_parts.specs.Parts.{ids_at};
ghost use Rattle.cdf_parts.specs.Places.{contest_of, contest_ids, selections_at, selections_of};

use crate::ids::Ids;
use crate::part::items_at;
use cdf_node::Node;
use cdf_types::Memory;
use std::alloc::Global;
use std::marker::Model;

/// Contests by id and place, each with the ids of its selections (NIST SP 1500-103, classes Contest
/// and ContestSelection). Contracts see them as a list of an id beside ids.
#[derive(Drop)]
pub struct Contests {
    ids: Ids,
    selections: Vec<Ids>,
}

impl Model for Contests {
    ghost use Rattle.std.specs.Prelude.{List, ◌≡◌, length};
    ghost use Rattle.cdf_parts.specs.Places.{Contest};
    ghost use Rattle.std.specs.List.{zip};

    ghost Value = { List Contest };

    ghost view = { λ n. zip n.ids n.selections.items };

    ghost invariant = { λ n. length n.ids ≡ length n.selections.items };
}

impl Contests {
    /// The contests of an Election's array, in order.
    ///
    /// # Errors
    /// `Memory` where a growth was refused.
    pub fn of_items(alloc: Global, items: &[Node<'_>]) -> Result<Contests, Memory>
        ensures { IfOk result (λ n. n ≡ map contest_of (map view items.now)) }
    {
        Ok(Contests {
            ids: Ids::of_items(alloc, items)?,
            selections: selections_in(alloc, items)?,
        })
    }

    /// The same contests.
    ///
    /// # Errors
    /// `Memory` where a growth was refused.
    pub fn copy(&self, alloc: Global) -> Result<Contests, Memory>
        ensures { IfOk result (λ n. n ≡ self.now) }
    {
        Ok(Contests {
            ids: self.ids.copy(alloc)?,
            selections: copies(alloc, &self.selections)?,
        })
    }

    /// The ids of the contests, in order. Takes no memory.
    pub fn ids(&self) -> &Ids
        ensures { result.now ≡ contest_ids self.now }
    {
        &self.ids
    }

    /// The ids of the selections of the contest at a place, from 0. Takes no memory.
    pub fn selections(&self, place: usize) -> &Ids
        requires { place < length self.now }
        ensures { result.now ≡ selections_at self.now place }
    {
        &self.selections[place]
    }

    /// The ids of the selections of the contest that is named, if there is one. Takes no memory.
    pub fn selections_of(&self, contest: &str) -> Option<&Ids>
        ensures { option_map (λ i. i.now) result ≡ selections_of self.now contest.now }
    {
        match self.ids.find(contest) {
            None => None,
            Some(place) => Some(&self.selections[place]),
        }
    }
}

// The ids of the selections of each contest.
fn selections_in(alloc: Global, items: &[Node<'_>]) -> Result<Vec<Ids>, Memory>
    ensures { IfOk result (λ each. each.items
        ≡ map (ids_at (codes "ContestSelection")) (map view items.now)) }
{
    let mut each = Vec::with_capacity(alloc, items.len())?;
    for item in items {
        each.push(Ids::of_items(alloc, items_at("ContestSelection", item))?)?;
    }
    Ok(each)
}

// Equal ids, in order.
fn copies(alloc: Global, each: &[Ids]) -> Result<Vec<Ids>, Memory>
    ensures { IfOk result (λ copies. copies.items ≡ each.now) }
{
    let mut copies = Vec::with_capacity(alloc, each.len())?;
    for ids in each {
        copies.push(ids.copy(alloc)?)?;
    }
    Ok(copies)
}
