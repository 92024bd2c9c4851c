ghost use Rattle.std.specs.Prelude.{◌≡◌, [], ◌<◌, not, slice_index_or, IfOk};
ghost use Rattle.std.specs.List.{list_any, filter};
ghost use Rattle.std.specs.List.Sorted.{IsStrictlySortedBy};
ghost use Rattle.std.specs.Ordering.{eq_by_cmp};
ghost use Rattle.std.specs.FinSet as set;
ghost use Rattle.cvr_fact_types.specs.Facts.{text_cmp};
ghost use Rattle.cvr_facts.specs.Sets.{texts_in};
ghost use Rattle.cvr_facts.specs.Unions.{text_union_laws};

use crate::join::Join;
use cdf_types::{Body, Memory};
use std::alloc::Global;
use std::marker::Model;

/// Bodies, each held once, which contracts see as a finite set of texts.
#[derive(Drop)]
pub struct BodySet {
    items: Vec<Body>,
}

impl Model for BodySet {
    ghost use Rattle.std.specs.Coded.{coded_list, coded_ℕ};
    ghost use Rattle.std.specs.FinSet as set;
    ghost use Rattle.std.specs.List.Sorted.{IsStrictlySortedBy};
    ghost use Rattle.cvr_fact_types.specs.Facts.{text_cmp};

    ghost Value = { set.FinSet text_cmp };

    ghost coded = { set.code (coded_list coded_ℕ) };

    ghost view = { λ s. set.from_list s.items.items };

    ghost invariant = { λ s. IsStrictlySortedBy text_cmp s.items.items };
}

impl BodySet {
    /// The set of these bodies, in copies.
    ///
    /// # Errors
    /// `Memory` where a growth was refused.
    pub fn new(alloc: Global, bodies: &[Body]) -> Result<BodySet, Memory>
        ensures { IfOk result (λ s. s ≡ set.from_list bodies.now) }
    {
        let mut items = copies(alloc, bodies)?;
        put_in_order(&mut items);
        Ok(BodySet { items })
    }

    /// The number of bodies. Takes no memory.
    pub fn len(&self) -> usize
        ensures { result ≡ set.len self.now }
    {
        self.items.len()
    }

    /// The body at a place, counted from 0 in byte order. Takes no memory.
    pub fn get(&self, place: usize) -> &Body
        requires { place < set.len self.now }
        ensures { result.now ≡ slice_index_or (texts_in self.now) place [] }
    {
        &self.items[place]
    }
}

impl Join for BodySet {
    ghost Set = { set.FinSet text_cmp };

    ghost held = { λ s. s };

    ghost joined = { set.union };

    ghost nothing = { set.empty };

    ghost size = { set.len };

    fn join(&mut self, other: &Self) -> Result<usize, Memory> {
        let mut more = missing(*self.items.allocator(), &self.items, &other.items)?;
        let count = more.len();
        self.items.append(&mut more)?;
        put_in_order(&mut self.items);
        Ok(count)
    }

    ghost laws = { text_union_laws };
}

// Copies of bodies.
fn copies(alloc: Global, bodies: &[Body]) -> Result<Vec<Body>, Memory>
    ensures { IfOk result (λ v. v.items ≡ bodies.now) }
{
    let mut items = Vec::with_capacity(alloc, bodies.len())?;
    for body in bodies {
        items.push(body.copy()?)?;
    }
    Ok(items)
}

// Copies of those of theirs that aren't among mine.
fn missing(alloc: Global, mine: &[Body], theirs: &[Body]) -> Result<Vec<Body>, Memory>
    requires { IsStrictlySortedBy text_cmp mine.now }
    ensures { IfOk result
        (λ v. v.items ≡ filter (λ x. not (list_any (eq_by_cmp text_cmp x) mine.now)) theirs.now) }
{
    let mut more = Vec::new(alloc);
    for body in theirs {
        if mine.binary_search(body).is_err() {
            more.push(body.copy()?)?;
        }
    }
    Ok(more)
}

// Puts bodies in byte order, each once. Takes no memory.
fn put_in_order(bodies: &mut Vec<Body>)
    ensures sorted { IsStrictlySortedBy text_cmp bodies.new.items }
    ensures members { set.from_list {R = text_cmp} bodies.new.items
        ≡ set.from_list bodies.old.items }
{
    bodies.sort_unstable();
    bodies.dedup();
}
