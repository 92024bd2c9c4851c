ghost use Rattle.std.specs.Prelude.{◌≡◌, ◌<◌, ◌≤◌, ◌+◌, ◌++◌, [], ◌∷◌, map, IfOk, OnOk, OnErr};
ghost use Rattle.std.specs.Vec.{vec_len, vec_capacity};
ghost use Rattle.std.specs.List.Sorted.{IsStrictlySortedBy};
ghost use Rattle.cvr_fact_types.specs.Facts.{Device};
ghost use Rattle.cvr_office.specs.Readers.{growth};
ghost use Rattle.cvr_office.specs.Place.{fact_of, any_cmp};
ghost use Rattle.cvr_office.specs.Plain.{set_of, IsPut};

use crate::shared::SharedFact;
use cdf_check::Definition;
use cdf_types::{Body, Memory};
use cvr_facts::DeviceFact;
use cvr_office::any_fact::AnyFact;
use std::alloc::Global;
use std::collections::VecDeque;
use std::mem::swap;

// At most so many facts are put in one by one. More cost less by a sort.
const FEW: usize = 32;

// Puts more facts into a list in order, each once, and answers how many are new.
pub fn put_in(facts: &mut Vec<SharedFact>, more: Vec<SharedFact>) -> Result<usize, Memory>
    requires { IsStrictlySortedBy any_cmp facts.old.items }
    ensures put { OnOk result (IsPut facts.old.items more.items facts.new.items) }
    ensures new { IfOk result (λ n. n ≡ growth (set_of facts.old.items) (set_of more.items)) }
    ensures unchanged { OnErr result (facts.new.items ≡ facts.old.items) }
{
    let before = facts.len();
    put_all(facts, more)?;
    Ok(facts.len() - before)
}

// Puts more facts in, by a sort or one by one.
fn put_all(facts: &mut Vec<SharedFact>, more: Vec<SharedFact>) -> Result<(), Memory>
    requires { IsStrictlySortedBy any_cmp facts.old.items }
    ensures put { OnOk result (IsPut facts.old.items more.items facts.new.items) }
    ensures unchanged { OnErr result (facts.new.items ≡ facts.old.items) }
{
    if more.len() > FEW || facts.is_empty() {
        return sort_in(facts, more);
    }
    insert_each(facts, more)
}

// Puts more facts in by one sort. A list of a few rising stretches is sorted in linear time.
fn sort_in(facts: &mut Vec<SharedFact>, more: Vec<SharedFact>) -> Result<(), Memory>
    ensures put { OnOk result (IsPut facts.old.items more.items facts.new.items) }
    ensures unchanged { OnErr result (facts.new.items ≡ facts.old.items) }
{
    let before = facts.len();
    put_behind(facts, more)?;
    if let Err(refused) = facts.sort() {
        facts.truncate(before);
        return Err(refused.into());
    }
    facts.dedup();
    Ok(())
}

// Puts more facts in one by one, each where it belongs.
fn insert_each(facts: &mut Vec<SharedFact>, more: Vec<SharedFact>) -> Result<(), Memory>
    requires { IsStrictlySortedBy any_cmp facts.old.items }
    ensures put { OnOk result (IsPut facts.old.items more.items facts.new.items) }
    ensures unchanged { OnErr result (facts.new.items ≡ facts.old.items) }
{
    facts.reserve(more.len())?;
    let mut rest = VecDeque::from(more);
    while let Some(fact) = rest.pop_front() {
        insert_one(facts, fact);
    }
    Ok(())
}

// Puts a fact where it belongs, unless it is there. Takes no memory.
fn insert_one(facts: &mut Vec<SharedFact>, fact: SharedFact)
    requires rises { IsStrictlySortedBy any_cmp facts.old.items }
    requires room { vec_len facts.old < vec_capacity facts.old }
    ensures put { IsPut facts.old.items (fact ∷ []) facts.new.items }
    ensures few { vec_len facts.new ≤ vec_len facts.old + 1 }
    ensures room { vec_capacity facts.old ≤ vec_capacity facts.new }
{
    let place = match facts.binary_search(&fact) {
        Ok(_) => return,
        Err(place) => place,
    };
    // There is room, so this takes no memory.
    let _ = facts.insert(place, fact);
}

// Puts facts behind those of a list. An empty list becomes theirs, with no more room than they
// have: most records come once, so that room for others would mostly stay unused.
fn put_behind(facts: &mut Vec<SharedFact>, mut more: Vec<SharedFact>) -> Result<(), Memory>
    ensures items { OnOk result (facts.new.items ≡ facts.old.items ++ more.items) }
    ensures unchanged { OnErr result (facts.new.items ≡ facts.old.items) }
{
    if facts.is_empty() {
        swap(facts, &mut more);
        return Ok(());
    }
    facts.append(&mut more)?;
    Ok(())
}

// The devices of a definition.
pub fn own_devices(alloc: Global, definition: &Definition) -> Result<Vec<SharedFact>, Memory>
    ensures { IfOk result
        (λ facts. map fact_of facts.items ≡ map (λ e. Device e.0 e.1) definition.now.devices) }
{
    let bodies = definition.devices();
    let mut facts = Vec::with_capacity(alloc, bodies.len())?;
    for (place, body) in bodies.iter().enumerate() {
        let id = String::from_str(alloc, definition.device_id(place))?;
        let device = DeviceFact {
            id: Body::new(id),
            body: body.copy()?,
        };
        facts.push(SharedFact::new(alloc, AnyFact::Device(device))?)?;
    }
    Ok(facts)
}

// Puts copies of facts into a list in order, as `put_in`.
pub fn put_copies(facts: &mut Vec<SharedFact>, theirs: &[SharedFact]) -> Result<usize, Memory>
    requires { IsStrictlySortedBy any_cmp facts.old.items }
    ensures put { OnOk result (IsPut facts.old.items theirs.now facts.new.items) }
    ensures new { IfOk result (λ n. n ≡ growth (set_of facts.old.items) (set_of theirs.now)) }
    ensures unchanged { OnErr result (facts.new.items ≡ facts.old.items) }
{
    let more = copies(*facts.allocator(), theirs)?;
    put_in(facts, more)
}

// The same facts, in order.
pub fn copies(alloc: Global, facts: &[SharedFact]) -> Result<Vec<SharedFact>, Memory>
    ensures { IfOk result (λ copies. copies.items ≡ facts.now) }
{
    let mut copies = Vec::with_capacity(alloc, facts.len())?;
    for fact in facts {
        copies.push(fact.share()?)?;
    }
    Ok(copies)
}
