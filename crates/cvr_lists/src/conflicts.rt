ghost use Rattle.std.specs.Prelude.{◌≡◌, ◌≤◌, IfOk, length};
ghost use Rattle.std.specs.List.{prefix_len};
ghost use Rattle.std.specs.List.Sorted.{IsStrictlySortedBy};
ghost use Rattle.cvr_office.specs.Names.{conflicts, greatest_count};
ghost use Rattle.cvr_lists.specs.AnyNames.{any_name, has_name};
ghost use Rattle.cvr_office.specs.Place.{any_cmp};
ghost use Rattle.cvr_office.specs.Plain.{set_of};

use crate::shared::SharedFact;
use cdf_types::{Memory, Seq};
use cvr_office::any_fact::AnyFact;
use cvr_office::{Conflict, ConflictList, ConflictName};
use std::alloc::Global;

// The names with two bodies or more, in order.
pub fn conflicts_in(alloc: Global, facts: &[SharedFact]) -> Result<ConflictList, Memory>
    requires { IsStrictlySortedBy any_cmp facts.now }
    ensures { IfOk result (λ list. list ≡ conflicts (set_of facts.now)) }
{
    let mut list = Seq::empty(alloc);
    let mut rest = facts;
    while let Some(first) = rest.first() {
        let (run, more) = rest.split_at(run_len(first, rest));
        if run.len() >= 2 {
            list.push(Conflict {
                name: name_of(first)?,
                bodies: run.len(),
            })?;
        }
        rest = more;
    }
    Ok(list)
}

// The greatest number of bodies under one name, 0 where there is none.
pub fn greatest_count_in(facts: &[SharedFact]) -> usize
    requires { IsStrictlySortedBy any_cmp facts.now }
    ensures { result ≡ greatest_count (set_of facts.now) }
{
    let mut greatest = 0;
    let mut rest = facts;
    while let Some(first) = rest.first() {
        let (run, more) = rest.split_at(run_len(first, rest));
        greatest = greatest.max(run.len());
        rest = more;
    }
    greatest
}

// How many facts at the front have the name of the given one.
fn run_len(first: &SharedFact, facts: &[SharedFact]) -> usize
    ensures count { result ≡ prefix_len (has_name (any_name first.now)) facts.now }
    ensures within { result ≤ length facts.now }
{
    facts
        .iter()
        .take_while(|fact| is_same_name(first, fact))
        .count()
}

// Whether both have the same name.
fn is_same_name(one: &SharedFact, other: &SharedFact) -> bool
    ensures { result ≡ has_name (any_name one.now) other.now }
{
    match (one.fact(), other.fact()) {
        (AnyFact::Device(one), AnyFact::Device(other)) => one.id == other.id,
        (AnyFact::Header(one), AnyFact::Header(other)) => one.key == other.key,
        (AnyFact::Snapshot(one), AnyFact::Snapshot(other)) => {
            one.key == other.key && one.id == other.id
        }
        _ => false,
    }
}

// A fact without its body.
fn name_of(fact: &SharedFact) -> Result<ConflictName, Memory>
    ensures { IfOk result (λ name. name ≡ any_name fact.now) }
{
    match fact.fact() {
        AnyFact::Device(device) => Ok(ConflictName::Device(device.id.copy()?)),
        AnyFact::Header(header) => Ok(ConflictName::Header(header.key.copy()?)),
        AnyFact::Snapshot(snapshot) => Ok(ConflictName::Snapshot(
            snapshot.key.copy()?,
            snapshot.id.copy()?,
        )),
    }
}
