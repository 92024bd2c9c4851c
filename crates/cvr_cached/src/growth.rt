// Facts put among others in order, into room that was made before: so that takes no memory.
ghost use Rattle.std.specs.Prelude.{◌≡◌, ◌+◌, ◌≤◌, ◌++◌, IfOk, None, length, take, drop};
ghost use Rattle.std.specs.Vec.{vec_len, vec_capacity};
ghost use Rattle.std.specs.List.Sorted.{IsStrictlySortedBy};
ghost use Rattle.cvr_office.specs.Place.{any_cmp};
ghost use Rattle.cvr_cached.specs.Fresh.{AreApart};
ghost use Rattle.cvr_cached.specs.Growths.{IsGrowth};
ghost use Rattle.cvr_cached.specs.Merged.{is_before, merged};

use cdf_types::{Memory, sum_or_memory};
use cvr_lists::shared::SharedFact;
use cvr_tally::RowKey;
use std::alloc::Global;
use std::collections::VecDeque;
use std::mem::replace;

// Facts that come to a list, and room for them and those that are there.
#[derive(Drop)]
pub(crate) struct Growth {
    pub(crate) fresh: Vec<SharedFact>,
    pub(crate) room: Vec<SharedFact>,
    // A key of the rows that the sums of the list leave then, if it has any.
    pub(crate) key: RowKey,
}

// A key of no unit and no batch.
pub(crate) fn no_key() -> RowKey
    ensures { result ≡ record { contest = 0; unit = None; batch = None } }
{
    RowKey {
        contest: 0,
        unit: None,
        batch: None,
    }
}

// Facts that come to a list, with room, and a key.
pub(crate) fn growth_of(
    alloc: Global,
    facts: &[SharedFact],
    fresh: Vec<SharedFact>,
    key: RowKey,
) -> Result<Growth, Memory>
    requires rises { IsStrictlySortedBy any_cmp fresh.items }
    requires apart { AreApart facts.now fresh.items }
    ensures growth { IfOk result (IsGrowth facts.now) }
    ensures fresh { IfOk result (λ g. g.fresh.items ≡ fresh.items) }
    ensures key { IfOk result (λ g. g.key ≡ key) }
{
    let count = sum_or_memory(facts.len(), fresh.len())?;
    let room = Vec::with_capacity(alloc, count)?;
    Ok(Growth { fresh, room, key })
}

// Puts what comes among the facts. Takes no memory.
pub(crate) fn grow(facts: &mut Vec<SharedFact>, growth: Growth)
    requires rises { IsStrictlySortedBy any_cmp facts.old.items }
    requires growth { IsGrowth facts.old.items growth }
    ensures { facts.new.items ≡ merged facts.old.items growth.fresh.items }
{
    let Growth {
        fresh,
        room,
        key: _,
    } = growth;
    let held = replace(facts, room);
    merge(facts, VecDeque::from(held), VecDeque::from(fresh));
}

// Moves facts and others, both in order, behind those of a list that has room for them.
fn merge(list: &mut Vec<SharedFact>, facts: VecDeque<SharedFact>, others: VecDeque<SharedFact>)
    requires rises { IsStrictlySortedBy any_cmp facts.items }
    requires room { vec_len list.old + (length facts.items + length others.items)
        ≤ vec_capacity list.old }
    ensures { list.new.items ≡ list.old.items ++ merged facts.items others.items }
{
    let mut rest = facts;
    let mut coming = others;
    while let Some(fact) = coming.pop_front() {
        let count = rest.partition_point(|held| is_before(&fact, held));
        move_front(list, &mut rest, count);
        list.push_reserved(fact);
    }
    let count = rest.len();
    move_front(list, &mut rest, count);
}

// Whether another fact stands before this one.
fn is_before(fact: &SharedFact, other: &SharedFact) -> bool
    ensures { result ≡ is_before fact.now other.now }
{
    other.cmp(fact).is_lt()
}

// Moves so many facts from the front of others behind those of a list that has room for them.
fn move_front(list: &mut Vec<SharedFact>, facts: &mut VecDeque<SharedFact>, count: usize)
    requires within { count ≤ length facts.old.items }
    requires room { vec_len list.old + count ≤ vec_capacity list.old }
    ensures moved { list.new.items ≡ list.old.items ++ take count facts.old.items }
    ensures rest { facts.new.items ≡ drop count facts.old.items }
    ensures room { vec_capacity list.new ≡ vec_capacity list.old }
{
    for place in 0..count {
        if let Some(fact) = facts.pop_front() {
            list.push_reserved(fact);
        }
    }
}
