ghost use Rattle.std.specs.Prelude.{◌≡◌, option_map, IfOk, IfErr, OnOk, [], List, ℕ, None, Some};
ghost use Rattle.std.specs.Prelude.{true, unwrap_or};
ghost use Rattle.std.specs.Bool.{OnTrue};
ghost use Rattle.serde_json.specs.Data.{no_members};
ghost use Rattle.serde_json.specs.Find.{as_object};
ghost use Rattle.cdf_node.specs.Order.{IsSorted, ItemsAreSorted};
ghost use Rattle.cdf_node.specs.View.{view, items_view, members_view};
ghost use Rattle.cdf_form.specs.declared.table.Key.TheVariants.{Free};
ghost use Rattle.cdf_form.specs.Form.{first, faults, here, items_faults, length_faults};
ghost use Rattle.cdf_form.specs.Form.{repeat_faults, entry_faults, table_faults, member_look};
ghost use Rattle.cdf_form.specs.Form.{key_text, mark_of, add_text};
ghost use Rattle.cdf_form.specs.Found.{StopsAt};
ghost use Rattle.cdf_form.specs.Laws.{is_in_order};
ghost use Rattle.cdf_form.specs.Seen.{HasTexts, is_in_turn};
ghost use Rattle.cdf_form.specs.Tables.{entry_of, entries_of};

use crate::found::{Step, Stop};
use crate::leaf::{class_of, plain_rule};
use crate::table::{Group, Key, Kind, Leaf, Member, class_members};
use cdf_node::{Node, find_from};
use cdf_types::Rule;
use std::alloc::{AllocError, Global};
use std::collections::BTreeSet;

fn key_text<'t>(key: Key, value: &Node<'t>) -> Option<&'t str>
    ensures { option_map (λ s. s.now) result ≡ key_text key (view value.now) }
{
    match key {
        Key::Free => None,
        Key::Id => value.get("@id")?.as_str(),
        Key::Contest => value.get("ContestId")?.as_str(),
    }
}

// The key, if its text was seen before; from now on it counts as seen.
fn note_key<'t>(seen: &mut BTreeSet<&'t str>, key: Key, item: &Node<'t>) -> Result<Key, AllocError>
    ensures { IfOk result (λ mark. (texts : List (List ℕ)) → HasTexts seen.old texts
        → (mark ≡ mark_of key texts (view item.now))
        × HasTexts seen.new (add_text (key_text key (view item.now)) texts)) }
{
    match key_text(key, item) {
        None => Ok(Key::Free),
        Some(text) => if seen.insert(text)? {
            Ok(Key::Free)
        } else {
            Ok(key)
        },
    }
}

// Whether both have a text under the key, the first before the second.
fn are_in_turn(key: Key, item: &Node<'_>, next: &Node<'_>) -> bool
    ensures { result ≡ is_in_turn (key_text key (view item.now)) (key_text key (view next.now)) }
{
    match (key_text(key, item), key_text(key, next)) {
        (Some(text), Some(after)) => text.cmp(after).is_lt(),
        _ => false,
    }
}

// Whether the texts under a key rise, as they mostly do. Then none was seen before.
fn texts_rise(items: &[Node<'_>], key: Key) -> bool
    ensures { OnTrue result ((leaf : Leaf) → items_faults (items_view items.now) leaf key 0 []
        ≡ items_faults (items_view items.now) leaf Free 0 []) }
{
    items.is_sorted_by(|item, next| are_in_turn(key, item, next))
}

// The key, unless it is seen at once that no text under it comes twice. In place of two calls of
// `walk_items`, so that its code stands where it is called.
fn watched_key(items: &[Node<'_>], key: Key) -> Key
    ensures { (leaf : Leaf) → items_faults (items_view items.now) leaf result 0 []
        ≡ items_faults (items_view items.now) leaf key 0 [] }
{
    if texts_rise(items, key) {
        Key::Free
    } else {
        key
    }
}

fn repeat_rule(mark: Key, name: &str) -> Option<Rule>
    ensures { option_map here result ≡ first (repeat_faults mark name.now) }
{
    match mark {
        Key::Free => None,
        Key::Id => if name == "@id" {
            Some(Rule::RepeatedId)
        } else {
            None
        },
        Key::Contest => if name == "ContestId" {
            Some(Rule::RepeatedContest)
        } else {
            None
        },
    }
}

fn length_rule(least: usize, most: usize, len: usize) -> Option<Rule>
    ensures { option_map here result ≡ first (length_faults least most len) }
{
    if len < least {
        Some(Rule::TooFew)
    } else if len > most {
        Some(Rule::TooMany)
    } else {
        None
    }
}

/// Looks for the first fault of a value against a kind, in the order of the walk. `sorted` says
/// that names rise in each of its objects, as they do in what was read: then a member that is
/// absent is soon missed.
///
/// # Errors
/// `Fault` where there is one; `Memory` where a growth was refused.
#[cycle(walk)]
#[tactic(auto, using(crate::proofs::Parts::array_first, crate::proofs::Parts::as_many))]
pub fn walk<'f>(
    alloc: Global,
    sorted: bool,
    value: &Node<'_>,
    kind: Kind,
    mark: Key,
) -> Result<(), Stop<'f>>
    requires names { OnTrue sorted (IsSorted (view value.now)) }
    ensures none { OnOk result (first (faults (view value.now) kind mark) ≡ None) }
    ensures fault { IfErr result (λ s. StopsAt s (first (faults (view value.now) kind mark))) }
{
    match kind {
        Kind::One(leaf) => walk_one(alloc, sorted, value, leaf, mark),
        Kind::Array(leaf, least, most, key) => match value.as_array() {
            None => Err(Stop::at(alloc, Rule::WrongKind)),
            Some(items) => match length_rule(least, most, items.len()) {
                Some(rule) => Err(Stop::at(alloc, rule)),
                None => walk_items(alloc, sorted, items, leaf, watched_key(items, key)),
            },
        },
    }
}

#[cycle(walk)]
#[tactic(auto, using(crate::proofs::Parts::one_first, crate::proofs::FormLaw::in_order))]
fn walk_one<'f>(
    alloc: Global,
    sorted: bool,
    value: &Node<'_>,
    leaf: Leaf,
    mark: Key,
) -> Result<(), Stop<'f>>
    requires names { OnTrue sorted (IsSorted (view value.now)) }
    ensures none { OnOk result (first (faults (view value.now) (Kind.One leaf) mark) ≡ None) }
    ensures fault { IfErr result (λ s.
        StopsAt s (first (faults (view value.now) (Kind.One leaf) mark))) }
{
    match leaf {
        Leaf::Object(group) => {
            let class = class_of(alloc, group, value)?;
            walk_entries(alloc, sorted, value, class_members(class), mark)
        }
        Leaf::Text
        | Leaf::Name
        | Leaf::Count
        | Leaf::Whole
        | Leaf::Truth
        | Leaf::Moment
        | Leaf::Fractional
        | Leaf::Listed(_) => match plain_rule(value, leaf) {
            Some(rule) => Err(Stop::at(alloc, rule)),
            None => Ok(()),
        },
    }
}

// The members of an object; anything else has none.
fn members_of<'t>(value: &Node<'t>) -> &'t [(&'t str, Node<'t>)]
    ensures { members_view result.now ≡ unwrap_or (as_object (view value.now)) no_members }
{
    value.as_object().unwrap_or_default()
}

// Entries rise by name, and so do the members of what was read. So each entry's member is looked
// for behind those before it, and mostly is the next one.
#[cycle(walk)]
#[tactic(auto, using(crate::proofs::Parts::part_is_lighter, crate::proofs::Walking::found_at))]
fn walk_entries<'f>(
    alloc: Global,
    sorted: bool,
    value: &Node<'_>,
    entries: &'static [Member],
    mark: Key,
) -> Result<(), Stop<'f>>
    requires rise { is_in_order (entries_of entries.now) ≡ true }
    requires names { OnTrue sorted (IsSorted (view value.now)) }
    ensures none { OnOk result
        (first (table_faults (member_look (view value.now)) mark (entries_of entries.now)) ≡ None) }
    ensures fault { IfErr result (λ s. StopsAt s
        (first (table_faults (member_look (view value.now)) mark (entries_of entries.now)))) }
{
    let members = members_of(value);
    let mut place = 0;
    for entry in entries {
        let (found, next) = find_from(members, sorted, place, entry.name);
        place = next;
        match found {
            None => if entry.required {
                return Err(Stop::at(alloc, Rule::Missing).under(Step::Member(entry.name)));
            },
            Some(member) => match walk_member(alloc, sorted, member, entry, mark) {
                Ok(()) => {}
                Err(stop) => return Err(stop.under(Step::Member(entry.name))),
            },
        }
    }
    Ok(())
}

// A member that an entry lists.
#[cycle(walk)]
fn walk_member<'f>(
    alloc: Global,
    sorted: bool,
    member: &Node<'_>,
    entry: &Member,
    mark: Key,
) -> Result<(), Stop<'f>>
    requires names { OnTrue sorted (IsSorted (view member.now)) }
    ensures none { OnOk result (first (entry_faults mark (entry_of entry.now)
        (Some (faults (view member.now) entry.now.kind Free))) ≡ None) }
    ensures fault { IfErr result (λ s. StopsAt s (first (entry_faults mark (entry_of entry.now)
        (Some (faults (view member.now) entry.now.kind Free))))) }
{
    walk(alloc, sorted, member, entry.kind, Key::Free)?;
    match repeat_rule(mark, entry.name) {
        Some(rule) => Err(Stop::at(alloc, rule)),
        None => Ok(()),
    }
}

#[cycle(walk)]
#[tactic(auto, using(crate::proofs::Parts::item_is_lighter))]
fn walk_items<'f>(
    alloc: Global,
    sorted: bool,
    items: &[Node<'_>],
    leaf: Leaf,
    key: Key,
) -> Result<(), Stop<'f>>
    requires names { OnTrue sorted (ItemsAreSorted (items_view items.now)) }
    ensures none { OnOk result (first (items_faults (items_view items.now) leaf key 0 []) ≡ None) }
    ensures fault { IfErr result (λ s.
        StopsAt s (first (items_faults (items_view items.now) leaf key 0 []))) }
{
    let mut seen: BTreeSet<&str> = BTreeSet::new(alloc);
    for (place, item) in items.iter().enumerate() {
        let mark = note_key(&mut seen, key, item)?;
        match walk(alloc, sorted, item, Kind::One(leaf), mark) {
            Ok(()) => {}
            Err(stop) => return Err(stop.under(Step::Item(place))),
        }
    }
    Ok(())
}
