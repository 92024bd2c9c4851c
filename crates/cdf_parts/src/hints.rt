ghost use Rattle.std.specs.Prelude.{◌≡◌, IfOk, IfSome, Some};
ghost use Rattle.cdf_parts.specs.Places.{Texts, place_in};
ghost use Rattle.cdf_parts.specs.Ids.{bytes_of, HasPlaces, HasHints};

use cdf_types::Memory;
use std::alloc::Global;
use std::collections::BTreeMap;

/// A table of slots, four for each id: each slot has the first place of one of the ids that it is
/// the slot of, or, where it is of none, how many ids there are.
///
/// # Errors
/// `Memory` where a growth was refused.
pub fn hints_of(
    alloc: Global,
    ids: &[String],
    places: &BTreeMap<String, usize>,
) -> Result<Vec<usize>, Memory>
    requires { HasPlaces places.now (bytes_of ids.now) }
    ensures { IfOk result (λ hints. HasHints hints.items (bytes_of ids.now)) }
{
    let mut hints = vec![in alloc; ids.len(); ids.len() * 4]?;
    for id in ids {
        note_hint(&mut hints, places, id.as_str());
    }
    Ok(hints)
}

// Puts the first place of an id into its slot.
fn note_hint(hints: &mut [usize], places: &BTreeMap<String, usize>, id: &str)
    ensures { (ids : Texts) → HasPlaces places.now ids → HasHints hints.old ids
        → HasHints hints.new ids }
{
    let slot = slot_of(id, hints.len());
    match places.get(id) {
        Some(place) if slot < hints.len() => hints[slot] = *place,
        _ => {}
    }
}

/// The first place of an id, if its slot has it. Where ids share a slot, as hostile ones may, it
/// has the place of one of them, and the others cost little more than without the table, since no
/// other slot is tried. Takes no memory.
pub fn hinted(hints: &[usize], ids: &[String], id: &str) -> Option<usize>
    requires { HasHints hints.now (bytes_of ids.now) }
    ensures { IfSome result (λ place. place_in (bytes_of ids.now) id.now ≡ Some place) }
{
    let place = *hints.get(slot_of(id, hints.len()))?;
    let known = ids.get(place)?;
    if known.as_str() == id {
        Some(place)
    } else {
        None
    }
}

// The slot of an id: its last eight bytes, in which ids mostly differ, as a number, mixed by a
// constant. No contract depends on which slot it is.
fn slot_of(id: &str, slots: usize) -> usize {
    let end = match id.as_bytes().last_chunk() {
        Some(end) => usize::from_le_bytes(*end),
        None => short_end(id.as_bytes()),
    };
    (end.wrapping_mul(0x9e37_79b9_7f4a_7c15) >> 32).wrapping_mul(slots) >> 32
}

// The bytes of a shorter id as a number.
fn short_end(bytes: &[u8]) -> usize {
    let mut end: usize = 0;
    for byte in bytes {
        end = end.wrapping_mul(256).wrapping_add(usize::from(*byte));
    }
    end
}
