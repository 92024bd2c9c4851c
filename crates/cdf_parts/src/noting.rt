ghost use Rattle.std.specs.Prelude.{◌≡◌, OnOk, ℕ, List, if◌then◌else◌, Some, None, bytes_eq};
ghost use Rattle.std.specs.Option.{option_or};
ghost use Rattle.std.specs.BTreeMap.{get_by_text};

use cdf_types::Memory;
use std::alloc::Global;
use std::collections::BTreeMap;

/// Notes the place of an id, unless an earlier one is known.
///
/// # Errors
/// `Memory` where a growth was refused.
pub fn note_place(
    alloc: Global,
    places: &mut BTreeMap<String, usize>,
    id: &str,
    place: usize,
) -> Result<(), Memory>
    ensures { OnOk result ((q : List ℕ) → get_by_text places.new q
        ≡ option_or (get_by_text places.old q) (if bytes_eq q id.now then Some place else None)) }
{
    if places.contains_key(id) {
        return Ok(());
    }
    places.insert(String::from_str(alloc, id)?, place)?;
    Ok(())
}
