ghost use Rattle.std.specs.Prelude.{◌≡◌, ◌≢◌, ◌⊎◌, ◌+◌, ◌≤◌, ℕ, List, map, Bool, IfSome, IfNone};
ghost use Rattle.std.specs.Prelude.{string_bytes};
ghost use Rattle.cvr_run.specs.Listed.{IsBefore, list_tail, list_words};

/// Words with a list in the place of files.
#[derive(Clone, Copy)]
pub struct Listing<'a> {
    /// The words before it.
    pub before: &'a [String],
    /// The list, as given.
    pub list: &'a str,
    /// Its paths end with a NUL byte.
    pub by_null: bool,
}

// The list that words name, and whether its paths end with a NUL byte.
fn list_of<'a>(tail: &'a [String]) -> Option<(&'a str, bool)>
    ensures some { IfSome result (λ found.
        map string_bytes tail.now ≡ list_tail found.0.now found.1) }
    ensures none { IfNone result ((list : List ℕ) (by_null : Bool)
        → map string_bytes tail.now ≢ list_tail list by_null) }
{
    let (flag, list, by_null) = match tail {
        [flag, list] => (flag, list, false),
        [flag, list, null] => match null.as_str() {
            "--null" => (flag, list, true),
            _ => return None,
        },
        _ => return None,
    };
    match flag.as_str() {
        "--files-from" => Some((list.as_str(), by_null)),
        _ => None,
    }
}

// How many words stand before a list, by the number of all.
fn count_before(count: usize) -> Option<usize>
    ensures some { IfSome result (λ before. ((before ≡ 2) ⊎ (before ≡ 5))
        × (before + 2 ≤ count) × (count ≤ before + 3)) }
    ensures none { IfNone result ((before : ℕ) → (before ≡ 2) ⊎ (before ≡ 5)
        → before + 2 ≤ count → ¬ (count ≤ before + 3)) }
{
    match count {
        4 | 5 => Some(2),
        7 | 8 => Some(5),
        _ => None,
    }
}

/// The words, if a list stands in the place of files. Takes no memory.
pub fn listing_of<'a>(words: &'a [String]) -> Option<Listing<'a>>
    ensures before { IfSome result (λ found. IsBefore (map string_bytes found.before.now)) }
    ensures words { IfSome result (λ found. map string_bytes words.now
        ≡ list_words (map string_bytes found.before.now) found.list.now found.by_null) }
    ensures none { IfNone result ((before : List (List ℕ)) (list : List ℕ) (by_null : Bool)
        → IsBefore before → map string_bytes words.now ≢ list_words before list by_null) }
{
    let count = count_before(words.len())?;
    let (before, tail) = words.split_at(count);
    let (list, by_null) = list_of(tail)?;
    Some(Listing {
        before,
        list,
        by_null,
    })
}
