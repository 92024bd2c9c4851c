// What a volume shows of a record's facts.
ghost use Rattle.std.specs.Prelude.{◌≡◌, ◌<◌, [], map, length, nat_le, option_map};
ghost use Rattle.std.specs.Option.{option_map_or};
ghost use Rattle.std.specs.List.{Contains};
ghost use Rattle.std.specs.Ordering.{on};
ghost use Rattle.cdf_typed.specs.Greatest.{max_by};
ghost use Rattle.cvr_facts.specs.Choosing.{fact_choice};
ghost use Rattle.cvr_office.specs.Names.{most};
ghost use Rattle.cvr_report.specs.Page.{shown_body};
ghost use Rattle.cvr_report.specs.Found.{counts_of, HaveSnapshots, pick, picks};

use cvr_facts::{HeaderFact, SnapshotFact, choice_cmp};
use cvr_office::{IdFacts, RecordFacts};

// Whether some name of the record has at least `i` bodies.
pub(crate) fn stands(found: &RecordFacts<'_>, i: usize) -> bool
    requires { 0 < i }
    ensures { result ≡ nat_le i (most (counts_of found.now)) }
{
    found.headers.len() >= i || has_many(found.ids.as_slice(), i)
}

// Whether some id has at least `i` snapshots.
fn has_many(ids: &[IdFacts<'_>], i: usize) -> bool
    requires { 0 < i }
    ensures { result ≡ nat_le i (most (map (λ g. length g.snapshots.items) ids.now)) }
{
    for under in ids {
        if under.snapshots.len() >= i {
            return true;
        }
    }
    false
}

// Header number `i`, or the last.
pub(crate) fn shown_header<'a>(headers: &[&'a HeaderFact], i: usize) -> &'a HeaderFact
    requires number { 0 < i }
    requires some { 0 < length headers.now }
    ensures body { result.now.body ≡ shown_body i (map (λ h. h.now.body) headers.now) }
    ensures listed { Contains (map (λ h. h.now) headers.now) result.now }
{
    headers[i.min(headers.len()) - 1]
}

// A snapshot, and its id.
#[derive(Clone, Copy)]
pub(crate) struct Pick<'a> {
    pub id: &'a str,
    pub fact: &'a SnapshotFact,
}

// Snapshot number `i` under an id, or the last.
pub(crate) fn shown_snapshot<'a>(under: &IdFacts<'a>, i: usize) -> &'a SnapshotFact
    requires number { 0 < i }
    requires some { 0 < length under.now.snapshots.items }
    ensures { result.now ≡ pick i under.now }
{
    under.snapshots[i.min(under.snapshots.len()) - 1]
}

// The greatest of the snapshots that are shown, by the order of choosing.
fn greatest_shown<'a>(ids: &[IdFacts<'a>], i: usize) -> Option<Pick<'a>>
    requires number { 0 < i }
    requires some { HaveSnapshots ids.now }
    ensures { option_map (λ p. (p.id.now, p.fact.now)) result
        ≡ max_by (on (λ p. p.1) fact_choice) (picks i ids.now) }
{
    let mut best: Option<Pick<'a>> = None;
    let mut at = ids.len();
    'ids: while at > 0 {
        at -= 1;
        let under = &ids[at];
        let fact = shown_snapshot(under, i);
        best = match best {
            Some(other) => if choice_cmp(fact, other.fact).is_gt() {
                Some(Pick { id: under.id, fact })
            } else {
                Some(other)
            },
            None => Some(Pick { id: under.id, fact }),
        };
    }
    best
}

// The id of the greatest of the snapshots that are shown.
pub(crate) fn shown_current<'a>(ids: &[IdFacts<'a>], i: usize) -> &'a str
    requires number { 0 < i }
    requires some { HaveSnapshots ids.now }
    ensures { result.now
        ≡ option_map_or (λ p. p.0) (max_by (on (λ p. p.1) fact_choice) (picks i ids.now)) [] }
{
    match greatest_shown(ids, i) {
        Some(pick) => pick.id,
        None => "",
    }
}
