ghost use Rattle.std.specs.Prelude.{◌≡◌, IfOk};
ghost use Rattle.std.specs.Bool.{OnTrue};
ghost use Rattle.std.specs.Cmp.Lexicographic.{slice_cmp};
ghost use Rattle.std.specs.Ordering.{nat_cmp};
ghost use Rattle.cdf_node.specs.Order.{in_order as in_order_of, Rises};
ghost use Rattle.cdf_node.specs.View.{members_view};

use crate::node::Node;
use bumpalo::Bump;
use bumpalo::collections::into_bump_slice;
use std::alloc::AllocError;
use std::cmp::Ordering;
use std::collections::BTreeMap;

/// The members in byte order of names, of equal names the last. Members that rise stay where they
/// are, and others are sorted, so that none takes quadratic time.
///
/// # Errors
/// An `AllocError` where a growth was refused.
#[tactic(auto, using(crate::proofs::Placing::placed_rising))]
pub fn in_order<'t>(
    bump: &'t Bump,
    mut found: Vec<(&'t str, Node<'t>), &'t Bump>,
) -> Result<&'t [(&'t str, Node<'t>)], AllocError>
    ensures { IfOk result (λ r. members_view r.now ≡ in_order_of found.entry.items) }
{
    if rises(&found) {
        return Ok(into_bump_slice(found));
    }
    found.sort_by(|a, b| compare(a.0, b.0))?;
    last_of_each(bump, found)
}

// The same for members that are sorted, where a name may come twice.
#[tactic(auto, using(crate::proofs::Placing::placed_rising))]
fn last_of_each<'t>(
    bump: &'t Bump,
    found: Vec<(&'t str, Node<'t>), &'t Bump>,
) -> Result<&'t [(&'t str, Node<'t>)], AllocError>
    ensures { IfOk result (λ r. members_view r.now ≡ in_order_of found.entry.items) }
{
    if rises(&found) {
        Ok(into_bump_slice(found))
    } else {
        let placed = by_name(bump, &found)?;
        Ok(into_bump_slice(placed.into_iter().collect(bump)?))
    }
}

/// The order of two names by their bytes. Most differ in the first, and need no call.
#[inline(always)]
#[tactic(auto, using(crate::proofs::Sorting::first_decides))]
pub fn compare(a: &str, b: &str) -> Ordering
    ensures { result ≡ slice_cmp nat_cmp a.now b.now }
{
    let (x, y) = (a.as_bytes(), b.as_bytes());
    if x.len() > 0 && y.len() > 0 && x[0] != y[0] {
        return x[0].cmp(&y[0]);
    }
    a.cmp(b)
}

// Whether each name stands before the next.
fn rises(members: &[(&str, Node<'_>)]) -> bool
    ensures { OnTrue result (Rises (members_view members.now)) }
{
    members.is_sorted_by(|a, b| compare(a.0, b.0).is_lt())
}

// The members by name, of equal names the last.
fn by_name<'t>(
    bump: &'t Bump,
    found: &[(&'t str, Node<'t>)],
) -> Result<BTreeMap<&'t str, Node<'t>, &'t Bump>, AllocError>
    ensures { IfOk result (λ m. members_view m.entries ≡ in_order_of found.now) }
{
    let mut placed = BTreeMap::new(bump);
    'members: for member in found {
        drop(placed.insert(member.0, member.1)?);
    }
    Ok(placed)
}
