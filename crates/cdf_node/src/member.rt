ghost use Rattle.std.specs.Prelude.{◌≡◌, ◌≤◌, ℕ, List, length, drop, option_map, bytes_eq};
ghost use Rattle.std.specs.Bool.{OnTrue};
ghost use Rattle.std.specs.List.{find as first_that};
ghost use Rattle.serde_json.specs.Find.{get_member};
ghost use Rattle.cdf_node.specs.Order.{Before, Rises};
ghost use Rattle.cdf_node.specs.View.{view, members_view};

use crate::node::Node;
use crate::order::compare;

// The first member of a name.
fn first<'t>(members: &'t [(&'t str, Node<'t>)], name: &str) -> Option<&'t (&'t str, Node<'t>)>
    ensures { option_map (λ m. m.now) result
        ≡ first_that (λ m. bytes_eq name.now m.0.now) members.now }
{
    members.iter().find(|m| name == m.0)
}

/// The value at a name among members.
#[tactic(auto, using(crate::proofs::Found::found_member))]
pub fn find<'t>(members: &'t [(&'t str, Node<'t>)], name: &str) -> Option<&'t Node<'t>>
    ensures { option_map (λ v. view v.now) result ≡ get_member name.now (members_view members.now) }
{
    match first(members, name) {
        Some(member) => Some(&member.1),
        None => None,
    }
}

/// The value at a name among the members from a place on, and the place from which to look for a
/// name behind it: members before the name are passed. So names that rise are soon found, one
/// after another, among members that rise; where `rise` says that these do, no name is looked for
/// behind its place. Takes no memory.
pub fn find_from<'t>(
    members: &'t [(&'t str, Node<'t>)],
    rise: bool,
    from: usize,
    name: &str,
) -> (Option<&'t Node<'t>>, usize)
    requires here { from ≤ length members.now }
    requires rise { OnTrue rise (Rises (members_view members.now)) }
    ensures value { option_map (λ v. view v.now) result.0
        ≡ get_member name.now (members_view (drop from members.now)) }
    ensures left { (q : List ℕ) → Before name.now q
        → get_member q (members_view (drop result.1 members.now))
        ≡ get_member q (members_view (drop from members.now)) }
    ensures place { result.1 ≤ length members.now }
{
    for place in from..members.len() {
        let member = &members[place];
        if name == member.0 {
            return (Some(&member.1), place + 1);
        }
        if compare(name, member.0).is_lt() {
            if rise {
                return (None, place);
            }
            return (find(&members[place..], name), place);
        }
    }
    (None, members.len())
}
