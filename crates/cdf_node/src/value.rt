ghost use Rattle.std.specs.Prelude.{◌≡◌, ◌<◌, ◌∷◌, length, Err, None, Some, IfOk, OnOk};
ghost use Rattle.json.specs.Token as spec;
ghost use Rattle.serde_json.specs.Data.{array, object};
ghost use Rattle.cdf_node.specs.Next.{next_value};
ghost use Rattle.cdf_node.specs.View.{view, items_view, members_view};
ghost use Rattle.cdf_node.specs.Whole.{IsNoted};

use crate::no_value::NoValue;
use crate::node::Node;
use crate::order::in_order;
use crate::token::scalar;
use crate::track::Track;
use bumpalo::Bump;
use bumpalo::collections::into_bump_slice;
use json::{Reader, Token};

/// The next value of a text, as serde_json reads it: of members of one name the last, arrays and
/// objects nested no deeper than `depth`. Its items and members stand in the arena. Where it has a
/// number that isn't whole, that is noted in `track`.
///
/// # Errors
/// `Unread` where no such value comes next; `Memory` where a growth was refused. Where the reader
/// stands then, no clause says.
#[cycle(value)]
#[tactic(auto, using(crate::proofs::Loops::next_value_nothing))]
pub fn read<'t, 'a: 't>(
    bump: &'t Bump,
    reader: &mut Reader<'a>,
    depth: usize,
    track: &mut Track,
) -> Result<Node<'t>, NoValue>
    ensures value { IfOk result (λ v. next_value depth reader.old ≡ Some (view v, reader.new)) }
    ensures whole { IfOk result (λ v. IsNoted track.old.fraction track.new.fraction (view v)) }
    ensures unread { result ≡ Err NoValue.Unread → next_value depth reader.old ≡ None }
    ensures shorter { OnOk result (length reader.new < length reader.old) }
{
    let token = reader.next().ok_or(NoValue::Unread)?;
    match token {
        Token::BeginArray => Ok(Node::Array(read_array(bump, reader, depth, track)?)),
        Token::BeginObject => Ok(Node::Object(read_object(bump, reader, depth, track)?)),
        _ => scalar(token, track),
    }
}

/// The items of the array whose first bracket was read.
///
/// # Errors
/// As `read`.
#[cycle(value)]
#[tactic(auto, using(crate::proofs::Loops::array_begun, crate::proofs::Loops::array_flat, crate::proofs::Loops::array_over, crate::proofs::Loops::array_shorter))]
pub fn read_array<'t, 'a: 't>(
    bump: &'t Bump,
    reader: &mut Reader<'a>,
    depth: usize,
    track: &mut Track,
) -> Result<&'t [Node<'t>], NoValue>
    ensures value { IfOk result (λ v. next_value depth (spec.Token.begin_array ∷ reader.old)
        ≡ Some (array (items_view v.now), reader.new)) }
    ensures whole { IfOk result
        (λ v. IsNoted track.old.fraction track.new.fraction (array (items_view v.now))) }
    ensures unread { result ≡ Err NoValue.Unread
        → next_value depth (spec.Token.begin_array ∷ reader.old) ≡ None }
    ensures shorter { OnOk result (length reader.new < length reader.old) }
{
    if depth == 0 {
        return Err(NoValue::Unread);
    }
    let mut items = Vec::with_capacity(bump, track.items(depth))?;
    'items: while !reader.take_end_array() {
        let item = read(bump, reader, depth - 1, track)?;
        items.push(item)?;
    }
    track.note_items(depth, items.len());
    Ok(into_bump_slice(items))
}

/// The members of the object whose first brace was read, in byte order of names.
///
/// # Errors
/// As `read`.
#[cycle(value)]
#[tactic(auto, using(crate::proofs::Loops::object_begun, crate::proofs::Loops::object_flat, crate::proofs::Loops::object_shorter))]
pub fn read_object<'t, 'a: 't>(
    bump: &'t Bump,
    reader: &mut Reader<'a>,
    depth: usize,
    track: &mut Track,
) -> Result<&'t [(&'t str, Node<'t>)], NoValue>
    ensures value { IfOk result (λ m. next_value depth (spec.Token.begin_object ∷ reader.old)
        ≡ Some (object (members_view m.now), reader.new)) }
    ensures whole { IfOk result
        (λ m. IsNoted track.old.fraction track.new.fraction (object (members_view m.now))) }
    ensures unread { result ≡ Err NoValue.Unread
        → next_value depth (spec.Token.begin_object ∷ reader.old) ≡ None }
    ensures shorter { OnOk result (length reader.new < length reader.old) }
{
    if depth == 0 {
        return Err(NoValue::Unread);
    }
    let mut found = Vec::with_capacity(bump, track.members(depth))?;
    'members: while let Some(name) = reader.next_key()? {
        let member = read(bump, reader, depth - 1, track)?;
        found.push((name, member))?;
    }
    track.note_members(depth, found.len());
    Ok(in_order(bump, found)?)
}
