ghost use Rattle.std.specs.Prelude.{◌≡◌, ℕ, List, [], ◌∷◌, ◌++◌, OnOk};
ghost use Rattle.json.specs.Token.{number};
ghost use Rattle.serde_json.specs.Data.{array, object};
ghost use Rattle.serde_json.specs.Written.{number_text, unless_float};
ghost use Rattle.cdf_node.specs.View.{view, number_view, items_view, members_view};
ghost use Rattle.cdf_node.specs.Written.{WritesValue};

use crate::node::Node;
use json::Writer;
use serde_json::Number;
use std::alloc::AllocError;

// A value, with no space in it.
#[cycle(write)]
pub fn write_value(node: &Node<'_>, out: &mut Writer) -> Result<(), AllocError>
    ensures ok { OnOk result (WritesValue (view node.now) out.old.tokens out.new.tokens) }
    ensures before { out.new.before ≡ out.old.before }
{
    match node {
        Node::Null => out.null(),
        Node::Bool(truth) => out.boolean(*truth),
        Node::Number(n) => write_number(n, out),
        Node::String(text) => out.string(text),
        Node::Array(items) => write_items(items, out),
        Node::Object(members) => write_members(members, out),
    }
}

#[cycle(write)]
fn write_items(items: &[Node<'_>], out: &mut Writer) -> Result<(), AllocError>
    ensures ok { OnOk result
        (WritesValue (array (items_view items.now)) out.old.tokens out.new.tokens) }
    ensures before { out.new.before ≡ out.old.before }
{
    out.begin_array()?;
    'items: for item in items {
        write_value(item, out)?;
    }
    out.end_array()
}

#[cycle(write)]
fn write_members(members: &[(&str, Node<'_>)], out: &mut Writer) -> Result<(), AllocError>
    ensures ok { OnOk result
        (WritesValue (object (members_view members.now)) out.old.tokens out.new.tokens) }
    ensures before { out.new.before ≡ out.old.before }
{
    out.begin_object()?;
    'members: for member in members {
        out.key(member.0)?;
        write_value(&member.1, out)?;
    }
    out.end_object()
}

// Digits, where it is whole.
fn write_number(n: &Number, out: &mut Writer) -> Result<(), AllocError>
    ensures ok { OnOk result ((s : List ℕ)
        × (out.new.tokens ≡ out.old.tokens ++ number s ∷ [])
        × (unless_float s ≡ number_text (number_view n.now))) }
    ensures before { out.new.before ≡ out.old.before }
{
    if let Some(whole) = n.as_u64() {
        return out.u64(whole);
    }
    if let Some(whole) = n.as_i64() {
        return out.i64(whole);
    }
    let Some(fraction) = n.as_f64() else {
        unreachable!()
    };
    out.float_with_plus(fraction)
}
