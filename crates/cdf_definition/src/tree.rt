ghost use Rattle.std.specs.Prelude.{◌≡◌, IfOk};
ghost use Rattle.std.specs.Bool.{OnTrue};
ghost use Rattle.serde_json.specs.View.{number_view};
ghost use Rattle.cdf_node.specs.View.{view, items_view, members_view};
ghost use Rattle.cdf_definition.specs.Tree.{owned, owned_items, owned_members};

use cdf_node::Node;
use serde_json::Number;
use std::alloc::{AllocError, Global};

/// A JSON value that owns its texts, so that it stays when the text that it was read from is gone.
#[derive(Drop)]
pub enum Tree {
    Null,
    Bool(bool),
    Number(Number),
    String(String),
    Array(Vec<Tree>),
    Object(Vec<(String, Tree)>),
}

impl Tree {
    /// The same value.
    ///
    /// # Errors
    /// An `AllocError` where a growth was refused.
    pub fn of_node(alloc: Global, node: &Node<'_>) -> Result<Tree, AllocError>
        ensures { IfOk result (λ tree. owned tree ≡ view node.now) }
    {
        own(alloc, node)
    }

    /// Whether a node is the same value. One with a number that isn't whole is none. Takes no
    /// memory.
    pub fn is_same(&self, node: &Node<'_>) -> bool
        ensures { OnTrue result (owned self.now ≡ view node.now) }
    {
        same(self, node)
    }
}

#[cycle(own)]
fn own(alloc: Global, node: &Node<'_>) -> Result<Tree, AllocError>
    ensures { IfOk result (λ tree. owned tree ≡ view node.now) }
{
    match node {
        Node::Null => Ok(Tree::Null),
        Node::Bool(truth) => Ok(Tree::Bool(*truth)),
        Node::Number(number) => Ok(Tree::Number(*number)),
        Node::String(text) => Ok(Tree::String(String::from_str(alloc, text)?)),
        Node::Array(items) => Ok(Tree::Array(own_items(alloc, items)?)),
        Node::Object(members) => Ok(Tree::Object(own_members(alloc, members)?)),
    }
}

#[cycle(own)]
fn own_items(alloc: Global, items: &[Node<'_>]) -> Result<Vec<Tree>, AllocError>
    ensures { IfOk result (λ trees. owned_items trees.items ≡ items_view items.now) }
{
    let mut trees = Vec::with_capacity(alloc, items.len())?;
    for item in items {
        trees.push(own(alloc, item)?)?;
    }
    Ok(trees)
}

#[cycle(own)]
fn own_members(
    alloc: Global,
    members: &[(&str, Node<'_>)],
) -> Result<Vec<(String, Tree)>, AllocError>
    ensures { IfOk result (λ trees. owned_members trees.items ≡ members_view members.now) }
{
    let mut trees = Vec::with_capacity(alloc, members.len())?;
    for member in members {
        let name = String::from_str(alloc, member.0)?;
        trees.push((name, own(alloc, &member.1)?))?;
    }
    Ok(trees)
}

#[cycle(same)]
fn same(tree: &Tree, node: &Node<'_>) -> bool
    ensures { OnTrue result (owned tree.now ≡ view node.now) }
{
    match (tree, node) {
        (Tree::Null, Node::Null) => true,
        (Tree::Bool(one), Node::Bool(other)) => *one == *other,
        (Tree::Number(one), Node::Number(other)) => is_same_whole(one, other),
        (Tree::String(one), Node::String(other)) => one.as_str() == *other,
        (Tree::Array(trees), Node::Array(items)) => same_items(trees, items),
        (Tree::Object(trees), Node::Object(members)) => same_members(trees, members),
        _ => false,
    }
}

#[cycle(same)]
fn same_items(trees: &[Tree], items: &[Node<'_>]) -> bool
    ensures { OnTrue result (owned_items trees.now ≡ items_view items.now) }
{
    if trees.len() != items.len() {
        return false;
    }
    for (place, tree) in trees.iter().enumerate() {
        if !same(tree, &items[place]) {
            return false;
        }
    }
    true
}

#[cycle(same)]
fn same_members(trees: &[(String, Tree)], members: &[(&str, Node<'_>)]) -> bool
    ensures { OnTrue result (owned_members trees.now ≡ members_view members.now) }
{
    if trees.len() != members.len() {
        return false;
    }
    for (place, tree) in trees.iter().enumerate() {
        let member = &members[place];
        if tree.0.as_str() != member.0 || !same(&tree.1, &member.1) {
            return false;
        }
    }
    true
}

// Whether both are the same whole number.
fn is_same_whole(one: &Number, other: &Number) -> bool
    ensures { OnTrue result (number_view one.now ≡ number_view other.now) }
{
    match (one.as_u64(), other.as_u64()) {
        (Some(m), Some(n)) => m == n,
        (None, None) => match (one.as_i64(), other.as_i64()) {
            (Some(m), Some(n)) => m == n,
            _ => false,
        },
        _ => false,
    }
}
