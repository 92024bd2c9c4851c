ghost use Rattle.std.specs.Prelude.{◌≡◌, option_map, map, bytes_eq, IfOk, IfErr, OnOk, Some, None};
ghost use Rattle.std.specs.List.{list_any};
ghost use Rattle.serde_json.specs.View.{number_view};
ghost use Rattle.cdf_node.specs.View.{view};
ghost use Rattle.cdf_form.specs.Tables.{listed_in};
ghost use Rattle.cdf_form.specs.Form.{first, leaf_faults, here, is_moment, is_count, IsNoObject};
ghost use Rattle.cdf_form.specs.Form.{find_class, class_in};
ghost use Rattle.cdf_form.specs.Found.{StopsAt};

use crate::found::{Step, Stop};
use crate::table::{Class, Group, Leaf, Listing, class_text, classes, texts};
use cdf_node::Node;
use cdf_types::Rule;
use jiff::Timestamp;
use serde_json::Number;
use std::alloc::Global;

fn is_moment(text: &str) -> bool
    ensures { result ≡ is_moment text.now }
{
    text.parse::<Timestamp>().is_ok() && !text.as_bytes().contains(&b'[')
}

fn is_count(number: &Number) -> bool
    ensures { result ≡ is_count (number_view number.now) }
{
    match number.as_u64() {
        Some(n) => n <= 4_294_967_295,
        None => false,
    }
}

fn is_listed(listing: Listing, text: &str) -> bool
    ensures { result ≡ list_any (bytes_eq text.now) (listed_in listing) }
{
    is_among(texts(listing), text)
}

fn is_among(texts: &[&str], text: &str) -> bool
    ensures { result ≡ list_any (λ t. bytes_eq text.now t.now) texts.now }
{
    for listed in texts {
        if text == *listed {
            return true;
        }
    }
    false
}

/// The first of the classes that has this text at `@type`. Takes no memory.
pub fn find_class(among: &[Class], text: &str) -> Option<Class>
    ensures { result ≡ find_class among.now text.now }
{
    among
        .iter()
        .copied()
        .find(|class| text == class_text(*class))
}

/// The class that an object has at `@type`.
///
/// # Errors
/// `NotObject` at the value; at `@type` `Missing`, `WrongKind` where it is no text, `WrongClass`
/// where it is no class of the group. `Memory` where a growth was refused.
pub fn class_of<'f>(alloc: Global, group: Group, value: &Node<'_>) -> Result<Class, Stop<'f>>
    ensures ok { OnOk result (first (leaf_faults (Leaf.Object group) (view value.now)) ≡ None) }
    ensures class { IfOk result (λ class. class_in group (view value.now) ≡ Some class) }
    ensures fault { IfErr result (λ s.
        StopsAt s (first (leaf_faults (Leaf.Object group) (view value.now)))) }
{
    if !value.is_object() {
        return Err(Stop::at(alloc, Rule::NotObject));
    }
    let rule = match value.get("@type") {
        None => Rule::Missing,
        Some(named) => match named.as_str() {
            None => Rule::WrongKind,
            Some(text) => match find_class(classes(group), text) {
                None => Rule::WrongClass,
                Some(class) => return Ok(class),
            },
        },
    };
    Err(Stop::at(alloc, rule).under(Step::Member("@type")))
}

/// The rule that a value breaks, where it is to be no object. Takes no memory.
pub fn plain_rule(value: &Node<'_>, leaf: Leaf) -> Option<Rule>
    requires { IsNoObject leaf }
    ensures { option_map here result ≡ first (leaf_faults leaf (view value.now)) }
{
    match leaf {
        Leaf::Text => match value.as_str() {
            None => Some(Rule::WrongKind),
            Some(_) => None,
        },
        Leaf::Name => match value.as_str() {
            None => Some(Rule::WrongKind),
            Some(text) => if text.is_empty() {
                Some(Rule::EmptyText)
            } else {
                None
            },
        },
        Leaf::Count => match value.as_number() {
            None => Some(Rule::WrongKind),
            Some(number) => if is_count(number) {
                None
            } else {
                Some(Rule::OutOfRange)
            },
        },
        Leaf::Whole => match value.as_number() {
            None => Some(Rule::WrongKind),
            Some(_) => None,
        },
        Leaf::Truth => match value.as_bool() {
            None => Some(Rule::WrongKind),
            Some(_) => None,
        },
        Leaf::Moment => match value.as_str() {
            None => Some(Rule::WrongKind),
            Some(text) => if is_moment(text) {
                None
            } else {
                Some(Rule::NotMoment)
            },
        },
        Leaf::Fractional => Some(Rule::Fractional),
        Leaf::Listed(listing) => match value.as_str() {
            None => Some(Rule::WrongKind),
            Some(text) => if is_listed(listing, text) {
                None
            } else {
                Some(Rule::NotListed)
            },
        },
        Leaf::Object(_) => unreachable!(),
    }
}
