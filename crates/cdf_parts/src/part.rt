ghost use Rattle.std.specs.Prelude.{◌≡◌, map, option_map, option_and_then, IfOk};
ghost use Rattle.serde_json.specs.Find.{get, as_array};
ghost use Rattle.cdf_node.specs.View.{view, items_view};
ghost use Rattle.cdf_parts.specs.Parts.{text_at, text_in, array_at, instant_of, the_election};
ghost use Rattle.cdf_parts.specs.Ids.{bytes_of};

use cdf_node::Node;
use cdf_types::Memory;
use jiff::Timestamp;
use std::alloc::Global;

/// The text under a name of an object, if there is one. Takes no memory.
pub fn text_in<'t>(name: &str, value: &Node<'t>) -> Option<&'t str>
    ensures { option_map (λ s. s.now) result ≡ text_in name.now (view value.now) }
{
    value.get(name)?.as_str()
}

/// The text under a name of an object, or the empty one. Takes no memory.
pub fn text_at<'t>(name: &str, value: &Node<'t>) -> &'t str
    ensures { result.now ≡ text_at name.now (view value.now) }
{
    text_in(name, value).unwrap_or("")
}

// The items of the array under a name of an object, if there is one.
fn items_in<'t>(name: &str, value: &Node<'t>) -> Option<&'t [Node<'t>]>
    ensures { option_map (λ v. items_view v.now) result
        ≡ option_and_then as_array (get name.now (view value.now)) }
{
    value.get(name)?.as_array()
}

/// The items of the array under a name of an object, or none. Takes no memory.
pub fn items_at<'t>(name: &str, value: &Node<'t>) -> &'t [Node<'t>]
    ensures { map view result.now ≡ array_at name.now (view value.now) }
{
    items_in(name, value).unwrap_or_default()
}

// A report's election, or null.
fn election<'t>(report: &Node<'t>) -> Node<'t>
    ensures { view result ≡ the_election (view report.now) }
{
    items_at("Election", report)
        .first()
        .copied()
        .unwrap_or(Node::Null)
}

/// The items of the array under a name of a report's election, or none. Takes no memory.
pub fn election_items<'t>(name: &str, report: &Node<'t>) -> &'t [Node<'t>]
    ensures { map view result.now ≡ array_at name.now (the_election (view report.now)) }
{
    items_at(name, &election(report))
}

/// The instant of a date-time text with an offset, as `jiff` reads it: nanoseconds since
/// 1970-01-01T00:00:00Z. Takes no memory.
pub fn instant(text: &str) -> Option<i128>
    ensures { result ≡ instant_of text.now }
{
    match text.parse::<Timestamp>() {
        Ok(moment) => Some(moment.as_nanosecond()),
        Err(_) => None,
    }
}

/// Equal texts, in order.
///
/// # Errors
/// `Memory` where a growth was refused.
pub fn copy_texts(alloc: Global, texts: &[String]) -> Result<Vec<String>, Memory>
    ensures { IfOk result (λ copies. bytes_of copies.items ≡ bytes_of texts.now) }
{
    let mut copies = Vec::with_capacity(alloc, texts.len())?;
    for text in texts {
        copies.push(String::from_str(alloc, text.as_str())?)?;
    }
    Ok(copies)
}
