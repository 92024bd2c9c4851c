//! What stands at the place of a fault.
use cdf_node::Node;

// What is left of a step of a JSON Pointer (RFC 6901) behind a byte of a name, with which the step
// has to begin.
fn left_behind(step: &[u8], byte: u8) -> Option<&[u8]> {
    match (byte, step) {
        (b'~', [b'~', b'0', rest @ ..]) => Some(rest),
        (b'/', [b'~', b'1', rest @ ..]) => Some(rest),
        (b'~' | b'/', _) => None,
        (_, [first, rest @ ..]) if *first == byte => Some(rest),
        _ => None,
    }
}

// Whether a step of a JSON Pointer is this name.
fn spells(step: &str, name: &str) -> bool {
    let mut left = step.as_bytes();
    for byte in name.as_bytes() {
        match left_behind(left, *byte) {
            Some(rest) => left = rest,
            None => return false,
        }
    }
    left.is_empty()
}

// The member or the item of a value to which a step leads.
fn part<'t>(value: Node<'t>, step: &str) -> Option<Node<'t>> {
    match value {
        Node::Array(items) => Some(*items.get(step.parse::<usize>().ok()?)?),
        Node::Object(members) => {
            let (_, member) = members.iter().find(|(name, _)| spells(step, name))?;
            Some(*member)
        }
        _ => None,
    }
}

/// The part of a value to which a JSON Pointer (RFC 6901) leads.
pub fn pointed<'t>(value: Node<'t>, path: &str) -> Option<Node<'t>> {
    let mut found = value;
    for step in path.split('/').skip(1) {
        found = part(found, step)?;
    }
    Some(found)
}

/// The cast vote record of a report in which a path lies.
pub fn record_of<'t>(report: Node<'t>, path: &str) -> Option<Node<'t>> {
    let place = path.strip_prefix("/CVR/")?;
    let place = match place.split_once('/') {
        Some((place, _)) => place,
        None => place,
    };
    part(*report.get("CVR")?, place)
}
