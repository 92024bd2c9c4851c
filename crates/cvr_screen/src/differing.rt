//! Where an object differs from that of the definition.
use cdf_form::found::{Path, Step};
use cdf_form::path::pointer;
use cdf_node::Node;
use cdf_types::Body;
use std::alloc::{AllocError, Global};

// How deep arrays and objects nest at most.
const MAX_DEPTH: usize = 127;

/// The first place in which two values differ, and what stands there in each.
#[derive(Drop)]
pub struct Difference<'t> {
    // From the values to the place.
    steps: Vec<Step<'t>>,
    pub one: Option<Node<'t>>,
    pub other: Option<Node<'t>>,
}

impl<'t> Difference<'t> {
    /// The JSON Pointer (RFC 6901) of the place, in the values.
    pub fn path(self, alloc: Global) -> Result<Body, AllocError> {
        let Difference { mut steps, .. } = self;
        steps.as_mut_slice().reverse();
        pointer(alloc, &Path { steps })
    }
}

// Whether two values have one text.
fn is_same(
    alloc: Global,
    one: Option<&Node<'_>>,
    other: Option<&Node<'_>>,
) -> Result<bool, AllocError> {
    match (one, other) {
        (Some(one), Some(other)) => {
            let (one, other) = (one.to_string(alloc)?, other.to_string(alloc)?);
            Ok(one.as_str() == other.as_str())
        }
        (None, None) => Ok(true),
        _ => Ok(false),
    }
}

// The first name of an object whose value another object hasn't.
fn first_name<'t>(
    alloc: Global,
    one: &'t [(&'t str, Node<'t>)],
    other: &Node<'t>,
) -> Result<Option<&'t str>, AllocError> {
    for member in one {
        if !is_same(alloc, Some(&member.1), other.get(member.0))? {
            return Ok(Some(member.0));
        }
    }
    Ok(None)
}

// The lesser of two names, where there are two.
fn lesser<'t>(one: Option<&'t str>, other: Option<&'t str>) -> Option<&'t str> {
    match (one, other) {
        (Some(name), Some(next)) if next < name => other,
        (Some(_), _) => one,
        (None, _) => other,
    }
}

// The first place of an array at which another array hasn't the same item.
fn first_place(
    alloc: Global,
    one: &[Node<'_>],
    other: &[Node<'_>],
) -> Result<Option<usize>, AllocError> {
    for place in 0..one.len().max(other.len()) {
        if !is_same(alloc, one.get(place), other.get(place))? {
            return Ok(Some(place));
        }
    }
    Ok(None)
}

// The step to the first part in which two values differ; none of what has no parts.
fn first_step<'t>(
    alloc: Global,
    one: Node<'t>,
    other: Node<'t>,
) -> Result<Option<Step<'t>>, AllocError> {
    match (one, other) {
        (Node::Array(items), Node::Array(others)) => match first_place(alloc, items, others)? {
            Some(place) => Ok(Some(Step::Item(place))),
            None => Ok(None),
        },
        (Node::Object(members), Node::Object(others)) => {
            let here = first_name(alloc, members, &other)?;
            match lesser(here, first_name(alloc, others, &one)?) {
                Some(name) => Ok(Some(Step::Member(name))),
                None => Ok(None),
            }
        }
        _ => Ok(None),
    }
}

// What stands at a step from a value.
fn behind<'t>(value: Node<'t>, step: Step<'t>) -> Option<Node<'t>> {
    match step {
        Step::Member(name) => value.get(name).copied(),
        Step::Item(place) => value.as_array()?.get(place).copied(),
    }
}

/// Where two values differ first, by the names of members in the order of their bytes.
///
/// # Errors
/// An `AllocError` where a growth was refused.
pub fn first_difference<'t>(
    alloc: Global,
    one: Node<'t>,
    other: Node<'t>,
) -> Result<Difference<'t>, AllocError> {
    let mut found = Difference {
        steps: Vec::new(alloc),
        one: Some(one),
        other: Some(other),
    };
    for _ in 0..MAX_DEPTH {
        let (Some(one), Some(other)) = (found.one, found.other) else {
            break;
        };
        let Some(step) = first_step(alloc, one, other)? else {
            break;
        };
        found.steps.push(step)?;
        found.one = behind(one, step);
        found.other = behind(other, step);
    }
    Ok(found)
}
