ghost use Rattle.std.specs.Prelude.{◌≡◌, Err, None, Some, IfOk, option_map};
ghost use Rattle.serde_json.specs.Read.{read as read_data};
ghost use Rattle.cdf_node.specs.Next.{next_last};
ghost use Rattle.cdf_node.specs.View.{view};

use crate::no_value::NoValue;
use crate::node::Node;
use crate::track::Track;
use crate::value::read;
use bumpalo::Bump;
use json::{Reader, Scratch};
use std::alloc::AllocError;

// The value that the tokens are, with nothing behind it.
fn read_whole<'t, 'a: 't>(
    bump: &'t Bump,
    reader: &mut Reader<'a>,
    depth: usize,
) -> Result<Node<'t>, NoValue>
    ensures value { IfOk result (λ v. next_last depth reader.old ≡ Some (view v)) }
    ensures unread { result ≡ Err NoValue.Unread → next_last depth reader.old ≡ None }
{
    let value = read(bump, reader, depth, &mut Track::new())?;
    if reader.next().is_some() {
        return Err(NoValue::Unread);
    }
    Ok(value)
}

// How deep serde_json lets arrays and objects nest.
const MAX_DEPTH: usize = 127;

/// The value that a text is, as serde_json reads it; None where it reads none. It stands in the
/// arena, with texts of `text` and of `scratch`, which grows to the text's length.
///
/// # Errors
/// An `AllocError` where a growth was refused.
pub fn read_text<'t>(
    bump: &'t Bump,
    text: &'t str,
    scratch: &'t mut Scratch,
) -> Result<Option<Node<'t>>, AllocError>
    ensures { IfOk result (λ found. option_map view found ≡ read_data text.now) }
{
    let mut reader = Reader::new(text, scratch)?;
    match read_whole(bump, &mut reader, MAX_DEPTH) {
        Ok(value) => Ok(Some(value)),
        Err(NoValue::Unread) => Ok(None),
        Err(NoValue::Memory) => Err(AllocError),
    }
}
