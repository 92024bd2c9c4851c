ghost use Rattle.std.specs.Prelude.{◌≡◌, IfOk};

use cdf_types::{Body, Memory};
use std::alloc::Global;

/// A copy of a text.
pub(crate) fn body(alloc: Global, text: &str) -> Result<Body, Memory>
    ensures { IfOk result (λ b. b ≡ text.now) }
{
    Ok(Body::new(String::from_str(alloc, text)?))
}
