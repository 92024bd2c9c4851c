ghost use Rattle.std.specs.Prelude.{◌≡◌, ◌<◌, IfOk};
ghost use Rattle.cvr_run.specs.ListedPaths.{end_of, parts_at};

use cdf_types::{Body, Memory, Seq};
use std::alloc::Global;

// A copy of a path.
fn path_of(alloc: Global, path: &str) -> Result<Body, Memory>
    ensures { IfOk result (λ body. body ≡ path.now) }
{
    Ok(Body::new(String::from_str(alloc, path)?))
}

// What ends a path of a list.
fn end_byte(by_null: bool) -> char
    ensures end { result ≡ end_of by_null }
    ensures ascii { result < 128 }
{
    if by_null { '\0' } else { '\n' }
}

/// The paths of a list, in order: each stands before a line feed, or before a NUL byte; what stands
/// after the last one is a path too, unless it is empty.
///
/// # Errors
/// `Memory` where a growth was refused.
pub fn read_paths(alloc: Global, text: &str, by_null: bool) -> Result<Seq<Body>, Memory>
    ensures { IfOk result (λ paths. paths ≡ parts_at (end_of by_null) text.now) }
{
    let end = end_byte(by_null);
    let mut paths = Seq::empty(alloc);
    let mut rest = text;
    'ends: while let Some((path, more)) = rest.split_once(end) {
        paths.push(path_of(alloc, path)?)?;
        rest = more;
    }
    if !rest.is_empty() {
        paths.push(path_of(alloc, rest)?)?;
    }
    Ok(paths)
}
