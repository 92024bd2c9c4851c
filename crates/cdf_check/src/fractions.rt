ghost use Rattle.std.specs.Prelude.{◌≡◌, IfOk};
ghost use Rattle.cdf_node.specs.View.{view, members_view};
ghost use Rattle.cdf_check.specs.Seen.{member_fraction, file_fraction};

use cdf_form::float::find_float;
use cdf_form::found::{Step, Stop};
use cdf_form::path::pointer;
use cdf_node::Node;
use cdf_types::{Body, Memory};
use std::alloc::Global;

// The path of the first number of a member that isn't whole.
fn member_fraction<'t>(
    alloc: Global,
    name: &'t str,
    member: &Node<'t>,
) -> Result<Option<Body>, Memory>
    ensures { IfOk result (λ path. path ≡ member_fraction name.now (view member.now)) }
{
    let Err(cause) = find_float(alloc, member) else {
        return Ok(None);
    };
    match cause.under(Step::Member(name)) {
        Stop::Memory(refused) => Err(refused),
        Stop::Fault(found) => Ok(Some(pointer(alloc, &found.path)?)),
    }
}

/// The path of the first number of a file that isn't whole, from the members of what is left beside
/// its records and from that of the records.
///
/// # Errors
/// `Memory` where a growth was refused.
pub(crate) fn file_fraction(
    alloc: Global,
    left: &[(&str, Node<'_>)],
    of_records: Option<Body>,
) -> Result<Option<Body>, Memory>
    ensures { IfOk result (λ path. path ≡ file_fraction (members_view left.now) of_records) }
{
    for member in left {
        if member.0 == "CVR" {
            if of_records.is_some() {
                return Ok(of_records);
            }
        } else if let Some(path) = member_fraction(alloc, member.0, &member.1)? {
            return Ok(Some(path));
        }
    }
    Ok(None)
}
