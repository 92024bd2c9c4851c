// Ids as JSON strings.
ghost use Rattle.std.specs.Prelude.{◌≡◌, ◌++◌, OnOk};
ghost use Rattle.std.specs.List.{list_all};
ghost use Rattle.json.specs.Print.{quoted};
ghost use Rattle.cvr_report.specs.Unescaped.{is_unescaped_byte};

use cdf_types::Memory;
use cvr_fact_types::text::push_quoted;
use std::alloc::Global;

fn is_unescaped_byte(byte: u8) -> bool
    ensures { result ≡ is_unescaped_byte byte }
{
    0x20 <= byte && byte != b'"' && byte != b'\\'
}

// Whether no byte of a text is escaped in a JSON string.
fn is_unescaped(bytes: &[u8]) -> bool
    ensures { result ≡ list_all is_unescaped_byte bytes.now }
{
    bytes.iter().all(|byte| is_unescaped_byte(*byte))
}

// Adds an id as a JSON string (RFC 8259), with its quotes; as it stands, where nothing of it is
// escaped.
pub(crate) fn push_id(alloc: Global, out: &mut Vec<u8>, id: &str) -> Result<(), Memory>
    ensures { OnOk result (out.new.items ≡ out.old.items ++ quoted id.now) }
{
    let bytes = id.as_bytes();
    if !is_unescaped(bytes) {
        return push_quoted(alloc, out, id);
    }
    out.extend_from_slice(b"\"")?;
    out.extend_from_slice(bytes)?;
    out.extend_from_slice(b"\"")?;
    Ok(())
}
