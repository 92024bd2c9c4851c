use crate::words::Kind;
use serde::{Deserialize, Deserializer, Format};
use std::alloc::Global;

// A value of which nothing is kept.
#[derive(Drop)]
struct Passed;

impl<'de> Deserialize<'de> for Passed {
    fn deserialize<F: Format>(
        _alloc: Global,
        from: &mut Deserializer<'de, '_, F>,
    ) -> Result<Passed, F::Error> {
        from.skip()?;
        Ok(Passed)
    }
}

// The records of a report, which is all that notes need of it.
#[derive(Drop, Deserialize)]
struct Records {
    #[serde(rename = "CVR", default)]
    records: Vec<Passed>,
}

/// How many cast vote records a report has, as serde_json reads it. Nothing is kept of a record.
pub fn count_records(alloc: Global, bytes: &[u8]) -> usize {
    match serde_json::from_slice::<Records>(alloc, bytes) {
        Ok(found) => found.records.len(),
        Err(_) => 0,
    }
}

/// Where a text stops being JSON: line and byte, counted from 1.
#[derive(Clone, Copy, Drop)]
pub struct Flaw {
    pub line: usize,
    pub column: usize,
}

// The most bytes of a file that are looked at for the signs of a table.
const HEAD: usize = 4096;

// Whether the first line has a sign that separates columns.
fn is_table(bytes: &[u8]) -> bool {
    for byte in bytes.iter().take(HEAD) {
        match byte {
            b',' | b';' | b'\t' => return true,
            b'\n' | 0 => return false,
            _ => {}
        }
    }
    false
}

// What a file that is no JSON seems to be, by its first bytes. JSON ends in it or is cut off.
fn seeming(bytes: &[u8], is_cut: bool) -> Kind {
    match bytes {
        [b'P', b'K', 3, 4, ..] => Kind::Zip,
        [0x1f, 0x8b, ..] => Kind::Gzip,
        [b'%', b'P', b'D', b'F', ..] => Kind::Pdf,
        [0xef, 0xbb, 0xbf, ..] => Kind::Mark,
        [0xff, 0xfe, ..] | [0xfe, 0xff, ..] => Kind::Utf16,
        [b'{' | b'[', 0, ..] | [0, b'{' | b'[', ..] => Kind::Utf16,
        _ => match bytes.trim_ascii_start() {
            [] => Kind::Nothing,
            [b'{' | b'[', ..] if is_cut => Kind::Cut,
            [b'{' | b'[', ..] => Kind::Damaged,
            [b'<', ..] => Kind::Xml,
            _ if is_table(bytes) => Kind::Table,
            _ => Kind::Unknown,
        },
    }
}

/// What a file seems to be that was refused as no JSON, and where it stops being JSON, if
/// serde_json doesn't read it. None where memory is refused.
pub fn see(alloc: Global, bytes: &[u8]) -> Option<(Kind, Option<Flaw>)> {
    match serde_json::from_slice::<Passed>(alloc, bytes) {
        Ok(_) => Some((Kind::Strange, None)),
        Err(fault) if fault.is_memory() => None,
        Err(fault) => {
            let flaw = Flaw {
                line: fault.line(),
                column: fault.column(),
            };
            Some((seeming(bytes, fault.is_eof()), Some(flaw)))
        }
    }
}
