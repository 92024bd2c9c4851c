// A pass over compact text.
ghost use Rattle.std.specs.Prelude.{◌≡◌, ◌≢◌, ◌+◌, ◌<◌, ◌≤◌, ℕ, length, drop, slice_index};
ghost use Rattle.cvr_report.specs.Scan.{Between, InString, next_depth, stops, left_after};
ghost use Rattle.cvr_report.specs.Scan.{is_before};
ghost use Rattle.cvr_report.specs.Scan.{before_escaped, start_of, HasNoEscape};
ghost use Rattle.cvr_report.specs.Record.{IsCut};

// The depth of brackets after a byte that stands between strings.
fn depth_after(depth: usize, byte: u8) -> usize
    requires { depth + 1 < 18446744073709551616 }
    ensures value { result ≡ next_depth Between depth byte }
    ensures within { result ≤ depth + 1 }
{
    if byte == b'[' || byte == b'{' {
        depth + 1
    } else if byte == b']' || byte == b'}' {
        depth.saturating_sub(1)
    } else {
        depth
    }
}

// Whether a byte that stands between strings ends a member.
fn stops_at(depth: usize, byte: u8) -> bool
    ensures { result ≡ stops Between depth byte }
{
    depth == 0 && (byte == b',' || byte == b'}')
}

// The place after what stands at `at` within a string: one byte, or a backslash and the byte that
// it escapes.
fn byte_end(text: &[u8], at: usize) -> usize
    requires inside { at < length text.now }
    requires open { slice_index text.now at ≢ 34 }
    ensures rest { (depth : ℕ) → left_after InString depth (drop at text.now)
        ≡ left_after InString depth (drop result text.now) }
    ensures above { at < result }
    ensures within { result ≤ length text.now }
{
    if text[at] == b'\\' {
        (at + 2).min(text.len())
    } else {
        at + 1
    }
}

// The place after the string that goes on at `from`.
fn string_end(text: &[u8], from: usize) -> usize
    requires { from ≤ length text.now }
    ensures rest { (depth : ℕ) → left_after InString depth (drop from text.now)
        ≡ left_after Between depth (drop result text.now) }
    ensures above { from ≤ result }
    ensures within { result ≤ length text.now }
{
    let mut at = from;
    'bytes: while at < text.len() {
        if text[at] == b'"' {
            return at + 1;
        }
        at = byte_end(text, at);
    }
    at
}

// The place where the member ends that goes on at `from`, within its name. A string is skipped
// whole.
fn member_end(text: &[u8], from: usize) -> usize
    requires { from ≤ length text.now }
    ensures rest { drop result text.now ≡ left_after InString 0 (drop from text.now) }
    ensures above { from ≤ result }
    ensures within { result ≤ length text.now }
{
    let mut at = string_end(text, from);
    let mut depth = 0;
    'bytes: while at < text.len() {
        let byte = text[at];
        if stops_at(depth, byte) {
            return at;
        }
        if byte == b'"' {
            at = string_end(text, at + 1);
        } else {
            depth = depth_after(depth, byte);
            at += 1;
        }
    }
    at
}

// Whether the name that stands escaped at `from` in the text is before a plain name.
fn stands_before(text: &[u8], from: usize, name: &[u8]) -> bool
    requires { from ≤ length text.now }
    ensures { result ≡ is_before (drop from text.now) name.now }
{
    let mut at = from;
    let mut matched = 0;
    'bytes: while matched < name.len() && at < text.len() {
        let byte = text[at];
        if byte == b'"' {
            return true;
        }
        if byte == b'\\' {
            return escape_is_before(text, at + 1, name[matched]);
        }
        if byte != name[matched] {
            return byte < name[matched];
        }
        at += 1;
        matched += 1;
    }
    false
}

fn escape_is_before(text: &[u8], at: usize, byte: u8) -> bool
    requires { at ≤ length text.now }
    ensures { result ≡ before_escaped (drop at text.now) byte }
{
    if at < text.len() && text[at] == b'\\' {
        b'\\' < byte
    } else {
        true
    }
}

fn name_start(text: &[u8], at: usize) -> usize
    requires { at < length text.now }
    ensures { result ≡ start_of text.now at }
{
    if text[at] == b',' { at + 2 } else { at + 1 }
}

// The place where the members from a name on begin, in the compact text of an object whose members
// go on at `from`.
pub(crate) fn cut(text: &[u8], from: usize, name: &[u8]) -> usize
    requires within { from ≤ length text.now }
    requires plain { HasNoEscape name.now }
    ensures cut { IsCut text.now from name.now result }
    ensures above { from ≤ result }
    ensures within { result ≤ length text.now }
{
    let mut at = from;
    'members: while at < text.len() {
        if text[at] == b'}' {
            return at;
        }
        let start = name_start(text, at);
        if start > text.len() {
            return at;
        }
        if !stands_before(text, start, name) {
            return at;
        }
        at = member_end(text, start);
    }
    at
}
