ghost use Rattle.std.specs.Prelude.{◌≡◌, ◌≢◌, ℕ, List, [], ◌∷◌, codes, map, true, false, IfSome};
ghost use Rattle.std.specs.Prelude.{IfNone, string_bytes};
ghost use Rattle.std.specs.Str.{str_eq_ignore_ascii_case};
ghost use Rattle.cvr_run.specs.ListedPaths.{parts_at};
ghost use Rattle.cvr_run.specs.Code.{code_name};
ghost use Rattle.cvr_run.specs.Explained.{AsksCode, AsksUse, Explains, code_of, first_code};
ghost use Rattle.cvr_run.specs.Explained.{parts_of};

use crate::answering::log_refused;
use crate::code::{Code, all_codes, explain_use, no_code};
use crate::own_words::print_own;
use crate::status::Status;
use cdf_types::Sink;

// No words, where these are the word `explain` alone.
fn explained_alone(words: &[String]) -> Option<&[String]>
    ensures some { IfSome result (λ none. (map string_bytes words.now ≡ codes "explain" ∷ [])
        × (none.now ≡ [])) }
    ensures none { IfNone result (map string_bytes words.now ≢ codes "explain" ∷ []) }
{
    let (word, none) = words.split_first()?;
    match word.as_str() {
        "explain" if none.is_empty() => Some(none),
        _ => None,
    }
}

/// What the words ask the meaning of: those behind `explain`; none where they are `help explain`.
/// Takes no memory.
pub fn asked_code<'a>(words: &'a [String]) -> Option<&'a [String]>
    ensures some { IfSome result
        (λ asked. AsksCode (map string_bytes words.now) (map string_bytes asked.now)) }
    ensures none { IfNone result
        ((asked : List (List ℕ)) → ¬ AsksCode (map string_bytes words.now) asked) }
{
    let (first, asked) = words.split_first()?;
    match first.as_str() {
        "explain" => Some(asked),
        "help" => explained_alone(asked),
        _ => None,
    }
}

// Whether a code has this name, capitals or not.
fn is_name(name: &str, code: Code) -> bool
    ensures { result ≡ str_eq_ignore_ascii_case name.now (code_name code) }
{
    name.eq_ignore_ascii_case(code.name())
}

// The code of this name.
fn code_of(name: &str) -> Option<Code>
    ensures { result ≡ code_of name.now }
{
    all_codes()
        .iter()
        .copied()
        .find(|code| is_name(name, *code))
}

// The first code that a part of the word names.
fn code_in(word: &str) -> Option<Code>
    ensures { result ≡ first_code (parts_at 32 word.now) }
{
    let mut rest = word;
    'parts: while let Some((part, more)) = rest.split_once(' ') {
        if let Some(code) = code_of(part) {
            return Some(code);
        }
        rest = more;
    }
    code_of(rest)
}

// The first code that a part of what is asked names.
fn first_code(asked: &[String]) -> Option<Code>
    ensures { result ≡ first_code (parts_of (map string_bytes asked.now)) }
{
    let mut rest = asked;
    'words: while let Some((word, more)) = rest.split_first() {
        if let Some(code) = code_in(word.as_str()) {
            return Some(code);
        }
        rest = more;
    }
    None
}

// Whether `explain` itself is asked for.
fn asks_use(asked: &[String]) -> bool
    ensures yes { result ≡ true → AsksUse (map string_bytes asked.now) }
    ensures no { result ≡ false → ¬ AsksUse (map string_bytes asked.now) }
{
    match asked {
        [] => true,
        [word] => match word.as_str() {
            "-h" | "--help" => true,
            _ => false,
        },
        _ => false,
    }
}

/// Prints what the first code means that is named in what is asked, or the words that `explain`
/// takes; or reports that no code is named. Takes no memory.
pub fn explain<W: Sink, L: Sink>(asked: &[String], out: &mut W, log: &mut L) -> Status
    requires { (W.taken out.old).failed ≡ false }
    ensures { Explains (map string_bytes asked.now) result
        (record { out = W.taken out.old; log = L.taken log.old })
        (record { out = W.taken out.new; log = L.taken log.new })
        (out.new ≡ out.old) }
{
    if let Some(code) = first_code(asked) {
        return print_own(code.text(), out, log);
    }
    if asks_use(asked) {
        return print_own(explain_use(), out, log);
    }
    log_refused(log, no_code());
    Status::CommandLine
}
