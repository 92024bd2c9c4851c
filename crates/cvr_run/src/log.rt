ghost use Rattle.std.specs.Prelude.{◌≡◌, ℕ, ◌≤◌, List, [], ◌∷◌, ◌++◌, length, false, OnOk, OnErr};
ghost use Rattle.std.specs.Prelude.{IfSome, IsOk};
ghost use Rattle.std.specs.List.{flat_map};
ghost use Rattle.json.specs.Print.{escape};
ghost use Rattle.cdf_types.specs.declared.fault.ReadFault.TheVariants.{Schema};
ghost use Rattle.cvr_run.specs.Log.{fault_line, cause_line, memory_line, has_path, has_path_in};
ghost use Rattle.cvr_run.specs.Log.{Logs};

use arrayvec::ArrayVec;
use cdf_types::{Body, Memory, ReadFault, Rule, Sink, write_all};
use cvr_fact_types::text::quoted;
use cvr_office::{Cause, JoinFault};
use itoa::Buffer;
use std::alloc::Global;

// The longest line that is written at once.
const LINE: usize = 4096;

// The pieces as one line, if it isn't longer than that. Takes no memory.
fn one_line(pieces: &[&[u8]]) -> Option<ArrayVec<u8, LINE>>
    ensures { IfSome result (λ line. line.items ≡ flat_map (λ p. p.now) pieces.now) }
{
    let mut line = ArrayVec::new();
    for piece in pieces {
        if line.try_extend_from_slice(piece).is_err() {
            return None;
        }
    }
    Some(line)
}

// Writes pieces, one after the other, unless the log has failed.
fn say_pieces<L: Sink>(log: &mut L, pieces: &[&[u8]])
    ensures { Logs (L.taken log.old) (L.taken log.new) (flat_map (λ p. p.now) pieces.now) }
{
    if log.failed() {
        return;
    }
    for piece in pieces {
        if write_all(log, piece).is_err() {
            return;
        }
    }
}

/// Writes a line to the log, unless the log has failed: at once, so that no other program's line
/// stands in it, or in pieces where it has more than 4,096 bytes. A log that fails gets a prefix of
/// it. Takes no memory.
pub fn say<L: Sink>(log: &mut L, pieces: &[&[u8]])
    ensures { Logs (L.taken log.old) (L.taken log.new) (flat_map (λ p. p.now) pieces.now) }
{
    match one_line(pieces) {
        Some(line) => say_pieces(log, &[line.as_slice()]),
        None => say_pieces(log, pieces),
    }
}

/// Logs that memory ran out. Takes no memory.
pub fn say_memory<L: Sink>(log: &mut L)
    ensures { Logs (L.taken log.old) (L.taken log.new) memory_line }
{
    say(log, &[b"memory\n"]);
}

// What stands between the first byte and the last.
fn inner(text: &[u8]) -> &[u8]
    requires { 2 ≤ length text.now }
    ensures { (within : List ℕ) (a b : ℕ) → text.now ≡ a ∷ (within ++ b ∷ [])
        → result.now ≡ within }
{
    &text[1..text.len() - 1]
}

// Reports in the log a file that was refused by a rule at a path, as `log_fault` does.
#[tactic(auto, using(crate::proofs::Pieces::end_of_rule))]
fn log_rule<L: Sink>(
    alloc: Global,
    log: &mut L,
    what: &[u8],
    path: &Body,
    rule: Rule,
) -> Result<(), Memory>
    ensures line { OnOk result
        (Logs (L.taken log.old) (L.taken log.new) (fault_line what.now (Schema path.now rule))) }
    ensures unchanged { OnErr result (log.new ≡ log.old) }
{
    let path = quoted(alloc, path.as_str())?;
    let mut buffer = Buffer::new();
    let rule = buffer.format(rule.number()).as_bytes();
    say(
        log,
        &[what, b": E3 ", inner(path.as_bytes()), b" ", rule, b"\n"],
    );
    Ok(())
}

// Reports in the log a file that was refused with this code for what stands at a path, as
// `log_fault` does.
fn log_at<L: Sink>(
    alloc: Global,
    log: &mut L,
    what: &[u8],
    code: &[u8],
    path: &Body,
) -> Result<(), Memory>
    ensures line { OnOk result (Logs (L.taken log.old) (L.taken log.new)
        (what.now ++ (code.now ++ (escape path.now ++ 10 ∷ [])))) }
    ensures unchanged { OnErr result (log.new ≡ log.old) }
{
    let path = quoted(alloc, path.as_str())?;
    say(log, &[what, code, inner(path.as_bytes()), b"\n"]);
    Ok(())
}

// Reports in the log a file that was refused. `Memory` where its path could not be spelled: the log
// is then as it was.
fn log_fault<L: Sink>(
    alloc: Global,
    log: &mut L,
    what: &str,
    fault: &ReadFault,
) -> Result<(), Memory>
    ensures line { OnOk result
        (Logs (L.taken log.old) (L.taken log.new) (fault_line what.now fault.now)) }
    ensures unchanged { OnErr result (log.new ≡ log.old) }
    ensures pathless { has_path fault.now ≡ false → IsOk result }
{
    let what = what.as_bytes();
    match fault {
        ReadFault::TooLong => say(log, &[what, b": E1\n"]),
        ReadFault::NotJson => say(log, &[what, b": E2\n"]),
        ReadFault::Schema { path, rule } => return log_rule(alloc, log, what, path, *rule),
        ReadFault::Reference { path } => return log_at(alloc, log, what, b": E4 ", path),
        ReadFault::Disagrees { path } => return log_at(alloc, log, what, b": E5 ", path),
        ReadFault::Memory => say(log, &[what, b": E6\n"]),
    }
    Ok(())
}

/// Reports a refusal in the log: what was refused, as it was given, and why. Only the spelling of a
/// path takes memory.
///
/// # Errors
/// `Memory` where the path could not be spelled. The log is as it was.
pub fn log_cause<L: Sink>(
    alloc: Global,
    log: &mut L,
    what: &str,
    cause: &Cause,
) -> Result<(), Memory>
    ensures line { OnOk result
        (Logs (L.taken log.old) (L.taken log.new) (cause_line what.now cause.now)) }
    ensures unchanged { OnErr result (log.new ≡ log.old) }
    ensures pathless { has_path_in cause.now ≡ false → IsOk result }
{
    match cause {
        Cause::Read(fault) => return log_fault(alloc, log, what, fault),
        Cause::Join(JoinFault::OtherDefinition) => say(log, &[what.as_bytes(), b": J1\n"]),
        Cause::Join(JoinFault::Memory) => say(log, &[what.as_bytes(), b": J2\n"]),
        Cause::NoOffice => say(log, &[what.as_bytes(), b": N1\n"]),
        Cause::NoFile => say(log, &[what.as_bytes(), b": N2\n"]),
    }
    Ok(())
}
