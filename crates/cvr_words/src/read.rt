ghost use Rattle.std.specs.Prelude.{◌≡◌, IfErr, IfOk, map, string_bytes};
ghost use Rattle.clap.specs.Words.{kind_of};
ghost use Rattle.cvr_words.specs.Fault.{IsFault, IsLoggedFault, IsOfKind};
ghost use Rattle.cvr_words.specs.Line.{with_program};
ghost use Rattle.cvr_words.specs.Request.{IsRequest};

use crate::fault::{LoggedFault, WordFault};
use crate::line::cvr_command;
use crate::matches::request_of;
use crate::request::Request;
use clap::error::ErrorKind;
use std::alloc::{AllocError, Global};

// Why clap gave no matches.
fn refusal(alloc: Global, error: &clap::Error) -> LoggedFault
    ensures { IsOfKind (kind_of error.now) result }
{
    let kind = error.kind();
    if kind == ErrorKind::OutOfMemory {
        return LoggedFault::Memory;
    }
    match error.to_string(alloc) {
        Ok(text) => {
            if kind == ErrorKind::DisplayHelp {
                LoggedFault::Help { text }
            } else {
                LoggedFault::Refused { text }
            }
        }
        Err(_) => LoggedFault::Memory,
    }
}

// The words as clap takes them: the program's name stands before them, as it begins each usage.
fn named_words<'a>(alloc: Global, words: &'a [String]) -> Result<Vec<&'a str>, AllocError>
    ensures { IfOk result
        (λ all. map (λ t. t.now) all.items ≡ with_program (map string_bytes words.now)) }
{
    let mut all = Vec::new(alloc);
    all.push("cvr")?;
    for word in words {
        all.push(word.as_str())?;
    }
    Ok(all)
}

// The request of the words as clap takes them.
fn read_named(alloc: Global, words: &[&str]) -> Result<Request, LoggedFault>
    ensures request { IfOk result (λ r. IsRequest (map (λ t. t.now) words.now) r) }
    ensures fault { IfErr result (λ f. IsLoggedFault (map (λ t. t.now) words.now) f) }
{
    let command = cvr_command(alloc)?;
    match command.try_get_matches_from(words) {
        Ok(matches) => match matches.subcommand() {
            Some((name, found)) => request_of(alloc, name, found),
            None => unreachable!(),
        },
        Err(error) => Err(refusal(alloc, &error)),
    }
}

/// The request of the words that stand after the program's name.
///
/// # Errors
/// As `read_words`, with the step that has no form.
pub fn read_line(alloc: Global, words: &[String]) -> Result<Request, LoggedFault>
    ensures request { IfOk result (λ r. IsRequest (with_program (map string_bytes words.now)) r) }
    ensures fault { IfErr result
        (λ f. IsLoggedFault (with_program (map string_bytes words.now)) f) }
{
    let all = named_words(alloc, words)?;
    read_named(alloc, all.as_slice())
}

/// The request of the words that stand after the program's name.
///
/// No clause says what a file is, whether the office of a step is there, or which texts help and
/// refused words have; nor, at `help` and a name that is no command, whether `clap` answers help or
/// refuses.
///
/// # Errors
/// `Refused` where no command takes the words, or none stands; `Help` where they ask for help;
/// `BadStep` with the place of the first step of a drill that has no form; `Memory`.
pub fn read_words(alloc: Global, words: &[String]) -> Result<Request, WordFault>
    ensures request { IfOk result (λ r. IsRequest (with_program (map string_bytes words.now)) r) }
    ensures fault { IfErr result (λ f. IsFault (with_program (map string_bytes words.now)) f) }
{
    match read_line(alloc, words) {
        Ok(request) => Ok(request),
        Err(fault) => Err(fault.into_word_fault()),
    }
}
