ghost use Rattle.std.specs.Prelude.{◌≡◌, IfErr, IfOk, None, codes, map, true};
ghost use Rattle.std.specs.Int.NonZero.{non_zero_u32_get};
ghost use Rattle.std.specs.List.{list_any};
ghost use Rattle.std.specs.Str.{bytes_eq};
ghost use Rattle.clap.specs.Words.{found_of, rows_of};
ghost use Rattle.cvr_words.specs.Fault.{IsDrillFault};
ghost use Rattle.cvr_words.specs.Line.{command_names};
ghost use Rattle.cvr_words.specs.Request.{Asks, IsTask};
ghost use Rattle.cvr_words.specs.Steps.{IsBadStep, bad_place, paths_of, steps_of};
ghost use Rattle.cvr_words.specs.Rows.{HasNumber, HasWord, IsMergeWhole, IsNumber, AreRowsOf};
ghost use Rattle.cvr_words.specs.Rows.{IsWord, words_in};

use crate::fault::LoggedFault;
use crate::request::{Request, Task};
use crate::steps::{Steps, read_steps};
use crate::text::body;
use cdf_types::{Body, Memory, Seq};
use clap::ArgMatches;
use std::alloc::Global;
use std::num::NonZeroU32;

// The word of an argument that stands once.
fn text_at<'a>(matches: &ArgMatches<'a>, id: &str) -> &'a str
    requires { HasWord id.now (rows_of (found_of matches.now)) }
    ensures { IsWord id.now (rows_of (found_of matches.now)) result.now }
{
    match matches.get_str(id) {
        Some(text) => text,
        None => unreachable!(),
    }
}

fn word_at(alloc: Global, matches: &ArgMatches<'_>, id: &str) -> Result<Body, Memory>
    requires { HasWord id.now (rows_of (found_of matches.now)) }
    ensures { IfOk result (λ word. IsWord id.now (rows_of (found_of matches.now)) word) }
{
    body(alloc, text_at(matches, id))
}

fn copies(alloc: Global, texts: &[&str]) -> Result<Seq<Body>, Memory>
    ensures { IfOk result (λ all. all ≡ map (λ t. t.now) texts.now) }
{
    let mut all = Seq::empty(alloc);
    for text in texts {
        all.push(body(alloc, *text)?)?;
    }
    Ok(all)
}

// The words of an argument, any number of them.
fn words_at(alloc: Global, matches: &ArgMatches<'_>, id: &str) -> Result<Seq<Body>, Memory>
    ensures { IfOk result (λ all. all ≡ words_in id.now (rows_of (found_of matches.now))) }
{
    copies(alloc, matches.get_strs(id).unwrap_or(&[]))
}

// The steps of a drill.
fn steps_at(alloc: Global, matches: &ArgMatches<'_>) -> Result<Steps, LoggedFault>
    ensures formed { IfOk result
        (λ r. bad_place (words_in (codes "STEP") (rows_of (found_of matches.now))) ≡ None) }
    ensures steps { IfOk result
        (λ r. r.steps ≡ steps_of 0 (words_in (codes "STEP") (rows_of (found_of matches.now)))) }
    ensures paths { IfOk result
        (λ r. r.paths ≡ paths_of (words_in (codes "STEP") (rows_of (found_of matches.now)))) }
    ensures err { IfErr result
        (λ f. IsBadStep (words_in (codes "STEP") (rows_of (found_of matches.now))) f) }
{
    read_steps(alloc, matches.get_strs("STEP").unwrap_or(&[]))
}

// The request of a command with FILE..
fn files_request(alloc: Global, task: Task, matches: &ArgMatches<'_>) -> Result<Request, Memory>
    requires { HasWord (codes "DEF") (rows_of (found_of matches.now)) }
    ensures task { IfOk result (λ r. r.task ≡ task) }
    ensures def { IfOk result (λ r. IsWord (codes "DEF") (rows_of (found_of matches.now)) r.def) }
    ensures paths { IfOk result
        (λ r. r.paths ≡ words_in (codes "FILE") (rows_of (found_of matches.now))) }
{
    Ok(Request {
        task,
        def: word_at(alloc, matches, "DEF")?,
        paths: words_at(alloc, matches, "FILE")?,
    })
}

fn volume_number(matches: &ArgMatches<'_>) -> u32
    requires { HasNumber (codes "VOLUME") 1 4294967295 (rows_of (found_of matches.now)) }
    ensures { IsNumber (codes "VOLUME") 1 4294967295 (rows_of (found_of matches.now)) result }
{
    match matches.get_one::<u32>("VOLUME") {
        Some(number) => number,
        None => unreachable!(),
    }
}

fn volume_of(matches: &ArgMatches<'_>) -> NonZeroU32
    requires { HasNumber (codes "VOLUME") 1 4294967295 (rows_of (found_of matches.now)) }
    ensures { IsNumber (codes "VOLUME") 1 4294967295 (rows_of (found_of matches.now))
        (non_zero_u32_get result) }
{
    match NonZeroU32::new(volume_number(matches)) {
        Some(volume) => volume,
        None => unreachable!(),
    }
}

fn offices_of(matches: &ArgMatches<'_>) -> u32
    requires { HasNumber (codes "OFFICES") 1 64 (rows_of (found_of matches.now)) }
    ensures { IsNumber (codes "OFFICES") 1 64 (rows_of (found_of matches.now)) result }
{
    match matches.get_one::<u32>("OFFICES") {
        Some(offices) => offices,
        None => unreachable!(),
    }
}

fn merge_task(alloc: Global, matches: &ArgMatches<'_>) -> Result<Task, Memory>
    requires { IsMergeWhole (rows_of (found_of matches.now)) }
    ensures { IfOk result (λ task. IsTask (codes "merge") (rows_of (found_of matches.now)) task) }
{
    Ok(Task::Merge {
        date: word_at(alloc, matches, "DATE")?,
        device: word_at(alloc, matches, "DEVICE")?,
        volume: volume_of(matches),
    })
}

fn drill_request(alloc: Global, matches: &ArgMatches<'_>) -> Result<Request, LoggedFault>
    requires def { HasWord (codes "DEF") (rows_of (found_of matches.now)) }
    requires offices { HasNumber (codes "OFFICES") 1 64 (rows_of (found_of matches.now)) }
    ensures ok { IfOk result (λ r. Asks (codes "drill") (rows_of (found_of matches.now)) r) }
    ensures err { IfErr result
        (λ f. IsDrillFault (codes "drill") (rows_of (found_of matches.now)) f) }
{
    let read = steps_at(alloc, matches)?;
    Ok(Request {
        task: Task::Drill {
            offices: offices_of(matches),
            steps: read.steps,
        },
        def: word_at(alloc, matches, "DEF")?,
        paths: read.paths,
    })
}

/// The request of a command, by its name and its matches.
pub(crate) fn request_of(
    alloc: Global,
    name: &str,
    matches: &ArgMatches<'_>,
) -> Result<Request, LoggedFault>
    requires named { list_any (bytes_eq name.now) command_names ≡ true }
    requires whole { AreRowsOf name.now (rows_of (found_of matches.now)) }
    ensures ok { IfOk result (λ r. Asks name.now (rows_of (found_of matches.now)) r) }
    ensures err { IfErr result (λ f. IsDrillFault name.now (rows_of (found_of matches.now)) f) }
{
    let task = match name {
        "currents" => Task::Currents,
        "conflicts" => Task::Conflicts,
        "tally" => Task::Tally,
        "check" => Task::Check,
        "merge" => merge_task(alloc, matches)?,
        "drill" => return drill_request(alloc, matches),
        _ => unreachable!(),
    };
    Ok(files_request(alloc, task, matches)?)
}
