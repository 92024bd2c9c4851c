ghost use Rattle.std.specs.Prelude.{◌≡◌, IfOk, Ok, true, false, codes};
ghost use Rattle.clap.specs.Words.{app_of, new_app, rule_of, with_subcommand};
ghost use Rattle.cvr_words.specs.Line.{bare_line, cvr_line, drill_line, files_line, merge_line};
ghost use Rattle.cvr_words.specs.Line.{required_word, one_number, several};

use clap::{Arg, ArgAction, Command};
use std::alloc::{AllocError, Global};

// A word that has to stand once.
fn needed_word<'a>(alloc: Global, id: &'a str, help: &'a str) -> Arg<'a>
    ensures rule { rule_of result ≡ required_word id.entry.now }
    ensures local { result.global ≡ false }
{
    Arg::new(alloc, id)
        .required(true)
        .action(ArgAction::Set)
        .help(help)
}

// The words at the end, any number of them.
fn last_words<'a>(alloc: Global, id: &'a str, help: &'a str) -> Arg<'a>
    ensures rule { rule_of result ≡ several id.entry.now }
    ensures local { result.global ≡ false }
{
    Arg::new(alloc, id)
        .num_args(0..)
        .action(ArgAction::Append)
        .help(help)
}

fn def_word<'a>(alloc: Global) -> Arg<'a>
    ensures rule { rule_of result ≡ required_word (codes "DEF") }
    ensures local { result.global ≡ false }
{
    needed_word(
        alloc,
        "DEF",
        "Any report of the election: it says which contests, selections, units and devices there are; its own records are not counted",
    )
}

fn file_words<'a>(alloc: Global) -> Arg<'a>
    ensures rule { rule_of result ≡ several (codes "FILE") }
    ensures local { result.global ≡ false }
{
    last_words(
        alloc,
        "FILE",
        "Reports of cast vote records, any number of them",
    )
}

fn date_word<'a>(alloc: Global) -> Arg<'a>
    ensures rule { rule_of result ≡ required_word (codes "DATE") }
    ensures local { result.global ≡ false }
{
    needed_word(
        alloc,
        "DATE",
        "When the report is made: a date-time with offset, as 2026-11-03T20:00:00-05:00",
    )
}

fn device_word<'a>(alloc: Global) -> Arg<'a>
    ensures rule { rule_of result ≡ required_word (codes "DEVICE") }
    ensures local { result.global ≡ false }
{
    needed_word(
        alloc,
        "DEVICE",
        "The id of the device that makes the report, as DEF lists it",
    )
}

fn volume_word<'a>(alloc: Global) -> Arg<'a>
    ensures rule { rule_of result ≡ one_number (codes "VOLUME") 1 4294967295 }
    ensures local { result.global ≡ false }
{
    needed_word(
        alloc,
        "VOLUME",
        "Which volume is printed, from 1 to 4,294,967,295; the command conflicts prints how many there are",
    )
    .value_parser(clap::value_parser!(u32).range(1..))
}

fn offices_word<'a>(alloc: Global) -> Arg<'a>
    ensures rule { rule_of result ≡ one_number (codes "OFFICES") 1 64 }
    ensures local { result.global ≡ false }
{
    needed_word(alloc, "OFFICES", "How many offices there are, from 1 to 64").value_parser(
        clap::value_parser!(u32).range(1..=64),
    )
}

fn step_words<'a>(alloc: Global) -> Arg<'a>
    ensures rule { rule_of result ≡ several (codes "STEP") }
    ensures local { result.global ≡ false }
{
    last_words(
        alloc,
        "STEP",
        "What happens, in order: K=FILE, office K takes in the file; or 'K>L', office L takes in all that office K holds; offices are numbered from 1",
    )
}

// A command with no arguments yet.
fn titled<'a>(alloc: Global, name: &'a str, about: &'a str, example: &'a str) -> Command<'a>
    ensures { app_of result ≡ new_app name.entry.now }
{
    Command::new(alloc, name)
        .about(about)
        .after_long_help(example)
}

// A command with DEF and FILE..
fn files_command<'a>(
    alloc: Global,
    name: &'a str,
    about: &'a str,
    example: &'a str,
) -> Result<Command<'a>, AllocError>
    ensures { IfOk result (λ c. app_of c ≡ files_line name.entry.now) }
{
    titled(alloc, name, about, example)
        .arg(def_word(alloc))?
        .arg(file_words(alloc))
}

fn currents_command<'a>(alloc: Global) -> Result<Command<'a>, AllocError>
    ensures { IfOk result (λ c. app_of c ≡ files_line (codes "currents")) }
{
    files_command(
        alloc,
        "currents",
        "Print which snapshot of each cast vote record is current",
        "Example:\n  cvr currents definition.json scan.json adjudicated.json",
    )
}

fn conflicts_command<'a>(alloc: Global) -> Result<Command<'a>, AllocError>
    ensures { IfOk result (λ c. app_of c ≡ files_line (codes "conflicts")) }
{
    files_command(
        alloc,
        "conflicts",
        "Print each device, record and snapshot that the files give in two ways or more",
        "Example:\n  cvr conflicts definition.json scan.json adjudicated.json",
    )
}

fn tally_command<'a>(alloc: Global) -> Result<Command<'a>, AllocError>
    ensures { IfOk result (λ c. app_of c ≡ files_line (codes "tally")) }
{
    files_command(
        alloc,
        "tally",
        "Add up the votes of the current snapshots, by contest, unit and batch",
        "Example:\n  cvr tally definition.json scan.json adjudicated.json",
    )
}

fn check_command<'a>(alloc: Global) -> Result<Command<'a>, AllocError>
    ensures { IfOk result (λ c. app_of c ≡ files_line (codes "check")) }
{
    files_command(
        alloc,
        "check",
        "Check each file against the format and the election, and count its cast vote records",
        "Example:\n  cvr check definition.json scan.json adjudicated.json",
    )
}

fn merge_command<'a>(alloc: Global) -> Result<Command<'a>, AllocError>
    ensures { IfOk result (λ c. app_of c ≡ merge_line) }
{
    titled(
        alloc,
        "merge",
        "Print a report of all that the files hold, or one volume of it where it takes several",
        "Example:\n  cvr merge definition.json 2026-11-03T20:00:00-05:00 desk-1 1 scan.json adjudicated.json",
    )
    .arg(def_word(alloc))?
    .arg(date_word(alloc))?
    .arg(device_word(alloc))?
    .arg(volume_word(alloc))?
    .arg(file_words(alloc))
}

fn drill_command<'a>(alloc: Global) -> Result<Command<'a>, AllocError>
    ensures { IfOk result (λ c. app_of c ≡ drill_line) }
{
    titled(
        alloc,
        "drill",
        "Try out how several offices take in files and pass on what they hold, and print what each holds at the end",
        "Example:\n  cvr drill definition.json 2 1=scan.json 2=adjudicated.json '1>2' '2>1'",
    )
    .arg(def_word(alloc))?
    .arg(offices_word(alloc))?
    .arg(step_words(alloc))
}

fn bare_command<'a>(alloc: Global) -> Command<'a>
    ensures { app_of result ≡ bare_line }
{
    Command::new(alloc, "cvr")
        .subcommand_required(true)
        .about(
            "Check, collect and tally cast vote records in NIST's Common Data Format 1.0 (SP 1500-103, JSON)",
        )
        .after_help(
            "Where files differ: cvr conflicts. One report of several files: cvr merge. Votes: cvr tally.\n\
            Paths from a list: --files-from LIST [--null] in place of FILE... Version: cvr --version.\n\
            What is refused is reported on standard error by a code; these say what it means:\n\
            cvr explain CODE, cvr explain 'LINE', cvr(1) and docs/FAULTS.md.",
        )
}

// The line with one more command. It has a body of its own, since one body with all such steps
// takes much longer to prove.
fn with_command<'a>(
    line: Command<'a>,
    command: Result<Command<'a>, AllocError>,
) -> Result<Command<'a>, AllocError>
    ensures { IfOk result (λ r. (c : Command)
        × (command.entry ≡ Ok c)
        × ((app_of c).top.is_plain ≡ true
        → app_of r ≡ with_subcommand (app_of line.entry) (app_of c).top)) }
{
    line.subcommand(command?)
}

/// The whole command line.
pub(crate) fn cvr_command<'a>(alloc: Global) -> Result<Command<'a>, AllocError>
    ensures { IfOk result (λ c. app_of c ≡ cvr_line) }
{
    let line = with_command(bare_command(alloc), currents_command(alloc))?;
    let line = with_command(line, conflicts_command(alloc))?;
    let line = with_command(line, tally_command(alloc))?;
    let line = with_command(line, check_command(alloc))?;
    let line = with_command(line, merge_command(alloc))?;
    with_command(line, drill_command(alloc))
}
