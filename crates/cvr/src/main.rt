//! The program: it hands the words to the library, with the files and the devices of the system.
#![tactic(auto)]

mod answering;
mod choices;

ghost use Rattle.std.specs.Prelude.{◌≡◌, None, false, true};
ghost use Rattle.std.specs.Process.{exit_status};
ghost use Rattle.cvr_run.specs.Opening.{Unknown};
ghost use Rattle.cvr_run.specs.Status.{code_of};

use answering::answer;
use choices::{behind_the_name, file_fault, words_line, words_status};
use cvr_cli::{FileFault, Open, OverRead, OverWrite, Status, listing_of};
use cvr_screen::{Cleared, Log, Notes, Progress, Watched};
use std::io::IsTerminal;
use std::process::ExitCode;
use std::rt::{Env, Files, Stderr, Stdout};
use std::{env, fs};

// The files of the system. Contracts leave open what they hold.
#[derive(Drop)]
struct System<'a, R> {
    rt: &'a R,
    progress: &'a Progress<'a, R>,
    notes: &'a Notes<'a, R>,
}

impl<'a, R: Files + Eprint + AllocGlobal> Open for System<'a, R> {
    type File = OverRead<Watched<'a, R::File, R>>;

    ghost state = { λ _. record { at = λ _. Unknown; may_fail = λ _. true; opened = None } };

    fn open(&mut self, path: &str) -> Result<OverRead<Watched<'a, R::File, R>>, FileFault> {
        match fs::open(self.rt, path) {
            Ok(file) => {
                let file = Watched::new(file, self.progress, self.notes);
                Ok(OverRead::new(file))
            }
            Err(e) => {
                self.notes.fail(&e);
                Err(file_fault(e.kind()))
            }
        }
    }
}

// All words, the program's name first; or the status where they could not be read.
fn all_words<R: Env + AllocGlobal>(rt: &R) -> Result<Vec<String>, Status> {
    match env::args(rt) {
        Ok(all) => all.collect(rt.alloc()).map_err(|_| Status::Memory),
        Err(e) => Err(words_status(e.kind())),
    }
}

// Where the text goes, and where the log.
fn devices<'a>(
    rt: &'a HostRuntime,
    progress: &'a Progress<'a, HostRuntime>,
) -> (
    OverWrite<Cleared<'a, Stdout, HostRuntime>>,
    Log<'a, Stderr, HostRuntime>,
)
    ensures working { result.0.failed ≡ false }
    ensures log_working { result.1.inner.failed ≡ false }
{
    let out = Cleared::new(rt.stdout(), progress);
    (OverWrite::new(out), Log::new(rt.stderr(), progress))
}

// Answers all words, with the files and the devices of the system.
fn answer_here(rt: &HostRuntime, words: &[String]) -> ExitCode {
    let is_terminal = rt.stderr().is_terminal();
    let has_list = listing_of(behind_the_name(words)).is_some();
    let progress = Progress::new(rt, is_terminal);
    let notes = Notes::new(rt, is_terminal, has_list as usize);
    let (mut out, mut log) = devices(rt, &progress);
    let mut system = System {
        rt,
        progress: &progress,
        notes: &notes,
    };
    answer(
        rt.alloc(),
        &mut system,
        words,
        &mut out,
        &mut log,
        &progress,
        &notes,
    )
}

// Ends without words: prints why there are none to standard error.
fn end_without_words<R: Eprint>(rt: &R, status: Status) -> ExitCode
    ensures { exit_status result ≡ code_of status }
{
    let line = words_line(&status);
    let _ = eprintln!(rt; "{line}");
    ExitCode::from(status.code())
}

fn main(rt: HostRuntime) -> ExitCode {
    match all_words(&rt) {
        Ok(words) => answer_here(&rt, words.as_slice()),
        Err(status) => end_without_words(&rt, status),
    }
}
