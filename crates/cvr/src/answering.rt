ghost use Rattle.std.specs.Prelude.{◌≡◌, map, false, string_bytes, drop};
ghost use Rattle.std.specs.Process.{exit_status};
ghost use Rattle.cvr_run.specs.Responds.{Responds};
ghost use Rattle.cvr_run.specs.Status.{code_of};
ghost use Rattle.cvr.specs.Ended.{ended};

use crate::choices::behind_the_name;
use cdf_types::Sink;
use cvr_cli::{Happened, Open, respond};
use cvr_screen::{Notes, Progress};
use std::alloc::Global;
use std::process::ExitCode;
use std::rt::Files;

/// Answers all words, the program's name first, as `respond` does, and ends with the code of its
/// status. Before it ends, it removes the line about files, and prints the notes.
pub fn answer<O: Open, W: Sink, L: Sink, R: Files + Eprint + AllocGlobal>(
    alloc: Global,
    opener: &mut O,
    words: &[String],
    out: &mut W,
    log: &mut L,
    progress: &Progress<'_, R>,
    notes: &Notes<'_, R>,
) -> ExitCode
    requires working { (W.taken out.old).failed ≡ false }
    requires log_working { (L.taken log.old).failed ≡ false }
    ensures code { exit_status result ≡ code_of (ended result) }
    ensures responds { Responds (map string_bytes (drop 1 words.now)) (ended result)
        (record { opener = O.state opener.old; out = W.taken out.old; log = L.taken log.old })
        (record { opener = O.state opener.new; out = W.taken out.new; log = L.taken log.new })
        (out.new ≡ out.old) }
{
    let mut happened = Happened::new(alloc, notes.is_terminal());
    let behind = behind_the_name(words);
    let status = respond(alloc, opener, behind, out, log, &mut happened);
    progress.clear();
    notes.print(words, &status, &happened);
    ExitCode::from(status.code())
}
