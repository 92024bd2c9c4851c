ghost use Rattle.std.specs.Prelude.{◌≡◌, length, map, false, string_bytes};
ghost use Rattle.cvr_run.specs.Ends.{Ran};
ghost use Rattle.cvr_run.specs.Listed.{IsGivenEither};
ghost use Rattle.cvr_run.specs.Outcome.{files_of};
ghost use Rattle.cvr_run.specs.Responds.{NotesEach, Responds, Works};

use cdf_types::Sink;
use cvr_cached::CachedOffice;
use cvr_run::{Happened, Open, Status};
use cvr_words::Request;
use std::alloc::Global;

/// Runs a request over the bytes of its definition and of its files, in the order of its paths. A
/// refused file or step is reported in the log, and the rest is done. Where the definition is
/// refused nothing else is done. Where memory ran out for a file or a step nothing is printed, and
/// no fault of a merge is reported. That fault comes after the refused files, and nothing is
/// printed then either.
///
/// No clause says how much was printed if the status is `Memory`. It is only tested that this is
/// nothing; of `merge`, a prefix; and where memory was refused only for the path in a log line, the
/// text or a prefix of it. Nor does a clause say that `Memory` comes before all other statuses, or
/// that memory was really refused: both are only tested.
pub fn run<W: Sink, L: Sink>(
    alloc: Global,
    request: &Request,
    def: &[u8],
    files: &[Vec<u8>],
    out: &mut W,
    log: &mut L,
) -> Status
    requires working { (W.taken out.old).failed ≡ false }
    requires log_working { (L.taken log.old).failed ≡ false }
    requires named { length request.now.paths ≡ length files.now }
    ensures ran { Ran (record { request = request.now; def = def.now; files = files_of files.now })
        result
        (record { out = W.taken out.old; log = L.taken log.old })
        (record { out = W.taken out.new; log = L.taken log.new }) }
{
    cvr_run::run::<CachedOffice, W, L>(alloc, request, def, files, out, log)
}

/// Does what the words after the program's name ask for: reads the definition and the files of
/// their request, each at its path and in this order, and runs over them. Where one isn't read, the
/// log says so, and nothing else is opened or done. Words that ask for no request are reported in
/// the log, and the status is `CommandLine`; for words that ask for help, the help is printed;
/// either way nothing is opened. Where the opener says what is at each path, the run is one over
/// these files.
///
/// No clause says what a file of the system holds, nor that it was opened at its path. Over the
/// opener of the system, which promises nothing of any path, the clauses say of a run that ends
/// early only that it logs one of its paths, with K1 or K2, or `memory`. The order, and which path
/// comes first, they say of openers that say what is at each path. It is only tested that the
/// texts of help and of refused words are not empty.
pub fn work<O: Open, W: Sink, L: Sink>(
    alloc: Global,
    opener: &mut O,
    words: &[String],
    out: &mut W,
    log: &mut L,
) -> Status
    requires working { (W.taken out.old).failed ≡ false }
    requires log_working { (L.taken log.old).failed ≡ false }
    ensures works { Works (map string_bytes words.now) result
        (record { opener = O.state opener.old; out = W.taken out.old; log = L.taken log.old })
        (record { opener = O.state opener.new; out = W.taken out.new; log = L.taken log.new })
        (out.new ≡ out.old) }
{
    let mut happened = Happened::new(alloc, false);
    cvr_run::work::<CachedOffice, O, W, L>(alloc, opener, words, out, log, &mut happened)
}

/// Does what the words after the program's name ask for. Where they ask for the version, or what a
/// code means, that is printed, and no file is opened. Where they name a list of files, the list is
/// read, and the request is done over the files at its paths. All other words go to `work`, and
/// what its clauses say of words that ask for a request holds here, too.
///
/// What happened is kept where the status is `Done` or `Refused`: what was asked for, why the
/// definition was refused, and what became of each file or step.
///
/// It is only tested that words with a list ask for no other request, and that the texts of codes
/// are those of docs/FAULTS.md.
pub fn respond<O: Open, W: Sink, L: Sink>(
    alloc: Global,
    opener: &mut O,
    words: &[String],
    out: &mut W,
    log: &mut L,
    happened: &mut Happened,
) -> Status
    requires working { (W.taken out.old).failed ≡ false }
    requires log_working { (L.taken log.old).failed ≡ false }
    ensures responds { Responds (map string_bytes words.now) result
        (record { opener = O.state opener.old; out = W.taken out.old; log = L.taken log.old })
        (record { opener = O.state opener.new; out = W.taken out.new; log = L.taken log.new })
        (out.new ≡ out.old) }
    ensures happened { NotesEach
        (IsGivenEither (O.state opener.old).at (map string_bytes words.now)) result happened.new }
{
    cvr_run::respond::<CachedOffice, O, W, L>(alloc, opener, words, out, log, happened)
}
