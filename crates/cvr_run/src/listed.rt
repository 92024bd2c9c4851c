ghost use Rattle.std.specs.Prelude.{◌≡◌, ◌∷◌, [], ℕ, List, IfOk, IfErr, OnOk, IfSome, IfNone};
ghost use Rattle.std.specs.Prelude.{false};
ghost use Rattle.cvr_run.specs.Ends.{Ran};
ghost use Rattle.cvr_run.specs.Job.{Job};
ghost use Rattle.cvr_run.specs.Listed.{bad_list_line, list_place, DoesListed, HasNoList, IsList};
ghost use Rattle.cvr_run.specs.Listed.{ListsFiles};
ghost use Rattle.cvr_run.specs.ListedPaths.{end_of, parts_at};
ghost use Rattle.cvr_run.specs.Log.{Logs};
ghost use Rattle.cvr_run.specs.Opening.{IsRead, Opens};
ghost use Rattle.cvr_run.specs.Outcome.{IsWhole};
ghost use Rattle.cvr_run.specs.Responds.{NotesEach};
ghost use Rattle.cvr_run.specs.Logged.{LogsSome};

use crate::file::HELD;
use crate::happened::Happened;
use crate::listed_paths::read_paths;
use crate::log::{say, say_memory};
use crate::opening::{Open, read_logged};
use crate::status::Status;
use crate::working::run_request;
use cdf_types::{Body, Seq, Sink};
use cvr_office::Office;
use cvr_words::Request;
use std::alloc::Global;

// Where a list stands.
fn place_of<'a>(list: &'a str) -> &'a str
    ensures { result.now ≡ list_place list.now }
{
    match list {
        "-" => "/dev/stdin",
        _ => list,
    }
}

// The text of a list, if it can be one.
fn text_of<'a>(bytes: &'a [u8]) -> Option<&'a str>
    ensures some { IfSome result (λ text. (text.now ≡ bytes.now) × IsList bytes.now) }
    ensures none { IfNone result (¬ IsList bytes.now) }
{
    if bytes.len() >= HELD {
        return None;
    }
    str::from_utf8(bytes).ok()
}

// Reports a file that is no list.
fn log_bad_list<L: Sink>(log: &mut L, path: &str)
    ensures { Logs (L.taken log.old) (L.taken log.new)
        (bad_list_line path.now) }
{
    let path = path.as_bytes();
    say(log, &[path, b": L5\n"]);
}

// The paths of the list at a path. Where there are none, the log says why.
fn paths_at<O: Open, L: Sink>(
    alloc: Global,
    opener: &mut O,
    path: &str,
    by_null: bool,
    log: &mut L,
) -> Result<Seq<Body>, Status>
    ensures paths { IfOk result (λ paths. (text : List ℕ)
        × IsRead ((O.state opener.old).at path.now) text
        × IsList text × (paths ≡ parts_at (end_of by_null) text)) }
    ensures quiet { OnOk result (log.new ≡ log.old) }
    ensures opens { OnOk result
        (Opens (O.state opener.old) (O.state opener.new) (path.now ∷ [])) }
    ensures none { IfErr result (λ status.
        LogsSome (HasNoList (O.state opener.old) (O.state opener.new) path.now status)
        (L.taken log.old) (L.taken log.new)) }
{
    let mut bytes = Vec::new(alloc);
    read_logged(opener, path, &mut bytes, log)?;
    match text_of(bytes.as_slice()) {
        Some(text) => match read_paths(alloc, text, by_null) {
            Ok(paths) => Ok(paths),
            Err(_) => {
                say_memory(log);
                Err(Status::Memory)
            }
        },
        None => {
            log_bad_list(log, path);
            Err(Status::CommandLine)
        }
    }
}

/// Does a request over the files of a list: reads the list, and goes on as with a request that
/// names them. Where the list isn't read, or is none, the log says so, and nothing else is done.
/// Where the opener says what stands at each path, the run is one over these files.
pub fn run_listed<C: Office + Drop, O: Open, W: Sink, L: Sink>(
    alloc: Global,
    opener: &mut O,
    request: Request,
    list: &str,
    by_null: bool,
    out: &mut W,
    log: &mut L,
    happened: &mut Happened,
) -> Status
    requires working { (W.taken out.old).failed ≡ false }
    requires log_working { (L.taken log.old).failed ≡ false }
    ensures does { DoesListed (record { request = request; list = list.now; by_null = by_null })
        result
        (record { opener = O.state opener.old; out = W.taken out.old; log = L.taken log.old })
        (record { opener = O.state opener.new; out = W.taken out.new; log = L.taken log.new })
        (out.new ≡ out.old) }
    ensures given { (job : Job) → ListsFiles (O.state opener.old).at
        (record { request = request; list = list.now; by_null = by_null }) job
        → IsWhole result → Ran job result
        (record { out = W.taken out.old; log = L.taken log.old })
        (record { out = W.taken out.new; log = L.taken log.new }) }
    ensures happened { NotesEach (ListsFiles (O.state opener.old).at
        (record { request = request; list = list.now; by_null = by_null })) result happened.new }
{
    let Request { task, def, .. } = request;
    match paths_at(alloc, opener, place_of(list), by_null, log) {
        Ok(paths) => {
            let request = Request { task, def, paths };
            let status = run_request::<C, O, W, L>(alloc, opener, &request, out, log, happened);
            happened.request = Some(request);
            status
        }
        Err(status) => status,
    }
}
