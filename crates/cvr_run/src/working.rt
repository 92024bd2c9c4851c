ghost use Rattle.std.specs.Prelude.{◌≡◌, ◌≢◌, ◌∷◌, ℕ, List, false, Some};
ghost use Rattle.cdf_definition.specs.Acceptance.{first_unsound};
ghost use Rattle.cdf_form.specs.Reading.{IsMemory};
ghost use Rattle.cdf_types.specs.Device.{Taken};
ghost use Rattle.cvr_run.specs.declared.given.Files.TheVariants.{Opened};
ghost use Rattle.cvr_run.specs.declared.status.Status.TheVariants.{CommandLine};
ghost use Rattle.cvr_run.specs.Answered.{Does};
ghost use Rattle.cvr_run.specs.Ends.{Ran};
ghost use Rattle.cvr_run.specs.Given.{HadWhole, StopsOr};
ghost use Rattle.cvr_run.specs.Happened.{Happens};
ghost use Rattle.cvr_run.specs.Job.{Job};
ghost use Rattle.cvr_run.specs.Opening.{AreAt};
ghost use Rattle.cvr_run.specs.Outcome.{IsWhole};

use crate::collecting::{Ignored, take_all};
use crate::given::Files;
use crate::happened::Happened;
use crate::opening::{Open, read_logged};
use crate::status::Status;
use crate::tasks::{refuse, run_task};
use cdf_check::Definition;
use cdf_types::{ReadFault, Sink};
use cvr_office::Office;
use cvr_words::Request;
use std::alloc::Global;

// Reports a definition that is refused, once all files are read: one that isn't read goes before.
fn refuse_last<O: Open, L: Sink>(
    alloc: Global,
    opener: &mut O,
    request: &Request,
    fault: ReadFault,
    log: &mut L,
    happened: &mut Happened,
) -> Status
    ensures ran { (def : List ℕ) (out : Taken) → out.failed ≡ false
        → (¬ IsMemory fault → first_unsound def ≡ Some fault)
        → StopsOr Opened request.now.paths result
        (record { opener = O.state opener.old; out = out; log = L.taken log.old })
        (record { opener = O.state opener.new; out = out; log = L.taken log.new })
        (Unit {0})
        (λ files. Ran (record { request = request.now; def = def; files = files }) result
        (record { out = out; log = L.taken log.old })
        (record { out = out; log = L.taken log.new })) }
    ensures happened { (def : List ℕ) → (¬ IsMemory fault → first_unsound def ≡ Some fault)
        → HadWhole Opened request.now.paths result (O.state opener.old) (O.state opener.new)
        (λ files. Happens (record { request = request.now; def = def; files = files })
        happened.new) }
{
    let paths = request.paths.as_slice();
    match take_all(alloc, &mut Ignored, Files::Opened, opener, paths, log) {
        Ok(_) => refuse(alloc, request, fault, log, happened),
        Err(status) => status,
    }
}

// Does a request whose definition is read.
fn run_behind<C: Office + Drop, O: Open, W: Sink, L: Sink>(
    alloc: Global,
    opener: &mut O,
    request: &Request,
    def: &[u8],
    out: &mut W,
    log: &mut L,
    happened: &mut Happened,
) -> Status
    requires working { (W.taken out.old).failed ≡ false }
    ensures ran { StopsOr Opened request.now.paths result
        (record { opener = O.state opener.old; out = W.taken out.old; log = L.taken log.old })
        (record { opener = O.state opener.new; out = W.taken out.new; log = L.taken log.new })
        (out.new ≡ out.old)
        (λ files. Ran (record { request = request.now; def = def.now; files = files }) result
        (record { out = W.taken out.old; log = L.taken log.old })
        (record { out = W.taken out.new; log = L.taken log.new })) }
    ensures happened { HadWhole Opened request.now.paths result
        (O.state opener.old) (O.state opener.new)
        (λ files. Happens (record { request = request.now; def = def.now; files = files })
        happened.new) }
{
    match Definition::read(alloc, def) {
        Err(fault) => refuse_last(alloc, opener, request, fault, log, happened),
        Ok(definition) => run_task::<C, O, W, L>(
            alloc,
            definition,
            &request.task,
            request.paths.as_slice(),
            Files::Opened,
            opener,
            out,
            log,
            happened,
        ),
    }
}

/// Does a request: reads its definition and its files, each at its path and in this order, and runs
/// over them. Where one isn't read, the log says so, and nothing else is opened or done. Where the
/// opener says what stands at each path, the run is one over these files.
pub fn run_request<C: Office + Drop, O: Open, W: Sink, L: Sink>(
    alloc: Global,
    opener: &mut O,
    request: &Request,
    out: &mut W,
    log: &mut L,
    happened: &mut Happened,
) -> Status
    requires working { (W.taken out.old).failed ≡ false }
    requires log_working { (L.taken log.old).failed ≡ false }
    ensures does { Does request.now result
        (record { opener = O.state opener.old; out = W.taken out.old; log = L.taken log.old })
        (record { opener = O.state opener.new; out = W.taken out.new; log = L.taken log.new })
        (out.new ≡ out.old) }
    ensures given { (job : Job) → job.request ≡ request.now
        → AreAt (O.state opener.old).at (job.request.def ∷ job.request.paths) (job.def ∷ job.files)
        → IsWhole result → Ran job result
        (record { out = W.taken out.old; log = L.taken log.old })
        (record { out = W.taken out.new; log = L.taken log.new }) }
    ensures happened { (job : Job) → job.request ≡ request.now
        → AreAt (O.state opener.old).at (job.request.def ∷ job.request.paths) (job.def ∷ job.files)
        → IsWhole result → Happens job happened.new }
    ensures no_words { result ≢ CommandLine }
{
    let mut bytes = Vec::new(alloc);
    match read_logged(opener, request.def.as_str(), &mut bytes, log) {
        Ok(()) => {
            let def = bytes.as_slice();
            run_behind::<C, O, W, L>(alloc, opener, request, def, out, log, happened)
        }
        Err(fault) => Status::from(fault),
    }
}
