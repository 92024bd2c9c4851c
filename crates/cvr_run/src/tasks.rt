ghost use Rattle.std.specs.Prelude.{◌≡◌, ◌≢◌, List, ℕ, length, false, Option, Some};
ghost use Rattle.std.specs.Prelude.{IfOk, IfErr, OnErr, string_bytes};
ghost use Rattle.std.specs.List.{list_any};
ghost use Rattle.cdf_definition.specs.Acceptance.{first_unsound};
ghost use Rattle.cdf_definition.specs.Frame.{Frame};
ghost use Rattle.cdf_form.specs.Reading.{IsMemory};
ghost use Rattle.cdf_types.specs.Device.{Taken};
ghost use Rattle.cvr_run.specs.Accepted.{is_refused};
ghost use Rattle.cvr_run.specs.Ends.{Ran, RanBeside, RanOver};
ghost use Rattle.cvr_run.specs.Given.{AreAsMany, HadWhole, StopsOr};
ghost use Rattle.cvr_run.specs.Happened.{Happens, AreNoted};
ghost use Rattle.cvr_run.specs.Outcome.{content_of_files, check_lines, facts_text, files_of};
ghost use Rattle.cvr_run.specs.Outcome.{files_refused, task_fault, IsWhole};
ghost use Rattle.cvr_run.specs.Refusals.{is_want, AreDue};
ghost use Rattle.cvr_run.specs.Taken.{AreTaken};
ghost use Rattle.cvr_run.specs.Logged.{drill_dues, file_dues, import_dues, task_dues};
ghost use Rattle.cvr_run.specs.Logged.{IsCutShort, LogsFirst, LogsSome};
ghost use Rattle.cvr_run.specs.declared.merge.MergeFault.{MergeFault};
ghost use Rattle.cvr_run.specs.declared.status.Status.TheVariants.{Memory as NoMemory};
ghost use Rattle.cvr_words.specs.declared.request.Task.TheVariants.{Check, Drill};

use crate::collecting::{Collected, Counted, Gathered, take_all};
use crate::drilling::run_drill;
use crate::ending::{end_in_memory, end_with};
use crate::given::Files;
use crate::happened::Happened;
use crate::memory_files::MemoryFiles;
use crate::noting::note_refused;
use crate::opening::Open;
use crate::printing::{count_several, print_office, print_text};
use crate::refusals::Refusals;
use crate::status::Status;
use cdf_check::Definition;
use cdf_types::{Body, ReadFault, Sink};
use cvr_office::{Cause, Office, Outcome};
use cvr_words::{Request, Step, Task};
use std::alloc::Global;

// Reports the refused files in the log. The status of a run for which memory ran out, where it did
// for one of them.
fn note_files<L: Sink>(
    alloc: Global,
    paths: &[Body],
    outcomes: &[Outcome],
    log: &mut L,
) -> Result<Refusals, Status>
    requires { length paths.now ≡ length outcomes.now }
    ensures any_refusal { IfOk result (λ r. (definition : Frame) (files : List (List ℕ))
        → AreDue (file_dues definition files) outcomes.now
        → r.any_refusal ≡ list_any (is_refused definition) files) }
    ensures whole { IfOk result (λ r. r.file_lacking ≡ false) }
    ensures working { IfOk result (λ _. list_any is_want outcomes.now ≡ false) }
    ensures log { IfOk result (λ r. (definition : Frame) (files : List (List ℕ))
        → AreDue (file_dues definition files) outcomes.now
        → LogsFirst (import_dues definition paths.now files) (length files) r
        (L.taken log.old) (L.taken log.new)) }
    ensures status { IfErr result (λ s. s ≡ NoMemory) }
    ensures cut_short { OnErr result ((definition : Frame) (files : List (List ℕ))
        (fault : Option MergeFault) → AreDue (file_dues definition files) outcomes.now
        → LogsSome (IsCutShort (import_dues definition paths.now files) fault false)
        (L.taken log.old) (L.taken log.new)) }
{
    let refusals = note_refused(alloc, paths, outcomes, log);
    if refusals.file_lacking {
        return Err(Status::Memory);
    }
    Ok(refusals)
}

// Reports the refused files, and prints the text of the office that took the others.
fn end_office<C: Office, W: Sink, L: Sink>(
    alloc: Global,
    office: &C,
    task: &Task,
    paths: &[Body],
    outcomes: &[Outcome],
    out: &mut W,
    log: &mut L,
) -> Status
    requires working { (W.taken out.old).failed ≡ false }
    requires named { length paths.now ≡ length outcomes.now }
    ensures ran { (definition : Frame) (files : List (List ℕ)) → C.defined office.now ≡ definition
        → AreTaken definition paths.now files outcomes.now
        (C.held office.now ≡ content_of_files definition files)
        → RanOver (facts_text definition task.now (content_of_files definition files))
        (files_refused definition task.now files)
        (import_dues definition paths.now files)
        (task_fault definition task.now files) result
        (record { out = W.taken out.old; log = L.taken log.old })
        (record { out = W.taken out.new; log = L.taken log.new }) }
    ensures lacking { result ≢ NoMemory → list_any is_want outcomes.now ≡ false }
{
    match note_files(alloc, paths, outcomes, log) {
        Ok(refusals) => {
            let printed = print_office(alloc, office, task, out);
            end_with(printed, refusals, log)
        }
        Err(status) => status,
    }
}

// Prints the text of one office with all files that aren't refused.
fn run_office<C: Office + Drop, O: Open, W: Sink, L: Sink>(
    alloc: Global,
    definition: Definition,
    task: &Task,
    paths: &[Body],
    from: Files<'_>,
    opener: &mut O,
    out: &mut W,
    log: &mut L,
    happened: &mut Happened,
) -> Status
    requires working { (W.taken out.old).failed ≡ false }
    requires many { AreAsMany from paths.now }
    ensures ran { StopsOr from.entry paths.now result
        (record { opener = O.state opener.old; out = W.taken out.old; log = L.taken log.old })
        (record { opener = O.state opener.new; out = W.taken out.new; log = L.taken log.new })
        (out.new ≡ out.old)
        (λ files. RanOver
        (facts_text definition task.now (content_of_files definition files))
        (files_refused definition task.now files)
        (import_dues definition paths.now files)
        (task_fault definition task.now files) result
        (record { out = W.taken out.old; log = L.taken log.old })
        (record { out = W.taken out.new; log = L.taken log.new })) }
    ensures happened { HadWhole from.entry paths.now result
        (O.state opener.old) (O.state opener.new) (λ files. AreNoted happened.new
        (import_dues definition paths.now files).dues (content_of_files definition files)) }
{
    let Ok(mut taker) = Collected::<C>::new(alloc, definition) else {
        return end_in_memory(log);
    };
    match take_all(alloc, &mut taker, from, opener, paths, log) {
        Ok(rs) => {
            let office = &taker.offices[0];
            let status = end_office(alloc, office, task, paths, rs.as_slice(), out, log);
            let several = count_several(alloc, office, task, happened.counts_several);
            happened.note(rs, several);
            status
        }
        Err(status) => status,
    }
}

// Reports the refused files, and prints the lines of the others.
fn end_check<W: Sink, L: Sink>(
    alloc: Global,
    text: &str,
    paths: &[Body],
    outcomes: &[Outcome],
    out: &mut W,
    log: &mut L,
) -> Status
    requires working { (W.taken out.old).failed ≡ false }
    requires named { length paths.now ≡ length outcomes.now }
    ensures ran { (definition : Frame) (files : List (List ℕ))
        → AreTaken definition paths.now files outcomes.now
        (text.now ≡ check_lines definition paths.now files)
        → RanBeside definition Check paths.now files result
        (record { out = W.taken out.old; log = L.taken log.old })
        (record { out = W.taken out.new; log = L.taken log.new }) }
    ensures lacking { result ≢ NoMemory → list_any is_want outcomes.now ≡ false }
{
    match note_files(alloc, paths, outcomes, log) {
        Ok(refusals) => end_with(print_text(text, out), refusals, log),
        Err(status) => status,
    }
}

// Prints the number of cast vote records of each accepted file.
fn run_check<O: Open, W: Sink, L: Sink>(
    alloc: Global,
    definition: Definition,
    paths: &[Body],
    from: Files<'_>,
    opener: &mut O,
    out: &mut W,
    log: &mut L,
    happened: &mut Happened,
) -> Status
    requires working { (W.taken out.old).failed ≡ false }
    requires many { AreAsMany from paths.now }
    ensures ran { StopsOr from.entry paths.now result
        (record { opener = O.state opener.old; out = W.taken out.old; log = L.taken log.old })
        (record { opener = O.state opener.new; out = W.taken out.new; log = L.taken log.new })
        (out.new ≡ out.old)
        (λ files. RanBeside definition Check paths.now files result
        (record { out = W.taken out.old; log = L.taken log.old })
        (record { out = W.taken out.new; log = L.taken log.new })) }
    ensures happened { HadWhole from.entry paths.now result
        (O.state opener.old) (O.state opener.new) (λ files. AreNoted happened.new
        (import_dues definition paths.now files).dues (content_of_files definition files)) }
{
    let mut taker = Counted {
        definition,
        text: String::new(alloc),
    };
    match take_all(alloc, &mut taker, from, opener, paths, log) {
        Ok(outcomes) => {
            let lines = taker.text.as_str();
            let status = end_check(alloc, lines, paths, outcomes.as_slice(), out, log);
            happened.note(outcomes, None);
            status
        }
        Err(status) => status,
    }
}

// Plays the steps of a drill once all files are read.
fn run_steps<C: Office + Drop, O: Open, W: Sink, L: Sink>(
    alloc: Global,
    definition: &Definition,
    paths: &[Body],
    count: u32,
    steps: &[Step],
    from: Files<'_>,
    opener: &mut O,
    out: &mut W,
    log: &mut L,
    happened: &mut Happened,
) -> Status
    requires working { (W.taken out.old).failed ≡ false }
    requires many { AreAsMany from paths.now }
    ensures ran { StopsOr from.entry paths.now result
        (record { opener = O.state opener.old; out = W.taken out.old; log = L.taken log.old })
        (record { opener = O.state opener.new; out = W.taken out.new; log = L.taken log.new })
        (out.new ≡ out.old)
        (λ files. RanBeside definition.now (Drill count steps.now) paths.now files result
        (record { out = W.taken out.old; log = L.taken log.old })
        (record { out = W.taken out.new; log = L.taken log.new })) }
    ensures happened { HadWhole from.entry paths.now result
        (O.state opener.old) (O.state opener.new) (λ files. AreNoted happened.new
        (drill_dues definition.now count files steps.now).dues
        (content_of_files definition.now files)) }
{
    let mut taker = Gathered {
        files: Vec::new(alloc),
    };
    match take_all(alloc, &mut taker, from, opener, paths, log) {
        Ok(_) => run_drill::<C, W, L>(
            alloc,
            definition,
            count as usize,
            steps,
            taker.files.as_slice(),
            out,
            log,
            happened,
        ),
        Err(status) => status,
    }
}

/// Does a task beside a definition.
pub fn run_task<C: Office + Drop, O: Open, W: Sink, L: Sink>(
    alloc: Global,
    definition: Definition,
    task: &Task,
    paths: &[Body],
    from: Files<'_>,
    opener: &mut O,
    out: &mut W,
    log: &mut L,
    happened: &mut Happened,
) -> Status
    requires working { (W.taken out.old).failed ≡ false }
    requires many { AreAsMany from paths.now }
    ensures ran { StopsOr from.entry paths.now result
        (record { opener = O.state opener.old; out = W.taken out.old; log = L.taken log.old })
        (record { opener = O.state opener.new; out = W.taken out.new; log = L.taken log.new })
        (out.new ≡ out.old)
        (λ files. RanBeside definition task.now paths.now files result
        (record { out = W.taken out.old; log = L.taken log.old })
        (record { out = W.taken out.new; log = L.taken log.new })) }
    ensures happened { HadWhole from.entry paths.now result
        (O.state opener.old) (O.state opener.new) (λ files. AreNoted happened.new
        (task_dues definition task.now paths.now files).dues (content_of_files definition files)) }
{
    match task {
        Task::Currents | Task::Conflicts | Task::Tally | Task::Merge { .. } => {
            run_office::<C, O, W, L>(
                alloc, definition, task, paths, from, opener, out, log, happened,
            )
        }
        Task::Check => run_check(alloc, definition, paths, from, opener, out, log, happened),
        Task::Drill { offices, steps } => run_steps::<C, O, W, L>(
            alloc,
            &definition,
            paths,
            *offices,
            steps.as_slice(),
            from,
            opener,
            out,
            log,
            happened,
        ),
    }
}

/// Reports a definition that is refused. Nothing else is done.
pub fn refuse<L: Sink>(
    alloc: Global,
    request: &Request,
    fault: ReadFault,
    log: &mut L,
    happened: &mut Happened,
) -> Status
    ensures ran { (def : List ℕ) (files : List (List ℕ)) (out : Taken) → out.failed ≡ false
        → (¬ IsMemory fault → first_unsound def ≡ Some fault)
        → Ran (record { request = request.now; def = def; files = files }) result
        (record { out = out; log = L.taken log.old })
        (record { out = out; log = L.taken log.new }) }
    ensures happened { (def : List ℕ) (files : List (List ℕ)) → IsWhole result
        → (¬ IsMemory fault → first_unsound def ≡ Some fault)
        → Happens (record { request = request.now; def = def; files = files }) happened.new }
{
    let mut refusals = Refusals::none();
    let cause = Cause::Read(fault);
    refusals.note(alloc, log, request.def.as_str(), &cause);
    happened.refuse(alloc, cause);
    refusals.status()
}

/// Runs a request over the bytes of its definition and of its files, in the order of its paths.
pub fn run<C: Office + Drop, W: Sink, L: Sink>(
    alloc: Global,
    request: &Request,
    def: &[u8],
    files: &[Vec<u8>],
    out: &mut W,
    log: &mut L,
) -> Status
    requires working { (W.taken out.old).failed ≡ false }
    requires log_working { (L.taken log.old).failed ≡ false }
    requires named { length request.now.paths ≡ length files.now }
    ensures ran { Ran (record { request = request.now; def = def.now; files = files_of files.now })
        result
        (record { out = W.taken out.old; log = L.taken log.old })
        (record { out = W.taken out.new; log = L.taken log.new }) }
{
    let mut none = MemoryFiles { files: &[] };
    let mut happened = Happened::new(alloc, false);
    match Definition::read(alloc, def) {
        Err(fault) => refuse(alloc, request, fault, log, &mut happened),
        Ok(definition) => run_task::<C, MemoryFiles, W, L>(
            alloc,
            definition,
            &request.task,
            request.paths.as_slice(),
            Files::Lent(files),
            &mut none,
            out,
            log,
            &mut happened,
        ),
    }
}
