ghost use Rattle.std.specs.Prelude.{◌≡◌, false, length, map, replicate, Option, None, IfOk, IfErr};
ghost use Rattle.std.specs.Prelude.{List, option_map, OnOk, OnErr};
ghost use Rattle.std.specs.List.{list_any};
ghost use Rattle.cvr_fact_types.specs.Facts.{Facts};
ghost use Rattle.cvr_office.specs.declared.event.Event.{Event};
ghost use Rattle.cvr_run.specs.Drill.{place_of, event_of, events_of, new_offices, drill_refused};
ghost use Rattle.cvr_run.specs.Drill.{drill_text, drill_contents, step_texts, AreOfOne};
ghost use Rattle.cvr_run.specs.declared.status.Status.TheVariants.{Memory as NoMemory};
ghost use Rattle.cvr_run.specs.declared.merge.MergeFault.{MergeFault};
ghost use Rattle.cvr_run.specs.Ends.{Ends};
ghost use Rattle.cvr_run.specs.Happened.{AreNoted};
ghost use Rattle.cvr_run.specs.Outcome.{files_of, IsWhole};
ghost use Rattle.cvr_run.specs.Refusals.{cause_in, is_refusal, is_want, AreDue, Due};
ghost use Rattle.cvr_run.specs.Logged.{drill_dues, LogsFirst, LogsRun, IsCutShort, LogsSome};

use crate::ending::{end_in_memory, end_with};
use crate::happened::Happened;
use crate::noting::note_refused;
use crate::offices::print_offices;
use crate::refusals::Refusals;
use crate::status::Status;
use cdf_check::Definition;
use cdf_types::{Memory, Sink};
use cvr_office::{Event, Office, play};
use cvr_words::{Act, Step};
use std::alloc::Global;

// The place of the office with this number among this many; that of office 0 is above the last.
fn place_of(offices: usize, number: u32) -> usize
    ensures { result ≡ place_of offices number }
{
    if number == 0 {
        return offices;
    }
    (number - 1) as usize
}

// What a step does among this many offices.
fn event_of(offices: usize, act: Act) -> Event
    ensures { result ≡ event_of offices act }
{
    match act {
        Act::Import { office, path } => Event::Import {
            office: place_of(offices, office),
            file: path,
        },
        Act::Exchange { from, to } => Event::Exchange {
            from: place_of(offices, from),
            to: place_of(offices, to),
        },
    }
}

// What the steps do, in order.
fn events_of(alloc: Global, offices: usize, steps: &[Step]) -> Result<Vec<Event>, Memory>
    ensures { IfOk result (λ events. events.items ≡ events_of offices steps.now) }
{
    let mut events = Vec::new(alloc);
    for step in steps {
        events.push(event_of(offices, step.act))?;
    }
    Ok(events)
}

// This many new offices of one definition.
#[tactic(auto, using(crate::proofs::SameOffices::replicate_more))]
fn new_offices<O: Office + Drop>(
    alloc: Global,
    definition: &Definition,
    count: usize,
) -> Result<Vec<O>, Memory>
    ensures held { IfOk result
        (λ offices. map O.held offices.items ≡ new_offices definition.now count) }
    ensures defined { IfOk result
        (λ offices. map O.defined offices.items ≡ replicate count definition.now) }
{
    let mut offices = Vec::new(alloc);
    let mut made = 0;
    'offices: while made < count {
        let copy = definition.copy(alloc)?;
        offices.push(O::new(alloc, copy)?)?;
        made += 1;
    }
    Ok(offices)
}

// Plays steps among this many new offices of one definition, in order, and reports each refused one
// in the log. The next one follows all the same. `Memory` where the offices or the lists of events
// and their outcomes had no room: no step has then happened.
fn drill<O: Office + Drop, L: Sink>(
    alloc: Global,
    definition: &Definition,
    count: usize,
    steps: &[Step],
    files: &[Vec<u8>],
    log: &mut L,
    happened: &mut Happened,
) -> Result<(Vec<O>, Refusals), Memory>
    ensures of_one { IfOk result (λ r. AreOfOne (map O.defined r.0.items)) }
    ensures contents { IfOk result (λ r. r.1.file_lacking ≡ false
        → map O.held r.0.items
        ≡ drill_contents definition.now count (files_of files.now) steps.now) }
    ensures any_refusal { IfOk result (λ r. r.1.file_lacking ≡ false
        → r.1.any_refusal ≡ drill_refused definition.now count (files_of files.now) steps.now) }
    ensures log { IfOk result (λ r. LogsFirst
        (drill_dues definition.now count (files_of files.now) steps.now) (length steps.now) r.1
        (L.taken log.old) (L.taken log.new)) }
    ensures happened { IfOk result (λ r. r.1.file_lacking ≡ false
        → (facts : Facts) → AreNoted happened.new
        (drill_dues definition.now count (files_of files.now) steps.now).dues facts) }
    ensures unchanged { OnErr result (log.new ≡ log.old) }
{
    let mut offices = new_offices::<O>(alloc, definition, count)?;
    let events = events_of(alloc, count, steps)?;
    let outcomes = play(alloc, offices.as_mut_slice(), files, events.as_slice())?;
    let refusals = note_refused(alloc, steps, outcomes.as_slice(), log);
    happened.note(outcomes, None);
    Ok((offices, refusals))
}

// The offices after all steps that aren't refused, or the status of a run for which memory ran out.
fn drill_all<O: Office + Drop, L: Sink>(
    alloc: Global,
    definition: &Definition,
    count: usize,
    steps: &[Step],
    files: &[Vec<u8>],
    log: &mut L,
    happened: &mut Happened,
) -> Result<(Vec<O>, Refusals), Status>
    ensures of_one { IfOk result (λ r. AreOfOne (map O.defined r.0.items)) }
    ensures contents { IfOk result (λ r.
        map O.held r.0.items ≡ drill_contents definition.now count (files_of files.now) steps.now) }
    ensures any_refusal { IfOk result (λ r.
        r.1.any_refusal ≡ drill_refused definition.now count (files_of files.now) steps.now) }
    ensures whole { IfOk result (λ r. r.1.file_lacking ≡ false) }
    ensures status { IfErr result (λ s. s ≡ NoMemory) }
    ensures log { IfOk result (λ r. LogsFirst
        (drill_dues definition.now count (files_of files.now) steps.now) (length steps.now) r.1
        (L.taken log.old) (L.taken log.new)) }
    ensures happened { OnOk result ((facts : Facts) → AreNoted happened.new
        (drill_dues definition.now count (files_of files.now) steps.now).dues facts) }
    ensures cut_short { OnErr result ((fault : Option MergeFault) → LogsSome
        (IsCutShort (drill_dues definition.now count (files_of files.now) steps.now) fault false)
        (L.taken log.old) (L.taken log.new)) }
{
    let made = drill::<O, L>(alloc, definition, count, steps, files, log, happened);
    let Ok((offices, refusals)) = made else {
        return Err(end_in_memory(log));
    };
    if refusals.file_lacking {
        return Err(Status::Memory);
    }
    Ok((offices, refusals))
}

/// Prints what each of several offices holds after all steps that aren't refused.
pub fn run_drill<O: Office + Drop, W: Sink, L: Sink>(
    alloc: Global,
    definition: &Definition,
    count: usize,
    steps: &[Step],
    files: &[Vec<u8>],
    out: &mut W,
    log: &mut L,
    happened: &mut Happened,
) -> Status
    requires { (W.taken out.old).failed ≡ false }
    ensures ends { Ends (W.taken out.old) (W.taken out.new)
        (drill_text definition.now count (files_of files.now) steps.now)
        (drill_refused definition.now count (files_of files.now) steps.now) result }
    ensures log { LogsRun (drill_dues definition.now count (files_of files.now) steps.now) None
        result
        (record { out = W.taken out.old; log = L.taken log.old })
        (record { out = W.taken out.new; log = L.taken log.new }) }
    ensures happened { IsWhole result → (facts : Facts) → AreNoted happened.new
        (drill_dues definition.now count (files_of files.now) steps.now).dues facts }
{
    match drill_all::<O, L>(alloc, definition, count, steps, files, log, happened) {
        Ok((offices, refusals)) => {
            let printed = print_offices(alloc, offices.as_slice(), out);
            end_with(printed, refusals, log)
        }
        Err(status) => status,
    }
}
