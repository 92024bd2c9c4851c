ghost use Rattle.std.specs.Prelude.{◌≡◌, ℕ, ◌<◌, ◌≢◌, ◌⊎◌, [], map, slice_index_or, length, OnErr};
ghost use Rattle.std.specs.Prelude.{IfOk};
ghost use Rattle.std.specs.FinSet.{empty};
ghost use Rattle.cdf_types.specs.declared.fault.ReadFault.TheVariants as read;
ghost use Rattle.cdf_definition.specs.Frame.{IsSame};
ghost use Rattle.cdf_definition.specs.Acceptance.{first_refusal};
ghost use Rattle.cvr_facts.specs.Reports.{facts};
ghost use Rattle.cvr_office.specs.declared.fault.JoinFault.TheVariants as join_fault;
ghost use Rattle.cvr_office.specs.Readers.{growth};
ghost use Rattle.cvr_office.specs.Reach.{content, history};
ghost use Rattle.cvr_office.specs.Alike.{AreNewOfOne, AreAlikeByFiles};
ghost use Rattle.cvr_office.specs.Outcomes.{IsOutcome, IsImportOutcome, IsExchangeOutcome};
ghost use Rattle.cvr_office.specs.Outcomes.{AreOutcomes, contents_after, held_after, due_outcome};

use crate::event::{Cause, Event, Outcome};
use crate::office::Office;
use cdf_types::Memory;
use std::alloc::Global;

/// Plays events in order, and answers the outcome of each. A refused event changes nothing, and the
/// next one follows.
///
/// Where the offices were new and of one definition (devices included), any two that the same files
/// have reached hold the same facts afterwards, whatever the events, and have the same current
/// snapshots with their votes, headers, conflicts and rows, and the same text of the tally. Files
/// are the same where their values are, as `serde_json` reads them, wherever they stand in the
/// list.
///
/// No clause says that any exchange takes place. Being out of memory may stand for an accepted
/// event or for the first cause of a file; never for a missing office or file, another definition,
/// or an exchange with itself.
///
/// # Errors
/// `Memory` where there was no room for the outcomes. No event has then happened.
pub fn play<O: Office>(
    alloc: Global,
    offices: &mut [O],
    files: &[Vec<u8>],
    events: &[Event],
) -> Result<Vec<Outcome>, Memory>
    ensures content { IfOk result
        (λ outcomes. (o : ℕ) → o < length offices.old
        → slice_index_or (map O.held offices.new) o empty
        ≡ content (map O.held offices.old) (map (λ f. f.items) files.now)
        (history events.now outcomes.items) o) }
    ensures count { IfOk result (λ outcomes. length outcomes.items ≡ length events.now) }
    ensures outcomes { IfOk result (λ outcomes.
        AreOutcomes (map O.held offices.old) (map O.defined offices.old)
        (map (λ f. f.items) files.now) (history events.now outcomes.items)) }
    ensures definitions { map O.defined offices.new ≡ map O.defined offices.old }
    ensures same_files { IfOk result (λ outcomes. AreNewOfOne O.held O.defined offices.old
        → AreAlikeByFiles O.held O.defined (map (λ f. f.items) files.now)
        (history events.now outcomes.items) offices.new) }
    ensures unchanged { OnErr result (offices.new ≡ offices.old) }
{
    let mut outcomes = Vec::with_capacity(alloc, events.len())?;
    for event in events {
        let outcome = happen(offices, files, *event);
        outcomes.push_reserved(outcome);
    }
    Ok(outcomes)
}

// One event.
fn happen<O: Office>(offices: &mut [O], files: &[Vec<u8>], event: Event) -> Outcome
    ensures contents { map O.held offices.new
        ≡ contents_after (map (λ f. f.items) files.now) event result (map O.held offices.old) }
    ensures definitions { map O.defined offices.new ≡ map O.defined offices.old }
    ensures outcome { IsOutcome (map O.defined offices.old) (map (λ f. f.items) files.now)
        (λ o. slice_index_or (map O.held offices.old) o empty) event result }
{
    match event {
        Event::Import { office, file } => import_at(offices, files, office, file),
        Event::Exchange { from, to } => exchange(offices, from, to),
    }
}

// An import, if the office and the file are there.
fn import_at<O: Office>(offices: &mut [O], files: &[Vec<u8>], office: usize, file: usize) -> Outcome
    ensures contents { map O.held offices.new
        ≡ contents_after (map (λ f. f.items) files.now) (Event.Import office file) result
        (map O.held offices.old) }
    ensures definitions { map O.defined offices.new ≡ map O.defined offices.old }
    ensures outcome { IsImportOutcome (map O.defined offices.old) (map (λ f. f.items) files.now)
        (λ o. slice_index_or (map O.held offices.old) o empty) office file result }
{
    if office >= offices.len() {
        return Outcome::Refused(Cause::NoOffice);
    }
    if file >= files.len() {
        return Outcome::Refused(Cause::NoFile);
    }
    import_into(&mut offices[office], &files[file])
}

// An exchange, if both offices are there. Nothing passes between an office and itself.
fn exchange<O: Office>(offices: &mut [O], from: usize, to: usize) -> Outcome
    ensures contents { map O.held offices.new
        ≡ contents_after [] (Event.Exchange from to) result (map O.held offices.old) }
    ensures definitions { map O.defined offices.new ≡ map O.defined offices.old }
    ensures outcome { IsExchangeOutcome (map O.defined offices.old)
        (λ o. slice_index_or (map O.held offices.old) o empty) from to result }
{
    if from >= offices.len() || to >= offices.len() {
        return Outcome::Refused(Cause::NoOffice);
    }
    if from == to {
        return Outcome::Accepted(0);
    }
    join_apart(offices, from, to)
}

// An exchange between two different offices.
fn join_apart<O: Office>(offices: &mut [O], from: usize, to: usize) -> Outcome
    requires from { from < length offices.old }
    requires to { to < length offices.old }
    requires apart { from ≢ to }
    ensures contents { map O.held offices.new
        ≡ contents_after [] (Event.Exchange from to) result (map O.held offices.old) }
    ensures definitions { map O.defined offices.new ≡ map O.defined offices.old }
    ensures outcome { IsExchangeOutcome (map O.defined offices.old)
        (λ o. slice_index_or (map O.held offices.old) o empty) from to result }
{
    if from < to {
        let (front, back) = offices.split_at_mut(to);
        join_into(&mut back[0], &front[from])
    } else {
        let (front, back) = offices.split_at_mut(from);
        join_into(&mut front[to], &back[0])
    }
}

// The import of a file, as an outcome.
fn import_into<O: Office>(office: &mut O, bytes: &[u8]) -> Outcome
    ensures content { O.held office.new ≡ held_after result (O.held office.old) (facts bytes.now) }
    ensures outcome { (result
        ≡ due_outcome (first_refusal (O.defined office.old) bytes.now)
        (growth (O.held office.old) (facts bytes.now)))
        ⊎ (result ≡ Outcome.Refused (Cause.Read read.Memory)) }
    ensures definition { O.defined office.new ≡ O.defined office.old }
{
    match office.import(bytes) {
        Ok(receipt) => Outcome::Accepted(receipt.new_facts),
        Err(fault) => Outcome::Refused(Cause::Read(fault)),
    }
}

// The join of another office's facts, as an outcome.
fn join_into<O: Office>(office: &mut O, other: &O) -> Outcome
    ensures content { O.held office.new ≡ held_after result (O.held office.old) (O.held other.now) }
    ensures other { ¬ IsSame (O.defined office.old) (O.defined other.now) → result
        ≡ Outcome.Refused (Cause.Join join_fault.OtherDefinition) }
    ensures same { IsSame (O.defined office.old) (O.defined other.now)
        → (result ≡ Outcome.Accepted (growth (O.held office.old) (O.held other.now)))
        ⊎ (result ≡ Outcome.Refused (Cause.Join join_fault.Memory)) }
    ensures definition { O.defined office.new ≡ O.defined office.old }
{
    match office.join(other) {
        Ok(new_facts) => Outcome::Accepted(new_facts),
        Err(fault) => Outcome::Refused(Cause::Join(fault)),
    }
}
