ghost use Rattle.std.specs.Prelude.{◌≡◌, ◌++◌, ◌∷◌, [], ℕ, List, false, true, string_bytes};
ghost use Rattle.std.specs.Prelude.{IfOk, IfErr, OnOk, map};
ghost use Rattle.std.specs.FinSet.{union};
ghost use Rattle.cdf_definition.specs.Acceptance.{first_refusal};
ghost use Rattle.cdf_definition.specs.Frame.{Frame};
ghost use Rattle.cvr_fact_types.specs.Facts.{Facts};
ghost use Rattle.cvr_office.specs.declared.event.Outcome.{Outcome};
ghost use Rattle.cvr_run.specs.Given.{AreAsMany, AreHad, StopsAmong};
ghost use Rattle.cvr_run.specs.Outcome.{accepted_facts, check_lines, content_of_files, files_of};
ghost use Rattle.cvr_run.specs.Refusals.{cause_in, file_due, is_want, IsDue};
ghost use Rattle.cvr_run.specs.Taken.{AreTaken};
ghost use Rattle.cvr_run.specs.Logged.{LogsSome};

use crate::check::push_count;
use crate::ending::end_in_memory;
use crate::given::Files;
use crate::opening::Open;
use crate::reading::count_records;
use crate::status::Status;
use cdf_check::Definition;
use cdf_types::{Body, Memory, Sink};
use cvr_office::{Cause, Event, Office, Outcome, play};
use std::alloc::Global;

/// What a run does with each of its files.
pub trait Take {
    // what it is after it took these files, at these paths and with these outcomes, beside a
    // definition
    ghost took: { Self → Frame → List (List ℕ) → List (List ℕ) → List Outcome → Type 0 };

    /// Takes the next file.
    ///
    /// # Errors
    /// `Memory` where there was no room for what is kept of it.
    fn take(&mut self, alloc: Global, path: &str, file: &Vec<u8>) -> Result<Outcome, Memory>
        ensures { IfOk result (λ r. (definition : Frame) (paths files : List (List ℕ))
            (rs : List Outcome) → took self.old definition paths files rs
            → took self.new definition (paths ++ path.now ∷ []) (files ++ file.now.items ∷ [])
            (rs ++ r ∷ [])) };
}

/// Takes no file: each is read all the same.
#[derive(Drop)]
pub struct Ignored;

impl Take for Ignored {
    ghost took = { λ _ _ _ _ _. Unit {0} };

    fn take(&mut self, _alloc: Global, _path: &str, _file: &Vec<u8>) -> Result<Outcome, Memory> {
        Ok(Outcome::Accepted(0))
    }
}

/// Keeps all files.
#[derive(Drop)]
pub struct Gathered {
    /// Their bytes, in order.
    pub files: Vec<Vec<u8>>,
}

impl Take for Gathered {
    ghost took = { λ gathered _ _ files _. files_of gathered.files.items ≡ files };

    fn take(&mut self, alloc: Global, _path: &str, file: &Vec<u8>) -> Result<Outcome, Memory> {
        let mut bytes = Vec::new(alloc);
        bytes.extend_from_slice(file.as_slice())?;
        self.files.push(bytes)?;
        Ok(Outcome::Accepted(0))
    }
}

/// Counts the cast vote records of each file that isn't refused.
#[derive(Drop)]
pub struct Counted {
    /// The definition.
    pub definition: Definition,
    /// The lines of the files.
    pub text: String,
}

impl Take for Counted {
    ghost took = { λ counted definition paths files rs. (counted.definition ≡ definition)
        × AreTaken definition paths files rs
        (string_bytes counted.text ≡ check_lines definition paths files) };

    fn take(&mut self, alloc: Global, path: &str, file: &Vec<u8>) -> Result<Outcome, Memory> {
        match count_records(alloc, &self.definition, file.as_slice()) {
            Ok(records) => {
                push_count(&mut self.text, path, records)?;
                Ok(Outcome::Accepted(0))
            }
            Err(fault) => Ok(Outcome::Refused(Cause::Read(fault))),
        }
    }
}

/// Collects the files that aren't refused in one office.
#[derive(Drop)]
pub struct Collected<C> {
    /// The only office, where `play` can reach it.
    pub offices: Vec<C>,
}

// Plays the import of a file into the only office.
fn import_one<C: Office>(alloc: Global, office: &mut [C], file: &Vec<u8>) -> Result<Outcome, Memory>
    ensures definition { map C.defined office.new ≡ map C.defined office.old }
    ensures content { IfOk result (λ r. (definition : Frame) (before : Facts)
        → map C.defined office.old ≡ definition ∷ [] → map C.held office.old ≡ before ∷ []
        → is_want r ≡ false → map C.held office.new
        ≡ union before (accepted_facts definition file.now.items) ∷ []) }
    ensures due { IfOk result (λ r. (definition : Frame)
        → map C.defined office.old ≡ definition ∷ []
        → IsDue (file_due (first_refusal definition file.now.items)) (cause_in r)) }
{
    let import = Event::Import { office: 0, file: 0 };
    let mut outcomes = play(alloc, office, std::slice::from_ref(file), &[import])?;
    Ok(outcomes.swap_remove(0))
}

impl<C: Office + Drop> Collected<C> {
    ghost use Rattle.std.specs.Prelude.{◌≡◌, ◌∷◌, [], map, IfOk};
    ghost use Rattle.cvr_office.specs.CanHold.{starting_content};

    /// A new office of a definition, which has taken no file.
    ///
    /// # Errors
    /// `Memory` where it had no room.
    pub fn new(alloc: Global, definition: Definition) -> Result<Collected<C>, Memory>
        ensures definition { IfOk result (λ r. map C.defined r.offices.items ≡ definition ∷ []) }
        ensures content { IfOk result
            (λ r. map C.held r.offices.items ≡ starting_content definition ∷ []) }
    {
        let mut offices = Vec::with_capacity(alloc, 1)?;
        offices.push_reserved(C::new(alloc, definition)?);
        Ok(Collected { offices })
    }
}

impl<C: Office> Take for Collected<C> {
    ghost took = { λ collected definition paths files rs.
        (map C.defined collected.offices.items ≡ definition ∷ [])
        × AreTaken definition paths files rs
        (map C.held collected.offices.items ≡ content_of_files definition files ∷ []) };

    fn take(&mut self, alloc: Global, _path: &str, file: &Vec<u8>) -> Result<Outcome, Memory> {
        import_one(alloc, self.offices.as_mut_slice(), file)
    }
}

// Takes a file, and keeps its outcome behind the others.
fn take_one<T: Take>(
    alloc: Global,
    taker: &mut T,
    path: &str,
    file: &Vec<u8>,
    outcomes: &mut Vec<Outcome>,
) -> Result<(), Memory>
    ensures { OnOk result ((definition : Frame) (paths files : List (List ℕ))
        → T.took taker.old definition paths files outcomes.old.items
        → T.took taker.new definition (paths ++ path.now ∷ []) (files ++ file.now.items ∷ [])
        outcomes.new.items) }
{
    let outcome = taker.take(alloc, path, file)?;
    outcomes.push(outcome)?;
    Ok(())
}

/// Reads one file after the other, and has each taken before the next is read. Answers their
/// outcomes, in order. Where a file isn't read the log says so, and none is read after it.
///
/// # Errors
/// The status of a run that stops there, or where memory ran out.
pub fn take_all<T: Take, O: Open, L: Sink>(
    alloc: Global,
    taker: &mut T,
    from: Files<'_>,
    opener: &mut O,
    paths: &[Body],
    log: &mut L,
) -> Result<Vec<Outcome>, Status>
    requires { AreAsMany from paths.now }
    ensures taken { IfOk result (λ rs. (definition : Frame) → T.took taker.old definition [] [] []
        → (files : List (List ℕ))
        × AreHad from.entry (O.state opener.old) (O.state opener.new) paths.now files
        × T.took taker.new definition paths.now files rs.items) }
    ensures quiet { OnOk result (log.new ≡ log.old) }
    ensures stops { IfErr result (λ status. LogsSome
        (StopsAmong from.entry (O.state opener.old) (O.state opener.new) paths.now status)
        (L.taken log.old) (L.taken log.new)) }
{
    let mut bytes = Vec::new(alloc);
    let mut outcomes = Vec::new(alloc);
    for (place, path) in paths.iter().enumerate() {
        let path = path.as_str();
        from.fill(opener, path, &mut bytes, log)?;
        let file = from.at(place, &bytes);
        match take_one(alloc, taker, path, file, &mut outcomes) {
            Ok(()) => {}
            Err(_) => return Err(end_in_memory(log)),
        }
    }
    Ok(outcomes)
}
