ghost use Rattle.std.specs.Prelude.{◌≡◌, ◌≢◌, ◌⊎◌, IfOk, IfErr, IfSome, None, string_bytes};
ghost use Rattle.std.specs.Prelude.{MatchResult};
ghost use Rattle.cdf_types.specs.declared.fault.ReadFault.TheVariants.{Memory as NoMemory};
ghost use Rattle.cdf_form.specs.Reading.{IsMemory};
ghost use Rattle.cdf_definition.specs.Acceptance.{first_refusal, first_unsound};
ghost use Rattle.cdf_definition.specs.Frame.{IsSame};
ghost use Rattle.cvr_office.specs.Names.{conflicts};
ghost use Rattle.cvr_office.specs.Tallied.{tally};
ghost use Rattle.cvr_run.specs.Currents.{conflict_text, currents};
ghost use Rattle.cvr_call.specs.Handle.{Beside, Does, no_office};
ghost use Rattle.cvr_call.specs.Offices.{IsAnswered, IsNew, Joined, Shows, ShowsUnless};
ghost use Rattle.cvr_call.specs.Offices.{LeavesFault, LeavesFirst, TookIn};
ghost use Rattle.cvr_call.specs.Offices.{done, other_definition, refused};
ghost use Rattle.cvr_call.specs.Left.{no_memory, no_room};

use crate::call::{answer_code, put};
use crate::office::CvrOffice;
use crate::refusal::{CvrRefusal, leave_refusal};
use cdf_check::Definition;
use cdf_types::{Memory, ReadFault};
use cvr_cached::CachedOffice;
use cvr_cli::{Status, conflicts_text, currents_text};
use cvr_office::{JoinFault, Office};
use std::alloc::Global;

// The status of a call on a handle without an office.
pub const NO_OFFICE: u8 = 7;

// The status of a join of offices whose definitions differ.
const OTHER_DEFINITION: u8 = 8;

/// What an import brought.
#[repr(C)]
pub struct CvrReceipt {
    /// The cast vote records of the file.
    pub cvrs: usize,
    /// The facts that were new.
    pub new_facts: usize,
}

// The office of a definition, which a file holds.
fn new_office(alloc: Global, definition: &[u8]) -> Result<Box<CachedOffice>, ReadFault>
    ensures new { IfOk result (λ held. IsNew definition.now held.value) }
    ensures first { IfErr result (λ e. ¬ IsMemory e → first_unsound definition.now ≡ Some e) }
{
    let definition = Definition::read(alloc, definition)?;
    let office = CachedOffice::new(alloc, definition)?;
    Ok(Box::new(alloc, office)?)
}

/// Makes an office, in a handle that has none or another, which is freed. Its definition is any
/// report that has no fault by itself. Answers 0; 1 where the definition is refused; and 4 where a
/// growth was refused. Where it isn't 0, the handle stays as it was.
#[unsafe(no_mangle)]
pub extern "C" fn cvr_office_new(
    alloc: Global,
    office: &mut CvrOffice,
    definition: &[u8],
    path: &mut [u8],
    refusal: &mut CvrRefusal,
) -> u8
    ensures made { result ≡ done → IfSome office.new.office (IsNew definition.now) }
    ensures there { result ≡ done → office.new.office ≢ None }
    ensures fault { result ≡ refused
        → LeavesFirst (first_unsound definition.now) path.old path.new refusal.new }
    ensures memory { result ≡ no_memory → LeavesFault NoMemory path.old path.new refusal.new }
    ensures unchanged { result ≢ done → office.new.office ≡ office.old.office }
    ensures quiet { result ≡ done → (path.new ≡ path.old) × (refusal.new ≡ refusal.old) }
    ensures answered { IsAnswered refused result }
{
    match new_office(alloc, definition) {
        Ok(held) => {
            office.put(held);
            Status::Done.code()
        }
        Err(fault) => leave_refusal(&fault, path, refusal),
    }
}

// Has an office take in a file.
fn import_into(
    office: &mut CachedOffice,
    file: &[u8],
    receipt: &mut CvrReceipt,
    path: &mut [u8],
    refusal: &mut CvrRefusal,
) -> u8
    ensures took_in { result ≡ done → TookIn file.now receipt.new office.old office.new }
    ensures fault { result ≡ refused → LeavesFirst
        (first_refusal office.old.content.frame file.now) path.old path.new refusal.new }
    ensures memory { result ≡ no_memory → LeavesFault NoMemory path.old path.new refusal.new }
    ensures unchanged { result ≢ done → office.new.content.facts ≡ office.old.content.facts }
    ensures definition { office.new.content.frame ≡ office.old.content.frame }
    ensures same { result ≢ done → receipt.new ≡ receipt.old }
    ensures quiet { result ≡ done → (path.new ≡ path.old) × (refusal.new ≡ refusal.old) }
    ensures answered { IsAnswered refused result }
{
    match office.import(file) {
        Ok(found) => {
            receipt.cvrs = found.cvrs;
            receipt.new_facts = found.new_facts;
            Status::Done.code()
        }
        Err(fault) => leave_refusal(&fault, path, refusal),
    }
}

/// Has the office take in a file. Answers 0; 1 where the file is refused; 4 where a growth was
/// refused; and 7 where the handle has no office. Where it isn't 0, the office stays as it was.
#[unsafe(no_mangle)]
pub extern "C" fn cvr_office_import(
    alloc: Global,
    office: &mut CvrOffice,
    file: &[u8],
    receipt: &mut CvrReceipt,
    path: &mut [u8],
    refusal: &mut CvrRefusal,
) -> u8
    ensures took_in { Does office.old.office office.new.office result
        (λ old new. result ≡ done → TookIn file.now receipt.new old new) }
    ensures fault { Does office.old.office office.new.office result
        (λ old new. result ≡ refused → LeavesFirst
        (first_refusal old.content.frame file.now) path.old path.new refusal.new) }
    ensures memory { result ≡ no_memory → LeavesFault NoMemory path.old path.new refusal.new }
    ensures unchanged { Does office.old.office office.new.office result
        (λ old new. result ≢ done → new.content.facts ≡ old.content.facts) }
    ensures definition { Does office.old.office office.new.office result
        (λ old new. new.content.frame ≡ old.content.frame) }
    ensures same { result ≢ done → receipt.new ≡ receipt.old }
    ensures quiet { (result ≡ done) ⊎ (result ≡ no_office)
        → (path.new ≡ path.old) × (refusal.new ≡ refusal.old) }
    ensures answered { Does office.old.office office.new.office result
        (λ old new. IsAnswered refused result) }
{
    let Some(mut held) = office.take(alloc) else {
        return NO_OFFICE;
    };
    let status = import_into(&mut held, file, receipt, path, refusal);
    office.put(held);
    status
}

// Has an office take in what another holds.
fn join_into(office: &mut CachedOffice, other: &CachedOffice, new_facts: &mut usize) -> u8
    ensures joined { result ≡ done → Joined other.now new_facts.new office.old office.new }
    ensures different { result ≡ other_definition
        → ¬ IsSame office.old.content.frame other.now.content.frame }
    ensures unchanged { result ≢ done → office.new.content.facts ≡ office.old.content.facts }
    ensures definition { office.new.content.frame ≡ office.old.content.frame }
    ensures same { result ≢ done → new_facts.new ≡ new_facts.old }
    ensures answered { IsAnswered other_definition result }
{
    match office.join(other) {
        Ok(found) => {
            *new_facts = found;
            Status::Done.code()
        }
        Err(JoinFault::OtherDefinition) => OTHER_DEFINITION,
        Err(JoinFault::Memory) => Status::Memory.code(),
    }
}

/// Has the office take in what the other holds, which stays as it is; `new_facts` says how many
/// facts were new. Answers 0; 4 where a growth was refused; 7 where a handle has no office; and 8
/// where the definitions differ. Where it isn't 0, the office stays as it was.
#[unsafe(no_mangle)]
pub extern "C" fn cvr_office_join_other(
    alloc: Global,
    office: &mut CvrOffice,
    other: &mut CvrOffice,
    new_facts: &mut usize,
) -> u8
    ensures joined { Does office.old.office office.new.office result
        (λ old new. Beside other.old.office result
        (λ theirs. result ≡ done → Joined theirs new_facts.new old new)) }
    ensures different { Does office.old.office office.new.office result
        (λ old new. Beside other.old.office result (λ theirs. result ≡ other_definition
        → ¬ IsSame old.content.frame theirs.content.frame)) }
    ensures unchanged { Does office.old.office office.new.office result
        (λ old new. result ≢ done → new.content.facts ≡ old.content.facts) }
    ensures definition { Does office.old.office office.new.office result
        (λ old new. new.content.frame ≡ old.content.frame) }
    ensures other { other.new.office ≡ other.old.office }
    ensures same { result ≢ done → new_facts.new ≡ new_facts.old }
    ensures answered { Does office.old.office office.new.office result (λ old new.
        Beside other.old.office result (λ theirs. IsAnswered other_definition result)) }
{
    let Some(mut held) = office.take(alloc) else {
        return NO_OFFICE;
    };
    let Some(theirs) = other.take(alloc) else {
        office.put(held);
        return NO_OFFICE;
    };
    let status = join_into(&mut held, &theirs, new_facts);
    office.put(held);
    other.put(theirs);
    status
}

/// Has the office take in what it holds itself: no fact is new. Answers 0; and 7 where the handle
/// has no office. C can't lend one handle twice, so this is a call of its own.
#[unsafe(no_mangle)]
pub extern "C" fn cvr_office_join_itself(
    alloc: Global,
    office: &mut CvrOffice,
    new_facts: &mut usize,
) -> u8
    ensures joined { Does office.old.office office.new.office result
        (λ old new. (result ≡ done) × Joined old new_facts.new old new) }
    ensures none { result ≡ done → new_facts.new ≡ 0 }
    ensures unchanged { office.new.office ≡ office.old.office }
    ensures same { result ≢ done → new_facts.new ≡ new_facts.old }
{
    let Some(held) = office.take(alloc) else {
        return NO_OFFICE;
    };
    office.put(held);
    *new_facts = 0;
    Status::Done.code()
}

/// Puts bytes into a room, with their length, and answers the status of the call.
pub fn leave_bytes(bytes: &[u8], room: &mut [u8], size: &mut usize) -> u8
    ensures { Shows bytes.now room.old room.new size.new result }
{
    *size = bytes.len();
    answer_code(Status::Done, put(bytes, room), true)
}

// Puts a text into a room, with its length, and answers the status of the call.
fn leave_text(handed_over: Result<String, Memory>, room: &mut [u8], size: &mut usize) -> u8
    ensures handed_over { MatchResult handed_over
        (λ text. Shows (string_bytes text) room.old room.new size.new result)
        (λ _. result ≡ no_memory) }
    ensures quiet { result ≢ done → result ≢ no_room
        → (room.new ≡ room.old) × (size.new ≡ size.old) }
{
    match handed_over {
        Ok(text) => leave_bytes(text.as_bytes(), room, size),
        Err(_) => Status::Memory.code(),
    }
}

/// The lines of the tally of what the office holds, with their length.
#[unsafe(no_mangle)]
pub extern "C" fn cvr_office_tally(
    alloc: Global,
    office: &mut CvrOffice,
    text: &mut [u8],
    size: &mut usize,
) -> u8
    ensures text { Does office.old.office office.new.office result
        (λ old new. ShowsUnless (tally old.content.frame.contests old.content.facts)
        text.old text.new size.new result) }
    ensures unchanged { office.new.office ≡ office.old.office }
    ensures quiet { result ≢ done → result ≢ no_room
        → (text.new ≡ text.old) × (size.new ≡ size.old) }
{
    let Some(held) = office.take(alloc) else {
        return NO_OFFICE;
    };
    let status = leave_text(held.tally_text(alloc), text, size);
    office.put(held);
    status
}

/// The lines of the current snapshots of what the office holds, with their length.
#[unsafe(no_mangle)]
pub extern "C" fn cvr_office_currents(
    alloc: Global,
    office: &mut CvrOffice,
    text: &mut [u8],
    size: &mut usize,
) -> u8
    ensures text { Does office.old.office office.new.office result
        (λ old new. ShowsUnless (currents old.content.facts) text.old text.new size.new result) }
    ensures unchanged { office.new.office ≡ office.old.office }
    ensures quiet { result ≢ done → result ≢ no_room
        → (text.new ≡ text.old) × (size.new ≡ size.old) }
{
    let Some(held) = office.take(alloc) else {
        return NO_OFFICE;
    };
    let status = leave_text(currents_text(alloc, &*held), text, size);
    office.put(held);
    status
}

// The lines of the conflicts of what an office holds.
fn conflict_lines(alloc: Global, office: &CachedOffice) -> Result<String, Memory>
    ensures { IfOk result
        (λ text. string_bytes text ≡ conflict_text (conflicts office.now.content.facts)) }
{
    let list = office.conflicts(alloc)?;
    conflicts_text(alloc, &list)
}

/// The lines of the names with several bodies in what the office holds, with their length.
#[unsafe(no_mangle)]
pub extern "C" fn cvr_office_conflicts(
    alloc: Global,
    office: &mut CvrOffice,
    text: &mut [u8],
    size: &mut usize,
) -> u8
    ensures text { Does office.old.office office.new.office result
        (λ old new. ShowsUnless (conflict_text (conflicts old.content.facts))
        text.old text.new size.new result) }
    ensures unchanged { office.new.office ≡ office.old.office }
    ensures quiet { result ≢ done → result ≢ no_room
        → (text.new ≡ text.old) × (size.new ≡ size.old) }
{
    let Some(held) = office.take(alloc) else {
        return NO_OFFICE;
    };
    let status = leave_text(conflict_lines(alloc, &held), text, size);
    office.put(held);
    status
}

/// Frees the office of a handle, which then has none.
#[unsafe(no_mangle)]
pub extern "C" fn cvr_office_drop(alloc: Global, office: &mut CvrOffice)
    ensures { office.new.office ≡ None }
{
    let _held = office.take(alloc);
}
