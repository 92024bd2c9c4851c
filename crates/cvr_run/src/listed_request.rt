ghost use Rattle.std.specs.Prelude.{◌≡◌, ◌≢◌, [], map, true, false, string_bytes, IfOk, IfSome};
ghost use Rattle.std.specs.Prelude.{IfNone, IfErr, IsTrue, ◌↔◌};
ghost use Rattle.cvr_words.specs.declared.fault.LoggedFault.TheVariants.{Memory as NoMemory};
ghost use Rattle.cvr_words.specs.declared.request.Request.{Request};
ghost use Rattle.cvr_words.specs.Line.{with_program};
ghost use Rattle.cvr_words.specs.Request.{IsRequest, takes_files};
ghost use Rattle.cvr_run.specs.Listed.{AsksListed, IsBefore, ListedRequest, list_words};

use crate::listing::Listing;
use cvr_words::{LoggedFault, Request, Task, read_line};
use std::alloc::Global;

// Whether the files of a request can stand in a list.
fn takes_list(request: &Request) -> bool
    ensures task { result ≡ true → takes_files request.now.task ≡ true }
    ensures none { result ≡ true → request.now.paths ≡ [] }
    ensures no { result ≡ false → takes_files request.now.task ≡ true → request.now.paths ≢ [] }
{
    match request.task {
        Task::Drill { .. } => false,
        _ => request.paths.as_slice().is_empty(),
    }
}

// Whether memory was refused for words.
fn is_memory(fault: &LoggedFault) -> bool
    ensures yes { result ≡ true → fault.now ≡ NoMemory }
    ensures no { result ≡ false → fault.now ≢ NoMemory }
{
    match fault {
        LoggedFault::Memory => true,
        _ => false,
    }
}

// The request that words ask for, if they ask for one. No fault but `Memory`.
fn request_of(alloc: Global, words: &[String]) -> Result<Option<Request>, LoggedFault>
    ensures some { IfOk result (λ found. IfSome found
        (λ request. IsRequest (with_program (map string_bytes words.now)) request)) }
    ensures none { IfOk result (λ found. IfNone found
        ((request : Request) → ¬ IsRequest (with_program (map string_bytes words.now)) request)) }
    ensures memory { IfErr result (λ fault. fault ≡ NoMemory) }
{
    match read_line(alloc, words) {
        Ok(request) => Ok(Some(request)),
        Err(fault) => {
            if is_memory(&fault) {
                Err(fault)
            } else {
                Ok(None)
            }
        }
    }
}

// Whether words ask for a request. No fault but `Memory`.
fn is_request(alloc: Global, words: &[String]) -> Result<bool, LoggedFault>
    ensures is { IfOk result (λ is. IsTrue is ↔ ((request : Request)
        × IsRequest (with_program (map string_bytes words.now)) request)) }
    ensures memory { IfErr result (λ fault. fault ≡ NoMemory) }
{
    Ok(request_of(alloc, words)?.is_some())
}

// A request whose files can stand in a list.
fn with_list(request: Request) -> Option<Request>
    ensures some { IfSome result (λ found. (found ≡ request)
        × (takes_files request.task ≡ true) × (request.paths ≡ [])) }
    ensures none { IfNone result (takes_files request.task ≡ true → request.paths ≢ []) }
{
    if takes_list(&request) {
        Some(request)
    } else {
        None
    }
}

/// The request that words ask for with a list, if they ask for one: as they stand they ask for
/// none, and those before the list ask for it, without files.
///
/// # Errors
/// `Memory` where a growth was refused.
pub fn listed_request(
    alloc: Global,
    words: &[String],
    listing: &Listing<'_>,
) -> Result<Option<Request>, LoggedFault>
    requires short { IsBefore (map string_bytes listing.now.before.now) }
    requires words { map string_bytes words.now
        ≡ list_words (map string_bytes listing.now.before.now) listing.now.list.now
        listing.now.by_null }
    ensures some { IfOk result (λ found. IfSome found (λ request.
        AsksListed (map string_bytes words.now) (record {
          request = request;
          list = listing.now.list.now;
          by_null = listing.now.by_null;
        }))) }
    ensures none { IfOk result (λ found. IfNone found
        ((asked : ListedRequest) → ¬ AsksListed (map string_bytes words.now) asked)) }
    ensures memory { IfErr result (λ fault. fault ≡ NoMemory) }
{
    if is_request(alloc, words)? {
        return Ok(None);
    }
    match request_of(alloc, listing.before)? {
        Some(request) => Ok(with_list(request)),
        None => Ok(None),
    }
}
