ghost use Rattle.std.specs.Prelude.{◌≡◌, ℕ, List, map, false, string_bytes};
ghost use Rattle.cvr_run.specs.Explained.{AsksCode};
ghost use Rattle.cvr_run.specs.Listed.{IsBefore, IsGivenEither, list_words};
ghost use Rattle.cvr_run.specs.OwnWords.{AsksVersion};
ghost use Rattle.cvr_run.specs.Responds.{NotesEach, Responds};

use crate::answering::work;
use crate::ending::end_in_memory;
use crate::explaining::{asked_code, explain};
use crate::happened::Happened;
use crate::listed::run_listed;
use crate::listed_request::listed_request;
use crate::listing::{Listing, listing_of};
use crate::opening::Open;
use crate::own_words::{asks_version, print_version};
use crate::status::Status;
use cdf_types::Sink;
use cvr_office::Office;
use std::alloc::Global;

// Does what words with a list ask for; where they don't ask for one, as `work`.
fn respond_listed<C: Office + Drop, O: Open, W: Sink, L: Sink>(
    alloc: Global,
    opener: &mut O,
    words: &[String],
    listing: &Listing<'_>,
    out: &mut W,
    log: &mut L,
    happened: &mut Happened,
) -> Status
    requires working { (W.taken out.old).failed ≡ false }
    requires log_working { (L.taken log.old).failed ≡ false }
    requires short { IsBefore (map string_bytes listing.now.before.now) }
    requires words { map string_bytes words.now
        ≡ list_words (map string_bytes listing.now.before.now) listing.now.list.now
        listing.now.by_null }
    requires no_version { ¬ AsksVersion (map string_bytes words.now) }
    requires no_code { (asked : List (List ℕ)) → ¬ AsksCode (map string_bytes words.now) asked }
    ensures responds { Responds (map string_bytes words.now) result
        (record { opener = O.state opener.old; out = W.taken out.old; log = L.taken log.old })
        (record { opener = O.state opener.new; out = W.taken out.new; log = L.taken log.new })
        (out.new ≡ out.old) }
    ensures happened { NotesEach
        (IsGivenEither (O.state opener.old).at (map string_bytes words.now)) result happened.new }
{
    match listed_request(alloc, words, listing) {
        Ok(Some(request)) => {
            run_listed::<C, O, W, L>(
                alloc,
                opener,
                request,
                listing.list,
                listing.by_null,
                out,
                log,
                happened,
            )
        }
        Ok(None) => work::<C, O, W, L>(alloc, opener, words, out, log, happened),
        Err(_) => end_in_memory(log),
    }
}

/// Does what the words after the program's name ask for.
pub fn respond<C: Office + Drop, O: Open, W: Sink, L: Sink>(
    alloc: Global,
    opener: &mut O,
    words: &[String],
    out: &mut W,
    log: &mut L,
    happened: &mut Happened,
) -> Status
    requires working { (W.taken out.old).failed ≡ false }
    requires log_working { (L.taken log.old).failed ≡ false }
    ensures responds { Responds (map string_bytes words.now) result
        (record { opener = O.state opener.old; out = W.taken out.old; log = L.taken log.old })
        (record { opener = O.state opener.new; out = W.taken out.new; log = L.taken log.new })
        (out.new ≡ out.old) }
    ensures happened { NotesEach
        (IsGivenEither (O.state opener.old).at (map string_bytes words.now)) result happened.new }
{
    if asks_version(words) {
        return print_version(out, log);
    }
    match asked_code(words) {
        Some(asked) => explain(asked, out, log),
        None => match listing_of(words) {
            Some(listing) => {
                respond_listed::<C, O, W, L>(alloc, opener, words, &listing, out, log, happened)
            }
            None => work::<C, O, W, L>(alloc, opener, words, out, log, happened),
        },
    }
}
