ghost use Rattle.std.specs.Prelude.{◌≡◌, ◌<◌, ◌^◌, ◌∷◌, ◌++◌, [], false, length, IfOk, List, None};
ghost use Rattle.std.specs.Prelude.{OnOk, option_map};
ghost use Rattle.serde_json.specs.Data.{Data};
ghost use Rattle.serde_json.specs.Written.{has_float};
ghost use Rattle.cdf_node.specs.Order.{IsSorted};
ghost use Rattle.cdf_node.specs.View.{view};
ghost use Rattle.cdf_form.specs.Form.{at_item, deeper_fault, first, float_faults};
ghost use Rattle.cdf_form.specs.Found.{fault_of};
ghost use Rattle.cdf_form.specs.Records.{cvr_faults};
ghost use Rattle.cdf_check.specs.Seen.{in_file, AreKept, IsSeen};

use crate::defaults::places_of_a_record;
use crate::keep::Keep;
use crate::record_names::RecordNames;
use cdf_definition::{Definition, names_own};
use cdf_form::float::find_float;
use cdf_form::found::{Found, Step, Stop};
use cdf_form::path::pointer;
use cdf_form::read::cvr_fault;
use cdf_node::Node;
use cdf_pull::Fold;
use cdf_types::{Body, Memory};
use std::alloc::{AllocError, Global};

/// What is seen of the records of a file, in order: what is worse replaces what is better.
#[derive(Drop)]
pub(crate) enum Seen<T> {
    /// None has a fault of numbers or form, and all that each names is the definition's or its own,
    /// devices, units and parties aside: these three, and what is kept of the typed records.
    Right(RecordNames, T),
    /// None has such a fault, and one names what is neither.
    Unsettled,
    /// Each number is whole: their first fault of form, from their array.
    Form(Found<'static>),
    /// The path of their first number that isn't whole, from the file.
    Fraction(Body),
}

/// Looks at each record of a file, beside a definition, and keeps what is to be kept of it.
pub(crate) struct Looks<'a, K: Keep> {
    pub(crate) definition: &'a Definition,
    pub(crate) keep: &'a K,
}

impl<K: Keep> Drop for Looks<'_, K> {
    fn drop(self) {
        let Looks {
            definition: _,
            keep: _,
        } = self;
    }
}

// A record's first fault of form, from the array of the records.
fn form_in(
    alloc: Global,
    place: usize,
    cvr: &Node<'_>,
) -> Result<Option<Found<'static>>, AllocError>
    requires { IsSorted (view cvr.now) }
    ensures { IfOk result (λ found. option_map fault_of found
        ≡ option_map (deeper_fault (at_item place)) (first (cvr_faults (view cvr.now)))) }
{
    match cvr_fault(alloc, cvr) {
        Ok(()) => Ok(None),
        Err(stop) => match stop.under(Step::Item(place)) {
            Stop::Memory(refused) => Err(refused.into()),
            Stop::Fault(found) => Ok(Some(Box::into_inner(found))),
        },
    }
}

// The path of a record's first number that isn't whole, from the file.
#[tactic(auto, using(cdf_form::proofs::Laws::no_float_faults))]
fn fraction_in(
    alloc: Global,
    place: usize,
    look: bool,
    cvr: &Node<'_>,
) -> Result<Option<Body>, AllocError>
    requires { look ≡ false → has_float (view cvr.now) ≡ false }
    ensures { IfOk result (λ path. path
        ≡ option_map (λ f. in_file (deeper_fault (at_item place) f))
        (first (float_faults (view cvr.now)))) }
{
    if !look {
        return Ok(None);
    }
    let Err(stop) = find_float(alloc, cvr) else {
        return Ok(None);
    };
    match stop.under(Step::Item(place)).under(Step::Member("CVR")) {
        Stop::Memory(refused) => Err(refused.into()),
        Stop::Fault(found) => Ok(Some(pointer(alloc, &found.path)?)),
    }
}

impl<K: Keep> Fold for Looks<'_, K>
where
    K::Kept: Drop,
{
    type Kept = Seen<K::Kept>;

    ghost keeps = { λ s ds seen.
        IsSeen (K.keeps s.keep.now s.definition.now.contests) s.definition.now ds seen };

    fn none(&self, alloc: Global) -> Seen<K::Kept> {
        Seen::Right(RecordNames::new(alloc), self.keep.none(alloc))
    }

    fn take(
        &self,
        alloc: Global,
        seen: &mut Seen<K::Kept>,
        place: usize,
        item: Node<'_>,
        fraction: bool,
    ) -> Result<(), AllocError> {
        if let Seen::Fraction(_) = seen {
            return Ok(());
        }
        if let Some(path) = fraction_in(alloc, place, fraction, &item)? {
            *seen = Seen::Fraction(path);
            return Ok(());
        }
        if let Seen::Form(_) = seen {
            return Ok(());
        }
        if let Some(found) = form_in(alloc, place, &item)? {
            *seen = Seen::Form(found);
            return Ok(());
        }
        if let Seen::Right(names, records) = seen {
            if names_own(alloc, self.definition, &item)? {
                names.add(alloc, &item)?;
                places_of_a_record();
                let contests = self.definition.contests();
                self.keep.keep(alloc, contests, records, place, &item)?;
            } else {
                *seen = Seen::Unsettled;
            }
        }
        Ok(())
    }
}
