ghost use Rattle.std.specs.Prelude.{◌≡◌, ◌∷◌, None, Some, IfOk, option_map, codes};
ghost use Rattle.cdf_node.specs.View.{view};
ghost use Rattle.cdf_types.specs.declared.fault.ReadFault.TheVariants.{Reference};
ghost use Rattle.cdf_form.specs.Form.{at_member, at_item, first};
ghost use Rattle.cdf_form.specs.Path.{path_text};
ghost use Rattle.cdf_form.specs.Found.{path_of};
ghost use Rattle.cdf_definition.specs.References.{in_cvr};
ghost use Rattle.cdf_definition.specs.Scoped.{scope_view};
ghost use Rattle.cdf_definition.specs.Acceptance.{value_refusal};
ghost use Rattle.cdf_check.specs.Seen.{IsUnnamed, HasForms, Refuses, IsRefusedFor};

use bumpalo::Bump;
use cdf_definition::{Definition, InCvr, Look, Scope, check_value};
use cdf_form::found::{Path, Step};
use cdf_form::path::pointer;
use cdf_node::Node;
use cdf_pull::{Fold, read_text_fold};
use cdf_types::{Memory, ReadFault};
use json::Scratch;
use std::alloc::{AllocError, Global};

// Looks at what each record of a file names, where these ids can be named.
#[derive(Drop)]
struct Names<'a>(&'a Scope);

// The path, from the array of the records, of the first text of a record that names nothing.
fn unnamed_in(
    alloc: Global,
    scope: &Scope,
    place: usize,
    cvr: &Node<'_>,
) -> Result<Option<Path<'static>>, AllocError>
    ensures { IfOk result (λ found. option_map path_of found
        ≡ option_map (λ p. at_item place ∷ p)
        (first (in_cvr (scope_view scope.now) (view cvr.now)))) }
{
    match InCvr(scope).look(alloc, cvr)? {
        None => Ok(None),
        Some(path) => Ok(Some(path.under(Step::Item(place))?)),
    }
}

impl Fold for Names<'_> {
    type Kept = Option<Path<'static>>;

    ghost keeps = { λ s ds found. IsUnnamed (scope_view s.0.now) ds found };

    fn none(&self, _alloc: Global) -> Option<Path<'static>> {
        None
    }

    #[tactic(auto, using(crate::proofs::OneMore::place_next))]
    fn take(
        &self,
        alloc: Global,
        found: &mut Option<Path<'static>>,
        place: usize,
        item: Node<'_>,
        _fraction: bool,
    ) -> Result<(), AllocError> {
        if found.is_none() {
            *found = unnamed_in(alloc, self.0, place, &item)?;
        }
        Ok(())
    }
}

// The refusal for a text of a record that names nothing.
fn fault_at(alloc: Global, path: Path<'static>) -> Result<ReadFault, Memory>
    ensures { IfOk result
        (λ e. e ≡ Reference (path_text (at_member (codes "CVR") ∷ path_of path.entry))) }
{
    Ok(ReadFault::Reference {
        path: pointer(alloc, &path.under(Step::Member("CVR"))?)?,
    })
}

// Why a value is refused beside a definition.
fn value_fault(
    alloc: Global,
    definition: &Definition,
    value: &Node<'_>,
) -> Result<ReadFault, Memory>
    requires { value_refusal definition.now (view value.now) ≡ None → ⊥ }
    ensures { IfOk result (λ e. value_refusal definition.now (view value.now) ≡ Some e) }
{
    match check_value(alloc, definition, value) {
        Ok(()) => unreachable!(),
        Err(fault) => fault.or_memory(),
    }
}

/// Why a file is refused that has no fault of numbers or form: for the first text that names
/// nothing, or else for the first object that isn't the definition's. The file is read again: what
/// can be named is known only once it has been read.
///
/// # Errors
/// `Memory` where a growth was refused.
pub(crate) fn reference_fault(
    alloc: Global,
    definition: &Definition,
    text: &str,
    left: &Node<'_>,
) -> Result<ReadFault, Memory>
    requires forms { HasForms text.now (view left.now) }
    requires refused { Refuses definition.now text.now }
    ensures { IfOk result (λ e. IsRefusedFor definition.now text.now e) }
{
    let scope = Scope::of_report(alloc, left)?;
    let bump = Bump::new(alloc);
    let mut scratch = Scratch::new(alloc);
    match read_text_fold(alloc, &bump, text, &mut scratch, "CVR", &Names(&scope)) {
        Ok(Some((_, found))) => match found {
            Some(path) => fault_at(alloc, path),
            None => value_fault(alloc, definition, left),
        },
        Ok(None) => unreachable!(),
        Err(refused) => Err(refused.into()),
    }
}
