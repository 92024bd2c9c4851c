ghost use Rattle.std.specs.Prelude.{◌≡◌};

use crate::keep::Keep;
use cdf_node::Node;
use cdf_parts::contests::Contests;
use cdf_typed::read_cvr;
use cdf_types::{Cvr, Memory};
use std::alloc::Global;

/// Keeps the typed records, in order.
#[derive(Drop)]
pub(crate) struct Typed;

impl Keep for Typed {
    type Kept = Vec<Cvr>;

    ghost keeps = { λ _ _ cs kept. kept.items ≡ cs };

    fn none(&self, alloc: Global) -> Vec<Cvr> {
        Vec::new(alloc)
    }

    fn keep(
        &self,
        alloc: Global,
        contests: &Contests,
        kept: &mut Vec<Cvr>,
        _place: usize,
        cvr: &Node<'_>,
    ) -> Result<(), Memory> {
        kept.push(read_cvr(alloc, contests, cvr)?)?;
        Ok(())
    }
}
