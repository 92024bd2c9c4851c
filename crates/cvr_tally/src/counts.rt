use cdf_types::Memory;
use std::alloc::Global;
use std::marker::Model;

/// A number for each selection of a contest, in the order of the definition. Contracts see it as a
/// list.
#[derive(Drop)]
pub struct Counts {
    pub(crate) items: Vec<u128>,
}

impl Model for Counts {
    ghost use Rattle.std.specs.Prelude.{List, ℕ};

    ghost Value = { List ℕ };

    ghost view = { λ c. c.items.items };
}

impl Counts {
    ghost use Rattle.std.specs.Prelude.{◌≡◌, IfOk, replicate};

    /// These numbers. Takes no memory.
    pub fn new(items: Vec<u128>) -> Counts
        ensures { result ≡ items.items }
    {
        Counts { items }
    }

    // That many zeros.
    pub(crate) fn zeros(alloc: Global, count: usize) -> Result<Counts, Memory>
        ensures { IfOk result (λ c. c ≡ replicate count 0) }
    {
        Ok(Counts {
            items: vec![in alloc; 0; count]?,
        })
    }

    // Equal numbers.
    pub(crate) fn copy(&self, alloc: Global) -> Result<Counts, Memory>
        ensures { IfOk result (λ c. c ≡ self.now) }
    {
        Ok(Counts {
            items: Vec::from_slice(alloc, self.items.as_slice())?,
        })
    }

    /// The numbers, in order. Takes no memory.
    pub fn as_slice(&self) -> &[u128]
        ensures { result.now ≡ self.now }
    {
        self.items.as_slice()
    }

    /// The numbers, given back. Takes no memory.
    pub fn into_vec(self) -> Vec<u128>
        ensures { result.items ≡ self }
    {
        self.items
    }
}
