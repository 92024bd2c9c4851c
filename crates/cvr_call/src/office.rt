ghost use Rattle.std.specs.Prelude.{◌≡◌, Option, Some, None, MatchOption};
ghost use Rattle.std.specs.Coded.{coded_option};
ghost use Rattle.cvr_cached.specs.Held.{Holding, coded_holding};
ghost use Rattle.cvr_call.specs.Handle.{owned};

use crate::loose::Loose;
use cvr_cached::CachedOffice;
use std::alloc::Global;
use std::marker::Model;
use std::mem::replace;
use std::ptr::null_mut;

/// A handle of an office, as C holds it: a pointer, or null where there is none.
#[repr(C)]
pub struct CvrOffice {
    at: *mut u8,
    alloc: Global,
    pub ghost office: { Option Holding } by { coded_option coded_holding },
}

impl Model for CvrOffice {
    ghost also_owns = { λ h. owned h.alloc h.at h.office };
}

impl CvrOffice {
    // A handle without an office.
    fn empty(alloc: Global) -> CvrOffice
        ensures { result.office ≡ None }
    {
        CvrOffice {
            at: null_mut(),
            alloc,
        }
    }

    // The handle of an office.
    fn of(held: Loose<CachedOffice, Global>) -> CvrOffice
        ensures { result.office ≡ Some held.value }
    {
        let Loose { at, alloc } = held;
        CvrOffice {
            at: at as *mut u8,
            alloc,
        }
    }

    // The office of a handle.
    fn into_loose(self) -> Option<Loose<CachedOffice, Global>>
        ensures { MatchOption result (self.office ≡ None) (λ l. self.office ≡ Some l.value) }
    {
        let CvrOffice { at, alloc } = self;
        if at.is_null() {
            None
        } else {
            Some(Loose {
                at: at as *mut CachedOffice,
                alloc,
            })
        }
    }

    // The office of a handle, as its owner.
    fn into_box(self) -> Option<Box<CachedOffice>>
        ensures { MatchOption result (self.office ≡ None) (λ b. self.office ≡ Some b.value) }
    {
        match self.into_loose() {
            Some(held) => Some(held.into_box()),
            None => None,
        }
    }

    /// Takes the office out of its handle.
    pub fn take(&mut self, alloc: Global) -> Option<Box<CachedOffice>>
        ensures taken { MatchOption result (self.old.office ≡ None)
            (λ b. self.old.office ≡ Some b.value) }
        ensures left { self.new.office ≡ None }
    {
        replace(self, CvrOffice::empty(alloc)).into_box()
    }

    /// Puts an office into a handle, and frees the one that was there.
    pub fn put(&mut self, held: Box<CachedOffice>)
        ensures { self.new.office ≡ Some held.value }
    {
        *self = CvrOffice::of(Loose::of(held));
    }
}

impl Drop for CvrOffice {
    fn drop(self) {
        let _held = self.into_box();
    }
}
