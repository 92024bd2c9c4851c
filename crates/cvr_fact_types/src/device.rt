ghost use Rattle.std.specs.Prelude.{◌≡◌, IfOk};

use cdf_types::{Body, Memory};

/// A reporting device as a fact (NIST SP 1500-103, class ReportingDevice). Facts are ordered by id,
/// then by body.
#[derive(PartialEq, Eq, PartialOrd, Ord, Debug, Drop)]
pub struct DeviceFact {
    /// Its `@id`.
    pub id: Body,
    /// The compact JSON text of the object.
    pub body: Body,
}

impl DeviceFact {
    /// An equal fact.
    ///
    /// # Errors
    /// `Memory` where a growth was refused.
    pub fn copy(&self) -> Result<DeviceFact, Memory>
        ensures { IfOk result (λ d. d ≡ self.now) }
    {
        Ok(DeviceFact {
            id: self.id.copy()?,
            body: self.body.copy()?,
        })
    }
}
