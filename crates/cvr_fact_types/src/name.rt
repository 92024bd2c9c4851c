ghost use Rattle.std.specs.Prelude.{◌≡◌, IfOk};

use cdf_types::{Body, Memory};
use std::alloc::Global;

/// The name of a cast vote record (NIST SP 1500-103, class CVR). Names are ordered by the bytes of
/// the device, then by those of the unique text.
#[derive(PartialEq, Eq, PartialOrd, Ord, Debug, Drop)]
pub struct RecordName {
    /// The device that made the record (member CreatingDeviceId).
    pub device: Body,
    /// Its name at that device (member UniqueId).
    pub unique: Body,
}

impl RecordName {
    /// An equal name.
    ///
    /// # Errors
    /// `Memory` where a growth was refused.
    pub fn copy(&self) -> Result<RecordName, Memory>
        ensures { IfOk result (λ n. n ≡ self.now) }
    {
        Ok(RecordName {
            device: self.device.copy()?,
            unique: self.unique.copy()?,
        })
    }
}
