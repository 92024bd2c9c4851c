ghost use Rattle.std.specs.Prelude.{◌≡◌, IfOk};

use cdf_types::{Body, Memory};
use cvr_fact_types::HeaderFact;
use cvr_fact_types::text::copy_optional;

/// What a row of the tally is of: a contest, and the unit and the batch of the records (members
/// BallotStyleUnitId and BatchId of class CVR in NIST SP 1500-103). Keys are ordered by contest,
/// then by unit, then by batch; none comes before every text, texts go by their bytes.
#[derive(PartialEq, Eq, PartialOrd, Ord, Debug, Drop)]
pub struct RowKey {
    /// The contest's place in the definition's Contest array, from 0.
    pub contest: usize,
    /// The GpUnit of the records' ballot style, if they name one.
    pub unit: Option<Body>,
    /// The records' batch, if they name one.
    pub batch: Option<Body>,
}

impl RowKey {
    /// The key of a contest's row under a header: the header's unit and batch.
    ///
    /// # Errors
    /// `Memory` where a growth was refused.
    pub fn under(header: &HeaderFact, contest: usize) -> Result<RowKey, Memory>
        ensures { IfOk result
            (λ k. k ≡ record {
              contest = contest;
              unit = header.now.unit;
              batch = header.now.batch;
            }) }
    {
        Ok(RowKey {
            contest,
            unit: copy_optional(&header.unit)?,
            batch: copy_optional(&header.batch)?,
        })
    }

    /// An equal key.
    ///
    /// # Errors
    /// `Memory` where a growth was refused.
    pub fn copy(&self) -> Result<RowKey, Memory>
        ensures { IfOk result (λ k. k ≡ self.now) }
    {
        Ok(RowKey {
            contest: self.contest,
            unit: copy_optional(&self.unit)?,
            batch: copy_optional(&self.batch)?,
        })
    }
}
