ghost use Rattle.std.specs.Prelude.{◌≡◌, IfOk};

use cdf_types::{Memory, Seq};
use std::alloc::Global;

/// What a snapshot adds to a contest (NIST SP 1500-103, class CVRContest). Each number is below
/// 2^54.
#[derive(Drop)]
pub struct VoteSums {
    /// The contest's place in the definition's Contest array, from 0.
    pub contest: usize,
    /// The votes that count for each of its selections, by place in the ContestSelection array.
    pub votes: Seq<u64>,
    /// Votes lost to overvoting (member Overvotes), 0 where absent.
    pub overvotes: u64,
    /// Votes not made (member Undervotes), 0 where absent.
    pub undervotes: u64,
    /// Write-ins (member WriteIns), 0 where absent.
    pub write_ins: u64,
    /// The votes of pending positions: marked, and whether they count isn't settled.
    pub pending: u64,
    /// The votes that count of contest selections that name no selection.
    pub unassigned: u64,
}

impl VoteSums {
    /// Equal sums.
    ///
    /// # Errors
    /// `Memory` where a growth was refused.
    pub fn copy(&self, alloc: Global) -> Result<VoteSums, Memory>
        ensures { IfOk result (λ v. v ≡ self.now) }
    {
        let votes = Seq::new(Vec::from_slice(alloc, self.votes.as_slice())?);
        Ok(VoteSums { votes, ..*self })
    }
}
