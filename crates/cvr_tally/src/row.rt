ghost use Rattle.std.specs.Prelude.{◌≡◌, ◌<◌, ◌≤◌, ◌+◌, ◌-◌, ◌^◌, ◌++◌, ℕ, OnOk, map, length};
ghost use Rattle.std.specs.Prelude.{slice_index, string_bytes};
ghost use Rattle.std.specs.List.{range_with_len};
ghost use Rattle.cvr_tally.specs.Rows.{HasRoom, HasSums, row_plus, row_minus};
ghost use Rattle.cvr_tally.specs.Text.{number, numbers};

use crate::counts::Counts;
use cdf_types::Memory;
use cvr_fact_types::VoteSums;
use itoa::Buffer;
use std::alloc::Global;

/// A row of the tally: what the current snapshots of its records add up to (NIST SP 1500-103, class
/// CVRContest).
#[derive(Drop)]
pub struct Row {
    /// The number of records.
    pub ballots: u128,
    /// Votes lost to overvoting.
    pub overvotes: u128,
    /// Votes not made.
    pub undervotes: u128,
    /// Write-ins.
    pub write_ins: u128,
    /// The votes of pending positions: marked, and whether they count isn't settled.
    pub pending: u128,
    /// The votes that count of contest selections that name no selection.
    pub unassigned: u128,
    /// The votes of each selection of the contest, in the order of the definition.
    pub votes: Counts,
}

impl Row {
    ghost use Rattle.std.specs.Prelude.{◌≡◌, IfOk};
    ghost use Rattle.cvr_tally.specs.Rows.{zero_row};

    // A row of zeros, of a contest with that many selections.
    pub(crate) fn zeros(alloc: Global, selections: usize) -> Result<Row, Memory>
        ensures { IfOk result (λ r. r ≡ zero_row selections) }
    {
        Ok(Row {
            ballots: 0,
            overvotes: 0,
            undervotes: 0,
            write_ins: 0,
            pending: 0,
            unassigned: 0,
            votes: Counts::zeros(alloc, selections)?,
        })
    }

    /// An equal row.
    ///
    /// # Errors
    /// `Memory` where a growth was refused.
    pub fn copy(&self, alloc: Global) -> Result<Row, Memory>
        ensures { IfOk result (λ r. r ≡ self.now) }
    {
        let votes = self.votes.copy(alloc)?;
        Ok(Row { votes, ..*self })
    }
}

// Adds numbers place by place.
fn add_votes(votes: &mut [u128], sums: &[u64])
    requires long { length sums.now ≡ length votes.old }
    requires room { (i : ℕ) → slice_index votes.old i + slice_index sums.now i < 2 ^ 128 }
    ensures { votes.new ≡ map (λ place. slice_index votes.old place + slice_index sums.now place)
        (range_with_len 0 (length votes.old)) }
{
    for (place, sum) in sums.iter().enumerate() {
        votes[place] += u128::from(*sum);
    }
}

// Takes numbers out place by place.
fn take_votes(votes: &mut [u128], sums: &[u64])
    requires long { length sums.now ≡ length votes.old }
    requires has { (i : ℕ) → slice_index sums.now i ≤ slice_index votes.old i }
    ensures { votes.new ≡ map (λ place. slice_index votes.old place - slice_index sums.now place)
        (range_with_len 0 (length votes.old)) }
{
    for (place, sum) in sums.iter().enumerate() {
        votes[place] -= u128::from(*sum);
    }
}

// Adds the sums of one more ballot.
#[tactic(auto, using(crate::proofs::Columns::room_in_each))]
pub(crate) fn add_to(row: &mut Row, sums: &VoteSums)
    requires long { length sums.now.votes ≡ length row.old.votes }
    requires room { HasRoom row.old sums.now }
    ensures { row.new ≡ row_plus row.old sums.now }
{
    row.ballots += 1;
    row.overvotes += u128::from(sums.overvotes);
    row.undervotes += u128::from(sums.undervotes);
    row.write_ins += u128::from(sums.write_ins);
    row.pending += u128::from(sums.pending);
    row.unassigned += u128::from(sums.unassigned);
    add_votes(row.votes.items.as_mut_slice(), sums.votes.as_slice());
}

// Takes out the sums of one of its ballots.
#[tactic(auto, using(crate::proofs::Columns::sums_in_each))]
pub(crate) fn take_from(row: &mut Row, sums: &VoteSums)
    requires long { length sums.now.votes ≡ length row.old.votes }
    requires has { HasSums row.old sums.now }
    ensures { row.new ≡ row_minus row.old sums.now }
{
    row.ballots -= 1;
    row.overvotes -= u128::from(sums.overvotes);
    row.undervotes -= u128::from(sums.undervotes);
    row.write_ins -= u128::from(sums.write_ins);
    row.pending -= u128::from(sums.pending);
    row.unassigned -= u128::from(sums.unassigned);
    take_votes(row.votes.items.as_mut_slice(), sums.votes.as_slice());
}

// Adds a space and a number.
pub(crate) fn push_number(text: &mut String, count: u128) -> Result<(), Memory>
    ensures { OnOk result (string_bytes text.new ≡ string_bytes text.old ++ number count) }
{
    let mut buffer = Buffer::new();
    text.push_str(" ")?;
    text.push_str(buffer.format(count))?;
    Ok(())
}

// Adds the numbers of a row, all but the votes of selections.
pub(crate) fn push_numbers(text: &mut String, row: &Row) -> Result<(), Memory>
    ensures { OnOk result (string_bytes text.new ≡ string_bytes text.old ++ numbers row.now) }
{
    push_number(text, row.ballots)?;
    push_number(text, row.overvotes)?;
    push_number(text, row.undervotes)?;
    push_number(text, row.write_ins)?;
    push_number(text, row.pending)?;
    push_number(text, row.unassigned)?;
    Ok(())
}
