//! Worked examples: rows, the text of their tally, and a row with one more ballot.
ghost use Rattle.cvr_tally.specs.Examples.{RoomOfARow, RowsOfABallot, SumsOfARow, TextOfTally};

/// Rows of three contests, handed over in no order, give this text: by contest, then unit, then
/// batch, none first, texts by their bytes. A row with the sums of one more ballot, and without
/// them again, all numbers being different; and how many ballots and votes a row can have at most,
/// and has to have at least where a ballot is taken out.
pub fn worked_examples()
    ensures text { TextOfTally }
    ensures ballot { RowsOfABallot }
    ensures room { RoomOfARow }
    ensures has { SumsOfARow }
{}
