//! Worked examples: facts of a few records, their conflicts and their tally, whole and in parts.
ghost use Rattle.cvr_office.specs.Examples.{ConflictsOfMixed, TallyOfFour, SpelledTwice};
ghost use Rattle.cvr_office.specs.Examples.{OtherFiles};
ghost use Rattle.cvr_office.specs.PartExamples.{RowsOfFirst, RowsOfSecond, RowsOfBoth, SumsOfRows};
ghost use Rattle.cvr_office.specs.PartExamples.{TotalsOfBoth};

/// The conflicts among facts of two records and three devices, and the rows of the tally of four
/// records in three contests.
pub fn worked_examples()
    ensures conflicts { ConflictsOfMixed }
    ensures tally { TallyOfFour }
{}

/// Facts in two parts without a record in common: the rows of each part, and those of both, which
/// are their sums. One row has a ballot of each part, two have a ballot of one alone. Shown is also
/// what each column of the three rows comes to.
pub fn rows_of_parts()
    ensures first { RowsOfFirst }
    ensures second { RowsOfSecond }
    ensures both { RowsOfBoth }
    ensures sums { SumsOfRows }
    ensures totals { TotalsOfBoth }
{}

/// Two offices import a file each, from two places of the list. The same files have reached both
/// where the two files have one value, and not where their values differ.
pub fn files_by_value()
    ensures same { SpelledTwice }
    ensures other { OtherFiles }
{}
