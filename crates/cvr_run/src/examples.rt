//! Worked examples: the text of each task over the facts of a few records, that of a tally by rows.
ghost use Rattle.std.specs.Prelude.{codes};
ghost use Rattle.cvr_run.specs.declared.memory_files.MemoryFile.{MemoryFile};
ghost use Rattle.cvr_run.specs.MemoryFiles.{IsFileAt, FailWhereSet};
ghost use Rattle.cvr_run.specs.CutShort.{NoneOrAll, AfterLacking};
ghost use Rattle.cvr_run.specs.Listed.{TallyListed};
ghost use Rattle.cvr_run.specs.Opening.{FourAreShown};
ghost use Rattle.cvr_run.specs.Worked.{TheMissingIsReported};
ghost use Rattle.cvr_run.specs.Statuses.{FiveNumbers, PrintedWhole, NotPrinted, StoppedRuns};
ghost use Rattle.cvr_run.specs.Statuses.{HelpIsPrinted, WordsAreRefused, NoListAtL, E3IsExplained};
ghost use Rattle.cvr_run.specs.Statuses.{TwoEnds};
ghost use Rattle.cvr_run.specs.Examples.{CurrentsOfFive, TallyOfFive, ConflictsOfTwo, NoConflict};
ghost use Rattle.cvr_run.specs.Examples.{LinesOfTen, DateAlone, DateFirst, DeviceAlone};
ghost use Rattle.cvr_run.specs.Examples.{DeviceBeforeNumber, NumberAlone, LastVolume};
ghost use Rattle.cvr_run.specs.Happened.{SecondAndFourth};
ghost use Rattle.cvr_run.specs.RunExamples.{TwoRefused, CausesOfThree, OtherElection, CheckOfThree};
ghost use Rattle.cvr_run.specs.RunExamples.{DefinitionRefused, OneValue, FiveStepsRefused};
ghost use Rattle.cvr_run.specs.RunExamples.{LinesOfThree};

/// The current snapshots and the tally of five records in three contests, the conflicts among facts
/// of two records and three devices, what is reported where there is none, and the lines of ten
/// offices.
pub fn worked_examples()
    ensures currents { CurrentsOfFive }
    ensures tally { TallyOfFive }
    ensures conflicts { ConflictsOfTwo }
    ensures no_conflict { NoConflict }
    ensures drill { LinesOfTen }
{}

/// The fault of merges of facts with twelve volumes, and its line: the date is no moment, the
/// device isn't listed, or the number is above the volumes; which of several is reported; and that
/// the last volume has none.
pub fn merges()
    ensures date { DateAlone }
    ensures date_first { DateFirst }
    ensures device { DeviceAlone }
    ensures device_before_number { DeviceBeforeNumber }
    ensures number { NumberAlone }
    ensures none { LastVolume }
{}

/// Worked example of files in memory: one of which no call fails, one at another path whose fifth
/// call fails, and one at the first path again, whose sixth call fails.
pub fn files_fail_where_set()
    ensures { (x y z : MemoryFile) → IsFileAt x (codes "a") 0 → IsFileAt y (codes "b") 5
        → IsFileAt z (codes "a") 6 → FailWhereSet x y z }
{}

/// Worked examples of three files, the second one accepted: how the log ends where memory ran out,
/// and how it doesn't.
pub fn memory_ends_a_log_as_stated()
    ensures none_or_all { NoneOrAll }
    ensures after_lacking { AfterLacking }
{}

/// Worked examples of openers: which paths one shows after it was to open two more; and which file
/// a run reports over an opener that has only the first of three.
pub fn openers_show_what_they_were_to_open()
    ensures four { FourAreShown }
    ensures missing { TheMissingIsReported }
{}

/// Worked example of words that ask for the tally of the files of a list.
pub fn words_ask_for_a_list()
    ensures { TallyListed }
{}

/// Worked examples of how runs end: the numbers of the statuses; runs over their files, one of them
/// refused or without room; runs that stop before; help, words without meaning, a file that is no
/// list, and a code that is explained. And where the paths of a list end.
pub fn runs_end_by_their_status()
    ensures numbers { FiveNumbers }
    ensures printed { PrintedWhole }
    ensures not_printed { NotPrinted }
    ensures stopped { StoppedRuns }
    ensures help { HelpIsPrinted }
    ensures words { WordsAreRefused }
    ensures no_list { NoListAtL }
    ensures explained { E3IsExplained }
    ensures ends { TwoEnds }
{}

/// Worked examples: the lines of runs with refused files, and why they were refused; the lines of a
/// drill with refused steps; and the text of a drill in which one file is accepted.
pub fn refused_runs()
    ensures two_refused { TwoRefused }
    ensures causes_of_three { CausesOfThree }
    ensures other_election { OtherElection }
    ensures definition_refused { DefinitionRefused }
    ensures five_steps_refused { FiveStepsRefused }
    ensures drill { LinesOfThree }
{}

/// Worked example: the lines of `check` over three files, of which the second is refused.
pub fn lines_of_check()
    ensures { CheckOfThree }
{}

/// Worked example: a file and another spelling of it, beside a refused one, have the same values.
pub fn files_of_one_value()
    ensures { OneValue }
{}

/// Worked example: of five files, the places of the two that were refused.
pub fn refused_files_have_their_places()
    ensures { SecondAndFourth }
{}
