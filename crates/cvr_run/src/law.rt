ghost use Rattle.std.specs.Prelude.{◌≡◌, ◌+◌};
ghost use Rattle.cdf_form.specs.Reading.{max_file};
ghost use Rattle.cvr_run.specs.Explained.{ExplainUnknownLaw, HelpUnknownLaw};
ghost use Rattle.cvr_run.specs.Explained.{CodesOfLines, EachCodeLaw};
ghost use Rattle.cvr_run.specs.File.{held_bytes};
ghost use Rattle.cvr_run.specs.HeldBytes.{HeldTextLaw, HeldLinesLaw, HeldFaultLaw, HeldRefusedLaw};
ghost use Rattle.cvr_run.specs.Laws.{HeldLaw, ByBytesLaw, SameFactsLaw, SameCurrentsLaw};
ghost use Rattle.cvr_run.specs.Laws.{SameConflictsLaw, SameTallyLaw, SameMergeFaultLaw};
ghost use Rattle.cvr_run.specs.Laws.{SameVolumeLaw, NoMergeFaultLaw, NoTextLaw, LoggedNumberLaw};
ghost use Rattle.cvr_run.specs.Laws.{LastNumberLaw, DueLaw, LeastSameLaw, FirstStepLaw};
ghost use Rattle.cvr_run.specs.Laws.{StepImportLaw};
ghost use Rattle.cvr_run.specs.Laws.{ExchangeLaw, FilesReachedLaw, ReachedLaw, SameReachedLaw};
ghost use Rattle.cvr_run.specs.Laws.{AllImportedLaw, ByPlacesLaw, BothWaysLaw, EachImportsBothLaw};
ghost use Rattle.cvr_run.specs.Laws.{OneLineLaw, TwoLinesLaw, AloneOrEachLaw};
ghost use Rattle.cvr_run.specs.ListedPaths.{NoEndLaw, ReadBackLaw, ThreePaths, WholeListLaw};
ghost use Rattle.cvr_run.specs.OwnWords.{UnknownVersionLaw};

/// What a run holds, the devices of the definition and the facts of the accepted files, is the
/// content of one new office after the import of each file.
pub fn held_is_the_content_after_imports()
    ensures { HeldLaw }
{}

/// Lists whose accepted files have the same values, in any order and however often each comes, hold
/// the same facts and have the same current snapshots, the same conflicts, the same tally and the
/// same volumes. Lists of the same files, byte by byte, have the same values.
pub fn order_and_repeats_change_nothing()
    ensures facts { SameFactsLaw }
    ensures currents { SameCurrentsLaw }
    ensures conflicts { SameConflictsLaw }
    ensures tally { SameTallyLaw }
    ensures merge_fault { SameMergeFaultLaw }
    ensures volume { SameVolumeLaw }
    ensures by_bytes { ByBytesLaw }
{}

/// A merge has a fault or prints a volume, and never both. A fault of a volume that is not there
/// says how many there are.
pub fn a_merge_has_a_fault_or_a_volume()
    ensures volume { NoMergeFaultLaw }
    ensures fault { NoTextLaw }
    ensures number { LoggedNumberLaw }
{}

/// The last line of the conflicts is the number of volumes that can be merged.
pub fn conflicts_end_with_the_number_of_volumes()
    ensures { LastNumberLaw }
{}

/// What is held of a file is one byte more than a file may have.
pub fn held_is_one_more()
    ensures { held_bytes ≡ max_file + 1 }
{}

/// What is held of files is enough: a run over it prints and logs what one over the files does.
pub fn held_bytes_are_enough()
    ensures text { HeldTextLaw }
    ensures lines { HeldLinesLaw }
    ensures merge_fault { HeldFaultLaw }
    ensures refused { HeldRefusedLaw }
{}

/// The outcomes by which a drill is defined are such as `play` answers for its events.
pub fn a_drill_has_the_outcomes_that_are_due()
    ensures { DueLaw }
{}

/// The number that a drill prints for an office, as that of one that is the same, is the least of
/// an office that holds the same facts.
pub fn the_least_office_that_is_the_same_is_answered()
    ensures { LeastSameLaw }
{}

/// An import adds to an office of a drill what the other commands hold of the file; after an
/// exchange the office that takes holds what both held. So an office holds what they hold of the
/// files that have reached it, and of any whose accepted values are the same; and two that the same
/// values have reached hold the same. One that imports each accepted value, in any order and among
/// any other steps, holds what they hold of all files; and so do two that between them import each,
/// and at last exchange both ways. The text says so.
///
/// Premises: there are offices of these numbers, and for an import a file at its place.
pub fn offices_of_a_drill_hold_what_a_run_holds()
    ensures start { FirstStepLaw }
    ensures import { StepImportLaw }
    ensures exchange { ExchangeLaw }
    ensures files_reached { FilesReachedLaw }
    ensures reached { ReachedLaw }
    ensures same_reached { SameReachedLaw }
    ensures all_imported { AllImportedLaw }
    ensures by_places { ByPlacesLaw }
    ensures both_ways { BothWaysLaw }
    ensures each_imports_both { EachImportsBothLaw }
    ensures one_line { OneLineLaw }
    ensures two_lines { TwoLinesLaw }
{}

/// Where memory ends a run, it logs `memory` alone, or each file or step.
pub fn want_of_memory_is_logged_alone_or_after_each_file()
    ensures { AloneOrEachLaw }
{}

/// The commands of the line leave the words for the version free: without `respond` both are
/// refused.
pub fn words_for_the_version_are_unknown()
    ensures { UnknownVersionLaw }
{}

/// No command of the line is called `explain`: without `respond` the words for a code are refused.
pub fn words_for_a_code_name_no_command()
    ensures explain { ExplainUnknownLaw }
    ensures help { HelpUnknownLaw }
{}

/// Each code is found by its name. As examples, the codes of a line, as one word and as several, of
/// another name, and of small letters; and words that have none.
pub fn codes_are_found_by_their_names()
    ensures each { EachCodeLaw }
    ensures lines { CodesOfLines }
{}

/// The paths of a list with their ends are its text, or that with one more end. No path has an end
/// in it, and paths without ends in them are read back. As an example, a list of three paths.
pub fn paths_of_a_list_are_its_text()
    ensures whole { WholeListLaw }
    ensures no_end { NoEndLaw }
    ensures read_back { ReadBackLaw }
    ensures three { ThreePaths }
{}
