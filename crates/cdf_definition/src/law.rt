ghost use Rattle.cdf_definition.specs.Laws.{ByIdLaw, TwoOfOneId, ReferencesLaw, RecordLaw};
ghost use Rattle.cdf_definition.specs.Laws.{SnapshotLaw, AgreementLaw, SoundLaw, ValueLaw};
ghost use Rattle.cdf_definition.specs.Laws.{SoundFileLaw, ValidFileLaw, OneElectionLaw};
ghost use Rattle.cdf_definition.specs.Laws.{HeaderMembersLaw};
ghost use Rattle.cdf_definition.specs.Depths.{ReportEntryLaw, HasIdLaw, WasReadLaw};
ghost use Rattle.cdf_definition.specs.Depths.{ReportIsProperLaw, ListedIsProperLaw};
ghost use Rattle.cdf_definition.specs.Lists.{RestOfReportLaw, RestLaw};

/// Entries by their ids rise strictly by id, and beside each id stands the text of the last entry
/// that has it. Worked example: two of three entries have one id.
pub fn entries_by_id()
    ensures entries { ByIdLaw }
    ensures example { TwoOfOneId }
{}

/// A list of faults is empty exactly where what it checks holds: that of references, of agreement,
/// of a value, and of a file alone and beside a definition.
pub fn acceptance()
    ensures references { ReferencesLaw }
    ensures agreement { AgreementLaw }
    ensures sound { SoundLaw }
    ensures value { ValueLaw }
    ensures sound_file { SoundFileLaw }
    ensures valid_file { ValidFileLaw }
{}

/// So is that of the references of a record, and of a snapshot.
pub fn references_by_part()
    ensures records { RecordLaw }
    ensures snapshots { SnapshotLaw }
{}

/// A report has one election.
pub fn one_election()
    ensures { OneElectionLaw }
{}

/// Each entry of the table of reports holds of a report, and an object of a group whose classes
/// have ids has one.
pub fn report_entries()
    ensures each_entry { ReportEntryLaw }
    ensures id { HasIdLaw }
{}

/// The header of a cast vote record keeps each member but for two.
pub fn header_members()
    ensures { HeaderMembersLaw }
{}

/// A report's value nests at most 127 deep, and an item of an array in it two levels less.
pub fn bodies_are_shallow()
    ensures value { WasReadLaw }
    ensures report { ReportIsProperLaw }
    ensures listed { ListedIsProperLaw }
{}

/// What a report is beside its lists, and when a value with the lists of a report is one.
pub fn rest_of_reports()
    ensures has_rest { RestOfReportLaw }
    ensures is_report { RestLaw }
{}
