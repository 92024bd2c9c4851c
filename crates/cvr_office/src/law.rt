//! Laws of offices: what they keep true, how files reach them, and which hold and answer the same.
ghost use Rattle.cvr_office.specs.Reach.{ReachLaw};
ghost use Rattle.cvr_fact_types.specs.Facts.{text_cmp, name_cmp};
ghost use Rattle.cvr_office.specs.Under.{HeaderUnderLaw, SnapshotUnderLaw, IdUnderLaw};
ghost use Rattle.cvr_office.specs.Under.{KnownDeviceLaw, DeviceKnownLaw, IncludesLaw};
ghost use Rattle.cvr_office.specs.Under.{RecordsInOrder, RecordsAreExact, NamesInOrder};
ghost use Rattle.cvr_office.specs.Under.{NamesAreExact};
ghost use Rattle.cvr_office.specs.Own.{OwnAgreesLaw, SameAgreesLaw, EntryLaw};
ghost use Rattle.cvr_office.specs.Names.{record_of, records, device_in, devices};
ghost use Rattle.cvr_office.specs.Laws.{StartLaw, ImportLaw, JoinLaw, ListedLaw, NextLaw};
ghost use Rattle.cvr_office.specs.Laws.{NoNextLaw, RowsLaw, BallotsLaw};
ghost use Rattle.cvr_office.specs.Alike.{SameFilesLaw, SameContentLaw, SameDefinitionLaw};
ghost use Rattle.cvr_office.specs.Alike.{SamePlacesLaw, SameStartLaw, NoEventLaw, AnswerAlikeLaw};
ghost use Rattle.cvr_office.specs.Alike.{SameOfficesLaw, NewOfficeLaw};
ghost use Rattle.cvr_office.specs.Lasting.{HeldLastsLaw, ImportLastsLaw, ExchangeLastsLaw};
ghost use Rattle.cvr_office.specs.Lasting.{PlayedLastsLaw};
ghost use Rattle.cvr_office.specs.Counting.{GrowthLaw, ConflictsLaw, ColumnsLaw, AddUpLaw};
ghost use Rattle.cvr_office.specs.Parts.{RowsOfPartsLaw, CurrentsOfPartsLaw, HeadersOfPartsLaw};
ghost use Rattle.cvr_office.specs.Parts.{RecordsOfPartsLaw, RecordsRiseLaw};
ghost use Rattle.cvr_office.specs.Parts.{RowsOfManyLaw, CurrentsOfManyLaw, HeadersOfManyLaw};
ghost use Rattle.cvr_office.specs.Parts.{RecordsOfManyLaw};

use crate::office::Office;

/// A file has reached an office exactly where an accepted import and accepted exchanges after it,
/// one leading to the next, bring it there.
pub fn reach()
    ensures { ReachLaw }
{}

/// Nothing that an office holds is ever missing afterwards: whatever events follow, it holds what
/// it held; from an accepted import on it holds the facts of the file; from an accepted exchange on
/// it holds what the other office held.
pub fn nothing_is_lost<O: Office>()
    ensures held { HeldLastsLaw }
    ensures imported { ImportLastsLaw }
    ensures exchanged { ExchangeLastsLaw }
    ensures played { PlayedLastsLaw O.held O.defined }
{}

/// New offices of one definition play any events, refused ones among them. Then two of them that
/// the same files have reached hold the same facts, and have the same current snapshots with their
/// votes, the same headers, conflicts and rows, and the same text of the tally. Files are the same
/// where their values are, as `serde_json` reads them, wherever they stand in the list.
pub fn same_files<O: Office>()
    ensures alike { SameFilesLaw O.held O.defined }
    ensures content { SameContentLaw O.held O.defined }
    ensures definition { SameDefinitionLaw O.held O.defined }
{}

/// Before any event an office holds what it began with. Where all began with the same facts, two
/// that the same files have reached hold the same. Files at the same places are the same files.
pub fn same_starts()
    ensures no_event { NoEventLaw }
    ensures same { SameStartLaw }
    ensures places { SamePlacesLaw }
{}

/// Offices that are the same have the same current snapshots with their votes, the same headers,
/// conflicts and rows, and the same text of the tally.
pub fn same_offices()
    ensures alike { SameOfficesLaw }
    ensures answers { AnswerAlikeLaw }
{}

/// A new office is the unit of joining among offices with the same starting facts.
pub fn new_office()
    ensures unit { NewOfficeLaw }
{}

/// What an office keeps true of its facts holds at first, and after each import and join.
pub fn holding()
    ensures start { StartLaw }
    ensures import { ImportLaw }
    ensures join { JoinLaw }
{}

/// A report agrees with the definition that is made from it, and with any that is the same but for
/// its devices; each entry of a definition is the id and the text of an object.
pub fn own_definitions()
    ensures own { OwnAgreesLaw }
    ensures same { SameAgreesLaw }
    ensures entries { EntryLaw }
{}

/// The bodies and ids under the names of a record are those of its facts; the ids of devices are
/// those of the facts of devices.
pub fn facts_under_names()
    ensures headers { HeaderUnderLaw }
    ensures snapshots { SnapshotUnderLaw }
    ensures ids { IdUnderLaw }
    ensures known { KnownDeviceLaw }
    ensures devices { DeviceKnownLaw }
    ensures more { IncludesLaw }
{}

/// Names of records, and names of conflicts, are in a total order in which only equal ones tie.
pub fn names_are_ordered()
    ensures records { RecordsInOrder }
    ensures exact_records { RecordsAreExact }
    ensures names { NamesInOrder }
    ensures exact_names { NamesAreExact }
{}

/// The records are exactly those that some fact is of. The next one is the least above the given
/// one, or the least of all; there is none exactly where none is above it. The same holds of
/// devices.
pub fn next_names()
    ensures records { ListedLaw record_of records }
    ensures next_record { NextLaw name_cmp records }
    ensures no_record { NoNextLaw name_cmp records }
    ensures devices { ListedLaw device_in devices }
    ensures next_device { NextLaw text_cmp devices }
    ensures no_device { NoNextLaw text_cmp devices }
{}

/// The map of rows has the row of each key and nothing else. The ballots of a row are the records
/// that stand in it, of which there is at least one.
pub fn rows()
    ensures rows { RowsLaw }
    ensures ballots { BallotsLaw }
{}

/// The number of a set's facts, and the number by which it grows, add up to that of the union.
pub fn growing()
    ensures growth { GrowthLaw }
{}

/// A name is among the conflicts with a number exactly where that is the number of its bodies, and
/// at least 2.
pub fn conflicting()
    ensures conflicts { ConflictsLaw }
{}

/// Each column of a contest, added up over all rows, is what the current snapshots of all records
/// come to: no vote is lost, and none counts twice. Its ballots are as many as the records whose
/// current snapshot has it.
pub fn columns()
    ensures columns { ColumnsLaw }
    ensures records { AddUpLaw }
{}

/// Where no record is in both of two sets of facts, each row of their union is the sum of theirs, a
/// record keeps the current snapshot and the header of its part, and the records are those of both,
/// each once, in order of name. So a tally may be computed in parts, split by record.
pub fn parts()
    ensures rows { RowsOfPartsLaw }
    ensures currents { CurrentsOfPartsLaw }
    ensures headers { HeadersOfPartsLaw }
    ensures records { RecordsOfPartsLaw }
    ensures order { RecordsRiseLaw }
{}

/// The same holds of any number of parts, where no record is in two of them.
///
/// Parts may share devices, and their facts may come from anywhere. No clause says how files are
/// split, nor that a part of a file is accepted only where the file is: check a file before it is
/// split.
pub fn many_parts()
    ensures rows { RowsOfManyLaw }
    ensures currents { CurrentsOfManyLaw }
    ensures headers { HeadersOfManyLaw }
    ensures records { RecordsOfManyLaw }
{}
