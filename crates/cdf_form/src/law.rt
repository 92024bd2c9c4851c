ghost use Rattle.std.specs.Prelude.{◌≡◌, ◌^◌};
ghost use Rattle.cdf_types.specs.Mark.{indication_text, allocation_text};
ghost use Rattle.cdf_types.specs.ReportKind.{report_kind_text};
ghost use Rattle.cdf_types.specs.SnapshotKind.{snapshot_kind_text};
ghost use Rattle.cdf_types.specs.Status.{cvr_status_text, contest_status_text};
ghost use Rattle.cdf_types.specs.Status.{selection_status_text, position_status_text};
ghost use Rattle.cdf_types.specs.VoteVariation.{vote_variation_text};
ghost use Rattle.cdf_form.specs.declared.table.Listing.TheVariants as listing;
ghost use Rattle.cdf_form.specs.Listings.{HasTextsOf};
ghost use Rattle.cdf_form.specs.Reading.{max_file};
ghost use Rattle.cdf_form.specs.Records.{RecordsFirstLaw, RecordsApartLaw};
ghost use Rattle.cdf_form.specs.Laws.{FormLaw, TablesInOrder, WholeLaw, NoFloatFaults};
ghost use Rattle.cdf_form.specs.Laws.{WholeDocument};
ghost use Rattle.cdf_form.specs.ByEntry.{HasClassLaw, OnlyClassLaw, EntryLaw, ObjectLaw, TextLaw};
ghost use Rattle.cdf_form.specs.ByEntry.{MayBeTextLaw, MustBeTextLaw, MustBeFoundLaw};
ghost use Rattle.cdf_form.specs.ByEntry.{MustHaveFormLaw};
ghost use Rattle.cdf_form.specs.ByEntry.{MomentFormLaw, ListedFormLaw, CountFormLaw, ArrayLaw};
ghost use Rattle.cdf_form.specs.ByEntry.{ItemsLaw, FewLaw, SomeLaw, ApartLaw};

/// A value has no fault exactly where it has the form of its kind.
///
/// Premise: each rule on repeats is of a member of the classes below. The class tables meet it.
pub fn form_law()
    ensures { FormLaw }
{}

/// Each table's entries stand in byte order of their names.
pub fn tables_in_order()
    ensures { TablesInOrder }
{}

/// A value with no fault of rule 14 holds no float, and one that holds none has no such fault.
pub fn whole_law()
    ensures all { WholeLaw }
    ensures none { NoFloatFaults }
    ensures document { WholeDocument }
{}

/// Records stand first in a report's table: where all else that the table says of its records
/// holds, the first fault of the records is the report's first fault of form.
pub fn records_first()
    ensures { RecordsFirstLaw }
{}

/// Records without a fault play no part in what else is wrong with the form of their report.
pub fn records_apart()
    ensures { RecordsApartLaw }
{}

/// An object that has the form of a group has a class of it, and each entry of that class's table
/// holds of it.
pub fn entries_hold()
    ensures its_class { HasClassLaw }
    ensures only_class { OnlyClassLaw }
    ensures is_object { ObjectLaw }
    ensures each_entry { EntryLaw }
{}

/// What stands under an entry of texts is a text of the entry's kind; where it is required it is
/// there, and a reader finds it.
pub fn texts_by_entry()
    ensures has_form { TextLaw }
    ensures is_text { MayBeTextLaw }
    ensures is_there { MustBeTextLaw }
    ensures is_found { MustBeFoundLaw }
    ensures found_has_form { MustHaveFormLaw }
{}

/// What has the form of a moment, of a listed text or of a count is one.
pub fn kinds_of_values()
    ensures moments { MomentFormLaw }
    ensures listed { ListedFormLaw }
    ensures counts { CountFormLaw }
{}

/// What stands under an entry of arrays is an array. Each item has the form, they are as many as
/// the entry allows, and no two have one text under its key.
pub fn items_by_entry()
    ensures is_array { ArrayLaw }
    ensures have_form { ItemsLaw }
    ensures most { FewLaw }
    ensures least { SomeLaw }
    ensures apart { ApartLaw }
{}

/// Each list of texts in the tables has the texts of all values of its enumeration, and no other.
pub fn listed_texts()
    ensures snapshot_kind { HasTextsOf snapshot_kind_text listing.CvrType }
    ensures cvr_status { HasTextsOf cvr_status_text listing.CvrStatus }
    ensures contest_status { HasTextsOf contest_status_text listing.ContestStatus }
    ensures selection_status { HasTextsOf selection_status_text listing.ContestSelectionStatus }
    ensures position_status { HasTextsOf position_status_text listing.PositionStatus }
    ensures indication { HasTextsOf indication_text listing.IndicationStatus }
    ensures allocation { HasTextsOf allocation_text listing.AllocationStatus }
    ensures report_kind { HasTextsOf report_kind_text listing.ReportType }
    ensures vote_variation { HasTextsOf vote_variation_text listing.VoteVariation }
{}

/// The greatest length of a file is 64 MiB.
pub fn file_limit()
    ensures { max_file ≡ 2 ^ 26 }
{}
