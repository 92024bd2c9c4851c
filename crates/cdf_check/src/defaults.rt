ghost use Rattle.cdf_check.specs.Defaults.{ReportIsReadLaw, NoDefaultLaw, InRangeLaw};
ghost use Rattle.cdf_check.specs.Defaults.{RecordInRangeLaw};

/// In an accepted file no default of the typed readers stands for a part that is demanded, or for
/// one of another kind or out of range: what is demanded is there, and what is there is of its
/// kind.
pub fn no_default_occurs()
    ensures { NoDefaultLaw }
{}

/// Nor does one in a value that has the form of a report and refers to what is there.
pub fn no_default_of_a_report()
    ensures { ReportIsReadLaw }
{}

/// Each place that an accepted file gives is one of the definition's, each count and each list is
/// within its limit, and no contest stands twice in a snapshot.
pub fn places_are_in_range()
    ensures { InRangeLaw }
{}

/// So are those of a record that has its form, and names only contests and selections of these
/// contests.
pub fn places_of_a_record()
    ensures { RecordInRangeLaw }
{}
