// Laws of the bodies of an accepted file. Each is the contract of a function that does nothing.
ghost use Rattle.cdf_check.specs.Laws.{DevicesStandLaw, HeadersStandLaw, SnapshotsStandLaw};
ghost use Rattle.cdf_check.specs.Utf8.{ReadUtf8Law, PartUtf8Law, PartHasUtf8Law, ProperUtf8Law};
ghost use Rattle.cdf_check.specs.Utf8.{TextUtf8Law, BodiesUtf8Law};
ghost use Rattle.cdf_check.specs.Wider.{MoreDevicesLaw, HeaderStaysLaw, SnapshotStaysLaw};
ghost use Rattle.cdf_check.specs.Wider.{ResolvedLaw, EachLaw};

/// Each device's body of an accepted file is read back as an object that would stand in a report.
pub fn device_bodies_stand()
    ensures { DevicesStandLaw }
{}

/// So is each cast vote record without its snapshots, by the definition and the file's devices
/// alone.
pub fn header_bodies_stand()
    ensures { HeadersStandLaw }
{}

/// So is each snapshot.
pub fn snapshot_bodies_stand()
    ensures { SnapshotsStandLaw }
{}

/// What stands also stands where more can be named, as a definition with more devices names more.
pub fn bodies_stay()
    ensures devices { MoreDevicesLaw }
    ensures header { HeaderStaysLaw }
    ensures snapshot { SnapshotStaysLaw }
{}

/// Where no reference of a cast vote record is missing, none of its parts has one that is.
pub fn parts_refer()
    ensures parts { ResolvedLaw }
    ensures items { EachLaw }
{}

/// What a file holds is UTF-8: each text and name of its value, the compact text of each part, and
/// each id and body of an accepted file.
pub fn bodies_are_utf8()
    ensures value { ReadUtf8Law }
    ensures part { PartUtf8Law }
    ensures parts { PartHasUtf8Law }
    ensures proper { ProperUtf8Law }
    ensures text { TextUtf8Law }
    ensures bodies { BodiesUtf8Law }
{}
