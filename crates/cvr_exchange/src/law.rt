//! Laws of volumes that are passed on as files, in place of exchanges.
ghost use Rattle.cvr_exchange.specs.Laws.{ValidLaw, ValidForSameLaw, NothingAddedLaw};
ghost use Rattle.cvr_exchange.specs.Laws.{AllVolumesLaw, AnyOrderLaw, AcceptedLaw, ImportsLaw};
ghost use Rattle.cvr_exchange.specs.Laws.{AmongLaw, AllAmongLaw, ByFilesLaw, SamePassingLaw};

use cvr_office::Office;

/// A volume that is short enough for a file is accepted beside the definition of the office that
/// wrote it, and beside any that is the same, whatever conflicts stand in it.
///
/// Premises: what each office holds (`can_hold` of `Office::definition`), and a heading (`heading`
/// of `Heading::date`) of a device that the definition lists. No law says that a volume is short
/// enough for a file: a longer one is refused with E1.
pub fn valid_volumes()
    ensures own { ValidLaw }
    ensures same { ValidForSameLaw }
{}

/// The facts of all volumes, in any order and with repeats, are exactly those of the office that
/// wrote them, however long the volumes are.
pub fn all_volumes()
    ensures none_added { NothingAddedLaw }
    ensures all { AllVolumesLaw }
    ensures any_order { AnyOrderLaw }
{}

/// The import of a volume into an office of the same definition is accepted, unless memory runs
/// out. Imports of all volumes leave each office with what an exchange would. Where volumes arrive
/// among other events, the office holds at the end what it held before them and the facts of these
/// volumes: of all volumes, all that the giver held when it wrote them.
pub fn imports()
    ensures accepted { AcceptedLaw }
    ensures exchange { ImportsLaw }
    ensures among { AmongLaw }
    ensures all_among { AllAmongLaw }
{}

/// Offices that import volumes in place of exchanges hold what the exchanges would give.
///
/// Premise: the office that gives is one of the offices. That files arrive isn't said.
pub fn by_files()
    ensures content { ByFilesLaw }
{}

/// New offices of one definition pass each other volumes as files, and play any other events,
/// refused ones among them. Then two of them that the same files would have reached by exchanges
/// hold and answer the same, and make the same volumes. Files are the same where their values are,
/// as `serde_json` reads them.
pub fn same_files<O: Office>()
    ensures alike { SamePassingLaw O.held O.defined }
{}
