ghost use Rattle.cdf_check.specs.Laws.{SameElectionLaw, ListsLaw, PlacesLaw};
ghost use Rattle.cdf_check.specs.Apart.{RecordsLaw, AgreesApartLaw, TypedApartLaw};
ghost use Rattle.cdf_check.specs.Same.{SameTextsLaw, SameDefinitionsLaw, OneDefinitionLaw};

/// What agrees with a definition has its election, and so its contests.
pub fn same_election()
    ensures { SameElectionLaw }
{}

/// Each list of a definition has the objects of its array, and rises strictly by id.
pub fn lists_rise()
    ensures { ListsLaw }
{}

/// Each contest, and each selection of a contest, is found by its id at its own place.
pub fn found_by_ids()
    ensures { PlacesLaw }
{}

/// Two definitions are the same exactly where they agree in the sets of texts of Election, GpUnits
/// and Parties. They are then equal but for their devices, contests and selections among the rest,
/// and with the same texts of devices they are equal.
pub fn same_definitions()
    ensures texts { SameTextsLaw }
    ensures equal { SameDefinitionsLaw }
    ensures one { OneDefinitionLaw }
{}

/// A report may be given as its records and what is left beside them: it is a report where what is
/// left is one and each record is one of it, it agrees with a definition where what is left does,
/// and its typed report is made of both.
pub fn records_apart()
    ensures report { RecordsLaw }
    ensures agrees { AgreesApartLaw }
    ensures typed { TypedApartLaw }
{}
