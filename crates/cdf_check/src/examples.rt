// Worked examples of references, of agreement and of equal definitions. Each is the contract of a
// function that does nothing.
ghost use Rattle.cdf_check.specs.Examples.{Plain, NotAllOfIt, OneByteMore, LongestFile, AllUnknown};
ghost use Rattle.cdf_check.specs.Examples.{GeneratingDevice, CreatingDevice, ElectionScope};
ghost use Rattle.cdf_check.specs.Examples.{BallotStyleUnit, PartyOfCandidate, PartyOfSelection};
ghost use Rattle.cdf_check.specs.Examples.{PartyOfRecord};
ghost use Rattle.cdf_check.specs.Examples.{CandidateOfSelection, ElectionOfRecord, CurrentSnapshot};
ghost use Rattle.cdf_check.specs.Examples.{ContestOfRecord, SelectionOfContest};
ghost use Rattle.cdf_check.specs.Examples.{OtherElection, OtherUnit, OtherParty, OtherDevice};
ghost use Rattle.cdf_check.specs.Examples.{SameWithOtherDevice, SameWithOtherRecord};
ghost use Rattle.cdf_check.specs.Examples.{OtherByElection, OtherByUnit, OtherByParty};
ghost use Rattle.cdf_check.specs.FileExamples as file;

/// A report that has each reference is accepted; where all name nothing, all are reported in order.
pub fn reports()
    ensures plain { Plain }
    ensures all_unknown { AllUnknown }
{}

/// What is no JSON text, and what is too long.
pub fn files()
    ensures no_json { NotAllOfIt }
    ensures too_long { OneByteMore }
    ensures longest { LongestFile }
{}

/// Each reference to a device, a unit, a Party or a Candidate, with the id of another object.
pub fn named_objects()
    ensures generating_device { GeneratingDevice }
    ensures creating_device { CreatingDevice }
    ensures scope { ElectionScope }
    ensures unit { BallotStyleUnit }
    ensures party_of_candidate { PartyOfCandidate }
    ensures party_of_selection { PartyOfSelection }
    ensures party_of_record { PartyOfRecord }
    ensures candidate { CandidateOfSelection }
{}

/// Each reference to an Election, a snapshot, a contest or a selection, with the id of another
/// object.
pub fn named_parts()
    ensures election { ElectionOfRecord }
    ensures current { CurrentSnapshot }
    ensures contest { ContestOfRecord }
    ensures selection { SelectionOfContest }
{}

/// What has to agree with a definition, and what may differ.
pub fn agreement()
    ensures election { OtherElection }
    ensures unit { OtherUnit }
    ensures party { OtherParty }
    ensures device { OtherDevice }
{}

/// What makes a definition, and what doesn't.
pub fn same_definitions()
    ensures device { SameWithOtherDevice }
    ensures other_record { SameWithOtherRecord }
    ensures election { OtherByElection }
    ensures unit { OtherByUnit }
    ensures party { OtherByParty }
{}

/// Worked examples: a small report, and files that differ from it in a place.
pub fn worked_files()
    ensures one_definition { file.OneDefinition }
    ensures one_file { file.OneFile }
    ensures first_fault { file.FirstFault }
    ensures fraction_first { file.FractionFirst }
    ensures fractional_votes { file.FractionalVotes }
    ensures escaped_path { file.EscapedPath }
    ensures repeated_snapshot { file.RepeatedSnapshot }
    ensures other_selection { file.OtherSelection }
    ensures unknown_contest { file.UnknownContest }
    ensures unknown_current { file.UnknownCurrent }
    ensures other_election { file.OtherElection }
    ensures other_unit { file.OtherUnit }
    ensures reference_first { file.ReferenceFirst }
{}
