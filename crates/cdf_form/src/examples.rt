// Worked examples of the form, worked out from the rules. Each is the contract of a function that
// does nothing.
ghost use Rattle.cdf_form.specs.FormExamples.{SmallReport, OneContest, UnlistedMember, OtherOffset};
ghost use Rattle.cdf_form.specs.FormExamples.{GreatestCount, IdOfTwoClasses};
ghost use Rattle.cdf_form.specs.FormExamples.{NotObject, MissingMember, MissingClass, WrongClass};
ghost use Rattle.cdf_form.specs.FormExamples.{WrongKind, NotListed, EmptyText, NotMoment};
ghost use Rattle.cdf_form.specs.FormExamples.{NamedZone};
ghost use Rattle.cdf_form.specs.FormExamples.{CountTooGreat, CountBelowZero, Fractional, NotWhole};
ghost use Rattle.cdf_form.specs.FormExamples.{NegativeZero};
ghost use Rattle.cdf_form.specs.FormExamples.{TooFew, TooMany, OneElection, SomeSnapshot};
ghost use Rattle.cdf_form.specs.FormExamples.{MostPositions, MostContestSelections};
ghost use Rattle.cdf_form.specs.FormExamples.{RepeatedId, RepeatedContest};
ghost use Rattle.cdf_form.specs.TableExamples.{AnswersCastVoteRecordReport, AnswersElection};
ghost use Rattle.cdf_form.specs.TableExamples.{AnswersCandidate, AnswersGpUnit, AnswersParty};
ghost use Rattle.cdf_form.specs.TableExamples.{AnswersReportingDevice};
ghost use Rattle.cdf_form.specs.TableExamples.{AnswersCvr, AnswersCvrSnapshot, AnswersAnnotation};
ghost use Rattle.cdf_form.specs.TableExamples.{AnswersCvrContest, AnswersCvrContestSelection};
ghost use Rattle.cdf_form.specs.TableExamples.{AnswersSelectionPosition, AnswersCvrWriteIn};
ghost use Rattle.cdf_form.specs.TableExamples.{AnswersBallotMeasureContest};
ghost use Rattle.cdf_form.specs.TableExamples.{AnswersCandidateContest, AnswersContest};
ghost use Rattle.cdf_form.specs.TableExamples.{AnswersPartyContest, AnswersRetentionContest};
ghost use Rattle.cdf_form.specs.TableExamples.{AnswersBallotMeasureSelection};
ghost use Rattle.cdf_form.specs.TableExamples.{AnswersCandidateSelection, AnswersContestSelection};
ghost use Rattle.cdf_form.specs.TableExamples.{AnswersPartySelection};
ghost use Rattle.cdf_form.specs.TableExamples.{OwnTexts, OtherList, Repeats};

/// Reports without a fault.
pub fn no_fault()
    ensures report { SmallReport }
    ensures contest { OneContest }
    ensures unlisted { UnlistedMember }
    ensures offset { OtherOffset }
    ensures count { GreatestCount }
    ensures ids { IdOfTwoClasses }
{}

/// Rules 1, 2 and 5.
pub fn objects()
    ensures no_object { NotObject }
    ensures member { MissingMember }
    ensures absent_class { MissingClass }
    ensures other_class { WrongClass }
{}

/// Rules 3, 4, 6 and 11.
pub fn texts()
    ensures kind { WrongKind }
    ensures listed { NotListed }
    ensures empty { EmptyText }
    ensures moment { NotMoment }
    ensures zone { NamedZone }
{}

/// Rules 7, 10 and 14.
pub fn numbers()
    ensures too_great { CountTooGreat }
    ensures below_zero { CountBelowZero }
    ensures fractional { Fractional }
    ensures whole { NotWhole }
    ensures negative_zero { NegativeZero }
{}

/// Rules 8 and 9, and each bound of an array: which lengths break it, and that no other does.
pub fn arrays()
    ensures too_few { TooFew }
    ensures too_many { TooMany }
    ensures elections { OneElection }
    ensures snapshots { SomeSnapshot }
    ensures positions { MostPositions }
    ensures contest_selections { MostContestSelections }
{}

/// Rules 12 and 13.
pub fn repeats()
    ensures id { RepeatedId }
    ensures contest { RepeatedContest }
{}

/// The members of a report, its elections and the objects beside them.
pub fn report_members()
    ensures cast_vote_record_report { AnswersCastVoteRecordReport }
    ensures election { AnswersElection }
    ensures candidate { AnswersCandidate }
    ensures gp_unit { AnswersGpUnit }
    ensures party { AnswersParty }
    ensures reporting_device { AnswersReportingDevice }
{}

/// The members of a record and its parts.
pub fn record_members()
    ensures cvr { AnswersCvr }
    ensures cvr_snapshot { AnswersCvrSnapshot }
    ensures annotation { AnswersAnnotation }
    ensures cvr_contest { AnswersCvrContest }
    ensures cvr_contest_selection { AnswersCvrContestSelection }
    ensures selection_position { AnswersSelectionPosition }
    ensures cvr_write_in { AnswersCvrWriteIn }
{}

/// The members of contests and their selections.
pub fn contest_members()
    ensures ballot_measure_contest { AnswersBallotMeasureContest }
    ensures candidate_contest { AnswersCandidateContest }
    ensures contest { AnswersContest }
    ensures party_contest { AnswersPartyContest }
    ensures retention_contest { AnswersRetentionContest }
    ensures ballot_measure_selection { AnswersBallotMeasureSelection }
    ensures candidate_selection { AnswersCandidateSelection }
    ensures contest_selection { AnswersContestSelection }
    ensures party_selection { AnswersPartySelection }
{}

/// Which list a member has, and in which arrays nothing may come twice.
pub fn lists_and_repeats()
    ensures own { OwnTexts }
    ensures other { OtherList }
    ensures repeats { Repeats }
{}
