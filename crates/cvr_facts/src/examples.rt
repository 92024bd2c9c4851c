ghost use Rattle.cvr_facts.specs.Examples.{FactsOfFile, FactsStatedOfReport, HeaderOfReport};
ghost use Rattle.cvr_facts.specs.Examples.{SnapshotOfReport, NumbersOfReport, FactsOfTwoCvrs};
ghost use Rattle.cvr_facts.specs.Examples.{OtherSpelling, OrderOfChoosing};
ghost use Rattle.cvr_facts.specs.Examples.{Instants, SameInstant, Adjudicated, DatedReading};
ghost use Rattle.cvr_facts.specs.Examples.{FileCallsAnotherCurrent, OneIdTwoBodies, UnitMoves};

/// Worked examples: files of one election, and the facts, sums, headers and current snapshots that
/// they give.
pub fn worked_files()
    ensures facts_of_file { FactsOfFile }
    ensures facts_stated_of_report { FactsStatedOfReport }
    ensures header_of_report { HeaderOfReport }
    ensures snapshot_of_report { SnapshotOfReport }
    ensures numbers_of_report { NumbersOfReport }
    ensures facts_of_two_cvrs { FactsOfTwoCvrs }
    ensures other_spelling { OtherSpelling }
    ensures order_of_choosing { OrderOfChoosing }
    ensures instants { Instants }
    ensures same_instant { SameInstant }
    ensures adjudicated { Adjudicated }
    ensures dated_reading { DatedReading }
    ensures file_calls_another_current { FileCallsAnotherCurrent }
    ensures one_id_two_bodies { OneIdTwoBodies }
    ensures unit_moves { UnitMoves }
{}
