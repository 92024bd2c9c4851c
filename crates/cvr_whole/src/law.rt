//! Laws of whole runs, on which no other crate stands.
ghost use Rattle.cvr_whole.specs.Runs.{MayBeWholeLaw, SameBytesLaw, SameStatusLaw, CleanRunLaw};
ghost use Rattle.cvr_whole.specs.Lines.{OneReadingLaw};
ghost use Rattle.cvr_whole.specs.Volumes.{VolumesHoldLaw, VolumesTextLaw};
ghost use Rattle.cvr_whole.specs.Votes.{EachVoteLaw, EachBallotLaw};

/// Two runs of one command over definitions that are one, and over files whose accepted ones have
/// the same values: where both are whole, their outputs took the same bytes. The texts of the
/// definitions are the same, in any order; the files come in any order, however often, and beside
/// any refused ones. Each job may have a whole run.
///
/// Left open: `check`, which prints files in the given order; `drill`; a run that isn't whole, of
/// which the output has a prefix; the log, which names refused files; and outputs that don't show
/// their bytes.
pub fn same_bytes()
    ensures may_be { MayBeWholeLaw }
    ensures bytes { SameBytesLaw }
{}

/// Two whole runs of one command, but `drill`, over one definition and the same files, byte by
/// byte, in any order and however often, have one status. It is `Done` exactly where the definition
/// is sound, each file is valid, and `merge` has a moment, a device of the definition and a volume.
///
/// Left open: when a run is whole.
pub fn one_status()
    ensures same { SameStatusLaw }
    ensures done { CleanRunLaw }
{}

/// All volumes that `merge` prints of files, in any order and with any repeats, hold what the files
/// hold, if each is short enough for a file. So a run over the volumes prints what one over the
/// files does.
///
/// Left open: that a volume is short enough; `check` and `drill`, which go file by file.
pub fn volumes_stand_for_files()
    ensures hold { VolumesHoldLaw }
    ensures text { VolumesTextLaw }
{}

/// No vote is lost, and none counts twice: each column of a contest, added up over all rows of the
/// tally, is what the current snapshots of all records of the accepted files come to. Its ballots
/// are as many as the records of these files whose current snapshot has the contest.
///
/// Left open: that the files are all there.
pub fn no_vote_is_lost()
    ensures votes { EachVoteLaw }
    ensures ballots { EachBallotLaw }
{}

/// The text of a tally is read in one way: two tallies with one text say the same, line by line:
/// the ids of the contest, the unit and the batch, the numbers, and the id and the votes of each
/// selection.
///
/// Premise: the numbers of both stay below the limit that those of offices stay below.
pub fn one_reading()
    ensures { OneReadingLaw }
{}
