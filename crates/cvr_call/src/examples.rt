//! Worked examples: an input of three words and two files, what is printed of the version before
//! memory runs out, rooms, a fault, and a volume.
ghost use Rattle.cvr_call.specs.Given.{TallyCut};
ghost use Rattle.cvr_call.specs.Offices.{PathOfTwo, TextOfTwo};
ghost use Rattle.cvr_call.specs.Left.{RoomOfThree};
ghost use Rattle.cvr_call.specs.Responds.{VersionCut};
ghost use Rattle.cvr_call.specs.Volume.{NoWords, OneOfThree};
ghost use Rattle.cvr_cached.specs.Held.{Holding};

/// The pieces of an input; the beginning of the version; rooms that are longer than a text and
/// shorter; a fault with its path; a volume, and one that isn't there; what can't be words of a
/// merge.
pub fn worked_examples()
    ensures input { TallyCut }
    ensures cut { VersionCut }
    ensures room { RoomOfThree }
    ensures text { TextOfTwo }
    ensures path { PathOfTwo }
    ensures volume { OneOfThree }
    ensures words { (office : Holding) → NoWords office }
{}
