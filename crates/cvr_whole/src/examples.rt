//! Worked examples: runs over a few small files.
ghost use Rattle.cvr_whole.specs.Examples.{OneIsClean, TwoAreNot, SameInput, TextOfOne, OneVolume};

/// A job that is clean, and one that isn't; two jobs with the same input, and the text of both; and
/// a file with one volume, which is short enough for a file.
pub fn worked_examples()
    ensures clean { OneIsClean }
    ensures refused { TwoAreNot }
    ensures same { SameInput }
    ensures text { TextOfOne }
    ensures volume { OneVolume }
{}
