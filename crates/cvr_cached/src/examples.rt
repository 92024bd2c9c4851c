//! A worked example: how often the rows of an office are changed where facts come to it.
ghost use Rattle.cvr_cached.specs.Examples.{MovedWhereTheyCome, MovedWhereMadeAnew};
ghost use Rattle.cvr_cached.specs.Examples.{MovedWhereNothingIsNew};

/// Facts of three records come to those of four: one record is new, one gets another current
/// snapshot, one another header alone; all else that comes was there. Making the rows anew takes
/// a different number of changes.
pub fn what_moves()
    ensures come { MovedWhereTheyCome }
    ensures anew { MovedWhereMadeAnew }
    ensures again { MovedWhereNothingIsNew }
{}
