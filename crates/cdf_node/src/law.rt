// Laws of what is read. Each is the contract of a function that does nothing.
ghost use Rattle.cdf_node.specs.Order.{NextIsSortedLaw, ReadIsSortedLaw};

/// In what is read the names of each object rise, at every depth.
pub fn names_rise()
    ensures next { NextIsSortedLaw }
    ensures read { ReadIsSortedLaw }
{}
