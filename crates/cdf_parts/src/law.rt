ghost use Rattle.cdf_parts.specs.Whole.{WholeMembers, WholeItems, WholeValues};

/// No part of a value that holds no float holds one.
pub fn whole_parts()
    ensures members { WholeMembers }
    ensures items { WholeItems }
    ensures values { WholeValues }
{}
