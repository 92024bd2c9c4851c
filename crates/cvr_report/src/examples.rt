//! Worked examples: the whole text of each volume of a few facts.
ghost use Rattle.cvr_report.specs.Examples.{NumberOfSix, FirstOfSix, SecondOfSix, ThirdOfSix};
ghost use Rattle.cvr_report.specs.Examples.{CurrentsOfSix};
ghost use Rattle.cvr_report.specs.DeviceExamples.{VolumesOfTown, VolumeOfDevices};

/// Six files bring three records: one with two bodies of its header, one with three bodies under a
/// snapshot's id, one with no conflict. Shown are the number of the volumes that they make, the
/// text of each, and which snapshot of the second record each calls current; the two volumes of a
/// device with two bodies, beside one with one body; and the one volume of devices alone.
///
/// The texts are worked out from docs/FORMAT.md, and not from what the code writes.
pub fn worked_examples()
    ensures number { NumberOfSix }
    ensures first { FirstOfSix }
    ensures second { SecondOfSix }
    ensures third { ThirdOfSix }
    ensures current { CurrentsOfSix }
    ensures devices { VolumesOfTown }
    ensures no_record { VolumeOfDevices }
{}
