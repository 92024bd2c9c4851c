ghost use Rattle.std.specs.Prelude.{◌≡◌, None, Some, IfOk, IfErr, OnOk};
ghost use Rattle.cdf_types.specs.declared.fault.ReadFault.{ReadFault};
ghost use Rattle.cdf_form.specs.Reading.{IsMemory};
ghost use Rattle.cdf_typed.specs.Range.{ReportInRange};
ghost use Rattle.cdf_definition.specs.Acceptance.{Valid, first_refusal, report_in};

use crate::judge::judge;
use crate::keep::Keep;
use crate::seen::Looks;
use crate::typed::Typed;
use bumpalo::Bump;
use cdf_definition::Definition;
use cdf_form::read::file_text;
use cdf_pull::read_text_fold;
use cdf_types::{ReadFault, Report, ReportingDevice, Seq};
use json::Scratch;
use std::alloc::Global;

/// The reporting devices of a file that is accepted beside a definition, in order, and what is kept
/// of its records. The file is read once, with no more than a record's tree at a time; where it is
/// refused for a reference or an object that isn't the definition's, it is read twice.
///
/// A record is handed to `keep` as its value, with its place, only while it and each record before
/// it have no fault of numbers or form and name contests and selections of the definition. So each
/// part of it is in range (`defaults::places_of_a_record`).
///
/// # Errors
/// As `check_report`.
pub fn check_file<K: Keep>(
    alloc: Global,
    definition: &Definition,
    bytes: &[u8],
    keep: &K,
) -> Result<(Seq<ReportingDevice>, K::Kept), ReadFault>
where
    K::Kept: Drop,
    ensures valid { OnOk result (Valid definition.now bytes.now) }
    ensures devices { IfOk result
        (λ p. p.0 ≡ (report_in definition.now.contests bytes.now).devices) }
    ensures kept { IfOk result
        (λ p. K.keeps keep.now definition.now.contests
        (report_in definition.now.contests bytes.now).cvrs p.1) }
    ensures first { IfErr result
        (λ e. ¬ IsMemory e → first_refusal definition.now bytes.now ≡ Some e) }
{
    let text = file_text(bytes)?;
    let bump = Bump::new(alloc);
    let mut scratch = Scratch::new(alloc);
    let looks = Looks { definition, keep };
    match read_text_fold(alloc, &bump, text, &mut scratch, "CVR", &looks) {
        Ok(Some((left, seen))) => judge(alloc, definition, text, &left, keep, seen),
        Ok(None) => Err(ReadFault::NotJson),
        Err(_) => Err(ReadFault::Memory),
    }
}

/// The typed report of a file that is accepted beside a definition: its records in order, contests
/// and selections by their places in the definition, each in range. It is read as by `check_file`.
///
/// # Errors
/// As `Definition::read`; else `Disagrees` at the first Election, GpUnit or Party, in this order,
/// that isn't the definition's.
pub fn check_report(
    alloc: Global,
    definition: &Definition,
    bytes: &[u8],
) -> Result<Report, ReadFault>
    ensures valid { OnOk result (Valid definition.now bytes.now) }
    ensures report { IfOk result (λ r. r ≡ report_in definition.now.contests bytes.now) }
    ensures range { IfOk result (λ r. ReportInRange definition.now.contests r) }
    ensures first { IfErr result
        (λ e. ¬ IsMemory e → first_refusal definition.now bytes.now ≡ Some e) }
{
    definition.made_of_a_report();
    let (devices, cvrs) = check_file(alloc, definition, bytes, &Typed)?;
    Ok(Report {
        devices,
        cvrs: Seq::new(cvrs),
    })
}
