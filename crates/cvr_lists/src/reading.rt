ghost use Rattle.std.specs.Prelude.{◌≡◌, ◌++◌, IfErr, IfOk, OnOk, None, Some, map};
ghost use Rattle.std.specs.List.{Contains};
ghost use Rattle.std.specs.List.Sorted.{IsStrictlySortedBy};
ghost use Rattle.cdf_parts.specs.Parts.{record_count};
ghost use Rattle.cdf_form.specs.Reading.{IsMemory};
ghost use Rattle.cdf_definition.specs.Acceptance.{Valid, first_refusal, value_in};
ghost use Rattle.cvr_fact_types.specs.declared.name.RecordName.{RecordName};
ghost use Rattle.cvr_facts.specs.Reports.{facts};
ghost use Rattle.cvr_office.specs.declared.any_fact.AnyFact.{AnyFact};
ghost use Rattle.cvr_office.specs.FileFacts.{FactsStandLaw, RecordsWholeLaw};
ghost use Rattle.cvr_office.specs.Names.{record_of};
ghost use Rattle.cvr_office.specs.Place.{any_cmp, fact_of};
ghost use Rattle.cvr_office.specs.Plain.{set_of};
ghost use Rattle.cvr_office.specs.Runs.{AreSpelled};
ghost use Rattle.cvr_lists.specs.Kept.{device_stated};

use crate::kept::Facts;
use crate::putting::put_in;
use crate::shared::SharedFact;
use cdf_check::{Definition, check_file};
use cdf_types::{Memory, ReadFault, ReportingDevice, Seq};
use cvr_facts::DeviceFact;
use cvr_office::any_fact::AnyFact;
use std::alloc::Global;

/// The facts of a file that is accepted beside a definition.
#[derive(Drop)]
pub struct FileFacts {
    /// How many cast vote records it has.
    pub cvrs: usize,
    /// Those of its devices, as the file lists them.
    pub devices: Vec<SharedFact>,
    /// Those of its records, each once and in order.
    pub records: Vec<SharedFact>,
}

/// The facts of a file that is accepted beside a definition. They are made as the file is read,
/// without a typed record of it.
///
/// # Errors
/// As `check_report`.
pub fn read_facts(
    alloc: Global,
    definition: &Definition,
    bytes: &[u8],
) -> Result<FileFacts, ReadFault>
    ensures valid { OnOk result (Valid definition.now bytes.now) }
    ensures cvrs { IfOk result (λ f. f.cvrs ≡ record_count (value_in bytes.now)) }
    ensures facts { IfOk result
        (λ f. set_of (f.devices.items ++ f.records.items) ≡ facts bytes.now) }
    ensures spelled { IfOk result
        (λ f. AreSpelled definition.now.contests (f.devices.items ++ f.records.items)) }
    ensures devices { IfOk result
        (λ f. (x : AnyFact) → Contains f.devices.items x → record_of (fact_of x) ≡ None) }
    ensures records { IfOk result (λ f. (x : AnyFact) → Contains f.records.items x
        → (k : RecordName) × (record_of (fact_of x) ≡ Some k)) }
    ensures rises { IfOk result (λ f. IsStrictlySortedBy any_cmp f.records.items) }
    ensures first { IfErr result
        (λ e. ¬ IsMemory e → first_refusal definition.now bytes.now ≡ Some e) }
{
    let (listed, kept) = check_file(alloc, definition, bytes, &Facts)?;
    let devices = of_devices(alloc, listed)?;
    let mut records = Vec::new(alloc);
    put_in(&mut records, kept.facts)?;
    Ok(FileFacts {
        cvrs: kept.cvrs,
        devices,
        records,
    })
}

// The facts of the devices, in order of the file.
fn of_devices(alloc: Global, devices: Seq<ReportingDevice>) -> Result<Vec<SharedFact>, Memory>
    ensures { IfOk result (λ facts. facts.items ≡ map device_stated devices) }
{
    let devices = devices.into_vec();
    let mut facts = Vec::with_capacity(alloc, devices.len())?;
    for device in devices {
        let ReportingDevice { id, body } = device;
        let fact = DeviceFact { id, body };
        facts.push(SharedFact::new(alloc, AnyFact::Device(fact))?)?;
    }
    Ok(facts)
}

/// The bodies of a valid file's facts would stand in a written report, by the definition and the
/// file's devices alone; and each of its records has a header, a snapshot and a device.
pub fn facts_stand()
    ensures bodies { FactsStandLaw }
    ensures records { RecordsWholeLaw }
{}
