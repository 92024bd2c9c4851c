ghost use Rattle.std.specs.Prelude.{◌≡◌, ◌<◌, false};
ghost use Rattle.cvr_run.specs.Log.{Logs};
ghost use Rattle.cvr_run.specs.Merge.{merge_fault, merge_text, merge_fault_line};
ghost use Rattle.cvr_run.specs.Printing.{Prints};

use crate::log::say;
use crate::printing::PrintFault;
use cdf_types::Sink;
use cvr_office::Office;
use cvr_report::{Heading, volumes, write_volume};
use itoa::Buffer;
use std::alloc::Global;

/// Why there is no volume to print: the first cause that applies.
#[derive(Clone, Copy, Debug, PartialEq, Eq)]
pub enum MergeFault {
    /// The date is no moment.
    NotMoment,
    /// The definition lists no such device.
    NoDevice,
    /// There are no more than this many volumes.
    NoVolume(usize),
}

/// Reports the fault of a merge in the log. Takes no memory.
pub fn say_merge<L: Sink>(log: &mut L, fault: MergeFault)
    ensures { Logs (L.taken log.old) (L.taken log.new) (merge_fault_line fault) }
{
    match fault {
        MergeFault::NotMoment => say(log, &[b"merge: H1\n"]),
        MergeFault::NoDevice => say(log, &[b"merge: H2\n"]),
        MergeFault::NoVolume(volumes) => {
            let mut buffer = Buffer::new();
            let volumes = buffer.format(volumes).as_bytes();
            say(log, &[b"merge: V1 ", volumes, b"\n"]);
        }
    }
}

/// Prints volume `i` of what an office holds, under a date and a device, without a line end.
///
/// # Errors
/// The first fault of the merge, with nothing printed; `Device` where the output has failed;
/// `Memory` where a growth was refused. The output has then taken a prefix of the volume.
pub fn print_volume<O: Office, W: Sink>(
    alloc: Global,
    office: &O,
    date: &str,
    device: &str,
    i: usize,
    out: &mut W,
) -> Result<(), PrintFault>
    requires working { (W.taken out.old).failed ≡ false }
    requires number { 0 < i }
    ensures { Prints (W.taken out.old) (W.taken out.new) result
        (merge_fault (O.defined office.now) date.now device.now i (O.held office.now))
        (merge_text (O.defined office.now) date.now device.now i (O.held office.now)) }
{
    let heading = Heading::new(alloc, office.definition(), date, device)?;
    let volumes = volumes(office);
    if volumes < i {
        return Err(PrintFault::Merge(MergeFault::NoVolume(volumes)));
    }
    write_volume(alloc, office, &heading, i, out)?;
    Ok(())
}
