ghost use Rattle.std.specs.Prelude.{◌≡◌, ◌≢◌, MatchOption};
ghost use Rattle.cvr_run.specs.Printing.{merge_part};
ghost use Rattle.cvr_call.specs.Handle.{Does};
ghost use Rattle.cvr_call.specs.Offices.{done};
ghost use Rattle.cvr_call.specs.Left.{no_memory, no_room};
ghost use Rattle.cvr_call.specs.Volume.{ShowsVolume, merge_status};

use crate::office::CvrOffice;
use crate::offices::{NO_OFFICE, leave_bytes};
use cdf_types::MemorySink;
use cvr_cached::CachedOffice;
use cvr_cli::{MergeFault, PrintFault, Status, print_volume};
use std::alloc::Global;

// The status of a volume whose date is no moment.
const NOT_MOMENT: u8 = 9;

// The status of a volume whose device the definition doesn't list.
const NO_DEVICE: u8 = 10;

// The status of a volume that isn't there.
const NO_VOLUME: u8 = 11;

// The status of a volume that was not printed into memory.
fn fault_status(fault: PrintFault) -> u8
    ensures { MatchOption (merge_part fault) (result ≡ no_memory)
        (λ e. result ≡ merge_status e) }
{
    match fault {
        PrintFault::Merge(MergeFault::NotMoment) => NOT_MOMENT,
        PrintFault::Merge(MergeFault::NoDevice) => NO_DEVICE,
        PrintFault::Merge(MergeFault::NoVolume(_)) => NO_VOLUME,
        PrintFault::Device | PrintFault::Memory => Status::Memory.code(),
    }
}

// Puts a volume of what an office holds into a room.
fn put_volume(
    alloc: Global,
    office: &CachedOffice,
    date: &[u8],
    device: &[u8],
    number: usize,
    room: &mut [u8],
    size: &mut usize,
) -> u8
    ensures volume { ShowsVolume office.now date.now device.now number
        room.old room.new size.new result }
    ensures quiet { result ≢ done → result ≢ no_room
        → (room.new ≡ room.old) × (size.new ≡ size.old) }
{
    let Ok(date) = str::from_utf8(date) else {
        return Status::CommandLine.code();
    };
    let Ok(device) = str::from_utf8(device) else {
        return Status::CommandLine.code();
    };
    if number == 0 {
        return Status::CommandLine.code();
    }
    let mut out = MemorySink::new(alloc, usize::MAX, 0);
    match print_volume(alloc, office, date, device, number, &mut out) {
        Ok(()) => leave_bytes(out.taken(), room, size),
        Err(fault) => fault_status(fault),
    }
}

/// Volume `number` of all that the office holds, under a date and a device, as `merge` prints it,
/// with its length. Answers 0, or 6 where the room is too short; 2 where date and device aren't
/// UTF-8 or the number is 0; 4 where a growth was refused; 7 where the handle has no office; and
/// the first that applies of 9, where the date is no moment, 10, where the definition lists no such
/// device, and 11, where there are fewer volumes. Where it is neither 0 nor 6, text and size stay
/// as they were.
#[unsafe(no_mangle)]
pub extern "C" fn cvr_office_volume(
    alloc: Global,
    office: &mut CvrOffice,
    date: &[u8],
    device: &[u8],
    number: usize,
    text: &mut [u8],
    size: &mut usize,
) -> u8
    ensures volume { Does office.old.office office.new.office result
        (λ old new. ShowsVolume old date.now device.now number
        text.old text.new size.new result) }
    ensures unchanged { office.new.office ≡ office.old.office }
    ensures quiet { result ≢ done → result ≢ no_room
        → (text.new ≡ text.old) × (size.new ≡ size.old) }
{
    let Some(held) = office.take(alloc) else {
        return NO_OFFICE;
    };
    let status = put_volume(alloc, &held, date, device, number, text, size);
    office.put(held);
    status
}
