use cdf_types::{MemorySink, ReadFault};
use cvr_collect::Office;
use cvr_report::{Heading, volumes, write_volume};
use std::alloc::Global;

// The date and the device of a heading, and the bytes that a sink takes in one call at most.
const DATE: &str = "2024-11-06T08:00:00Z";

const DEVICE: &str = "desk";

const PIECE: usize = 4096;

// Volume `i` of an office, if it has it and the device of the heading.
fn write<O: Office>(alloc: Global, office: &O, heading: &Heading, i: usize) -> Option<MemorySink> {
    if i == 0 || i > volumes(office) || !office.definition().device(heading.device()) {
        return None;
    }
    let mut out = MemorySink::new(alloc, PIECE, 0);
    write_volume(alloc, office, heading, i, &mut out).ok()?;
    Some(out)
}

// The bytes of volume `i` of an office.
fn volume_of<O: Office>(
    alloc: Global,
    office: &O,
    heading: &Heading,
    i: usize,
) -> Result<Vec<u8>, ReadFault> {
    let out = write(alloc, office, heading, i).ok_or(ReadFault::NotJson)?;
    Ok(Vec::from_slice(alloc, out.taken())?)
}

// The bytes of each volume under a heading.
fn volumes_under<O: Office>(
    alloc: Global,
    office: &O,
    heading: &Heading,
) -> Result<Vec<Vec<u8>>, ReadFault> {
    let mut written = Vec::new(alloc);
    for i in 1..=volumes(office) {
        written.push(volume_of(alloc, office, heading, i)?)?;
    }
    Ok(written)
}

/// The bytes of each volume of an office, in order.
pub fn volumes_of<O: Office>(alloc: Global, office: &O) -> Result<Vec<Vec<u8>>, ReadFault> {
    match Heading::new(alloc, office.definition(), DATE, DEVICE) {
        Ok(heading) => volumes_under(alloc, office, &heading),
        Err(_) => Err(ReadFault::NotJson),
    }
}
