ghost use Rattle.std.specs.Prelude.{◌≡◌, ◌≤◌, false, Some, length, take, drop, vec_len};
ghost use Rattle.std.specs.Prelude.{IfErr, IfOk, OnOk, IfSome};
ghost use Rattle.cvr_run.specs.declared.file.FileFault.TheVariants.{Device, Memory as NoMemory};
ghost use Rattle.cvr_run.specs.File.{is_file_device, held_bytes};

use cdf_types::{DeviceFault, Source};
use std::alloc::{AllocError, Global};
use thiserror::Error;

/// The most bytes that are held of a file: one more than a file may have.
pub const HELD: usize = 67_108_865;

// The bytes of one read at most.
const PIECE: usize = 65_536;

/// Why a file was not read.
#[derive(Clone, Copy, Debug, PartialEq, Eq, Error)]
pub enum FileFault {
    /// The device failed.
    #[error("the device failed")]
    Device,
    /// Out of memory.
    #[error("out of memory")]
    Memory,
}

impl From<DeviceFault> for FileFault {
    ghost from_gives = { λ _ e. e ≡ Device };

    fn from(_fault: DeviceFault) -> FileFault {
        FileFault::Device
    }
}

impl From<AllocError> for FileFault {
    ghost from_gives = { λ _ e. e ≡ NoMemory };

    fn from(_refused: AllocError) -> FileFault {
        FileFault::Memory
    }
}

/// The bytes of a source up to its end, or the first 67,108,865 of them, so that a longer file can
/// be distinguished from one that is as long as it may be. No more is taken of the source.
///
/// # Errors
/// `Device` exactly where the source has failed when the call returns; `Memory` where a growth was
/// refused. What was read is lost in both.
pub fn read_file<R: Source>(alloc: Global, source: &mut R) -> Result<Vec<u8>, FileFault>
    requires { (R.left source.old).failed ≡ false }
    ensures bytes { IfOk result
        (λ v. IfSome (R.left source.old).bytes (λ left. v.items ≡ take held_bytes left)) }
    ensures rest { IfOk result (λ _. IfSome (R.left source.old).bytes
        (λ left. (R.left source.new).bytes ≡ Some (drop held_bytes left))) }
    ensures fits { IfOk result (λ v. vec_len v ≤ held_bytes) }
    ensures working { OnOk result ((R.left source.new).failed ≡ false) }
    ensures fault { IfErr result (λ e. (R.left source.new).failed ≡ is_file_device e) }
    ensures steady { (R.left source.old).can_fail ≡ false → (R.left source.new).failed ≡ false }
{
    let mut bytes = Vec::new(alloc);
    read_into(source, &mut bytes)?;
    Ok(bytes)
}

/// The same, in the place of what was in these bytes. Their room stays, but for what is spare where
/// that is more than half of it.
///
/// # Errors
/// As `read_file`. Nothing is then said of the bytes.
pub fn read_into<R: Source>(source: &mut R, bytes: &mut Vec<u8>) -> Result<(), FileFault>
    requires { (R.left source.old).failed ≡ false }
    ensures bytes { OnOk result (IfSome (R.left source.old).bytes
        (λ left. bytes.new.items ≡ take held_bytes left)) }
    ensures rest { OnOk result (IfSome (R.left source.old).bytes
        (λ left. (R.left source.new).bytes ≡ Some (drop held_bytes left))) }
    ensures fits { OnOk result (vec_len bytes.new ≤ held_bytes) }
    ensures working { OnOk result ((R.left source.new).failed ≡ false) }
    ensures fault { IfErr result (λ e. (R.left source.new).failed ≡ is_file_device e) }
    ensures steady { (R.left source.old).can_fail ≡ false → (R.left source.new).failed ≡ false }
{
    bytes.clear();
    let mut piece = [0u8; PIECE];
    'reads: while bytes.len() < HELD {
        let room = (HELD - bytes.len()).min(PIECE);
        let (part, _) = piece.split_at_mut(room);
        let count = source.read(part)?;
        if count == 0 {
            give_back(bytes);
            return Ok(());
        }
        bytes.extend_from_slice(&piece[..count])?;
    }
    Ok(())
}

// Frees the room that is spare, where it is more than half: that of a longer file before this one.
fn give_back(bytes: &mut Vec<u8>)
    ensures same { bytes.new.items ≡ bytes.old.items }
    ensures length { vec_len bytes.new ≡ vec_len bytes.old }
{
    if bytes.capacity() / 2 > bytes.len() {
        bytes.shrink_to_fit();
    }
}
