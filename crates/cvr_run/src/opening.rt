ghost use Rattle.std.specs.Prelude.{◌≡◌, ◌∷◌, [], true, false, IfOk, IfErr, OnOk};
ghost use Rattle.cvr_run.specs.File.{is_file_device};
ghost use Rattle.cvr_run.specs.declared.file.FileFault.TheVariants.{Device};
ghost use Rattle.cvr_run.specs.Log.{Logs};
ghost use Rattle.cvr_run.specs.Opening.{Absent, Opener, has_file, IsOpened, IsRead};
ghost use Rattle.cvr_run.specs.Opening.{FailedAt, Opens};
ghost use Rattle.cvr_run.specs.Worked.{unread_status, unread_line};

use crate::file::{FileFault, read_into};
use crate::log::say;
use crate::status::Status;
use cdf_types::{Sink, Source};

/// Where the files of a run are found. Contracts see what it says of each path, if it says
/// anything, whether the reading of a file may fail, and which paths it was to open, if it shows
/// them.
///
/// The opener of the system promises nothing of any path, and that each file may fail: it keeps the
/// contract, too. Neither it nor `MemoryFiles` shows the paths that it was to open.
pub trait Open {
    /// What a file's bytes are read from.
    type File: Source + Drop;

    // What it says of paths, and which it was to open.
    ghost state: { Self → Opener };

    /// The file at a path, from its first byte on. What it says of paths stays.
    ///
    /// # Errors
    /// `Device` where no file could be opened; `Memory` where a growth was refused, but never where
    /// it says that no file is there.
    fn open(&mut self, path: &str) -> Result<Self::File, FileFault>
        ensures working { IfOk result (λ file. (Self.File.left file).failed ≡ false) }
        ensures bytes { IfOk result
            (λ file. IsOpened ((state self.old).at path.now) (Self.File.left file).bytes) }
        ensures steady { IfOk result (λ file. (state self.old).may_fail path.now ≡ false
            → (Self.File.left file).can_fail ≡ false) }
        ensures device { IfErr result (λ e. is_file_device e ≡ true
            → has_file ((state self.old).at path.now) ≡ false) }
        ensures absent { IfErr result (λ e. (state self.old).at path.now ≡ Absent → e ≡ Device) }
        ensures opens { Opens (state self.old) (state self.new) (path.now ∷ []) };
}

impl From<FileFault> for Status {
    ghost from_gives = { λ e status. status ≡ unread_status e };

    fn from(fault: FileFault) -> Status {
        match fault {
            FileFault::Device => Status::Device,
            FileFault::Memory => Status::Memory,
        }
    }
}

// Reads the file at a path.
fn read_at<O: Open>(opener: &mut O, path: &str, bytes: &mut Vec<u8>) -> Result<(), FileFault>
    ensures bytes { OnOk result
        (IsRead ((O.state opener.old).at path.now) bytes.new.items) }
    ensures device { IfErr result (λ e. is_file_device e ≡ true
        → FailedAt ((O.state opener.old).at path.now) ((O.state opener.old).may_fail path.now)) }
    ensures absent { IfErr result (λ e. (O.state opener.old).at path.now ≡ Absent → e ≡ Device) }
    ensures opens { Opens (O.state opener.old) (O.state opener.new) (path.now ∷ []) }
{
    let mut file = opener.open(path)?;
    read_into(&mut file, bytes)
}

// Reports a file that was not read, by its path as given.
fn log_unread<L: Sink>(log: &mut L, path: &str, fault: FileFault)
    ensures { Logs (L.taken log.old) (L.taken log.new) (unread_line path.now fault) }
{
    let path = path.as_bytes();
    match fault {
        FileFault::Device => say(log, &[path, b": K1\n"]),
        FileFault::Memory => say(log, &[path, b": K2\n"]),
    }
}

/// Reads the file at a path into these bytes, as far as a file is held. Where it isn't read, the
/// log says so.
///
/// # Errors
/// `Device` where it could not be opened, or its source failed; `Memory` where a growth was
/// refused.
pub fn read_logged<O: Open, L: Sink>(
    opener: &mut O,
    path: &str,
    bytes: &mut Vec<u8>,
    log: &mut L,
) -> Result<(), FileFault>
    ensures bytes { OnOk result
        (IsRead ((O.state opener.old).at path.now) bytes.new.items) }
    ensures quiet { OnOk result (log.new ≡ log.old) }
    ensures device { IfErr result (λ e. is_file_device e ≡ true
        → FailedAt ((O.state opener.old).at path.now) ((O.state opener.old).may_fail path.now)) }
    ensures absent { IfErr result (λ e. (O.state opener.old).at path.now ≡ Absent → e ≡ Device) }
    ensures opens { Opens (O.state opener.old) (O.state opener.new) (path.now ∷ []) }
    ensures is_logged { IfErr result
        (λ e. Logs (L.taken log.old) (L.taken log.new) (unread_line path.now e)) }
{
    match read_at(opener, path, bytes) {
        Ok(()) => Ok(()),
        Err(fault) => {
            log_unread(log, path, fault);
            Err(fault)
        }
    }
}
