ghost use Rattle.std.specs.Prelude.{◌≡◌, ◌<◌, ◌∷◌, [], true, OnOk, OnErr, IfErr};
ghost use Rattle.cvr_run.specs.File.{is_file_device};
ghost use Rattle.cvr_run.specs.Given.{IsThere, IsFilled, IsFile};
ghost use Rattle.cvr_run.specs.declared.file.FileFault.TheVariants.{Device};
ghost use Rattle.cvr_run.specs.declared.given.Files.TheVariants.{Opened};
ghost use Rattle.cvr_run.specs.Log.{Logs};
ghost use Rattle.cvr_run.specs.Opening.{Absent, FailedAt, Opens};
ghost use Rattle.cvr_run.specs.Worked.{unread_line};

use crate::file::FileFault;
use crate::opening::{Open, read_logged};
use cdf_types::Sink;

/// Where the files of a run come from.
#[derive(Clone, Copy)]
pub enum Files<'a> {
    /// They are lent, in the order of their paths.
    Lent(&'a [Vec<u8>]),
    /// Each is opened at its path.
    Opened,
}

impl<'a> Files<'a> {
    /// Reads the file at a path into these bytes, unless it is lent.
    ///
    /// # Errors
    /// As `read_logged`.
    pub fn fill<O: Open, L: Sink>(
        self,
        opener: &mut O,
        path: &str,
        bytes: &mut Vec<u8>,
        log: &mut L,
    ) -> Result<(), FileFault>
        ensures filled { OnOk result (IsFilled self.entry (O.state opener.old) (O.state opener.new)
            path.now bytes.new.items) }
        ensures quiet { OnOk result (log.new ≡ log.old) }
        ensures opened { OnErr result (self.entry ≡ Opened) }
        ensures device { IfErr result (λ e. is_file_device e ≡ true → FailedAt
            ((O.state opener.old).at path.now) ((O.state opener.old).may_fail path.now)) }
        ensures absent { IfErr result
            (λ e. (O.state opener.old).at path.now ≡ Absent → e ≡ Device) }
        ensures opens { OnErr result
            (Opens (O.state opener.old) (O.state opener.new) (path.now ∷ [])) }
        ensures is_logged { IfErr result
            (λ e. Logs (L.taken log.old) (L.taken log.new) (unread_line path.now e)) }
    {
        match self {
            Files::Lent(_) => Ok(()),
            Files::Opened => read_logged(opener, path, bytes, log),
        }
    }

    /// The file at a place: the one that was read last, unless they are lent. Takes no memory.
    pub fn at(self, place: usize, bytes: &'a Vec<u8>) -> &'a Vec<u8>
        requires { IsThere self place }
        ensures { IsFile self.entry place bytes.now.items result.now.items }
    {
        match self {
            Files::Lent(files) => &files[place],
            Files::Opened => bytes,
        }
    }
}
