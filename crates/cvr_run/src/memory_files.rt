ghost use Rattle.std.specs.Prelude.{◌≡◌, ◌==◌, not, true, false, Some, Err, IsOk, IfOk};
ghost use Rattle.std.specs.Prelude.{◌∷◌, [], IfErr, MatchOption};
ghost use Rattle.cdf_types.specs.MemorySource.{can_fail};
ghost use Rattle.cvr_run.specs.declared.file.FileFault.TheVariants.{Device};
ghost use Rattle.cvr_run.specs.File.{is_file_device};
ghost use Rattle.cvr_run.specs.Opening.{Absent, Has, has_file, IsOpened, Opens};
ghost use Rattle.cvr_run.specs.MemoryFiles.{found_at, can_fail_at, opener_over};

use crate::file::FileFault;
use crate::opening::Open;
use cdf_types::MemorySource;

// The bytes of one read at most.
const PIECE: usize = 100;

/// A file in memory, at a path. Its reading fails at one call, chosen beforehand.
#[derive(Clone, Copy, Debug)]
pub struct MemoryFile<'a> {
    /// The path, compared byte by byte.
    pub path: &'a str,
    /// The content.
    pub bytes: &'a [u8],
    /// The call that fails, counted from 1 (0: never).
    pub fail_at: usize,
}

/// An opener of files in memory, for tests: at a path stands the first file of that path.
#[derive(Clone, Copy, Debug)]
pub struct MemoryFiles<'a> {
    /// The files.
    pub files: &'a [MemoryFile<'a>],
}

// The first file of a path.
fn find<'a>(files: &'a [MemoryFile<'a>], path: &str) -> Option<&'a MemoryFile<'a>>
    ensures found { MatchOption result (found_at files.now path.now ≡ Absent)
        (λ file. found_at files.now path.now ≡ Has file.now.bytes.now) }
    ensures fails { MatchOption result (can_fail_at files.now path.now ≡ false)
        (λ file. can_fail_at files.now path.now ≡ not (file.now.fail_at == 0)) }
{
    for file in files {
        if file.path == path {
            return Some(file);
        }
    }
    None
}

impl<'a> Open for MemoryFiles<'a> {
    type File = MemorySource<'a>;

    ghost state = { λ files. opener_over files.files.now };

    /// The file at a path, which gives at most 100 bytes a call. Takes no memory.
    ///
    /// # Errors
    /// `Device` exactly where there is none.
    fn open(&mut self, path: &str) -> Result<MemorySource<'a>, FileFault>
        ensures working { IfOk result (λ file. file.has_failed ≡ false) }
        ensures bytes { IfOk result
            (λ file. IsOpened (found_at self.old.files.now path.now) (Some file.rest)) }
        ensures steady { IfOk result (λ file. can_fail_at self.old.files.now path.now ≡ false
            → can_fail file ≡ false) }
        ensures fails { IfOk result
            (λ file. can_fail file ≡ can_fail_at self.old.files.now path.now) }
        ensures device { IfErr result (λ e. is_file_device e ≡ true
            → has_file (found_at self.old.files.now path.now) ≡ false) }
        ensures absent { IfErr result
            (λ e. found_at self.old.files.now path.now ≡ Absent → e ≡ Device) }
        ensures opens { Opens (opener_over self.old.files.now) (opener_over self.new.files.now)
            (path.now ∷ []) }
        ensures opened { has_file (found_at self.old.files.now path.now) ≡ true → IsOk result }
        ensures fault { has_file (found_at self.old.files.now path.now) ≡ false
            → result ≡ Err Device }
        ensures unchanged { self.new ≡ self.old }
    {
        match find(self.files, path) {
            Some(file) => Ok(MemorySource::new(file.bytes, PIECE, file.fail_at)),
            None => Err(FileFault::Device),
        }
    }
}
