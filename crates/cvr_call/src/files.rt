ghost use Rattle.std.specs.Prelude.{◌≡◌, ◌∷◌, [], map, false, true, Err, IsOk, IfOk, IfErr, Some};
ghost use Rattle.std.specs.Prelude.{MatchOption, ℕ, List, OnOk, bytes_eq, if◌then◌else◌};
ghost use Rattle.std.proofs.Props.{props};
ghost use Rattle.cdf_types.specs.MemorySource.{can_fail};
ghost use Rattle.cvr_run.specs.declared.file.FileFault.TheVariants.{Device};
ghost use Rattle.cvr_run.specs.File.{is_file_device};
ghost use Rattle.cvr_run.specs.Opening.{Absent, Has, has_file, IsOpened, Opens};
ghost use Rattle.cvr_call.specs.Given.{files_in, found_at, opener_over};
ghost use Rattle.cvr_call.specs.Held.{HasFirsts, first_of, held_at};

use cdf_types::MemorySource;
use cvr_cli::{FileFault, Open};
use std::alloc::{AllocError, Global};
use std::collections::BTreeMap;

/// An opener of the files that a call is given. It reads them where they stand.
#[derive(Drop)]
pub struct GivenFiles<'a> {
    /// Of each file its path, and then its bytes.
    pub pieces: &'a [&'a [u8]],
    by_path: BTreeMap<&'a [u8], &'a [u8]>,
    ghost found: { HasFirsts by_path pieces.now } by { Prim.hlevel props },
}

impl<'a> GivenFiles<'a> {
    /// The opener of files, which finds each by its path.
    ///
    /// # Errors
    /// An `AllocError` where a growth was refused.
    pub fn new(alloc: Global, pieces: &'a [&'a [u8]]) -> Result<GivenFiles<'a>, AllocError>
        ensures { IfOk result (λ given. given.pieces.now ≡ pieces.now) }
    {
        let by_path = by_path(alloc, pieces)?;
        Ok(GivenFiles { pieces, by_path })
    }

    // The bytes of the first file with a path.
    fn find(&self, path: &str) -> Option<&'a [u8]>
        ensures { MatchOption result
            (found_at (files_in (map (λ piece. piece.now) self.now.pieces.now)) path.now ≡ Absent)
            (λ bytes. found_at (files_in (map (λ piece. piece.now) self.now.pieces.now)) path.now
            ≡ Has bytes.now) }
    {
        self.by_path.get(path.as_bytes()).copied()
    }
}

// The bytes of the first file with each path.
fn by_path<'a>(
    alloc: Global,
    pieces: &'a [&'a [u8]],
) -> Result<BTreeMap<&'a [u8], &'a [u8]>, AllocError>
    ensures { IfOk result (λ held. HasFirsts held pieces.now) }
{
    let mut held = BTreeMap::new(alloc);
    let mut rest = pieces;
    'files: while let [path, bytes, more @ ..] = rest {
        note_file(&mut held, path, bytes)?;
        rest = more;
    }
    Ok(held)
}

// Notes a file, unless an earlier one with its path is known.
fn note_file<'a>(
    held: &mut BTreeMap<&'a [u8], &'a [u8]>,
    path: &'a [u8],
    bytes: &'a [u8],
) -> Result<(), AllocError>
    ensures { OnOk result ((q : List ℕ) → held_at held.new q
        ≡ first_of (held_at held.old q) (if bytes_eq path.now q then Has bytes.now else Absent)) }
{
    if !held.contains_key(path) {
        held.insert(path, bytes)?;
    }
    Ok(())
}

impl<'a> Open for GivenFiles<'a> {
    type File = MemorySource<'a>;

    ghost state = { λ given. opener_over (files_in (map (λ piece. piece.now) given.pieces.now)) };

    /// The file at a path, byte by byte as it is given. Takes no memory.
    ///
    /// # Errors
    /// `Device` exactly where there is none.
    fn open(&mut self, path: &str) -> Result<MemorySource<'a>, FileFault>
        ensures working { IfOk result (λ file. file.has_failed ≡ false) }
        ensures bytes { IfOk result (λ file. IsOpened
            (found_at (files_in (map (λ piece. piece.now) self.old.pieces.now)) path.now)
            (Some file.rest)) }
        ensures steady { IfOk result (λ file. false ≡ false → can_fail file ≡ false) }
        ensures device { IfErr result (λ e. is_file_device e ≡ true → has_file
            (found_at (files_in (map (λ piece. piece.now) self.old.pieces.now)) path.now)
            ≡ false) }
        ensures absent { IfErr result (λ e.
            found_at (files_in (map (λ piece. piece.now) self.old.pieces.now)) path.now ≡ Absent
            → e ≡ Device) }
        ensures opens { Opens
            (opener_over (files_in (map (λ piece. piece.now) self.old.pieces.now)))
            (opener_over (files_in (map (λ piece. piece.now) self.new.pieces.now)))
            (path.now ∷ []) }
        ensures opened { has_file
            (found_at (files_in (map (λ piece. piece.now) self.old.pieces.now)) path.now) ≡ true
            → IsOk result }
        ensures fault { has_file
            (found_at (files_in (map (λ piece. piece.now) self.old.pieces.now)) path.now) ≡ false
            → result ≡ Err Device }
        ensures unchanged { self.new ≡ self.old }
    {
        match self.find(path) {
            Some(bytes) => Ok(MemorySource::new(bytes, usize::MAX, 0)),
            None => Err(FileFault::Device),
        }
    }
}
