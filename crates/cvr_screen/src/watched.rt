ghost use Rattle.std.specs.Prelude.{◌≡◌, ◌<◌, ◌≤◌, length, false, take, None};
ghost use Rattle.std.specs.Io.KnownBytes.{WriteAppends};
ghost use Rattle.cdf_types.specs.Device.{Appends, count, fails_write};

use crate::notes::Notes;
use crate::progress::Progress;
use cdf_types::{DeviceFault, Sink};
use cvr_run::OverWrite;
use std::fs::{Metadata, OpenFile};
use std::io;
use std::io::{Read, Write};
use std::rt::Files;

/// A file that counts as read when it is closed. The bytes of the definition are kept for notes.
pub struct Watched<'a, F: OpenFile, R: Files + Eprint + AllocGlobal> {
    file: F,
    // What the system says of it as it is opened; None where no note needs it.
    opened: Option<Metadata>,
    // Its bytes; None where they aren't kept.
    bytes: Option<Vec<u8>>,
    progress: &'a Progress<'a, R>,
    notes: &'a Notes<'a, R>,
}

impl<'a, F: OpenFile, R: Files + Eprint + AllocGlobal> Watched<'a, F, R> {
    /// A file that was opened.
    pub fn new(
        file: F,
        progress: &'a Progress<'a, R>,
        notes: &'a Notes<'a, R>,
    ) -> Watched<'a, F, R> {
        let opened = if notes.is_terminal() {
            file.metadata().ok()
        } else {
            None
        };
        Watched {
            file,
            opened,
            bytes: notes.open(),
            progress,
            notes,
        }
    }

    // Keeps bytes that were read. Where memory is refused for them, none are kept.
    fn add(&mut self, read: &[u8])
        ensures { self.new.file ≡ self.old.file }
    {
        if let Some(mut bytes) = self.bytes.take() {
            if bytes.extend_from_slice(read).is_ok() {
                self.bytes = Some(bytes);
            }
        }
    }
}

// Whether a file was written to since then, as far as its length and its time say. Of what is no
// file, such as a pipe, they say nothing.
fn has_changed<F: OpenFile>(file: &F, opened: &Option<Metadata>) -> bool
    ensures { opened.now ≡ None → result ≡ false }
{
    let Some(before) = opened else {
        return false;
    };
    match file.metadata() {
        Ok(now) if before.is_file() => {
            before.len() != now.len() || before.modified().ok() != now.modified().ok()
        }
        _ => false,
    }
}

impl<F: Read + OpenFile, R: Files + Eprint + AllocGlobal> Read for Watched<'_, F, R> {
    ghost remaining = { λ s. F.remaining s.file };

    fn read(&mut self, buffer: &mut [u8]) -> io::Result<usize> {
        let result = self.file.read(buffer);
        match &result {
            Ok(count) => self.add(&buffer[..*count]),
            Err(fault) => self.notes.fail(fault),
        }
        result
    }
}

impl<F: OpenFile + Drop, R: Files + Eprint + AllocGlobal> Drop for Watched<'_, F, R> {
    fn drop(self) {
        let Watched {
            file,
            opened,
            bytes,
            progress,
            notes,
        } = self;
        let has_changed = has_changed(&file, &opened);
        let written = match opened {
            Some(opened) => opened.modified().ok(),
            None => None,
        };
        drop(file);
        progress.count();
        notes.close(bytes, written, has_changed);
    }
}

/// The log: it removes the line before it takes bytes. It shows the bytes that the writer holds, if
/// the writer shows them.
#[derive(Drop)]
pub struct Log<'a, W: Write, R> {
    inner: OverWrite<W>,
    progress: &'a Progress<'a, R>,
}

impl<'a, W: Write + Drop, R: Eprint + AllocGlobal> Log<'a, W, R> {
    /// The log over a writer; it hasn't failed.
    pub fn new(output: W, progress: &'a Progress<'a, R>) -> Log<'a, W, R>
        ensures working { result.inner.failed ≡ false }
        ensures shown { (⟦<OverWrite<W> as Sink>⟧.taken result.inner).bytes ≡ W.contents output }
    {
        Log {
            inner: OverWrite::new(output),
            progress,
        }
    }
}

impl<W: Write + Drop, R: Eprint + AllocGlobal> Sink for Log<'_, W, R> {
    ghost taken = { λ s. ⟦<OverWrite<W> as Sink>⟧.taken s.inner };

    /// Hands the bytes on, and nothing else.
    fn write(&mut self, bytes: &[u8]) -> Result<usize, DeviceFault>
        requires working { self.old.inner.failed ≡ false }
        requires some { 0 < length bytes.now }
        ensures within { count result ≤ length bytes.now }
        ensures failed { self.new.inner.failed ≡ fails_write result }
        ensures taken { Appends (⟦<OverWrite<W> as Sink>⟧.taken self.old.inner)
            (⟦<OverWrite<W> as Sink>⟧.taken self.new.inner) (take (count result) bytes.now) }
        ensures inner { WriteAppends
            (W.contents self.old.inner.inner) (W.contents self.new.inner.inner) result bytes.now }
    {
        self.progress.clear();
        self.inner.write(bytes)
    }

    fn failed(&self) -> bool {
        self.inner.failed()
    }
}
