ghost use Rattle.std.specs.Prelude.{◌≡◌, ◌<◌, ◌≤◌, length, true, false, None, Some, IfSome};
ghost use Rattle.std.specs.Prelude.{is_some, take};
ghost use Rattle.std.specs.Option.{option_and};
ghost use Rattle.std.specs.Io.KnownBytes.{ReadConsumes, WriteAppends};
ghost use Rattle.cdf_types.specs.Device.{Appends, count, fails_read, fails_write};

use cdf_types::{DeviceFault, Sink, Source};
use std::io::{Read, Write};
use std::snapshot::Snapshot;

/// A sink over a writer. It shows the bytes that the writer holds, if the writer shows them. An
/// interrupted call counts as a failure.
#[derive(Drop)]
pub struct OverWrite<W: Write> {
    inner: W,
    failed: bool,
    // The writer as it was given, for clauses alone: a writer that showed its bytes then shows them
    // from then on.
    given: Snapshot<W>,
    ghost shows: { is_some (W.contents given.value) ≡ true → is_some (W.contents inner) ≡ true },
}

impl<W: Write + Drop> OverWrite<W> {
    /// The sink of a writer; it hasn't failed. Takes no memory.
    pub fn new(inner: W) -> OverWrite<W>
        ensures working { result.failed ≡ false }
        ensures inner { result.inner ≡ inner }
        ensures shown { (⟦<OverWrite<W> as Sink>⟧.taken result).bytes ≡ W.contents inner }
    {
        let given = Snapshot::of(&inner);
        OverWrite {
            inner,
            failed: false,
            given,
        }
    }

    /// The writer, which holds the bytes that the sink shows. Takes no memory.
    pub fn into_inner(self) -> W
        ensures inner { result ≡ self.inner }
        ensures shown { IfSome (⟦<OverWrite<W> as Sink>⟧.taken self).bytes
            (λ bytes. W.contents result ≡ Some bytes) }
    {
        let OverWrite { inner, .. } = self;
        inner
    }
}

impl<W: Write + Drop> Sink for OverWrite<W> {
    ghost taken = { λ s. record {
      bytes = option_and (W.contents s.given.value) (W.contents s.inner);
      failed = s.failed;
    } };

    /// Writes once to the writer, which takes what the answer says.
    ///
    /// # Errors
    /// `DeviceFault` where the writer answered an error. The sink has then failed.
    fn write(&mut self, bytes: &[u8]) -> Result<usize, DeviceFault>
        requires working { self.old.failed ≡ false }
        requires some { 0 < length bytes.now }
        ensures within { count result ≤ length bytes.now }
        ensures failed { self.new.failed ≡ fails_write result }
        ensures taken { Appends (⟦<OverWrite<W> as Sink>⟧.taken self.old)
            (⟦<OverWrite<W> as Sink>⟧.taken self.new) (take (count result) bytes.now) }
        ensures inner { WriteAppends (W.contents self.old.inner) (W.contents self.new.inner)
            result bytes.now }
    {
        match self.inner.write(bytes) {
            Ok(count) => {
                self.failed = count == 0;
                Ok(count)
            }
            Err(fault) => {
                drop(fault);
                self.failed = true;
                Err(DeviceFault)
            }
        }
    }

    fn failed(&self) -> bool {
        self.failed
    }
}

/// A source over a reader. It doesn't show its bytes. An interrupted call counts as a failure.
#[derive(Drop)]
pub struct OverRead<R> {
    inner: R,
    failed: bool,
}

impl<R: Read + Drop> OverRead<R> {
    /// The source of a reader; it hasn't failed. Takes no memory.
    pub fn new(inner: R) -> OverRead<R>
        ensures working { result.failed ≡ false }
        ensures inner { result.inner ≡ inner }
    {
        OverRead {
            inner,
            failed: false,
        }
    }
}

impl<R: Read + Drop> Source for OverRead<R> {
    ghost left = { λ s. record { bytes = None; failed = s.failed; can_fail = true } };

    /// Reads once from the reader, which gives what the answer says.
    ///
    /// # Errors
    /// `DeviceFault` where the reader answered an error. The source has then failed.
    fn read(&mut self, buffer: &mut [u8]) -> Result<usize, DeviceFault>
        requires working { self.old.failed ≡ false }
        requires some { 0 < length buffer.old }
        ensures within { count result ≤ length buffer.old }
        ensures failed { self.new.failed ≡ fails_read result }
        ensures inner { ReadConsumes (R.remaining self.old.inner) (R.remaining self.new.inner)
            result buffer.new }
    {
        match self.inner.read(buffer) {
            Ok(count) => Ok(count),
            Err(fault) => {
                drop(fault);
                self.failed = true;
                Err(DeviceFault)
            }
        }
    }

    fn failed(&self) -> bool {
        self.failed
    }
}
