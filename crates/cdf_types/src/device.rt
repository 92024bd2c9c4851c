ghost use Rattle.std.specs.Prelude.{◌≡◌, ◌<◌, ◌≤◌, length, take, false, true, IfOk, OnOk, OnErr};
ghost use Rattle.cdf_types.specs.Device.{count, fails_write, fails_read};
ghost use Rattle.cdf_types.specs.Device.{Left, Taken, Appends, AppendsProperPrefix, Gives};

use thiserror::Error;

/// A device failed: bytes could not be read or written.
#[derive(Clone, Copy, Debug, PartialEq, Eq, Error)]
#[error("the device failed")]
pub struct DeviceFault;

/// Where bytes come from. Contracts see what is left: the bytes, if it shows them, whether a read
/// has failed, and whether one can fail.
pub trait Source {
    ghost left: { Self → Left };

    /// Puts some bytes at the start of the buffer, and answers how many. A source that shows its
    /// bytes answers 0 only at its end. Takes no memory.
    ///
    /// # Errors
    /// `DeviceFault` where the source failed: what is left is as it was, and it isn't read again.
    fn read(&mut self, buffer: &mut [u8]) -> Result<usize, DeviceFault>
        requires working { (left self.old).failed ≡ false }
        requires some { 0 < length buffer.old }
        ensures within { count result ≤ length buffer.old }
        ensures failed { (left self.new).failed ≡ fails_read result }
        ensures steady { (left self.old).can_fail ≡ false → (left self.new).failed ≡ false }
        ensures stays { (left self.new).can_fail ≡ (left self.old).can_fail }
        ensures given { IfOk result
            (Gives (left self.old).bytes (left self.new).bytes buffer.old buffer.new) }
        ensures unchanged { OnErr result ((left self.new).bytes ≡ (left self.old).bytes) };

    /// Whether a read has failed. Takes no memory.
    fn failed(&self) -> bool
        ensures { result ≡ (left self.now).failed };
}

/// Where bytes go. Contracts see what it has taken: the bytes, if it shows them, and whether a
/// write has failed.
pub trait Sink {
    ghost taken: { Self → Taken };

    /// Takes some of the bytes, from the first on, and answers how many. 0 counts as a failure.
    ///
    /// # Errors
    /// `DeviceFault` where the sink failed; it took none of the bytes and isn't written again.
    fn write(&mut self, bytes: &[u8]) -> Result<usize, DeviceFault>
        requires working { (taken self.old).failed ≡ false }
        requires some { 0 < length bytes.now }
        ensures within { count result ≤ length bytes.now }
        ensures failed { (taken self.new).failed ≡ fails_write result }
        ensures taken { Appends (taken self.old) (taken self.new) (take (count result) bytes.now) };

    /// Whether a write has failed or taken nothing. Takes no memory.
    fn failed(&self) -> bool
        ensures { result ≡ (taken self.now).failed };
}

/// Writes all of the bytes, unless the sink fails.
///
/// # Errors
/// `DeviceFault` exactly where the sink has failed, which a write that takes nothing counts as. The
/// sink has then taken a prefix of the bytes, and not all of them.
pub fn write_all<W: Sink>(out: &mut W, bytes: &[u8]) -> Result<(), DeviceFault>
    requires { (W.taken out.old).failed ≡ false }
    ensures ok { OnOk result (Appends (W.taken out.old) (W.taken out.new) bytes.now) }
    ensures working { OnOk result ((W.taken out.new).failed ≡ false) }
    ensures failed { OnErr result ((W.taken out.new).failed ≡ true) }
    ensures front { OnErr result
        (AppendsProperPrefix (W.taken out.old) (W.taken out.new) bytes.now) }
{
    let mut rest = bytes;
    'pieces: while !rest.is_empty() {
        let count = out.write(rest)?;
        if count == 0 {
            return Err(DeviceFault);
        }
        let (_, more) = rest.split_at(count);
        rest = more;
    }
    Ok(())
}
