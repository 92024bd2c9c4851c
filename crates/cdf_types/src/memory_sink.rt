ghost use Rattle.std.specs.Prelude.{◌≡◌, ◌<◌, ◌≤◌, ◌++◌, [], Some, true, false, length, take, IfOk};
ghost use Rattle.std.specs.Prelude.{OnErr, IsErr};
ghost use Rattle.cdf_types.specs.Device.{count, fails_write};
ghost use Rattle.cdf_types.specs.MemorySink.{TakesBytes};

use crate::device::{DeviceFault, Sink};
use std::alloc::Global;
use std::marker::Model;

/// A sink that keeps its bytes and shows them. It fails at one call, chosen beforehand.
#[derive(Drop)]
pub struct MemorySink {
    bytes: Vec<u8>,
    per_call: usize,
    fails_in: usize,
    failed: bool,
}

impl Model for MemorySink {
    ghost use Rattle.std.specs.Prelude.{◌<◌};
    ghost use Rattle.cdf_types.specs.MemorySink.{SinkState};

    ghost Value = { SinkState };

    ghost view = { λ s. record {
      taken = s.bytes.items;
      per_call = s.per_call;
      fails_in = s.fails_in;
      has_failed = s.failed;
    } };

    ghost invariant = { λ s. 0 < s.per_call };
}

impl MemorySink {
    /// An empty sink that takes at most `per_call` bytes a call and fails at call number `fail_at`,
    /// counted from 1 (0: never), and where a growth is refused. Takes no memory.
    pub fn new(alloc: Global, per_call: usize, fail_at: usize) -> MemorySink
        requires { 0 < per_call }
        ensures { result ≡ record {
          taken = [];
          per_call = per_call;
          fails_in = fail_at;
          has_failed = false;
        } }
    {
        MemorySink {
            bytes: Vec::new(alloc),
            per_call,
            fails_in: fail_at,
            failed: false,
        }
    }

    /// The bytes that it took, in order. Takes no memory.
    pub fn taken(&self) -> &[u8]
        ensures { result.now ≡ self.now.taken }
    {
        self.bytes.as_slice()
    }
}

impl Sink for MemorySink {
    ghost taken = { λ s. record { bytes = Some s.taken; failed = s.has_failed } };

    /// Takes as many bytes as there are and one call allows, except at the call that `new` was
    /// given, which fails. Grows by them.
    ///
    /// # Errors
    /// `DeviceFault` at that call, and where the growth is refused. The sink has then failed, and
    /// nothing else changed.
    fn write(&mut self, bytes: &[u8]) -> Result<usize, DeviceFault>
        requires working { self.old.has_failed ≡ false }
        requires some { 0 < length bytes.now }
        ensures within { count result ≤ length bytes.now }
        ensures failed { self.new.has_failed ≡ fails_write result }
        ensures taken { self.new.taken ≡ self.old.taken ++ take (count result) bytes.now }
        ensures refused { self.old.fails_in ≡ 1 → IsErr result }
        ensures ok { IfOk result (TakesBytes self.old self.new bytes.now) }
        ensures err { OnErr result (self.new ≡ record self.old { has_failed = true }) }
    {
        let count = bytes.len().min(self.per_call);
        if self.fails_in == 1 || self.bytes.extend_from_slice(&bytes[..count]).is_err() {
            self.failed = true;
            return Err(DeviceFault);
        }
        self.fails_in = self.fails_in.saturating_sub(1);
        Ok(count)
    }

    fn failed(&self) -> bool {
        self.failed
    }
}
