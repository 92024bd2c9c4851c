ghost use Rattle.std.specs.Prelude.{◌≡◌, ◌↔◌, ◌<◌, ◌≤◌, Some, false, length, IfOk, OnErr, IsErr};
ghost use Rattle.cdf_types.specs.Device.{count, fails_read, Gives};
ghost use Rattle.cdf_types.specs.MemorySource.{can_fail, GivesBytes, ReadFails};

use crate::device::{DeviceFault, Source};
use std::marker::Model;

/// A source over bytes that shows them. It fails at one call, chosen beforehand.
#[derive(Drop)]
pub struct MemorySource<'a> {
    rest: &'a [u8],
    per_call: usize,
    fails_in: usize,
    failed: bool,
}

impl<'a> Model for MemorySource<'a> {
    ghost use Rattle.std.specs.Prelude.{◌<◌};
    ghost use Rattle.cdf_types.specs.MemorySource.{SourceState};

    ghost Value = { SourceState };

    ghost view = { λ s. record {
      rest = s.rest.now;
      per_call = s.per_call;
      fails_in = s.fails_in;
      has_failed = s.failed;
    } };

    ghost invariant = { λ s. 0 < s.per_call };
}

impl<'a> MemorySource<'a> {
    /// A source of these bytes that gives at most `per_call` of them a call and fails at call
    /// number `fail_at`, counted from 1 (0: never). Takes no memory.
    pub fn new(bytes: &'a [u8], per_call: usize, fail_at: usize) -> MemorySource<'a>
        requires { 0 < per_call }
        ensures { result ≡ record {
          rest = bytes.now;
          per_call = per_call;
          fails_in = fail_at;
          has_failed = false;
        } }
    {
        MemorySource {
            rest: bytes,
            per_call,
            fails_in: fail_at,
            failed: false,
        }
    }
}

impl Source for MemorySource<'_> {
    ghost left = { λ s. record {
      bytes = Some s.rest;
      failed = s.has_failed;
      can_fail = can_fail s;
    } };

    /// Gives as many bytes as the buffer, one call and the rest allow, except at the call that
    /// `new` was given, which fails. Takes no memory.
    ///
    /// # Errors
    /// `DeviceFault` exactly at that call. The source has then failed, and nothing else changed.
    fn read(&mut self, buffer: &mut [u8]) -> Result<usize, DeviceFault>
        requires working { self.old.has_failed ≡ false }
        requires some { 0 < length buffer.old }
        ensures within { count result ≤ length buffer.old }
        ensures failed { self.new.has_failed ≡ fails_read result }
        ensures steady { can_fail self.old ≡ false → self.new.has_failed ≡ false }
        ensures stays { can_fail self.new ≡ can_fail self.old }
        ensures given { IfOk result
            (Gives (Some self.old.rest) (Some self.new.rest) buffer.old buffer.new) }
        ensures unchanged { OnErr result (Some self.new.rest ≡ Some self.old.rest) }
        ensures refused { IsErr result ↔ (self.old.fails_in ≡ 1) }
        ensures ok { IfOk result (GivesBytes self.old self.new buffer.old buffer.new) }
        ensures err { OnErr result (ReadFails self.old self.new buffer.old buffer.new) }
    {
        if self.fails_in == 1 {
            self.failed = true;
            return Err(DeviceFault);
        }
        self.fails_in = self.fails_in.saturating_sub(1);
        let count = buffer.len().min(self.per_call).min(self.rest.len());
        buffer[..count].copy_from_slice(&self.rest[..count]);
        self.rest = &self.rest[count..];
        Ok(count)
    }

    fn failed(&self) -> bool {
        self.failed
    }
}
