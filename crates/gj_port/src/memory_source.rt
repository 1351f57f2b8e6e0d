//! A source over bytes in memory.
ghost use Rattle.std.specs.Prelude.{◌≡◌, ◌-◌, ◌<◌, ◌≤◌, ◌^◌, ◌↔◌, min, Some, length, drop, IfOk};
ghost use Rattle.std.specs.Prelude.{IsOk, IsErr, OnErr, IsTrue, Contains};
ghost use Rattle.gj_port.specs.Faults.{HasFailed, one_more};
ghost use Rattle.gj_port.specs.Source.{Reads};
ghost use Rattle.gj_port.specs.MemorySource.{never_fails};

use crate::{Failed, Source};
use std::alloc::{AllocError, Global};
use std::marker::Model;

/// A source over bytes in memory, some of whose reads fail.
#[derive(Drop)]
pub struct MemSource {
    bytes: Vec<u8>,
    given: usize,
    step: usize,
    fail: Vec<u64>,
    calls: u64,
    faults: u64,
}

impl Model for MemSource {
    ghost use Rattle.std.specs.Prelude.{◌≤◌, drop, vec_len};
    ghost use Rattle.gj_port.specs.MemorySource.{MemorySource};

    ghost Value = { MemorySource };

    ghost view = { λ s. record {
      left = drop s.given s.bytes.items;
      step = s.step;
      fail = s.fail.items;
      calls = s.calls;
      faults = s.faults;
    } };

    ghost invariant = { λ s. (s.given ≤ vec_len s.bytes) × (1 ≤ s.step) };
}

impl MemSource {
    /// A source that gives these bytes, as many a read as fit. A read fails exactly if its number,
    /// counted from 1 and staying at 2^64 - 1 once that is reached, stands in `fail`.
    pub fn new(alloc: Global, bytes: &[u8], fail: &[u64]) -> Result<MemSource, AllocError>
        ensures { IfOk result (λ source. source ≡
            record {
              left = bytes.now;
              step = 2 ^ 64 - 1;
              fail = fail.now;
              calls = 0;
              faults = 0;
            }) }
    {
        MemSource::with_step(alloc, bytes, usize::MAX, fail)
    }

    /// The same, but a read gives at most `step` bytes.
    pub fn with_step(
        alloc: Global,
        bytes: &[u8],
        step: usize,
        fail: &[u64],
    ) -> Result<MemSource, AllocError>
        requires { 1 ≤ step }
        ensures { IfOk result (λ source. source ≡
            record { left = bytes.now; step = step; fail = fail.now; calls = 0; faults = 0 }) }
    {
        Ok(MemSource {
            bytes: Vec::from_slice(alloc, bytes)?,
            given: 0,
            step,
            fail: Vec::from_slice(alloc, fail)?,
            calls: 0,
            faults: 0,
        })
    }

    /// The bytes still to come.
    pub fn rest(&self) -> &[u8]
        ensures { result.now ≡ self.now.left }
    {
        &self.bytes[self.given..]
    }
}

impl Source for MemSource {
    ghost left = { λ s. Some s.left };

    ghost faults = { λ s. s.faults };

    ghost steady = { λ s. never_fails s.fail };

    fn read(&mut self, buf: &mut [u8]) -> Result<usize, Failed>
        requires { 0 < length buf.old }
        ensures within { IfOk result (λ n. n ≤ length buf.old) }
        ensures told { Reads (Some self.old.left) (Some self.new.left) buf.new result }
        ensures cause { OnErr result (HasFailed self.old.faults self.new.faults) }
        ensures count { self.old.faults ≤ self.new.faults }
        ensures no_fault { IsTrue (never_fails self.old.fail) → IsOk result }
        ensures steady_stays { never_fails self.new.fail ≡ never_fails self.old.fail }

        // It fails exactly if the number of the call stands among those that fail.
        ensures fails { IsErr result ↔ Contains self.old.fail (one_more self.old.calls) }
        ensures failed { OnErr result (self.new ≡ record self.old {
          calls = one_more self.old.calls;
          faults = one_more self.old.faults;
        }) }

        // It gives as many bytes as fit and the step allows.
        ensures given { IfOk result (λ n. n ≡ min (min (length buf.old)
            (length self.old.left)) self.old.step) }
        ensures goes_on { IfOk result (λ n. self.new ≡ record self.old {
          calls = one_more self.old.calls;
          left = drop n self.old.left;
        }) }
    {
        self.calls = self.calls.saturating_add(1);
        if self.fail.contains(&self.calls) {
            self.faults = self.faults.saturating_add(1);
            return Err(Failed);
        }
        let count = buf.len().min(self.bytes.len() - self.given).min(self.step);
        buf[..count].copy_from_slice(&self.bytes[self.given..self.given + count]);
        self.given += count;
        Ok(count)
    }
}
