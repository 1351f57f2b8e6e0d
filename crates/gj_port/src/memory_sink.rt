//! A sink over memory.
ghost use Rattle.std.specs.Prelude.{◌≡◌, ◌+◌, ◌-◌, ◌<◌, ◌≤◌, ◌^◌, ◌↔◌, ◌⊎◌, ◌++◌, [], min, Some};
ghost use Rattle.std.specs.Prelude.{length, take, IfOk, IsOk, IsErr, OnErr, Contains};
ghost use Rattle.gj_port.specs.Faults.{HasFailed, one_more};
ghost use Rattle.gj_port.specs.Sink.{Writes};
ghost use Rattle.gj_port.specs.MemorySink.{sure_room};

use crate::{Failed, Sink};
use std::alloc::{AllocError, Global};
use std::marker::Model;

/// A sink over memory that was taken when it was made, some of whose writes fail.
#[derive(Drop)]
pub struct MemSink {
    bytes: Vec<u8>,
    room: usize,
    step: usize,
    fail: Vec<u64>,
    calls: u64,
    faults: u64,
}

impl Model for MemSink {
    ghost use Rattle.std.specs.Prelude.{◌+◌, ◌≤◌, vec_len, vec_capacity};
    ghost use Rattle.gj_port.specs.MemorySink.{MemorySink};

    ghost Value = { MemorySink };

    ghost view = { λ s. record {
      written = s.bytes.items;
      room = s.room;
      step = s.step;
      fail = s.fail.items;
      calls = s.calls;
      faults = s.faults;
    } };

    ghost invariant = { λ s. (vec_len s.bytes + s.room ≤ vec_capacity s.bytes) × (1 ≤ s.step) };
}

impl MemSink {
    /// A sink with room for so many bytes, whose memory is taken here, as many a write as there is
    /// room for. A write fails exactly if its number, counted from 1 and staying at 2^64 - 1 once
    /// that is reached, stands in `fail`, or if no room is left.
    pub fn new(alloc: Global, room: usize, fail: &[u64]) -> Result<MemSink, AllocError>
        ensures { IfOk result (λ sink. sink ≡
            record {
              written = [];
              room = room;
              step = 2 ^ 64 - 1;
              fail = fail.now;
              calls = 0;
              faults = 0;
            }) }
    {
        MemSink::with_step(alloc, room, usize::MAX, fail)
    }

    /// The same, but a write takes at most `step` bytes.
    pub fn with_step(
        alloc: Global,
        room: usize,
        step: usize,
        fail: &[u64],
    ) -> Result<MemSink, AllocError>
        requires { 1 ≤ step }
        ensures { IfOk result (λ sink. sink ≡
            record {
              written = [];
              room = room;
              step = step;
              fail = fail.now;
              calls = 0;
              faults = 0;
            }) }
    {
        Ok(MemSink {
            bytes: Vec::with_capacity(alloc, room)?,
            room,
            step,
            fail: Vec::from_slice(alloc, fail)?,
            calls: 0,
            faults: 0,
        })
    }

    /// The bytes taken so far.
    pub fn taken(&self) -> &[u8]
        ensures { result.now ≡ self.now.written }
    {
        self.bytes.as_slice()
    }
}

impl Sink for MemSink {
    ghost written = { λ s. Some s.written };

    ghost faults = { λ s. s.faults };

    ghost sure = { λ s. sure_room s.fail s.room };

    fn write(&mut self, piece: &[u8]) -> Result<usize, Failed>
        requires { 0 < length piece.now }
        ensures some { IfOk result (λ n. (1 ≤ n) × (n ≤ length piece.now)) }
        ensures told { Writes (Some self.old.written) (Some self.new.written) piece.now result }
        ensures sure_falls { IfOk result (λ n.
            sure_room self.old.fail self.old.room ≤ sure_room self.new.fail self.new.room + n) }
        ensures sure_takes { 0 < sure_room self.old.fail self.old.room → IsOk result }
        ensures cause { OnErr result (HasFailed self.old.faults self.new.faults) }
        ensures count { self.old.faults ≤ self.new.faults }

        // It fails exactly if the number of the call stands among those that fail, or it is full.
        ensures fails { IsErr result ↔
            (Contains self.old.fail (one_more self.old.calls) ⊎ (self.old.room ≡ 0)) }
        ensures failed { OnErr result (self.new ≡ record self.old {
          calls = one_more self.old.calls;
          faults = one_more self.old.faults;
        }) }

        // It takes as many bytes as there is room for and the step allows.
        ensures taken { IfOk result (λ n. n ≡ min
            (min (length piece.now) self.old.room) self.old.step) }
        ensures goes_on { IfOk result (λ n. self.new ≡ record self.old {
          calls = one_more self.old.calls;
          written = self.old.written ++ take n piece.now;
          room = self.old.room - n;
        }) }
    {
        self.calls = self.calls.saturating_add(1);
        if self.room == 0 || self.fail.contains(&self.calls) {
            self.faults = self.faults.saturating_add(1);
            return Err(Failed);
        }
        let count = piece.len().min(self.room).min(self.step);
        self.bytes.extend_from_slice(&piece[..count]).unwrap();
        self.room -= count;
        Ok(count)
    }
}
