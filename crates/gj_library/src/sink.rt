//! A sink that keeps an answer.
ghost use Rattle.std.specs.Prelude.{◌≡◌, ◌+◌, ◌<◌, ◌≤◌, ◌++◌, [], Some, length, take, IfOk, IsOk};
ghost use Rattle.std.specs.Prelude.{OnErr};
ghost use Rattle.gj_port.specs.Faults.{HasFailed};
ghost use Rattle.gj_port.specs.Sink.{Writes};

use gj_port::{Failed, Sink};
use std::alloc::{AllocError, Global};

/// A sink over memory that grows: it takes all that it is given, and fails only if there is no
/// memory.
#[derive(Drop)]
pub(crate) struct Kept {
    bytes: Vec<u8>,
    faults: u64,
}

impl Kept {
    /// One that has taken nothing.
    pub(crate) fn new(alloc: Global) -> Kept
        ensures bytes { result.bytes.items ≡ [] }
        ensures faults { result.faults ≡ 0 }
    {
        Kept {
            bytes: Vec::new(alloc),
            faults: 0,
        }
    }

    /// All that it has taken, if it never failed.
    pub(crate) fn whole(self) -> Result<Vec<u8>, AllocError>
        ensures { IfOk result (λ bytes. (bytes.items ≡ self.bytes.items) × (self.faults ≡ 0)) }
    {
        if self.faults > 0 {
            return Err(AllocError);
        }
        Ok(self.bytes)
    }
}

impl Sink for Kept {
    ghost written = { λ s. Some s.bytes.items };

    ghost faults = { λ s. s.faults };

    ghost sure = { λ _. 0 };

    fn write(&mut self, piece: &[u8]) -> Result<usize, Failed>
        requires { 0 < length piece.now }
        ensures some { IfOk result (λ n. (1 ≤ n) × (n ≤ length piece.now)) }
        ensures told { Writes (Some self.old.bytes.items)
            (Some self.new.bytes.items) piece.now result }
        ensures cause { OnErr result (HasFailed self.old.faults self.new.faults) }
        ensures count { self.old.faults ≤ self.new.faults }
    {
        match self.bytes.extend_from_slice(piece) {
            Ok(()) => Ok(piece.len()),
            Err(_) => {
                self.faults = self.faults.saturating_add(1);
                Err(Failed)
            }
        }
    }
}
