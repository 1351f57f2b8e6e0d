//! Where bytes go to.
ghost use Rattle.std.specs.Prelude.{◌+◌, ◌<◌, ◌≤◌, ℕ, List, Option, length, IfOk, IsOk, OnErr};
ghost use Rattle.gj_port.specs.Faults.{HasFailed};
ghost use Rattle.gj_port.specs.Sink.{Writes};

use crate::Failed;

/// A sink of bytes.
pub trait Sink {
    /// The bytes taken so far, if the sink tells them.
    ghost written: { Self → Option (List ℕ) };

    /// How often a write has failed. It never falls.
    ghost faults: { Self → ℕ };

    /// A number of bytes that are surely taken.
    ghost sure: { Self → ℕ };

    /// Takes some bytes from the front of `piece`, at least one, and says how many. `Failed` comes
    /// only if the count of faults rose, or stands at 2^64 - 1; no byte was taken then.
    fn write(&mut self, piece: &[u8]) -> Result<usize, Failed>
        requires { 0 < length piece.now }
        ensures some { IfOk result (λ n. (1 ≤ n) × (n ≤ length piece.now)) }
        ensures told { Writes (written self.old) (written self.new) piece.now result }
        ensures sure_falls { IfOk result (λ n. sure self.old ≤ sure self.new + n) }
        ensures sure_takes { 0 < sure self.old → IsOk result }
        ensures cause { OnErr result (HasFailed (faults self.old) (faults self.new)) }
        ensures count { faults self.old ≤ faults self.new };
}
