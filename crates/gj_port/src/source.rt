//! Where bytes come from.
ghost use Rattle.std.specs.Prelude.{◌≡◌, ◌<◌, ◌≤◌, ℕ, Bool, List, Option, length, IfOk, IsOk};
ghost use Rattle.std.specs.Prelude.{OnErr, IsTrue};
ghost use Rattle.gj_port.specs.Faults.{HasFailed};
ghost use Rattle.gj_port.specs.Source.{Reads};

use crate::Failed;

/// A source of bytes.
pub trait Source {
    /// The bytes still to come, if the source tells them.
    ghost left: { Self → Option (List ℕ) };

    /// How often a read has failed. It never falls.
    ghost faults: { Self → ℕ };

    /// Whether no read fails. No call changes it.
    ghost steady: { Self → Bool };

    /// Puts the next bytes at the front of `buf`, and says how many they are: none only at the end.
    /// `Failed` comes only if the count of faults rose, or stands at 2^64 - 1; no byte is lost.
    fn read(&mut self, buf: &mut [u8]) -> Result<usize, Failed>
        requires { 0 < length buf.old }
        ensures within { IfOk result (λ n. n ≤ length buf.old) }
        ensures told { Reads (left self.old) (left self.new) buf.new result }
        ensures cause { OnErr result (HasFailed (faults self.old) (faults self.new)) }
        ensures count { faults self.old ≤ faults self.new }
        ensures no_fault { IsTrue (steady self.old) → IsOk result }
        ensures steady_stays { steady self.new ≡ steady self.old };
}
