//! A source and a sink over the readers and writers of std. They are the edge to the system.
ghost use Rattle.std.specs.Prelude.{◌≡◌, ◌<◌, ◌≤◌, false, length, IfOk, IsOk, OnOk, OnErr, IsTrue};
ghost use Rattle.gj_port.specs.Faults.{HasFailed, one_more};
ghost use Rattle.gj_port.specs.Source.{Reads};
ghost use Rattle.gj_port.specs.Sink.{Writes};

use crate::{Failed, Sink, Source};
use std::io::{Read, Write};
use std::marker::Model;

/// A source over a reader. It tells the bytes that the reader tells, none over standard input, and
/// any read may fail. Its count of faults stays at 2^64 - 1 once that is reached.
#[derive(Drop)]
pub struct StdSource<R: Read> {
    inner: R,
    faults: u64,
}

impl<R: Read> Model for StdSource<R> {
    ghost use Rattle.gj_port.specs.Stream.{StreamSource};

    ghost Value = { StreamSource };

    ghost view = { λ s. record { left = R.remaining s.inner; faults = s.faults } };
}

impl<R: Read> StdSource<R> {
    /// A source over this reader, with no fault so far.
    pub fn new(inner: R) -> StdSource<R>
        ensures { result ≡ record { left = R.remaining inner; faults = 0 } }
    {
        StdSource { inner, faults: 0 }
    }
}

impl<R: Read> Source for StdSource<R> {
    ghost left = { λ s. s.left };

    ghost faults = { λ s. s.faults };

    ghost steady = { λ _. false };

    fn read(&mut self, buf: &mut [u8]) -> Result<usize, Failed>
        requires { 0 < length buf.old }
        ensures within { IfOk result (λ n. n ≤ length buf.old) }
        ensures told { Reads self.old.left self.new.left buf.new result }
        ensures cause { OnErr result (HasFailed self.old.faults self.new.faults) }
        ensures count { self.old.faults ≤ self.new.faults }

        // The count rises by one at each error, and only then.
        ensures counted { OnErr result (self.new.faults ≡ one_more self.old.faults) }
        ensures not_counted { OnOk result (self.new.faults ≡ self.old.faults) }
    {
        match self.inner.read(buf) {
            Ok(count) => Ok(count),
            Err(_) => {
                self.faults = self.faults.saturating_add(1);
                Err(Failed)
            }
        }
    }
}

/// A sink over a writer. It tells the bytes that the writer tells, none over standard output, and
/// any write may fail, as one does that takes nothing. Its count of faults stays at 2^64 - 1 once
/// that is reached.
#[derive(Drop)]
pub struct StdSink<W: Write> {
    inner: W,
    faults: u64,
}

impl<W: Write> Model for StdSink<W> {
    ghost use Rattle.gj_port.specs.Stream.{StreamSink};

    ghost Value = { StreamSink };

    ghost view = { λ s. record { written = W.contents s.inner; faults = s.faults } };
}

impl<W: Write> StdSink<W> {
    /// A sink over this writer, with no fault so far.
    pub fn new(inner: W) -> StdSink<W>
        ensures { result ≡ record { written = W.contents inner; faults = 0 } }
    {
        StdSink { inner, faults: 0 }
    }
}

impl<W: Write> Sink for StdSink<W> {
    ghost written = { λ s. s.written };

    ghost faults = { λ s. s.faults };

    ghost sure = { λ _. 0 };

    fn write(&mut self, piece: &[u8]) -> Result<usize, Failed>
        requires { 0 < length piece.now }
        ensures some { IfOk result (λ n. (1 ≤ n) × (n ≤ length piece.now)) }
        ensures told { Writes self.old.written self.new.written piece.now result }
        ensures cause { OnErr result (HasFailed self.old.faults self.new.faults) }
        ensures count { self.old.faults ≤ self.new.faults }

        // The count rises by one at each error and if nothing is taken, and only then.
        ensures counted { OnErr result (self.new.faults ≡ one_more self.old.faults) }
        ensures not_counted { OnOk result (self.new.faults ≡ self.old.faults) }
    {
        match self.inner.write(piece) {
            Ok(count) if count > 0 => Ok(count),
            _ => {
                self.faults = self.faults.saturating_add(1);
                Err(Failed)
            }
        }
    }
}
