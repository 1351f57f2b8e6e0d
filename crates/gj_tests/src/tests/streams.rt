//! Whole streams, over memory and over readers and writers of std, and a run over streams in
//! steps.
use gj_port::{MemSink, MemSource, StdSink, StdSource, read_all, write_all};
use gj_top::{Status, run};
use std::alloc::Global;

/// A read that fails in mid-stream leaves the bytes that were not taken, and the next call reads
/// them.
fn a_read_fails(alloc: Global) -> Option<bool> {
    let given = vec![in alloc; 7; 515].ok()?;
    let mut source = MemSource::new(alloc, &given, &[2]).ok()?;
    let is_refused = read_all(alloc, &mut source, 10_000).is_err();
    let bytes = read_all(alloc, &mut source, 10_000).ok()?;
    Some(is_refused && bytes.as_slice() == [7, 7, 7].as_slice())
}

/// A write that fails in mid-stream writes nothing, and the next call writes.
fn a_write_fails(alloc: Global) -> Option<bool> {
    let mut sink = MemSink::new(alloc, 8, &[2]).ok()?;
    let is_first = write_all(&mut sink, b"he").is_ok();
    let is_second = write_all(&mut sink, b"llo").is_ok();
    let is_third = write_all(&mut sink, b"y").is_ok();
    Some(is_first && !is_second && is_third && sink.taken() == b"hey".as_slice())
}

/// A reader of std is read to its end.
fn std_reads(alloc: Global) -> Option<bool> {
    let mut source = StdSource::new(b"abc".as_slice());
    Some(read_all(alloc, &mut source, 10).ok()?.as_slice() == b"abc".as_slice())
}

/// A writer of std takes all bytes.
fn std_writes(alloc: Global) -> bool {
    let mut written = Vec::new(alloc);
    let mut sink = StdSink::new(&mut written);
    write_all(&mut sink, b"abc").is_ok() && written.as_slice() == b"abc".as_slice()
}

/// A function by its breakpoints.
const TWO_PIECES: &[u8] = b"gj-function 2\nf 1/2\npoint 0 0\npoint 1/2 1\nend\n";

/// What `mirror` writes of it.
const MIRRORED: &[u8] = b"gj-function 1\norder 2\nf 1/2\npoint 0\npoint 1\nend\n";

/// Whether `mirror` ends so, and writes so much, over a source in steps of 1 and a sink in steps of
/// 7, of which the calls with these numbers fail.
fn ends(alloc: Global, read: u64, write: u64, ended: Status, written: &[u8]) -> Option<bool> {
    let words = vec![in alloc; String::from_str(alloc, "mirror").ok()?].ok()?;
    let mut source = MemSource::with_step(alloc, TWO_PIECES, 1, &[read]).ok()?;
    let mut sink = MemSink::with_step(alloc, 100, 7, &[write]).ok()?;
    let status = run(alloc, words.as_slice(), &mut source, &mut sink);
    Some(status == ended && sink.taken() == written)
}

#[test]
fn steps_and_faults(rt: HostRuntime) {
    let alloc = rt.alloc();
    assert!(rt; ends(alloc, 0, 0, Status::Done, MIRRORED) == Some(true));
    assert!(rt; ends(alloc, 5, 1, Status::WriteFault, b"") == Some(true));
    assert!(rt; ends(alloc, 5, 0, Status::ReadFault, b"read fault\n") == Some(true));
    assert!(rt; ends(alloc, 0, 3, Status::WriteFault, b"gj-function 1\n") == Some(true));
}

#[test]
fn streams(rt: HostRuntime) {
    let alloc = rt.alloc();
    assert!(rt; a_read_fails(alloc) == Some(true));
    assert!(rt; a_write_fails(alloc) == Some(true));
    assert!(rt; std_reads(alloc) == Some(true));
    assert!(rt; std_writes(alloc));
}
