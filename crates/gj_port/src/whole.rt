//! Reading a source to its end, and writing all bytes to a sink.
ghost use Rattle.std.specs.Prelude.{◌≡◌, ◌+◌, ◌^◌, ◌<◌, ◌≤◌, ℕ, List, false, length, vec_len, IfOk};
ghost use Rattle.std.specs.Prelude.{IfSome, IsOk, OnOk, OnErr, IsErrOf, IsTrue};
ghost use Rattle.gj_port.specs.Faults.{HasFailed};
ghost use Rattle.gj_port.specs.Whole.{IsRead, ReadsOn, TakesAll, WritesAll};

use crate::{Failed, ReadError, Sink, Source};
use std::alloc::Global;

// How many bytes are asked for at once, until there are so many: a short text needs no large buffer.
const FIRST: usize = 512;

// How many bytes are asked for at once behind those.
const CHUNK: usize = 8192;

/// Reads a source to its end; the limit is at most 2^62. `TooLong` comes exactly if it gave
/// `limit` + 1 bytes, and no more are asked for; `ReadFault` only if it failed in this call, so
/// never if it is steady; `Memory` if there was no memory for the bytes.
pub fn read_all<S: Source>(
    alloc: Global,
    source: &mut S,
    limit: usize,
) -> Result<Vec<u8>, ReadError>
    requires { limit ≤ 2 ^ 62 }
    ensures within { IfOk result (λ bytes. vec_len bytes ≤ limit) }
    ensures told { IfSome (S.left source.old) (λ left.
        TakesAll limit left (S.left source.new) result) }
    ensures read_fault { IsErrOf result ReadError.ReadFault →
        HasFailed (S.faults source.old) (S.faults source.new) }
    ensures no_fault { IsTrue (S.steady source.old) → ¬ IsErrOf result ReadError.ReadFault }
    ensures count { S.faults source.old ≤ S.faults source.new }
    ensures steady_stays { S.steady source.new ≡ S.steady source.old }
{
    let mut bytes = Vec::new(alloc);
    let mut first = [0; FIRST];
    if read_on(source, &mut bytes, &mut first, FIRST, limit)? {
        return Ok(bytes);
    }
    let mut buffer = [0; CHUNK];
    read_on(source, &mut bytes, &mut buffer, limit + 1, limit)?;
    Ok(bytes)
}

/// Reads on, through the buffer, to the end of the source or until there are `enough` bytes.
/// Whether it came to the end.
fn read_on<S: Source>(
    source: &mut S,
    bytes: &mut Vec<u8>,
    buffer: &mut [u8],
    enough: usize,
    limit: usize,
) -> Result<bool, ReadError>
    requires limit { limit ≤ 2 ^ 62 }
    requires buffer { 0 < length buffer.old }
    requires within { vec_len bytes.old ≤ limit }
    ensures within { OnOk result (vec_len bytes.new ≤ limit) }
    ensures enough { IfOk result (λ ended. ended ≡ false → enough ≤ vec_len bytes.new) }
    ensures told { (all : List ℕ) → IsRead all bytes.old.items (S.left source.old) →
        ReadsOn limit all bytes.new (S.left source.new) result }
    ensures read_fault { IsErrOf result ReadError.ReadFault →
        HasFailed (S.faults source.old) (S.faults source.new) }
    ensures no_fault { IsTrue (S.steady source.old) → ¬ IsErrOf result ReadError.ReadFault }
    ensures count { S.faults source.old ≤ S.faults source.new }
    ensures steady_stays { S.steady source.new ≡ S.steady source.old }
{
    while bytes.len() < enough {
        let wanted = buffer.len().min(limit + 1 - bytes.len());
        let count = source.read(&mut buffer[..wanted])?;
        if count == 0 {
            return Ok(true);
        }
        if bytes.len() + count > limit {
            return Err(ReadError::TooLong);
        }
        bytes.extend_from_slice(&buffer[..count])?;
    }
    Ok(false)
}

/// Writes all bytes to a sink. It takes no memory. `Failed` comes only if the sink failed in
/// this call, so never if it is sure of so many bytes; some bytes from the front may be taken then.
pub fn write_all<K: Sink>(sink: &mut K, bytes: &[u8]) -> Result<(), Failed>
    ensures told { IfSome (K.written sink.old) (λ before.
        WritesAll before (K.written sink.new) bytes.now result) }
    ensures cause { OnErr result (HasFailed (K.faults sink.old) (K.faults sink.new)) }
    ensures count { K.faults sink.old ≤ K.faults sink.new }
    ensures sure_takes { length bytes.now ≤ K.sure sink.old → IsOk result }
    ensures sure_falls { OnOk result (K.sure sink.old ≤ K.sure sink.new + length bytes.now) }
{
    let mut done = 0;
    while done < bytes.len() {
        done += sink.write(&bytes[done..])?;
    }
    Ok(())
}
