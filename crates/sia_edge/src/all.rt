//! A source read to its end, and a piece written whole.
ghost use Rattle.std.specs.Prelude.{◌≡◌, ◌≤◌, ◌<◌, ◌^◌, IfSome, OnOk, OnErr, Some, []};
ghost use Rattle.std.specs.Io.KnownBytes.{Appends};
ghost use Rattle.sia_edge.specs.Edge.{Rose};
ghost use Rattle.sia_edge.specs.Whole.{EndsAs, AppendsSomeOf};

use crate::{Got, Put, Sink, Source};
use sia_encoding::Blob;

/// How many bytes are asked for at once.
const CHUNK: usize = 65_536;

/// How reading to a bound ended.
#[derive(Clone, Copy, Debug, PartialEq, Eq)]
pub enum Ending {
    /// The source was read to its end, and all that it had left was appended.
    Whole,
    /// The source has more bytes than the bound.
    Long,
    /// A read failed.
    Failed,
    /// Want of memory.
    Memory,
}

/// A write failed before the whole piece was taken.
#[derive(Clone, Copy, Debug, PartialEq, Eq)]
pub struct WriteFailed;

/// Appends to `out` all that the source has left, where that is at most `bound` bytes. It answers `Long` exactly where
/// there is more, unless a read fails or memory is short before. After another answer than `Whole`, `out` has grown by
/// some first bytes of what was left. After `Whole` it has nothing left.
pub fn read_to_bound<S: Source>(source: &mut S, out: &mut Blob, bound: u64) -> Ending
    requires { bound < 2 ^ 60 }
    ensures bytes { IfSome (S.left source.old) (λ left. EndsAs result bound out.old out.new left) }
    ensures end { result ≡ Ending.Whole → IfSome (S.left source.old) (λ _. S.left source.new ≡ Some []) }
    ensures later { S.faults source.old ≤ S.faults source.new }
    ensures failed { result ≡ Ending.Failed → Rose (S.faults source.old) (S.faults source.new) }
{
    let mut buffer = [0u8; CHUNK];
    let mut total: u64 = 0;
    for _ in 0..bound + 1 {
        match source.read(&mut buffer) {
            Got::Failed => return Ending::Failed,
            Got::End => return Ending::Whole,
            Got::Bytes(count) => {
                total += count as u64;
                if total > bound {
                    return Ending::Long;
                }
                if out.extend(&buffer[..count]).is_err() {
                    return Ending::Memory;
                }
            }
        }
    }
    Ending::Long
}

/// Writes the whole piece, in as many writes as the sink takes. After an `Err` the sink took some first bytes of it.
pub fn write_all<K: Sink>(sink: &mut K, piece: &[u8]) -> Result<(), WriteFailed>
    ensures all { OnOk result (Appends (K.taken sink.old) (K.taken sink.new) piece.now) }
    ensures some { OnErr result (AppendsSomeOf (K.taken sink.old) (K.taken sink.new) piece.now) }
    ensures later { K.faults sink.old ≤ K.faults sink.new }
    ensures failed { OnErr result (Rose (K.faults sink.old) (K.faults sink.new)) }
{
    let mut rest = piece;
    while !rest.is_empty() {
        match sink.write(rest) {
            Put::Failed => return Err(WriteFailed),
            Put::Taken(count) => {
                let (_, after) = rest.split_at(count);
                rest = after;
            }
        }
    }
    Ok(())
}
