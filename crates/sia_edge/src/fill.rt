//! A buffer that is filled from a source.
ghost use Rattle.std.specs.Prelude.{◌≤◌, ℕ, List, length, IfOk, IfSome, OnErr};
ghost use Rattle.std.specs.Io.KnownBytes.{Consumes};
ghost use Rattle.sia_edge.specs.Edge.{Rose};
ghost use Rattle.sia_edge.specs.Filled.{FilledFrom};

use crate::{Got, Source};

/// A read failed before the buffer was full or the source at its end.
#[derive(Clone, Copy, Debug, PartialEq, Eq)]
pub struct ReadFailed;

/// Fills the buffer with the next bytes of the source, and answers how many came: fewer than there is room for only where the
/// source has none left. After an `Err` the source has lost some first bytes of what it had left, and the buffer holds any.
pub fn fill_from<S: Source>(source: &mut S, buffer: &mut [u8]) -> Result<usize, ReadFailed>
    ensures bound { IfOk result (λ count. count ≤ length buffer.new) }
    ensures bytes { IfSome (S.left source.old) (λ left. IfOk result (λ count. FilledFrom left (S.left source.new) count buffer.new)) }
    ensures lost { OnErr result ((front : List ℕ) × Consumes (S.left source.old) (S.left source.new) front) }
    ensures later { S.faults source.old ≤ S.faults source.new }
    ensures failed { OnErr result (Rose (S.faults source.old) (S.faults source.new)) }
{
    let mut filled = 0;
    while filled < buffer.len() {
        match source.read(&mut buffer[filled..]) {
            Got::Failed => return Err(ReadFailed),
            Got::End => return Ok(filled),
            Got::Bytes(count) => filled += count,
        }
    }
    Ok(filled)
}
