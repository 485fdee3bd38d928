//! Links: bytes come from the other side, and bytes go there.
ghost use Rattle.std.specs.Prelude.{◌≡◌, ◌<◌, ◌≤◌, ℕ, List, Option, length, OnOk, OnErr, IfOk, IfSome};
ghost use Rattle.std.specs.Io.KnownBytes.{Appends, Consumes};
ghost use Rattle.sia_edge.specs.Edge.{GotWithin, Reads, GotCause, PutWithin, Writes, PutCause, Rose};
ghost use Rattle.sia_edge.specs.Filled.{FilledFrom};
ghost use Rattle.sia_edge.specs.Whole.{AppendsSomeOf};

use crate::{Got, Put, ReadFailed, WriteFailed};

/// A connection to another side, as a TCP stream.
pub trait Link {
    /// The bytes that are still to be read, where they are told.
    ghost left: { Self → Option (List ℕ) };

    /// The bytes that were written, where they are told.
    ghost taken: { Self → Option (List ℕ) };

    /// How often a read or a write has failed.
    ghost faults: { Self → ℕ };

    /// Puts the next bytes at the front of the buffer, which isn't empty. After `End` or `Failed` the bytes left are
    /// those from before.
    fn read(&mut self, buffer: &mut [u8]) -> Got
        requires { 0 < length buffer.old }
        ensures bound { GotWithin result (length buffer.new) }
        ensures bytes { Reads (left self.old) (left self.new) result buffer.new }
        ensures apart { taken self.new ≡ taken self.old }
        ensures cause { GotCause (faults self.old) (faults self.new) result };

    /// Takes the piece or a front part of it. After `Failed` the bytes written are those from before.
    fn write(&mut self, piece: &[u8]) -> Put
        ensures bound { PutWithin result (length piece.now) }
        ensures bytes { Writes (taken self.old) (taken self.new) result piece.now }
        ensures apart { left self.new ≡ left self.old }
        ensures cause { PutCause (faults self.old) (faults self.new) result };
}

/// Fills the buffer with the next bytes of the link, reads nothing behind them, and answers how many came: fewer than there is
/// room for only where the link has none left. After an `Err` the link has lost some first bytes of what it had left, and the
/// buffer holds any.
pub fn fill_from_link<L: Link>(link: &mut L, buffer: &mut [u8]) -> Result<usize, ReadFailed>
    ensures bound { IfOk result (λ count. count ≤ length buffer.new) }
    ensures bytes { IfSome (L.left link.old) (λ left. IfOk result (λ count. FilledFrom left (L.left link.new) count buffer.new)) }
    ensures lost { OnErr result ((front : List ℕ) × Consumes (L.left link.old) (L.left link.new) front) }
    ensures apart { L.taken link.new ≡ L.taken link.old }
    ensures later { L.faults link.old ≤ L.faults link.new }
    ensures failed { OnErr result (Rose (L.faults link.old) (L.faults link.new)) }
{
    let mut filled = 0;
    while filled < buffer.len() {
        match link.read(&mut buffer[filled..]) {
            Got::Failed => return Err(ReadFailed),
            Got::End => return Ok(filled),
            Got::Bytes(count) => filled += count,
        }
    }
    Ok(filled)
}

/// Writes the whole piece, in as many writes as the link takes. After an `Err` the link took some first bytes of it.
pub fn write_to_link<L: Link>(link: &mut L, piece: &[u8]) -> Result<(), WriteFailed>
    ensures all { OnOk result (Appends (L.taken link.old) (L.taken link.new) piece.now) }
    ensures some { OnErr result (AppendsSomeOf (L.taken link.old) (L.taken link.new) piece.now) }
    ensures apart { L.left link.new ≡ L.left link.old }
    ensures later { L.faults link.old ≤ L.faults link.new }
    ensures failed { OnErr result (Rose (L.faults link.old) (L.faults link.new)) }
{
    let mut rest = piece;
    while !rest.is_empty() {
        match link.write(rest) {
            Put::Failed => return Err(WriteFailed),
            Put::Taken(count) => {
                let (_, after) = rest.split_at(count);
                rest = after;
            }
        }
    }
    Ok(())
}
