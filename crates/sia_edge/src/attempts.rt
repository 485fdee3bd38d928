//! Reads and writes of std's traits, made again where a signal interrupts them.
ghost use Rattle.std.specs.Prelude.{◌<◌, length};
ghost use Rattle.sia_edge.specs.Edge.{GotWithin, Reads, PutWithin, Writes};

use crate::{Got, Put};
use std::io::{ErrorKind, Read, Write};

/// One read.
pub(crate) fn read_some<R: Read>(reader: &mut R, buffer: &mut [u8]) -> Got
    requires { 0 < length buffer.old }
    ensures bound { GotWithin result (length buffer.new) }
    ensures bytes { Reads (R.remaining reader.old) (R.remaining reader.new) result buffer.new }
{
    for _ in 0..u64::MAX {
        match reader.read(buffer) {
            Ok(0) => return Got::End,
            Ok(count) => return Got::Bytes(count),
            Err(error) if error.kind() == ErrorKind::Interrupted => {}
            Err(_) => return Got::Failed,
        }
    }
    Got::Failed
}

/// One write. Taking none of a piece that isn't empty is a failure.
pub(crate) fn write_some<W: Write>(writer: &mut W, piece: &[u8]) -> Put
    ensures bound { PutWithin result (length piece.now) }
    ensures bytes { Writes (W.contents writer.old) (W.contents writer.new) result piece.now }
{
    if piece.is_empty() {
        return Put::Taken(0);
    }
    for _ in 0..u64::MAX {
        match writer.write(piece) {
            Ok(0) => return Put::Failed,
            Ok(count) => return Put::Taken(count),
            Err(error) if error.kind() == ErrorKind::Interrupted => {}
            Err(_) => return Put::Failed,
        }
    }
    Put::Failed
}
