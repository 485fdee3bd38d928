//! Sources and sinks of bytes.
ghost use Rattle.std.specs.Prelude.{◌<◌, ℕ, List, Option, length};
ghost use Rattle.sia_edge.specs.Edge.{GotWithin, Reads, GotCause, PutWithin, Writes, PutCause};

/// What a read answers.
#[derive(Clone, Copy, Debug, PartialEq, Eq)]
pub enum Got {
    /// So many bytes stand at the front of the buffer: at least one.
    Bytes(usize),
    /// No byte is left.
    End,
    /// The read failed, and the count of faults rose.
    Failed,
}

/// What a write answers.
#[derive(Clone, Copy, Debug, PartialEq, Eq)]
pub enum Put {
    /// So many bytes of the piece were taken: at least one, unless the piece is empty.
    Taken(usize),
    /// The write failed, none of the piece was taken, and the count of faults rose.
    Failed,
}

/// Where bytes come from, as a file.
pub trait Source {
    /// The bytes left, where they are told.
    ghost left: { Self → Option (List ℕ) };

    /// How often a read has failed.
    ghost faults: { Self → ℕ };

    /// Puts the next bytes at the front of the buffer, which isn't empty. After `End` or `Failed` the bytes left are
    /// those from before.
    fn read(&mut self, buffer: &mut [u8]) -> Got
        requires { 0 < length buffer.old }
        ensures bound { GotWithin result (length buffer.new) }
        ensures bytes { Reads (left self.old) (left self.new) result buffer.new }
        ensures cause { GotCause (faults self.old) (faults self.new) result };
}

/// Where bytes go, as a file or a terminal.
pub trait Sink {
    /// The bytes taken, where they are told.
    ghost taken: { Self → Option (List ℕ) };

    /// How often a write has failed.
    ghost faults: { Self → ℕ };

    /// Takes the piece or a front part of it. After `Failed` the bytes taken are those from before.
    fn write(&mut self, piece: &[u8]) -> Put
        ensures bound { PutWithin result (length piece.now) }
        ensures bytes { Writes (taken self.old) (taken self.new) result piece.now }
        ensures cause { PutCause (faults self.old) (faults self.new) result };
}
