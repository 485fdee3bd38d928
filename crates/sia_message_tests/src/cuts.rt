//! A link that gives its bytes in pieces.
ghost use Rattle.std.specs.Prelude.{None};

use sia_edge::{Got, Link, Put};

/// Gives bytes up to a place, and then the others, at most so many at once. What is written is dropped.
#[derive(Drop)]
pub(crate) struct CutLink<'a> {
    pub(crate) left: &'a [u8],
    pub(crate) cut: usize,
    pub(crate) most: usize,
}

impl Link for CutLink<'_> {
    ghost left = { λ link. None };

    ghost taken = { λ link. None };

    ghost faults = { λ link. 0 };

    fn read(&mut self, buffer: &mut [u8]) -> Got {
        let mut count = buffer.len().min(self.left.len()).min(self.most);
        if self.cut > 0 {
            count = count.min(self.cut);
            self.cut -= count;
        }
        if count == 0 {
            return Got::End;
        }
        let (piece, left) = self.left.split_at(count);
        let (front, _) = buffer.split_at_mut(count);
        front.copy_from_slice(piece);
        self.left = left;
        Got::Bytes(count)
    }

    fn write(&mut self, piece: &[u8]) -> Put {
        Put::Taken(piece.len())
    }
}
