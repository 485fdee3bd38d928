//! A piece and its place.
use sia_encoding::Blob;

/// A piece of a byte string, and its number from 0.
#[derive(Drop)]
pub struct Piece {
    /// The piece's number: its bytes are the values of the groups there.
    pub place: u64,
    /// The piece's bytes, one of each group.
    pub bytes: Blob,
}
