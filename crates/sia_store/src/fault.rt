//! Which disk failed.

/// Which disk failed.
#[derive(Clone, Copy, Debug, PartialEq, Eq, Drop)]
pub enum StoreFault {
    /// The shelf's. Nothing was appended.
    Shelf,
    /// The journal's. The sectors are on the shelf.
    Journal,
}
