//! Which sector of its contract a session asks for.
use sia_blake::Hash;

/// Which sector of its contract a session asks for.
#[derive(Clone, Copy, Debug, PartialEq, Eq)]
pub enum Want {
    /// The first one with this root.
    Root(Hash),
    /// The one at this place, from 0.
    Place(u64),
}
