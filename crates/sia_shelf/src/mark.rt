//! What is known of a slot of a shelf.
ghost use Rattle.std.specs.Prelude.{◌≡◌};
ghost use Rattle.sia_shelf.specs.Shelf.{is_free, settled};

/// What is known of a slot.
#[derive(Clone, Copy, Debug, PartialEq, Eq)]
pub enum Mark {
    /// It may be put.
    Free,
    /// It was put since the last sync.
    Put,
    /// Its bytes stay, in each image that a crash may leave.
    Live,
}

impl Mark {
    /// Whether the slot may be put.
    pub fn is_free(&self) -> bool
        ensures { result ≡ is_free self.now }
    {
        match self {
            Mark::Free => true,
            Mark::Put | Mark::Live => false,
        }
    }

    /// The mark after a sync.
    pub(crate) fn settled(self) -> Mark
        ensures { result ≡ settled self }
    {
        match self {
            Mark::Free => Mark::Free,
            Mark::Put | Mark::Live => Mark::Live,
        }
    }
}
