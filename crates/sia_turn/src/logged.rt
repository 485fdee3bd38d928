//! Values that stand for lists of entries, and the entries that a caller names.
ghost use Rattle.std.specs.Prelude.{◌≡◌, ℕ, ◌^◌, ◌<◌, List, [], length};

/// A value that stands for a list of entries. It needn't store what the entries hold.
pub trait Logged {
    /// What the list is made of. It's for contracts: no value of it has to be made.
    type Entry;

    // The value stands for this list.
    ghost stands: { Self → List Self.Entry → Type 0 };

    /// The length of every list that the value stands for.
    fn logged(&self) -> u64
        ensures { (log : List Self.Entry) → stands self.now log → result ≡ length log };

    // It stands for no list of 2^64 entries or more.
    ghost short: { (value : Self) (log : List Self.Entry) → stands value log → length log < 2 ^ 64 };
}

/// A list of entries that a caller names. It has no calls: it is for proofs alone.
pub trait Named<T: Logged> {
    ghost entries: { List T.Entry };
}

/// No entries.
pub struct Nothing;

impl<T: Logged> Named<T> for Nothing {
    ghost entries = { [] };
}
