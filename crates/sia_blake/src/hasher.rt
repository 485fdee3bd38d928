//! The hasher, and the list of bytes that clauses see of it.

ghost use Rattle.std.specs.Prelude.{◌≡◌, List, ℕ, [], ◌+◌, ◌<◌, ◌++◌, ◌^◌, length};
ghost use Rattle.sia_blake.specs.Blake2b.{blake2b_256};

use crate::Hash;
use crate::absorbed::Absorbed;
use crate::state::HashState;
use std::marker::Model;

/// The BLAKE2b-256 digest of a message that comes in pieces (RFC 7693). A hasher is seen as the bytes that it was
/// given, so how they are cut changes nothing. It takes no memory.
#[derive(Drop)]
pub struct Hasher {
    state: HashState,
    absorbed: Absorbed,
}

impl Model for Hasher {
    ghost use Rattle.std.specs.Prelude.{List, ℕ, ◌<◌, ◌^◌, length};
    ghost use Rattle.std.specs.Coded.{coded_list, coded_ℕ};
    ghost use Rattle.sia_blake.specs.Absorbing.{IsAbsorbed};
    ghost use Rattle.sia_blake.specs.History.{absorbed_bytes};

    ghost Value = { List ℕ };

    ghost coded = { coded_list coded_ℕ };

    ghost view = { λ a. absorbed_bytes a.absorbed };

    ghost invariant = { λ a. IsAbsorbed a.state (absorbed_bytes a.absorbed) × (length (absorbed_bytes a.absorbed) < 2 ^ 64) };
}

impl Hasher {
    /// A hasher that was given nothing yet.
    pub fn new() -> Hasher
        ensures { result ≡ [] }
    {
        Hasher {
            state: HashState::new(),
            absorbed: Absorbed::Nothing,
        }
    }

    /// Another hasher that was given the same bytes, for messages with one front part.
    pub fn copy(&self) -> Hasher
        ensures { result ≡ self.now }
    {
        Hasher {
            state: self.state,
            absorbed: self.absorbed.copy(),
        }
    }

    /// Takes the next bytes of the message, of which fewer than 2^64 come in all.
    pub fn update(&mut self, bytes: &[u8])
        requires { length self.old + length bytes.now < 2 ^ 64 }
        ensures { self.new ≡ self.old ++ bytes.now }
    {
        self.state.update(bytes);
        self.absorbed.note(bytes);
    }

    /// The digest of all the bytes.
    pub fn finish(self) -> Hash
        ensures { result ≡ blake2b_256 self }
    {
        self.state.finish()
    }
}
