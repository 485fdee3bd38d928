//! The root of bytes that come in pieces, in no memory but a slot for each height. Each leaf is hashed once, 64 at a time.
ghost use Rattle.std.specs.Prelude.{◌≡◌, ◌+◌, ◌%◌, ◌<◌, ◌^◌, ◌++◌, [], List, ℕ, length, map};
ghost use Rattle.sia_merkle.specs.Levels.{levels_up};
ghost use Rattle.sia_merkle.specs.Pieces.{noted_bytes, AreGroups};
ghost use Rattle.sia_merkle.specs.Roots.{leaf_count, leaf_digest, leaves_of, root_of};

use crate::groups::GROUP_LEN;
use crate::noted::Noted;
use crate::stack::RootStack;
use crate::whole::{leaf_part_root, part_of};
use sia_blake::Hash;
use std::marker::Model;

/// Bytes that come in pieces, each of whole groups of 64 leaves, and of which the root can be had with a last piece of any
/// length. Contracts see it as the list of the bytes that were pushed.
///
/// It keeps the roots of perfect subtrees alone, and takes no memory.
#[derive(Drop)]
pub struct PieceStack {
    groups: RootStack,
    noted: Noted,
}

impl Model for PieceStack {
    ghost Value = { List ℕ };

    ghost view = { λ s. noted_bytes s.noted };

    ghost invariant = { λ s. AreGroups s.groups (noted_bytes s.noted) };
}

impl PieceStack {
    /// No bytes yet.
    pub fn new() -> PieceStack
        ensures { result ≡ [] }
    {
        PieceStack {
            groups: RootStack::new(),
            noted: Noted::Nothing,
        }
    }

    /// Pushes a piece of whole groups of 4,096 bytes.
    pub fn push(&mut self, piece: &[u8])
        requires whole { length piece.now % 4096 ≡ 0 }
        requires room { length self.old + length piece.now < 2 ^ 64 }
        ensures { self.new ≡ self.old ++ piece.now }
    {
        push_parts(&mut self.groups, piece);
        self.noted.note(piece);
    }

    /// The root over the leaves of the bytes that were pushed and of a last piece of any length.
    pub fn root(mut self, last: &[u8]) -> Hash
        requires { length self + length last.now < 2 ^ 64 }
        ensures { result ≡ root_of (leaves_of (self ++ last.now)) }
    {
        push_parts(&mut self.groups, last);
        self.groups.root()
    }
}

/// Pushes the root of each group of leaves, of which the last group may lack some.
fn push_parts(groups: &mut RootStack, bytes: &[u8])
    requires { length groups.old + leaf_count (length bytes.now) < 2 ^ 62 }
    ensures { groups.new ≡ groups.old ++ levels_up 6 (map leaf_digest (leaves_of bytes.now)) }
{
    for place in 0..bytes.len().div_ceil(GROUP_LEN) {
        groups.push_hash(&leaf_part_root(part_of(bytes, GROUP_LEN, place)));
    }
}
