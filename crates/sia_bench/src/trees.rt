//! A tree that keeps its nodes, beside the plain list: one hash is changed and the root asked for, or all is hashed again.
ghost use Rattle.std.specs.Prelude.{◌≡◌, ◌<◌, ◌≤◌, IfOk, length};

use sia_blake::Hash;
use sia_encoding::Steps;
use sia_encoding::limits::CONTRACT_SECTORS;
use sia_merkle::node_root;
use sia_roottree::RootTree;
use std::alloc::{AllocError, Global};
use std::io;
use std::rt::Clock;
use std::sync::ledger::{Blank, Ledger};
use std::time::Instant;

/// How far the changed place goes on with each change.
const STRIDE: u64 = 40_503;

/// How many places a tree has, 1 to 65,536, and how often it is changed and its list hashed.
#[derive(Clone, Copy)]
pub(crate) struct Changes {
    places: u64,
    changes: u64,
    wholes: u64,
    ghost some: { 0 < places },
    ghost few: { places ≤ 65536 },
}

impl Changes {
    /// These numbers, where there are so many places as a contract may have sectors, and at least one change and one whole.
    pub(crate) fn of(places: u64, changes: u64, wholes: u64) -> Option<Changes> {
        if places == 0 || places > CONTRACT_SECTORS || changes == 0 || wholes == 0 {
            return None;
        }
        Some(Changes {
            places,
            changes,
            wholes,
        })
    }
}

/// How many nanoseconds the changes took, and how many the roots over the whole list.
#[derive(Clone, Copy)]
pub(crate) struct Treeing {
    /// For the changes, each with a root.
    pub change: u128,
    pub changes: u64,
    /// For the roots over the whole list.
    pub whole: u128,
    pub wholes: u64,
    /// Whether the tree's last root is that of the list with the same changes.
    pub same: bool,
}

/// A hash that begins with a number.
fn hash_of(number: u64) -> Hash {
    let mut hash = [0; 32];
    hash[..8].copy_from_slice(&number.to_le_bytes());
    hash
}

/// A tree and a list of the same hashes.
fn fill<L: Ledger>(
    tree: &mut RootTree,
    list: &mut Vec<Hash>,
    places: u64,
    steps: &mut Steps<L>,
) -> Result<(), AllocError> {
    for place in 0..places {
        let hash = hash_of(place);
        if tree.spare() > 0 {
            tree.push(hash, steps);
        }
        list.push(hash)?;
    }
    Ok(())
}

/// Changes a hash of the tree as many times, and asks for its root each time: the last root.
fn change_again<L: Ledger>(tree: &mut RootTree, times: u64, steps: &mut Steps<L>) -> Hash {
    let mut last = [0; 32];
    'again: for turn in 0..times {
        let count = tree.count();
        if count > 0 {
            tree.set(turn.wrapping_mul(STRIDE) % count, hash_of(turn), steps);
        }
        let next = tree.root(steps);
        last = next;
    }
    last
}

/// Changes the list as the tree was changed.
fn change_list(list: &mut [Hash], times: u64) {
    for turn in 0..times {
        let count = list.len() as u64;
        if count > 0 {
            list[(turn.wrapping_mul(STRIDE) % count) as usize] = hash_of(turn);
        }
    }
}

/// The last of as many roots over the list.
fn whole_again(list: &[Hash], times: u64) -> Hash {
    let mut last = [0; 32];
    'again: for _ in 0..times {
        let next = node_root(list);
        last = next;
    }
    last
}

/// How long the changes of a tree take, and as long as is said the roots over its list.
pub(crate) fn tree_nanos<R: Clock, L: Ledger>(
    rt: &R,
    alloc: Global,
    asked: Changes,
    blank: Blank,
) -> io::Result<Treeing>
    requires name { blank.name ≡ L.name }
    requires parts { blank.parts ≡ L.parts }
    requires one { L.parts ≡ 1 }
{
    let mut steps = Steps::<L>::new(blank);
    let mut tree = RootTree::new(alloc);
    tree.reserve(asked.places)?;
    let mut list = Vec::new(alloc);
    fill(&mut tree, &mut list, asked.places, &mut steps)?;
    let start = Instant::now(rt)?;
    let changed = change_again(&mut tree, asked.changes, &mut steps);
    let change = start.elapsed(rt)?.as_nanos();
    change_list(&mut list, asked.changes);
    let start = Instant::now(rt)?;
    let hashed = whole_again(list.as_slice(), asked.wholes);
    let whole = start.elapsed(rt)?.as_nanos();
    Ok(Treeing {
        change,
        changes: asked.changes,
        whole,
        wholes: asked.wholes,
        same: changed == hashed,
    })
}
