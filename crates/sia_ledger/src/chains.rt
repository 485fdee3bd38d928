//! The places of a growing list that have one key, from the last to the first.
ghost use Rattle.std.specs.Prelude.{◌≡◌, ◌++◌, ◌∷◌, [], take, slice_get, cond, Some, List as Sequence, Option as Perhaps, IsSome, OnOk, OnErr};
ghost use Rattle.std.specs.BTreeMap.{get as tree_get, is_at};
ghost use Rattle.sia_ledger.specs.Chained.{IsChained, last_keyed};

use sia_encoding::List;
use std::alloc::{AllocError, Global};
use std::collections::BTreeMap;

/// For each key its last place in a list, and for each place with a key the one before it with the same key. It keeps no keys but
/// one of each: contracts speak of the list of all. Who makes a chain's blocks chooses the keys, so they stand in a tree, which
/// is as deep for any keys, and in no hash table.
#[derive(Drop)]
pub(crate) struct Chains<K: Ord> {
    lasts: BTreeMap<K, u64>,
    links: List<Option<u64>>,
}

impl<K: Ord + Copy + Drop> Chains<K> {
    /// The chains of no keys. It takes no memory.
    pub(crate) fn new(alloc: Global) -> Chains<K>
        ensures { IsChained K.cmp result [] }
    {
        Chains {
            lasts: BTreeMap::new(alloc),
            links: List::new(alloc),
        }
    }

    /// One place more, with a key or with none. Its error is want of memory: all stays as it was.
    pub(crate) fn push(&mut self, key: Option<K>) -> Result<(), AllocError>
        ensures pushed { OnOk result ((keys : Sequence (Perhaps K)) → IsChained K.cmp self.old keys → IsChained K.cmp self.new (keys ++ key ∷ [])) }
        ensures unchanged { OnErr result ((keys : Sequence (Perhaps K)) → IsChained K.cmp self.old keys → IsChained K.cmp self.new keys) }
    {
        let place = self.links.len() as u64;
        let Some(key) = key else {
            self.links.push(None)?;
            return Ok(());
        };
        let before = self.lasts.get(&key).copied();
        self.links.push(before)?;
        match self.lasts.insert(key, place) {
            Ok(_) => Ok(()),
            Err(_) => {
                self.links.pop();
                Err(AllocError)
            }
        }
    }

    /// Takes the last place back, which has this key or none. It takes no memory.
    pub(crate) fn pop(&mut self, key: Option<K>)
        ensures { (keys : Sequence (Perhaps K)) → IsChained K.cmp self.old (keys ++ key ∷ []) → IsChained K.cmp self.new keys }
    {
        let Some(before) = self.links.pop() else {
            return;
        };
        if let Some(key) = key {
            set_back(&mut self.lasts, key, before);
        }
    }

    /// The last place with a key.
    pub(crate) fn last(&self, key: &K) -> Option<u64>
        ensures { (keys : Sequence (Perhaps K)) → IsChained K.cmp self.now keys → result ≡ last_keyed K.cmp key.now keys }
    {
        self.lasts.get(key).copied()
    }

    /// The last place before this one with the same key.
    pub(crate) fn earlier(&self, place: u64) -> Option<u64>
        ensures { (keys : Sequence (Perhaps K)) (key : K) → IsChained K.cmp self.now keys → slice_get keys place ≡ Some (Some key) → result ≡ last_keyed K.cmp key (take place keys) }
    {
        match self.links.get(place as usize) {
            Some(link) => *link,
            None => None,
        }
    }
}

// A key's last place is set back to an earlier one, or the key goes. It takes no memory.
fn set_back<K: Ord + Copy + Drop>(lasts: &mut BTreeMap<K, u64>, key: K, earlier: Option<u64>)
    ensures { IsSome (tree_get K.cmp lasts.old key) → (other : K) → tree_get K.cmp lasts.new other ≡ cond (is_at (K.cmp key) other) earlier (tree_get K.cmp lasts.old other) }
{
    match earlier {
        None => {
            lasts.remove(&key);
        }
        Some(place) => match lasts.insert(key, place) {
            Ok(_) => {}
            Err(_) => {}
        },
    }
}
