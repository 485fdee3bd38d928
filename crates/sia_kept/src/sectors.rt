//! The sectors of a contract.
ghost use Rattle.std.specs.Prelude.{◌≡◌, ◌+◌, ◌-◌, ◌<◌, ◌≤◌, min, [], ◌∷◌, ◌++◌, map, find, take, length, vec_len, vec_capacity, slice_set, slice_get, slice_index_or, IsTrue, OnOk, OnErr};
ghost use Rattle.std.specs.List.{list_all};
ghost use Rattle.std.specs.Option.{option_map};
ghost use Rattle.std.specs.Str.{bytes_eq};
ghost use Rattle.sia_encoding.specs.declared.limits.TheConstants.{CONTRACT_SECTORS};
ghost use Rattle.sia_diff.specs.DiffSteps.{counted_steps, is_fit, step_fits};
ghost use Rattle.sia_records.specs.Stored.{Stored, no_sector, step_of, stored_after, stored_after_one};

use sia_blake::Hash;
use sia_encoding::Steps;
use sia_encoding::limits::CONTRACT_SECTORS;
use sia_records::Change;
use sia_roottree::RootTree;
use std::alloc::{AllocError, Global};
use std::marker::{Brand, Model};
use std::sync::ledger::{Blank, Ledger as StepBook};

/// A sector of a contract: its root, and the slot in which its bytes lie.
#[derive(Drop)]
pub struct Sector {
    /// Its root.
    pub root: Hash,
    /// Its slot.
    pub slot: u64,
}

impl Model for Sector {
    ghost use Rattle.sia_records.specs.Stored.{Stored};

    ghost Value = { Stored };

    ghost view = { λ s. record { root = s.root; slot = s.slot } };
}

/// The sectors of a contract, in order. The tree over their roots is kept, so that their root is had without a walk of all.
#[derive(Drop)]
pub struct Sectors {
    stored: Vec<Sector>,
    tree: RootTree,
}

impl Model for Sectors {
    ghost use Rattle.std.specs.Prelude.{◌≡◌, List as Sequence, map};
    ghost use Rattle.sia_records.specs.Stored.{Stored};

    ghost Value = { Sequence Stored };

    ghost view = { λ s. s.stored.items };

    ghost invariant = { λ s. s.tree.hashes ≡ map (λ (sector : Stored). sector.root) s.stored.items };
}

impl Sectors {
    /// No sector. It takes no memory.
    pub fn new(alloc: Global) -> Sectors
        ensures { result ≡ [] }
    {
        Sectors {
            stored: Vec::new(alloc),
            tree: RootTree::new(alloc),
        }
    }

    /// The sectors, lent.
    pub fn as_slice(&self) -> &[Sector]
        ensures { result.now ≡ self.now }
    {
        self.stored.as_slice()
    }

    /// The tree over their roots.
    pub fn tree(&self) -> &RootTree
        ensures { result.now.hashes ≡ map (λ (sector : Stored). sector.root) self.now }
    {
        &self.tree
    }

    /// How many there are.
    pub fn count(&self) -> u64
        ensures { result ≡ length self.now }
    {
        self.stored.len() as u64
    }

    /// The slot of the first sector with this root.
    pub fn slot_with(&self, root: &Hash) -> Option<u64>
        ensures { result ≡ option_map (λ (sector : Stored). sector.slot) (find (λ (sector : Stored). bytes_eq sector.root root.now) self.now) }
    {
        let found = self.stored.as_slice().iter().find(|s| s.root == *root)?;
        Some(found.slot)
    }

    /// The slot of the sector at a place, counted from 0.
    pub fn slot_at(&self, place: u64) -> Option<u64>
        ensures { result ≡ option_map (λ (sector : Stored). sector.slot) (slice_get self.now place) }
    {
        let found = self.stored.as_slice().get(place as usize)?;
        Some(found.slot)
    }

    /// Changes the sectors by changes that are fit, done in order. Its error is want of memory: the sectors are as they were.
    pub fn change(&mut self, changes: &[Change]) -> Result<(), AllocError>
        requires { IsTrue (is_fit (length self.old) (map step_of changes.now)) }
        ensures ok { OnOk result (self.new ≡ stored_after self.old changes.now) }
        ensures err { OnErr result (self.new ≡ self.old) }
    {
        let room = (changes.len() as u64).min(CONTRACT_SECTORS - self.count());
        self.stored.reserve(room as usize)?;
        self.tree.reserve(room)?;
        do_uncounted::<Brand>(&mut self.stored, &mut self.tree, changes, Blank::new(1));
        Ok(())
    }
}

// Does all changes, in order and in room that is there, where nobody counts the steps.
fn do_uncounted<L: StepBook>(
    stored: &mut Vec<Sector>,
    tree: &mut RootTree,
    changes: &[Change],
    blank: Blank,
)
    requires name { blank.name ≡ L.name }
    requires parts { blank.parts ≡ L.parts }
    requires one { blank.parts ≡ 1 }
    requires tree { tree.old.hashes ≡ map (λ (sector : Stored). sector.root) stored.old.items }
    requires fits { IsTrue (list_all (λ counted. step_fits counted.count counted.step) (counted_steps (length stored.old.items) (map step_of changes.now))) }
    requires spare { min (length stored.old.items + length changes.now) CONTRACT_SECTORS ≤ length stored.old.items + tree.old.spare }
    requires room { min (length stored.old.items + length changes.now) CONTRACT_SECTORS ≤ vec_capacity stored.old }
    ensures stored { stored.new.items ≡ stored_after stored.old.items changes.now }
    ensures tree { tree.new.hashes ≡ map (λ (sector : Stored). sector.root) stored.new.items }
{
    let mut steps = Steps::<L>::new(blank);
    do_changes(stored, tree, changes, &mut steps);
}

// Does all changes, in order and in room that is there.
fn do_changes<L: StepBook>(
    stored: &mut Vec<Sector>,
    tree: &mut RootTree,
    changes: &[Change],
    steps: &mut Steps<L>,
)
    requires tree { tree.old.hashes ≡ map (λ (sector : Stored). sector.root) stored.old.items }
    requires fits { IsTrue (list_all (λ counted. step_fits counted.count counted.step) (counted_steps (length stored.old.items) (map step_of changes.now))) }
    requires spare { min (length stored.old.items + length changes.now) CONTRACT_SECTORS ≤ length stored.old.items + tree.old.spare }
    requires room { min (length stored.old.items + length changes.now) CONTRACT_SECTORS ≤ vec_capacity stored.old }
    ensures stored { stored.new.items ≡ stored_after stored.old.items changes.now }
    ensures tree { tree.new.hashes ≡ map (λ (sector : Stored). sector.root) stored.new.items }
{
    for change in changes {
        do_change(stored, tree, change, steps);
    }
}

// Does one change, in room that is there.
fn do_change<L: StepBook>(
    stored: &mut Vec<Sector>,
    tree: &mut RootTree,
    change: &Change,
    steps: &mut Steps<L>,
)
    requires tree { tree.old.hashes ≡ map (λ (sector : Stored). sector.root) stored.old.items }
    requires fits { IsTrue (step_fits (length stored.old.items) (step_of change.now)) }
    requires spare { length stored.old.items < CONTRACT_SECTORS → 1 ≤ tree.old.spare }
    requires room { length stored.old.items < CONTRACT_SECTORS → length stored.old.items < vec_capacity stored.old }
    ensures stored { stored.new.items ≡ stored_after_one stored.old.items change.now }
    ensures tree { tree.new.hashes ≡ map (λ (sector : Stored). sector.root) stored.new.items }
    ensures spare { length stored.new.items + tree.new.spare ≡ length stored.old.items + tree.old.spare }
    ensures room { vec_capacity stored.old ≤ vec_capacity stored.new }
    ensures more { length stored.new.items ≤ length stored.old.items + 1 }
{
    match change {
        Change::Append { root, slot } => append(stored, tree, root, *slot, steps),
        Change::Trim(fewer) => trim(stored, tree, *fewer),
        Change::Swap(one, other) => swap(stored, tree, *one, *other, steps),
        Change::Set { place, root, slot } => set(stored, tree, *place, root, *slot, steps),
    }
}

// Puts a sector behind the last one.
fn append<L: StepBook>(
    stored: &mut Vec<Sector>,
    tree: &mut RootTree,
    root: &Hash,
    slot: u64,
    steps: &mut Steps<L>,
)
    requires tree { tree.old.hashes ≡ map (λ (sector : Stored). sector.root) stored.old.items }
    requires spare { 1 ≤ tree.old.spare }
    requires room { length stored.old.items < vec_capacity stored.old }
    ensures stored { stored.new.items ≡ stored.old.items ++ record { root = root.now; slot = slot } ∷ [] }
    ensures tree { tree.new.hashes ≡ map (λ (sector : Stored). sector.root) stored.new.items }
    ensures spare { length stored.new.items + tree.new.spare ≡ length stored.old.items + tree.old.spare }
    ensures room { vec_capacity stored.old ≤ vec_capacity stored.new }
    ensures more { length stored.new.items ≤ length stored.old.items + 1 }
{
    let root = *root;
    tree.push(root, steps);
    let Ok(()) = stored.push(Sector { root, slot }) else {
        unreachable!()
    };
}

// Takes so many sectors from the end.
fn trim(stored: &mut Vec<Sector>, tree: &mut RootTree, fewer: u64)
    requires tree { tree.old.hashes ≡ map (λ (sector : Stored). sector.root) stored.old.items }
    requires fewer { fewer ≤ length stored.old.items }
    ensures stored { stored.new.items ≡ take (length stored.old.items - fewer) stored.old.items }
    ensures tree { tree.new.hashes ≡ map (λ (sector : Stored). sector.root) stored.new.items }
    ensures spare { length stored.new.items + tree.new.spare ≡ length stored.old.items + tree.old.spare }
    ensures room { vec_capacity stored.old ≤ vec_capacity stored.new }
    ensures more { length stored.new.items ≤ length stored.old.items + 1 }
{
    trim_tree(tree, fewer);
    let left = stored.len() - fewer as usize;
    stored.truncate(left);
}

// Takes so many hashes from the end of a tree.
fn trim_tree(tree: &mut RootTree, fewer: u64)
    requires { fewer ≤ length tree.old.hashes }
    ensures hashes { tree.new.hashes ≡ take (length tree.old.hashes - fewer) tree.old.hashes }
    ensures spare { tree.new.spare ≡ tree.old.spare + fewer }
{
    for _ in 0..fewer {
        tree.pop();
    }
}

// Puts the sectors at two places in each other's place.
fn swap<L: StepBook>(
    stored: &mut Vec<Sector>,
    tree: &mut RootTree,
    one: u64,
    other: u64,
    steps: &mut Steps<L>,
)
    requires tree { tree.old.hashes ≡ map (λ (sector : Stored). sector.root) stored.old.items }
    requires one { one < length stored.old.items }
    requires other { other < length stored.old.items }
    ensures stored { stored.new.items ≡ slice_set (slice_set stored.old.items one (slice_index_or stored.old.items other no_sector)) other (slice_index_or stored.old.items one no_sector) }
    ensures tree { tree.new.hashes ≡ map (λ (sector : Stored). sector.root) stored.new.items }
    ensures spare { length stored.new.items + tree.new.spare ≡ length stored.old.items + tree.old.spare }
    ensures room { vec_capacity stored.old ≤ vec_capacity stored.new }
    ensures more { length stored.new.items ≤ length stored.old.items + 1 }
{
    tree.swap(one, other, steps);
    stored.swap(one as usize, other as usize);
}

// Puts another sector at a place.
fn set<L: StepBook>(
    stored: &mut Vec<Sector>,
    tree: &mut RootTree,
    place: u64,
    root: &Hash,
    slot: u64,
    steps: &mut Steps<L>,
)
    requires tree { tree.old.hashes ≡ map (λ (sector : Stored). sector.root) stored.old.items }
    requires place { place < length stored.old.items }
    ensures stored { stored.new.items ≡ slice_set stored.old.items place (record { root = root.now; slot = slot }) }
    ensures tree { tree.new.hashes ≡ map (λ (sector : Stored). sector.root) stored.new.items }
    ensures spare { length stored.new.items + tree.new.spare ≡ length stored.old.items + tree.old.spare }
    ensures room { vec_capacity stored.old ≤ vec_capacity stored.new }
    ensures more { length stored.new.items ≤ length stored.old.items + 1 }
{
    let root = *root;
    tree.set(place, root, steps);
    stored[place as usize] = Sector { root, slot };
}
