//! What steps make of the roots of a contract's sectors, and its proof.
ghost use Rattle.std.specs.Prelude.{◌≡◌, ◌+◌, ◌≤◌, length, IsTrue, IfOk};
ghost use Rattle.std.specs.List.{list_all};
ghost use Rattle.sia_encoding.specs.declared.limits.TheConstants.{CONTRACT_SECTORS};
ghost use Rattle.sia_merkle.specs.Roots.{node_root_of};
ghost use Rattle.sia_diff.specs.Diffs.{own_leaves, own_nodes};
ghost use Rattle.sia_diff.specs.DiffSteps.{after, count_after as count_after_all, count_after_step as count_after_one, counted_steps, is_fit, step_fits};

use sia_blake::Hash;
use sia_diff::{DiffStep, check_diff, own_diff_is_accepted, prove_diff};
use sia_encoding::Steps;
use sia_roottree::RootTree;
use sia_types::{DiffProof, List};
use std::alloc::{AllocError, Global};
use std::marker::Brand;
use std::sync::ledger::{Blank, Ledger as StepBook};

/// What steps make of a list of roots, and its proof.
#[derive(Drop)]
pub struct Rerooted {
    /// The root over the list after the steps.
    pub root: Hash,
    /// How many roots there are after them.
    pub count: u64,
    /// The old roots at the places that are touched.
    pub leaves: List<Hash>,
    /// The roots of the cover of the other places.
    pub nodes: List<Hash>,
}

/// What steps that are fit make of the roots of a tree, and its proof. The tree stays. The error is want of memory.
pub fn reroot(alloc: Global, tree: &RootTree, steps: &[DiffStep]) -> Result<Rerooted, AllocError>
    requires { IsTrue (is_fit (length tree.now.hashes) steps.now) }
    ensures root { IfOk result (λ made. made.root ≡ node_root_of (after tree.now.hashes steps.now)) }
    ensures count { IfOk result (λ made. made.count ≡ length (after tree.now.hashes steps.now)) }
    ensures leaves { IfOk result (λ made. made.leaves ≡ own_leaves tree.now.hashes steps.now) }
    ensures nodes { IfOk result (λ made. made.nodes ≡ own_nodes tree.now.hashes steps.now) }
{
    let proof = prove_diff(alloc, tree, steps)?;
    let root = root_after(alloc, tree, &proof, steps)?;
    let count = count_after(tree.count(), steps);
    let DiffProof { leaves, nodes } = proof;
    Ok(Rerooted {
        root,
        count,
        leaves,
        nodes,
    })
}

// The root over the roots of a tree after steps that are fit, by the tree's own proof.
fn root_after(
    alloc: Global,
    tree: &RootTree,
    proof: &DiffProof,
    steps: &[DiffStep],
) -> Result<Hash, AllocError>
    requires fit { IsTrue (is_fit (length tree.now.hashes) steps.now) }
    requires leaves { proof.now.leaves ≡ own_leaves tree.now.hashes steps.now }
    requires nodes { proof.now.nodes ≡ own_nodes tree.now.hashes steps.now }
    ensures { IfOk result (λ root. root ≡ node_root_of (after tree.now.hashes steps.now)) }
{
    own_diff_is_accepted();
    let old = root_uncounted::<Brand>(tree, Blank::new(1));
    match check_diff(alloc, &old, tree.count(), proof, steps)? {
        None => unreachable!(),
        Some(root) => Ok(root),
    }
}

/// The root of a tree, where nobody counts the steps.
pub fn root_uncounted<L: StepBook>(tree: &RootTree, blank: Blank) -> Hash
    requires name { blank.name ≡ L.name }
    requires parts { blank.parts ≡ L.parts }
    requires one { blank.parts ≡ 1 }
    ensures { result ≡ node_root_of tree.now.hashes }
{
    let mut steps = Steps::<L>::new(blank);
    tree.root(&mut steps)
}

// How many roots there are after steps that are fit.
fn count_after(count: u64, steps: &[DiffStep]) -> u64
    requires { IsTrue (is_fit count steps.now) }
    ensures { result ≡ count_after_all count steps.now }
{
    let mut left = count;
    for step in steps {
        left = count_after_step(left, step);
    }
    left
}

// How many roots there are after one step.
fn count_after_step(count: u64, step: &DiffStep) -> u64
    requires few { count ≤ CONTRACT_SECTORS }
    requires fits { IsTrue (step_fits count step.now) }
    ensures count { result ≡ count_after_one count step.now }
    ensures few { result ≤ CONTRACT_SECTORS }
{
    match step {
        DiffStep::Append(_) => count + 1,
        DiffStep::Trim(fewer) => count - *fewer,
        DiffStep::Swap(_, _) => count,
        DiffStep::Set(_, _) => count,
    }
}
