//! The identifiers of a block and of its payouts.
ghost use Rattle.std.specs.Prelude.{◌≡◌, ◌+◌, ◌<◌, ◌^◌, ◌++◌, length, map, IfOk, OnOk};
ghost use Rattle.sia_merkle.specs.Roots.{leaf_digest};
ghost use Rattle.sia_ids.specs.Identifiers.{block_root, block_id as block_id_of, payout_id as payout_id_of};

use sia_blake::{Hash, Hasher, digest};
use sia_encoding::{Blob, put_fixed, put_u64};
use sia_merkle::RootStack;
use sia_types::{Block, Item};
use std::alloc::{AllocError, Global};

/// The identifier of a block: the digest of its header. Its error is want of memory.
#[tactic(auto, unfolding(crate::specs::Identifiers::block_text, crate::specs::Identifiers::block_id))]
pub fn block_id(alloc: Global, block: &Block) -> Result<Hash, AllocError>
    ensures { IfOk result (λ id. id ≡ block_id_of block.now) }
{
    let root = root_of_block(alloc, block)?;
    let mut text = Blob::new(alloc);
    put_fixed(&mut text, &block.parent)?;
    put_fixed(&mut text, &block.nonce)?;
    put_u64(&mut text, block.timestamp)?;
    put_fixed(&mut text, &root)?;
    Ok(digest(text.as_slice()))
}

/// The identifier of the miner payout at an index from 0 of the block with this identifier.
#[tactic(auto, unfolding(crate::specs::Identifiers::payout_text, crate::specs::Identifiers::payout_id, sia_encoding::specs::Spelling::spelled_u64))]
pub fn payout_id(block: &Hash, index: u64) -> Hash
    ensures { result ≡ payout_id_of block.now index }
{
    let mut hasher = Hasher::new();
    hasher.update(block);
    hasher.update(&index.to_le_bytes());
    hasher.finish()
}

// The root over a block's payouts and then its transactions, each leaf being the bytes of one.
#[tactic(auto, unfolding(crate::specs::Identifiers::block_root))]
fn root_of_block(alloc: Global, block: &Block) -> Result<Hash, AllocError>
    ensures { IfOk result (λ root. root ≡ block_root block.now) }
{
    let mut stack = RootStack::new();
    push_leaves(alloc, &mut stack, block.payouts.as_slice())?;
    push_leaves(alloc, &mut stack, block.transactions.as_slice())?;
    Ok(stack.root())
}

// Pushes a leaf for each item: its bytes.
fn push_leaves<T: Item>(alloc: Global, stack: &mut RootStack, items: &[T]) -> Result<(), AllocError>
    requires { length stack.old + length items.now < 2 ^ 62 }
    ensures { OnOk result (stack.new ≡ stack.old ++ map leaf_digest (map T.codec.spelled items.now)) }
{
    for item in items {
        let mut leaf = Blob::new(alloc);
        item.encode(&mut leaf)?;
        stack.push_leaf(leaf.as_slice());
    }
    Ok(())
}
