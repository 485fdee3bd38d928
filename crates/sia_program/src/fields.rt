//! The lines of a transaction, and of a block.
ghost use Rattle.std.specs.Prelude.{◌≡◌, ◌++◌, IfOk, OnOk, string_bytes};
ghost use Rattle.sia_program.specs.Fields.{block_line, block_lines as block_lines_of, coin_lines, lines_from, other_lines};
ghost use Rattle.sia_program.specs.Fields.{payout_line, transaction_lines as transaction_lines_of};

use crate::entries::{put_entries, put_made};
use crate::lines::{hash_text, put_text};
use sia_blake::Hash;
use sia_ids::{block_id, payout_id, tx_id};
use sia_types::{Block, CoinOutput, Transaction};
use std::alloc::{AllocError, Global};

/// Appends the lines of what a transaction moves: coins and contracts.
#[tactic(auto, unfolding(crate::specs::Fields::coin_lines))]
fn put_coins(alloc: Global, out: &mut String, tx: &Transaction) -> Result<(), AllocError>
    ensures { OnOk result (string_bytes out.new ≡ string_bytes out.old ++ coin_lines tx.now) }
{
    put_entries(alloc, tx, tx.coin_inputs.as_slice(), out)?;
    put_entries(alloc, tx, tx.coin_outputs.as_slice(), out)?;
    put_entries(alloc, tx, tx.contracts.as_slice(), out)?;
    put_entries(alloc, tx, tx.revisions.as_slice(), out)?;
    put_entries(alloc, tx, tx.proofs.as_slice(), out)
}

/// Appends the lines of a transaction's siafunds, fees, notes and signatures.
#[tactic(auto, unfolding(crate::specs::Fields::other_lines))]
fn put_others(alloc: Global, out: &mut String, tx: &Transaction) -> Result<(), AllocError>
    ensures { OnOk result (string_bytes out.new ≡ string_bytes out.old ++ other_lines tx.now) }
{
    put_entries(alloc, tx, tx.fund_inputs.as_slice(), out)?;
    put_entries(alloc, tx, tx.fund_outputs.as_slice(), out)?;
    put_entries(alloc, tx, tx.fees.as_slice(), out)?;
    put_entries(alloc, tx, tx.notes.as_slice(), out)?;
    put_entries(alloc, tx, tx.signatures.as_slice(), out)
}

/// Appends the lines of a transaction: its identifier, and each field's entries in order.
#[tactic(auto, unfolding(crate::specs::Fields::transaction_lines))]
fn put_transaction(alloc: Global, out: &mut String, tx: &Transaction) -> Result<(), AllocError>
    ensures { OnOk result (string_bytes out.new ≡ string_bytes out.old ++ transaction_lines_of tx.now) }
{
    let id = hash_text(alloc, &tx_id(alloc, tx)?)?;
    put_text(out, "transaction", id.as_str())?;
    put_coins(alloc, out, tx)?;
    put_others(alloc, out, tx)
}

/// Appends the lines of some transactions, in order.
fn put_transactions(
    alloc: Global,
    out: &mut String,
    transactions: &[Transaction],
) -> Result<(), AllocError>
    ensures { OnOk result (string_bytes out.new ≡ string_bytes out.old ++ lines_from (λ index. transaction_lines_of) 0 transactions.now) }
{
    for tx in transactions {
        put_transaction(alloc, out, tx)?;
    }
    Ok(())
}

/// Appends the lines of the payouts of the block with this identifier, in order.
fn put_payouts(
    alloc: Global,
    out: &mut String,
    block: &Hash,
    payouts: &[CoinOutput],
) -> Result<(), AllocError>
    ensures { OnOk result (string_bytes out.new ≡ string_bytes out.old ++ lines_from (payout_line block.now) 0 payouts.now) }
{
    for (index, payout) in payouts.iter().enumerate() {
        let id = payout_id(block, index as u64);
        put_made(alloc, out, "payout", &id, payout.value, &payout.address)?;
    }
    Ok(())
}

/// A block's own line.
#[tactic(auto, unfolding(crate::specs::Fields::block_line))]
fn put_block(alloc: Global, out: &mut String, id: &Hash, block: &Block) -> Result<(), AllocError>
    ensures { OnOk result (string_bytes out.new ≡ string_bytes out.old ++ block_line id.now block.now) }
{
    let id = hash_text(alloc, id)?;
    let parent = hash_text(alloc, &block.parent)?;
    write!(out, "block {id} {parent} {}\n", block.timestamp)
}

/// The lines of a transaction: its identifier, and each field's entries in order. Its error is want of memory.
pub fn transaction_lines(alloc: Global, tx: &Transaction) -> Result<String, AllocError>
    ensures { IfOk result (λ text. string_bytes text ≡ transaction_lines_of tx.now) }
{
    let mut text = String::new(alloc);
    put_transaction(alloc, &mut text, tx)?;
    Ok(text)
}

/// The lines of a block: itself, its payouts, and its transactions. Its error is want of memory.
#[tactic(auto, unfolding(crate::specs::Fields::block_lines))]
pub fn block_lines(alloc: Global, block: &Block) -> Result<String, AllocError>
    ensures { IfOk result (λ text. string_bytes text ≡ block_lines_of block.now) }
{
    let mut text = String::new(alloc);
    let id = block_id(alloc, block)?;
    put_block(alloc, &mut text, &id, block)?;
    put_payouts(alloc, &mut text, &id, block.payouts.as_slice())?;
    put_transactions(alloc, &mut text, block.transactions.as_slice())?;
    Ok(text)
}
