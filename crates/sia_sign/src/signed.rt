//! What a signature signs.
ghost use Rattle.std.specs.Prelude.{◌≡◌, ◌<◌, ◌++◌, length, slice_get, IfSome, IfOk, OnOk};
ghost use Rattle.sia_sign.specs.SignedText.{covered_text, own_text, signed_hash};

use crate::elements::Elements;
use sia_blake::{Hash, digest};
use sia_encoding::{Blob, Spelled};
use sia_types::{Covered, Signature, Transaction};
use std::alloc::{AllocError, Global};

// The elements that are covered of some of a transaction's lists, list by list.
macro_rules! covered_of {
    ($tx:expr, $covered:expr, $list:ident) => {
        Elements { all: &$tx.$list, indices: &$covered.$list }
    };
    ($tx:expr, $covered:expr, $list:ident, $($rest:ident),+) => {
        (Elements { all: &$tx.$list, indices: &$covered.$list }, covered_of!($tx, $covered, $($rest),+))
    };
}

/// The hash that the signature at an index from 0 signs: of what it covers of the transaction, of its own parent, key index and
/// timelock, and of the signatures that it covers. Its error is want of memory.
pub fn sig_hash(alloc: Global, tx: &Transaction, i: u64) -> Result<Hash, AllocError>
    requires { i < length tx.now.signatures }
    ensures { IfOk result (λ hash. IfSome (slice_get tx.now.signatures i) (λ s. hash ≡ signed_hash tx.now s)) }
{
    let signature = &tx.signatures.as_slice()[i as usize];
    hash_signed(alloc, tx, signature)
}

/// The hash that a signature of the transaction signs. Its error is want of memory.
#[tactic(auto, unfolding(crate::specs::SignedText::signed_hash))]
pub fn hash_signed(
    alloc: Global,
    tx: &Transaction,
    signature: &Signature,
) -> Result<Hash, AllocError>
    ensures { IfOk result (λ hash. hash ≡ signed_hash tx.now signature.now) }
{
    let mut text = Blob::new(alloc);
    write_covered(&mut text, tx, &signature.covered)?;
    write_own(&mut text, tx, signature)?;
    Ok(digest(text.as_slice()))
}

// What is covered of all but the signatures.
#[tactic(auto, unfolding(crate::specs::SignedText::covered_text, crate::specs::SignedText::covered_elements))]
fn write_covered(out: &mut Blob, tx: &Transaction, covered: &Covered) -> Result<(), AllocError>
    ensures { OnOk result (out.new ≡ out.old ++ covered_text tx.now covered.now) }
{
    if covered.whole {
        return tx.encode_unsigned(out);
    }
    covered_of!(
        tx,
        covered,
        coin_inputs,
        coin_outputs,
        contracts,
        revisions,
        proofs,
        fund_inputs,
        fund_outputs,
        fees,
        notes
    )
    .write_each(out)
}

// What a signature says of itself, and the signatures that it covers.
#[tactic(auto, unfolding(crate::specs::SignedText::own_text))]
fn write_own(out: &mut Blob, tx: &Transaction, signature: &Signature) -> Result<(), AllocError>
    ensures { OnOk result (out.new ≡ out.old ++ own_text tx.now signature.now) }
{
    let covered = covered_of!(tx, signature.covered, signatures);
    (
        &signature.parent,
        (&signature.key_index, (&signature.timelock, covered)),
    )
        .write_each(out)
}
