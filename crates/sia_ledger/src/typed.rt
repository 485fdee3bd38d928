//! What is known of values by their types: the walks only read, and change nothing.
ghost use Rattle.std.specs.Prelude.{◌-◌, ◌^◌, ◌<◌};
ghost use Rattle.sia_encoding.specs.Codec.{AreBytes};

use sia_encoding::{Blob, Item, List};
use sia_types::{
    Block, CoinInput, CoinOutput, Covered, FileContract, FundInput, FundOutput, PublicKey,
    Revision, Signature, StorageProof, Transaction, UnlockConditions,
};

/// A value whose parts are of their types: integers and bytes, arrays and lists have the sizes that Rust gives them.
pub(crate) trait Typed: Item {
    /// Makes it known of the value.
    fn know(&self)
        ensures { Self.codec.fits (2 ^ 64 - 1) self.now };
}

// Each is a byte.
fn know_bytes(bytes: &[u8])
    ensures { AreBytes bytes.now }
{
    for byte in bytes {
        let _byte = *byte;
    }
}

impl Typed for u64 {
    fn know(&self) {
        let _value = *self;
    }
}

impl Typed for u128 {
    fn know(&self) {
        let _value = *self;
    }
}

impl Typed for bool {
    fn know(&self) {}
}

impl<const N: usize> Typed for [u8; N] {
    fn know(&self) {
        know_bytes(self);
    }
}

impl Typed for Blob {
    fn know(&self) {
        know_bytes(self.as_slice());
    }
}

impl<T: Typed> Typed for List<T> {
    fn know(&self) {
        let items = self.as_slice();
        let _count = self.len();
        for item in items {
            item.know();
        }
    }
}

impl Typed for PublicKey {
    fn know(&self) {
        self.algorithm.know();
        self.key.know();
    }
}

impl Typed for UnlockConditions {
    fn know(&self) {
        self.timelock.know();
        self.keys.know();
        self.required.know();
    }
}

impl Typed for CoinInput {
    fn know(&self) {
        self.parent.know();
        self.conditions.know();
    }
}

impl Typed for CoinOutput {
    fn know(&self) {
        self.value.know();
        self.address.know();
    }
}

impl Typed for FileContract {
    fn know(&self) {
        self.size.know();
        self.root.know();
        self.start.know();
        self.end.know();
        self.payout.know();
        self.valid.know();
        self.missed.know();
        self.address.know();
        self.number.know();
    }
}

impl Typed for Revision {
    fn know(&self) {
        self.parent.know();
        self.conditions.know();
        self.number.know();
        self.size.know();
        self.root.know();
        self.start.know();
        self.end.know();
        self.valid.know();
        self.missed.know();
        self.address.know();
    }
}

impl Typed for StorageProof {
    fn know(&self) {
        self.parent.know();
        self.leaf.know();
        self.hashes.know();
    }
}

impl Typed for FundInput {
    fn know(&self) {
        self.parent.know();
        self.conditions.know();
        self.claim_address.know();
    }
}

impl Typed for FundOutput {
    fn know(&self) {
        self.value.know();
        self.address.know();
        self.claim_start.know();
    }
}

impl Typed for Covered {
    fn know(&self) {
        self.whole.know();
        self.coin_inputs.know();
        self.coin_outputs.know();
        self.contracts.know();
        self.revisions.know();
        self.proofs.know();
        self.fund_inputs.know();
        self.fund_outputs.know();
        self.fees.know();
        self.notes.know();
        self.signatures.know();
    }
}

impl Typed for Signature {
    fn know(&self) {
        self.parent.know();
        self.key_index.know();
        self.timelock.know();
        self.covered.know();
        self.signature.know();
    }
}

impl Typed for Transaction {
    fn know(&self) {
        self.coin_inputs.know();
        self.coin_outputs.know();
        self.contracts.know();
        self.revisions.know();
        self.proofs.know();
        self.fund_inputs.know();
        self.fund_outputs.know();
        self.fees.know();
        self.notes.know();
        self.signatures.know();
    }
}

impl Typed for Block {
    fn know(&self) {
        self.parent.know();
        self.nonce.know();
        self.timestamp.know();
        self.payouts.know();
        self.transactions.know();
    }
}
