//! Why a block was refused.
ghost use Rattle.std.specs.Prelude.{◌≡◌};
ghost use Rattle.sia_rules.specs.declared.fault.BlockFault.TheVariants as block_fault;

use sia_types::SigFault;
use std::alloc::AllocError;

/// Why a block was refused: the first of the rules, in this order, that it breaks (siad's doc/Consensus.md; the names and the
/// order are this project's own).
///
/// `t` is the index of a transaction in its block, and `i` that of an entry of one of the transaction's lists, both from 0.
/// B1 to B6 are tried first, then B7 to B23 for each transaction in order, and then B24; within one rule the least index
/// decides.
#[derive(Clone, Copy, Debug, PartialEq, Eq)]
pub enum BlockFault {
    /// B1: its parent isn't the tip's identifier.
    BadParent {
        /// The tip's identifier.
        tip: [u8; 32],
    },
    /// B2: its encoding has more than 2,000,000 bytes.
    TooLarge {
        /// How many bytes its encoding has.
        bytes: u64,
    },
    /// B3: its height would be 2^32.
    HeightEnd,
    /// B4: a sum has more than 128 bits: of the siacoin outputs, payouts and fees of a transaction, of its siafund outputs, of the
    /// valid or the missed outputs of one of its contracts or revisions; or of the miner payouts, or of all fees with the subsidy.
    SumTooLarge {
        /// The transaction, or the count of all transactions where it is a sum of the block.
        part: u64,
    },
    /// B5: a siacoin output, a payout, a siafund output, a fee or a miner payout is 0, or the claim start of a siafund output isn't.
    BadValue {
        /// The transaction, or the count of all transactions where it is a miner payout.
        part: u64,
    },
    /// B6: its miner payouts don't sum to the subsidy and all fees.
    PayoutSum {
        /// The subsidy of its height and all fees, in hastings.
        need: u128,
        /// The sum of the miner payouts, in hastings.
        got: u128,
    },
    /// B7: a storage proof stands beside an output, a contract or a revision.
    ProofMix {
        /// The transaction.
        t: u64,
    },
    /// B8: two siacoin inputs, two siafund inputs, two revisions or two storage proofs name one parent.
    Repeated {
        /// The transaction.
        t: u64,
    },
    /// B9: a siacoin input names no live siacoin output.
    NoCoin {
        /// The transaction.
        t: u64,
        /// The siacoin input.
        i: u64,
    },
    /// B10: a siacoin input names an output that can't be spent yet.
    Immature {
        /// The transaction.
        t: u64,
        /// The siacoin input.
        i: u64,
        /// The height from which the output can be spent.
        at: u64,
    },
    /// B11: a revision or a storage proof names no running contract.
    NoContract {
        /// The transaction.
        t: u64,
        /// The revision, or the storage proof.
        i: u64,
    },
    /// B12: a siafund input names no live siafund output.
    NoFund {
        /// The transaction.
        t: u64,
        /// The siafund input.
        i: u64,
    },
    /// B13: the conditions of an input or a revision don't hash to the address, or the contract's present unlock hash.
    Conditions {
        /// The transaction.
        t: u64,
        /// The index among its siacoin inputs, then its revisions, then its siafund inputs.
        i: u64,
    },
    /// B14: the conditions of an input or a revision have a timelock above the height.
    Locked {
        /// The transaction.
        t: u64,
        /// The index among its siacoin inputs, then its revisions, then its siafund inputs.
        i: u64,
    },
    /// B15: the window of a new contract doesn't begin above the height, or doesn't end above its start.
    FormWindow {
        /// The transaction.
        t: u64,
        /// The contract.
        i: u64,
    },
    /// B16: the valid or the missed outputs of a new contract don't sum to its payout less its tax.
    FormSum {
        /// The transaction.
        t: u64,
        /// The contract.
        i: u64,
    },
    /// B17: the number of a revision isn't above the present one.
    RevNumber {
        /// The transaction.
        t: u64,
        /// The revision.
        i: u64,
        /// The present number.
        have: u64,
    },
    /// B18: the contract's window has begun, or the window of its revision doesn't begin above the height, or doesn't end above
    /// its start.
    RevWindow {
        /// The transaction.
        t: u64,
        /// The revision.
        i: u64,
    },
    /// B19: the valid or the missed outputs of a revision don't sum to the payout of the formation less its tax.
    RevSum {
        /// The transaction.
        t: u64,
        /// The revision.
        i: u64,
    },
    /// B20: the contract's window hasn't begun.
    ProofWindow {
        /// The transaction.
        t: u64,
        /// The storage proof.
        i: u64,
        /// The first height of the window.
        start: u64,
    },
    /// B21: the contract stores something, and a storage proof of it isn't correct.
    BadProof {
        /// The transaction.
        t: u64,
        /// The storage proof.
        i: u64,
    },
    /// B22: the siacoin inputs don't equal the siacoin outputs, payouts and fees, or the siafund inputs the siafund outputs.
    Balance {
        /// The transaction.
        t: u64,
        /// Whether it is siafunds.
        funds: bool,
        /// The sum of the inputs.
        input: u128,
        /// The sum of what leaves them.
        output: u128,
    },
    /// B23: its signatures have a fault.
    Signature {
        /// The transaction.
        t: u64,
        /// The first fault of its signatures.
        fault: SigFault,
    },
    /// B24: it makes an identifier that it or the chain has made before. Two different byte strings then have one
    /// digest.
    SameId {
        /// The first such identifier.
        id: [u8; 32],
    },
    /// Memory ran out.
    Memory,
}

impl From<AllocError> for BlockFault {
    ghost from_gives = { λ _ fault. fault ≡ block_fault.Memory };

    fn from(_error: AllocError) -> BlockFault {
        BlockFault::Memory
    }
}
