//! The texts of the rules that a block breaks.
ghost use Rattle.std.specs.Prelude.{◌≡◌, IfOk, string_bytes};
ghost use Rattle.sia_program.specs.Faults.{block_fault_text, with_hash as with_hash_of, with_one as with_one_of};
ghost use Rattle.sia_program.specs.Faults.{signature_fault_text as signature_text_of, with_three as with_three_of, with_two as with_two_of};

use crate::lines::hash_text;
use sia_blake::Hash;
use sia_rules::BlockFault;
use sia_types::SigFault;
use std::alloc::{AllocError, Global};

/// A name and a hash.
#[tactic(auto, unfolding(crate::specs::Faults::with_hash))]
fn with_hash(alloc: Global, name: &str, hash: &Hash) -> Result<String, AllocError>
    ensures { IfOk result (λ text. string_bytes text ≡ with_hash_of name.now hash.now) }
{
    let hash = hash_text(alloc, hash)?;
    format!(in alloc; "{name} {hash}")
}

/// A name and a number.
#[tactic(auto, unfolding(crate::specs::Faults::with_one))]
fn with_one(alloc: Global, name: &str, first: u64) -> Result<String, AllocError>
    ensures { IfOk result (λ text. string_bytes text ≡ with_one_of name.now first) }
{
    format!(in alloc; "{name} {first}")
}

/// A name and two numbers.
#[tactic(auto, unfolding(crate::specs::Faults::with_two))]
fn with_two(alloc: Global, name: &str, first: u128, second: u128) -> Result<String, AllocError>
    ensures { IfOk result (λ text. string_bytes text ≡ with_two_of name.now first second) }
{
    format!(in alloc; "{name} {first} {second}")
}

/// A name, and the indices of a transaction and of an entry.
fn with_entry(alloc: Global, name: &str, t: u64, i: u64) -> Result<String, AllocError>
    ensures { IfOk result (λ text. string_bytes text ≡ with_two_of name.now t i) }
{
    with_two(alloc, name, u128::from(t), u128::from(i))
}

/// A name and three numbers.
#[tactic(auto, unfolding(crate::specs::Faults::with_three))]
fn with_three(
    alloc: Global,
    name: &str,
    first: u64,
    second: u64,
    third: u64,
) -> Result<String, AllocError>
    ensures { IfOk result (λ text. string_bytes text ≡ with_three_of name.now first second third) }
{
    format!(in alloc; "{name} {first} {second} {third}")
}

/// A fault of signatures: its name and its index.
#[tactic(auto, unfolding(crate::specs::Faults::signature_fault_text))]
fn signature_text(alloc: Global, fault: SigFault) -> Result<String, AllocError>
    ensures { IfOk result (λ text. string_bytes text ≡ signature_text_of fault) }
{
    match fault {
        SigFault::MissingSig { i } => with_one(alloc, "MissingSig", i),
        SigFault::BadSig { i } => with_one(alloc, "BadSig", i),
        SigFault::Frivolous { i } => with_one(alloc, "Frivolous", i),
        SigFault::Timelock { i } => with_one(alloc, "Timelock", i),
        SigFault::Memory => Ok(String::new(alloc)),
    }
}

/// A rule that a block breaks: its number, its name, and its fields in order. Want of memory has no text.
#[tactic(auto, unfolding(crate::specs::Faults::block_fault_text))]
pub(crate) fn rule_text(alloc: Global, fault: &BlockFault) -> Result<String, AllocError>
    ensures { IfOk result (λ text. string_bytes text ≡ block_fault_text fault.now) }
{
    match *fault {
        BlockFault::BadParent { tip } => with_hash(alloc, "B1 BadParent", &tip),
        BlockFault::TooLarge { bytes } => with_one(alloc, "B2 TooLarge", bytes),
        BlockFault::HeightEnd => String::from_str(alloc, "B3 HeightEnd"),
        BlockFault::SumTooLarge { part } => with_one(alloc, "B4 SumTooLarge", part),
        BlockFault::BadValue { part } => with_one(alloc, "B5 BadValue", part),
        BlockFault::PayoutSum { need, got } => with_two(alloc, "B6 PayoutSum", need, got),
        BlockFault::ProofMix { t } => with_one(alloc, "B7 ProofMix", t),
        BlockFault::Repeated { t } => with_one(alloc, "B8 Repeated", t),
        BlockFault::NoCoin { t, i } => with_entry(alloc, "B9 NoCoin", t, i),
        BlockFault::Immature { t, i, at } => with_three(alloc, "B10 Immature", t, i, at),
        BlockFault::NoContract { t, i } => with_entry(alloc, "B11 NoContract", t, i),
        BlockFault::NoFund { t, i } => with_entry(alloc, "B12 NoFund", t, i),
        BlockFault::Conditions { t, i } => with_entry(alloc, "B13 Conditions", t, i),
        BlockFault::Locked { t, i } => with_entry(alloc, "B14 Locked", t, i),
        BlockFault::FormWindow { t, i } => with_entry(alloc, "B15 FormWindow", t, i),
        BlockFault::FormSum { t, i } => with_entry(alloc, "B16 FormSum", t, i),
        BlockFault::RevNumber { t, i, have } => with_three(alloc, "B17 RevNumber", t, i, have),
        BlockFault::RevWindow { t, i } => with_entry(alloc, "B18 RevWindow", t, i),
        BlockFault::RevSum { t, i } => with_entry(alloc, "B19 RevSum", t, i),
        BlockFault::ProofWindow { t, i, start } => with_three(
            alloc,
            "B20 ProofWindow",
            t,
            i,
            start,
        ),
        BlockFault::BadProof { t, i } => with_entry(alloc, "B21 BadProof", t, i),
        BlockFault::Balance {
            t,
            funds,
            input,
            output,
        } => balance_text(alloc, t, funds, input, output),
        BlockFault::Signature { t, fault } => {
            let fault = signature_text(alloc, fault)?;
            format!(in alloc; "B23 Signature {t} {fault}")
        }
        BlockFault::SameId { id } => with_hash(alloc, "B24 SameId", &id),
        BlockFault::Memory => Ok(String::new(alloc)),
    }
}

/// The rule of a transaction whose inputs don't equal what leaves them.
#[tactic(auto, unfolding(crate::specs::Faults::block_fault_text))]
fn balance_text(
    alloc: Global,
    t: u64,
    funds: bool,
    input: u128,
    output: u128,
) -> Result<String, AllocError>
    ensures { IfOk result (λ text. string_bytes text ≡ block_fault_text (BlockFault.Balance t funds input output)) }
{
    let funds = funds as u8;
    format!(in alloc; "B22 Balance {t} {funds} {input} {output}")
}
