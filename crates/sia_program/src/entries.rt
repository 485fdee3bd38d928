//! The lines of the entries of a transaction's fields.
ghost use Rattle.std.specs.Prelude.{◌≡◌, ◌++◌, ℕ, List as Sequence, OnOk, decimal, string_bytes};
ghost use Rattle.sia_program.specs.Fields.{lines_from, made_line, pair_line, payment_line, payment_lines};
ghost use Rattle.sia_program.specs.Fields.{contract_line, revision_line};

use crate::lines::{hash_text, put_number};
use sia_blake::Hash;
use sia_encoding::Blob;
use sia_ids::{coin_id, contract_id, fund_id, unlock_hash};
use sia_types::{
    CoinInput, CoinOutput, FileContract, FundInput, FundOutput, Revision, Signature, StorageProof,
    Transaction,
};
use std::alloc::{AllocError, Global};

/// An entry of a transaction's field, which has lines of its own.
pub(crate) trait Entry {
    ghost use Rattle.sia_types.specs.declared.transaction.Transaction.{Transaction};

    /// Its lines, by its transaction and its index in the field.
    ghost lines: { Transaction → ℕ → Self → Sequence ℕ };

    /// Appends its lines. The error is want of memory.
    fn put(
        &self,
        alloc: Global,
        tx: &Transaction,
        index: u64,
        out: &mut String,
    ) -> Result<(), AllocError>
        ensures { OnOk result (string_bytes out.new ≡ string_bytes out.old ++ lines tx.now index self.now) };
}

/// Appends the lines of all entries of a field, in order. The error is want of memory.
pub(crate) fn put_entries<T: Entry>(
    alloc: Global,
    tx: &Transaction,
    entries: &[T],
    out: &mut String,
) -> Result<(), AllocError>
    ensures { OnOk result (string_bytes out.new ≡ string_bytes out.old ++ lines_from (T.lines tx.now) 0 entries.now) }
{
    for (index, entry) in entries.iter().enumerate() {
        entry.put(alloc, tx, index as u64, out)?;
    }
    Ok(())
}

/// Appends the line of two hashes behind a name.
#[tactic(auto, unfolding(crate::specs::Fields::pair_line))]
fn put_pair(
    alloc: Global,
    out: &mut String,
    name: &str,
    first: &Hash,
    second: &Hash,
) -> Result<(), AllocError>
    ensures { OnOk result (string_bytes out.new ≡ string_bytes out.old ++ pair_line name.now first.now second.now) }
{
    let first = hash_text(alloc, first)?;
    let second = hash_text(alloc, second)?;
    write!(out, "{name} {first} {second}\n")
}

/// Appends the line of what is made: its identifier, its value and its address.
#[tactic(auto, unfolding(crate::specs::Fields::made_line))]
pub(crate) fn put_made(
    alloc: Global,
    out: &mut String,
    name: &str,
    id: &Hash,
    value: u128,
    address: &Hash,
) -> Result<(), AllocError>
    ensures { OnOk result (string_bytes out.new ≡ string_bytes out.old ++ made_line name.now id.now value address.now) }
{
    let id = hash_text(alloc, id)?;
    let address = hash_text(alloc, address)?;
    write!(out, "{name} {id} {value} {address}\n")
}

/// Appends the line of a payment of a contract.
#[tactic(auto, unfolding(crate::specs::Fields::payment_line))]
fn put_payment(
    alloc: Global,
    out: &mut String,
    name: &str,
    output: &CoinOutput,
) -> Result<(), AllocError>
    ensures { OnOk result (string_bytes out.new ≡ string_bytes out.old ++ payment_line name.now output.now) }
{
    let address = hash_text(alloc, &output.address)?;
    write!(out, "{name} {} {address}\n", output.value)
}

/// Appends the lines of a contract's payments in one case.
fn put_payments_of(
    alloc: Global,
    out: &mut String,
    name: &str,
    outputs: &[CoinOutput],
) -> Result<(), AllocError>
    ensures { OnOk result (string_bytes out.new ≡ string_bytes out.old ++ lines_from (λ index. payment_line name.now) 0 outputs.now) }
{
    for output in outputs {
        put_payment(alloc, out, name, output)?;
    }
    Ok(())
}

/// Appends the lines of a contract's payments: those in the valid case, and then those in the missed one.
#[tactic(auto, unfolding(crate::specs::Fields::payment_lines))]
fn put_payments(
    alloc: Global,
    out: &mut String,
    valid: &[CoinOutput],
    missed: &[CoinOutput],
) -> Result<(), AllocError>
    ensures { OnOk result (string_bytes out.new ≡ string_bytes out.old ++ payment_lines valid.now missed.now) }
{
    put_payments_of(alloc, out, "valid", valid)?;
    put_payments_of(alloc, out, "missed", missed)
}

/// Appends a contract's own line.
#[tactic(auto, unfolding(crate::specs::Fields::contract_line))]
fn put_contract(
    alloc: Global,
    out: &mut String,
    id: &Hash,
    contract: &FileContract,
) -> Result<(), AllocError>
    ensures { OnOk result (string_bytes out.new ≡ string_bytes out.old ++ contract_line id.now contract.now) }
{
    let id = hash_text(alloc, id)?;
    let root = hash_text(alloc, &contract.root)?;
    write!(out, "contract {id} {} {root}", contract.size)?;
    write!(
        out,
        " {} {} {} {}\n",
        contract.start, contract.end, contract.payout, contract.number
    )
}

/// Appends a revision's own line.
#[tactic(auto, unfolding(crate::specs::Fields::revision_line))]
fn put_revision(alloc: Global, out: &mut String, revision: &Revision) -> Result<(), AllocError>
    ensures { OnOk result (string_bytes out.new ≡ string_bytes out.old ++ revision_line revision.now) }
{
    let parent = hash_text(alloc, &revision.parent)?;
    let root = hash_text(alloc, &revision.root)?;
    write!(
        out,
        "revision {parent} {} {}",
        revision.number, revision.size
    )?;
    write!(out, " {root} {} {}\n", revision.start, revision.end)
}

impl Entry for CoinInput {
    ghost use Rattle.sia_program.specs.Fields.{input_line};

    ghost lines = { λ tx index. input_line };

    fn put(
        &self,
        alloc: Global,
        _tx: &Transaction,
        _index: u64,
        out: &mut String,
    ) -> Result<(), AllocError> {
        let address = unlock_hash(alloc, &self.conditions)?;
        put_pair(alloc, out, "input", &self.parent, &address)
    }
}

impl Entry for CoinOutput {
    ghost use Rattle.sia_program.specs.Fields.{output_line};

    ghost lines = { output_line };

    fn put(
        &self,
        alloc: Global,
        tx: &Transaction,
        index: u64,
        out: &mut String,
    ) -> Result<(), AllocError> {
        let id = coin_id(alloc, tx, index)?;
        put_made(alloc, out, "output", &id, self.value, &self.address)
    }
}

impl Entry for FileContract {
    ghost use Rattle.sia_program.specs.Fields.{contract_lines};

    ghost lines = { contract_lines };

    #[tactic(auto, unfolding(crate::specs::Fields::contract_lines))]
    fn put(
        &self,
        alloc: Global,
        tx: &Transaction,
        index: u64,
        out: &mut String,
    ) -> Result<(), AllocError> {
        let id = contract_id(alloc, tx, index)?;
        put_contract(alloc, out, &id, self)?;
        put_payments(alloc, out, self.valid.as_slice(), self.missed.as_slice())
    }
}

impl Entry for Revision {
    ghost use Rattle.sia_program.specs.Fields.{revision_lines};

    ghost lines = { λ tx index. revision_lines };

    #[tactic(auto, unfolding(crate::specs::Fields::revision_lines))]
    fn put(
        &self,
        alloc: Global,
        _tx: &Transaction,
        _index: u64,
        out: &mut String,
    ) -> Result<(), AllocError> {
        put_revision(alloc, out, self)?;
        put_payments(alloc, out, self.valid.as_slice(), self.missed.as_slice())
    }
}

impl Entry for StorageProof {
    ghost use Rattle.sia_program.specs.Fields.{proof_line};

    ghost lines = { λ tx index. proof_line };

    #[tactic(auto, unfolding(crate::specs::Fields::proof_line))]
    fn put(
        &self,
        alloc: Global,
        _tx: &Transaction,
        _index: u64,
        out: &mut String,
    ) -> Result<(), AllocError> {
        let parent = hash_text(alloc, &self.parent)?;
        write!(out, "proof {parent} {}\n", self.hashes.len())
    }
}

impl Entry for FundInput {
    ghost use Rattle.sia_program.specs.Fields.{fund_input_line};

    ghost lines = { λ tx index. fund_input_line };

    fn put(
        &self,
        alloc: Global,
        _tx: &Transaction,
        _index: u64,
        out: &mut String,
    ) -> Result<(), AllocError> {
        put_pair(alloc, out, "fundinput", &self.parent, &self.claim_address)
    }
}

impl Entry for FundOutput {
    ghost use Rattle.sia_program.specs.Fields.{fund_output_line};

    ghost lines = { fund_output_line };

    fn put(
        &self,
        alloc: Global,
        tx: &Transaction,
        index: u64,
        out: &mut String,
    ) -> Result<(), AllocError> {
        let id = fund_id(alloc, tx, index)?;
        put_made(alloc, out, "fundoutput", &id, self.value, &self.address)
    }
}

/// A fee, in hastings.
impl Entry for u128 {
    ghost use Rattle.sia_program.specs.Fields.{fee_line};

    ghost lines = { λ tx index. fee_line };

    fn put(
        &self,
        _alloc: Global,
        _tx: &Transaction,
        _index: u64,
        out: &mut String,
    ) -> Result<(), AllocError> {
        put_number(out, "fee", *self)
    }
}

/// A note.
impl Entry for Blob {
    ghost use Rattle.sia_program.specs.Fields.{note_line};

    ghost lines = { λ tx index. note_line };

    fn put(
        &self,
        _alloc: Global,
        _tx: &Transaction,
        _index: u64,
        out: &mut String,
    ) -> Result<(), AllocError> {
        put_number(out, "note", self.len() as u128)
    }
}

impl Entry for Signature {
    ghost use Rattle.sia_program.specs.Fields.{signature_line};

    ghost lines = { λ tx index. signature_line };

    #[tactic(auto, unfolding(crate::specs::Fields::signature_line))]
    fn put(
        &self,
        alloc: Global,
        _tx: &Transaction,
        _index: u64,
        out: &mut String,
    ) -> Result<(), AllocError> {
        let parent = hash_text(alloc, &self.parent)?;
        let whole = self.covered.whole as u8;
        write!(
            out,
            "signature {parent} {} {} {whole}\n",
            self.key_index, self.timelock
        )
    }
}
