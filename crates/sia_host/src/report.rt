//! What a host reports of its contracts.
ghost use Rattle.std.specs.Prelude.{◌≡◌, false, map, IfOk};
ghost use Rattle.std.specs.List.Sorted.{IsPermutation, IsSorted};
ghost use Rattle.sia_host.specs.Reporting.{AreRows, report_row as report_row_so, row_order};
ghost use Rattle.sia_host.specs.Spoiling.{is_spoiled};

use crate::host_core::Core;
use sia_blake::Hash;
use sia_kept::{KeptContract, root_uncounted};
use sia_ledger::Status;
use sia_types::List;
use std::alloc::{AllocError, Global};
use std::marker::Brand;
use std::sync::ledger::Blank;

/// What a host reports of a contract.
#[derive(Clone, Copy, Debug, PartialEq, Eq)]
pub struct ReportRow {
    /// Its identifier.
    pub contract: Hash,
    /// The number of its newest revision.
    pub number: u64,
    /// How many bytes that revision stores.
    pub size: u64,
    /// Under which root.
    pub root: Hash,
    /// The root over the roots of the sectors that the host has.
    pub hashed: Hash,
    /// How it stands on the chain.
    pub status: Status,
    /// Whether a storage proof is due.
    pub due: bool,
}

impl Core {
    /// A row for each contract, by ascending identifiers. The error is want of memory.
    pub fn rows(&self, alloc: Global) -> Result<List<ReportRow>, AllocError>
        requires { is_spoiled self.now.phase ≡ false }
        ensures { IfOk result (λ rows. AreRows self.now rows) }
    {
        let rows = in_order(self.unsorted_rows(alloc)?)?;
        Ok(List::from_vec(rows))
    }

    // A row for each contract.
    fn unsorted_rows(&self, alloc: Global) -> Result<Vec<ReportRow>, AllocError>
        ensures { IfOk result (λ rows. rows.items ≡ map (report_row_so self.now) self.now.state.contracts) }
    {
        let mut rows = Vec::new(alloc);
        for contract in self.contracts.as_slice() {
            let row = self.report_row(alloc, contract)?;
            rows.push(row)?;
        }
        Ok(rows)
    }

    // What is reported of a contract.
    fn report_row(&self, alloc: Global, contract: &KeptContract) -> Result<ReportRow, AllocError>
        ensures { IfOk result (λ row. row ≡ report_row_so self.now contract.now) }
    {
        let due = self.is_due(alloc, contract)?;
        Ok(ReportRow {
            contract: contract.id,
            number: contract.newest.number,
            size: contract.newest.size,
            root: contract.newest.root,
            hashed: root_uncounted::<Brand>(contract.sectors.tree(), Blank::new(1)),
            status: self.ledger.status(&contract.id),
            due,
        })
    }
}

// Rows by ascending identifiers of their contracts.
fn in_order(rows: Vec<ReportRow>) -> Result<Vec<ReportRow>, AllocError>
    ensures { IfOk result (λ ordered. IsPermutation rows.items ordered.items × IsSorted row_order ordered.items) }
{
    let mut ordered = rows;
    ordered.sort_by_key(contract_of)?;
    Ok(ordered)
}

// The contract of a row.
fn contract_of(row: &ReportRow) -> Hash
    ensures { result ≡ row.now.contract }
{
    row.contract
}
