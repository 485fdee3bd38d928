//! One update of part of a sector, and its proof (RHP2's update action).
ghost use Rattle.std.specs.Prelude.{◌≡◌, ◌+◌, ◌≤◌, [], ◌∷◌, IfOk, IsTrue, length};
ghost use Rattle.sia_records.specs.Fitting.{range_fits};
ghost use Rattle.sia_records.specs.Writes.{updated, proof_of_update};

use sia_encoding::Blob;
use sia_range::prove_update;
use sia_types::UpdateProof;
use std::alloc::{AllocError, Global};

/// A sector after an update, and the proof of the update.
#[derive(Drop)]
pub(crate) struct Updated {
    pub sector: Blob,
    pub proof: UpdateProof,
}

/// Writes bytes into a sector, from an offset on.
fn write_at(sector: &mut [u8], offset: usize, bytes: &[u8])
    requires { offset + length bytes.now ≤ length sector.old }
    ensures { sector.new ≡ updated offset bytes.now sector.old }
{
    let (_, rest) = sector.split_at_mut(offset);
    let (part, _) = rest.split_at_mut(bytes.len());
    part.copy_from_slice(bytes);
}

/// A sector with other bytes from an offset on. It takes no memory.
fn overwritten(old: Blob, offset: usize, bytes: &[u8]) -> Blob
    requires { offset + length bytes.now ≤ length old }
    ensures { result ≡ updated offset bytes.now old }
{
    let mut sector = old.into_vec();
    write_at(sector.as_mut_slice(), offset, bytes);
    Blob::from_vec(sector)
}

/// Updates a range that is fit. Its error is want of memory.
pub(crate) fn update(
    alloc: Global,
    old: Blob,
    offset: u64,
    bytes: &[u8],
) -> Result<Updated, AllocError>
    requires { IsTrue (range_fits (length old) offset (length bytes.now)) }
    ensures sector { IfOk result (λ done. done.sector ≡ updated offset bytes.now old) }
    ensures proof { IfOk result (λ done. done.proof ≡ proof_of_update offset bytes.now old) }
{
    let end = offset + bytes.len() as u64;
    let proof = prove_update(alloc, old.as_slice(), offset / 64, end / 64)?;
    Ok(Updated {
        sector: overwritten(old, offset as usize, bytes),
        proof,
    })
}
