//! Reads that are prepared: what takes time is done before the read comes to a host's turn (RHP2's read).
ghost use Rattle.std.specs.Prelude.{◌≡◌, ℕ, IfOk, IsTrue};
ghost use Rattle.sia_records.specs.Reads.{is_served, parts_of};

use crate::fetched::Fetched;
use crate::fitting::sections_fit;
use crate::part::make_parts;
use sia_encoding::{Blob, List};
use sia_rhp::{Part, ReadRequest};
use std::alloc::{AllocError, Global};
use std::marker::Model;

/// A read, with the sector of each of its sections. Contracts see it as the request and these sectors.
///
/// It keeps the parts that are asked for and their proofs. Where a section has no sector, or its range isn't fit in the sector, it
/// keeps the request alone.
#[derive(Drop)]
pub struct PaidRead {
    request: ReadRequest,
    fetched: Fetched,
    parts: Option<List<Part>>,
}

impl Model for PaidRead {
    ghost use Rattle.sia_records.specs.Fetched.{fetched_sectors};
    ghost use Rattle.sia_records.specs.Making.{ArePartsMade};
    ghost use Rattle.sia_records.specs.Reads.{Read};

    ghost Value = { Read };

    ghost view = { λ r. record { request = r.request; fetched = fetched_sectors r.fetched } };

    ghost invariant = { λ r. ArePartsMade r.request.sections (fetched_sectors r.fetched) r.parts };
}

/// Prepares a read with the sectors of its sections, as they were fetched: one for each, in order, or none where the sections aren't
/// fit. All hashing is done here. Its error is want of memory.
pub fn prepare_read(
    alloc: Global,
    request: ReadRequest,
    fetched: List<Blob>,
) -> Result<PaidRead, AllocError>
    ensures { IfOk result (λ read. read ≡ record { request = request; fetched = fetched }) }
{
    let seen = Fetched::new(&fetched);
    let parts = make_parts(alloc, request.sections.as_slice(), fetched.as_slice())?;
    Ok(PaidRead {
        request,
        fetched: seen,
        parts,
    })
}

impl PaidRead {
    /// What was asked.
    pub fn request(&self) -> &ReadRequest
        ensures { result.now ≡ self.now.request }
    {
        &self.request
    }

    /// Whether it is fit by its numbers, in sectors of so many bytes: 1 to 16 sections, each a range that is fit, together no more bytes
    /// than four sectors have, and a sector for each in which its range is fit. What the contract holds is not looked at.
    pub fn fits(&self, sector: u64) -> bool
        ensures { result ≡ is_served sector self.now }
    {
        self.parts.is_some() && sections_fit(sector, self.request.sections.as_slice())
    }

    /// The parts that are asked for, in order. It takes no memory.
    pub fn into_parts(self) -> List<Part>
        requires { (sector : ℕ) × IsTrue (is_served sector self) }
        ensures { result ≡ parts_of self }
    {
        let PaidRead {
            request: _,
            fetched: _,
            parts,
        } = self;
        match parts {
            None => unreachable!(),
            Some(parts) => parts,
        }
    }
}
