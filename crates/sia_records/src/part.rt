//! The parts of sectors that a read asks for, and their proofs: made outside of any turn.
ghost use Rattle.std.specs.Prelude.{◌≡◌, IfOk, IsTrue, length};
ghost use Rattle.sia_records.specs.Fitting.{section_fits as fits_section};
ghost use Rattle.sia_records.specs.Making.{ArePartsMade};
ghost use Rattle.sia_records.specs.Reads.{part_of};

use crate::fitting::section_fits;
use sia_encoding::{Blob, List};
use sia_range::prove_range;
use sia_rhp::{Part, Section};
use std::alloc::{AllocError, Global};

/// The part of a sector that a section asks for, and its proof. Its error is want of memory.
fn part(alloc: Global, section: &Section, sector: &[u8]) -> Result<Part, AllocError>
    requires { IsTrue (fits_section (length sector.now) section.now) }
    ensures { IfOk result (λ part. part ≡ part_of section.now sector.now) }
{
    let end = section.offset + section.length;
    let hashes = prove_range(alloc, sector, section.offset / 64, end / 64)?;
    let bytes = Blob::from_slice(alloc, &sector[section.offset as usize..end as usize])?;
    Ok(Part { bytes, hashes })
}

/// The part of each section, where there is a sector for each in which its range is fit, and none besides. Its error is want of
/// memory.
pub(crate) fn make_parts(
    alloc: Global,
    sections: &[Section],
    fetched: &[Blob],
) -> Result<Option<List<Part>>, AllocError>
    ensures { IfOk result (λ made. ArePartsMade sections.now fetched.now made) }
{
    let mut parts = List::new(alloc);
    let mut rest = fetched;
    for section in sections {
        let Some((sector, others)) = rest.split_first() else {
            return Ok(None);
        };
        if !section_fits(sector.len() as u64, section) {
            return Ok(None);
        }
        parts.push(part(alloc, section, sector.as_slice())?)?;
        rest = others;
    }
    if !rest.is_empty() {
        return Ok(None);
    }
    Ok(Some(parts))
}
