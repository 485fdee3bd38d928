//! What no clause says: that an opening can succeed, and what it answers of journals that were written down by hand.
use sia_book::{Book, OpenFault};
use sia_config::read_config;
use sia_edge::{Disks, MemDisk};
use sia_sign::Seal;
use sia_types::{Blob, List};
use std::alloc::Global;
use std::test::Fail;

/// A configuration with sectors of 64 bytes, and the siafunds at the zero address.
const CONFIG: &[u8] = b"[chain]
sector_exp = 0
[[chain.siafund]]
to = \"0000000000000000000000000000000000000000000000000000000000000000\"
value = 10000
";

/// A disk with these bytes, of which the calls with these numbers fail.
fn disk(alloc: Global, bytes: &[u8], fails: &[u64]) -> Result<MemDisk, Fail> {
    let fails = List::from_vec(fails.to_vec(alloc)?);
    Ok(MemDisk::new(Blob::from_slice(alloc, bytes)?, fails))
}

/// How many records a host's disks open with, where its journal's file has these bytes.
fn opened(alloc: Global, journal: &[u8], fails: &[u64]) -> Result<Result<u64, OpenFault>, Fail> {
    let config = match read_config(alloc, CONFIG) {
        Ok(config) => config,
        Err(_) => return Ok(Err(OpenFault::Memory)),
    };
    let disks = Disks {
        journal: disk(alloc, journal, fails)?,
        shelf: disk(alloc, b"", &[])?,
        renter: disk(alloc, b"", &[])?,
    };
    match Book::open(alloc, config.host, [2; 32], [0; 32], disks, &Seal) {
        Ok(book) => Ok(Ok(book.records())),
        Err((fault, _)) => Ok(Err(fault)),
    }
}

/// The place in the journal where it is damaged.
fn damaged(at: u64) -> Result<u64, OpenFault> {
    Err(OpenFault::Damaged { at, shelf: false })
}

/// A journal's file, the calls of its disk that fail, and what comes of it.
type Case<'a> = (&'a [u8], &'a [u64], Result<u64, OpenFault>);

#[test]
fn journals_open_as_their_form_says(rt: HostRuntime) -> Result<(), Fail> {
    let cases: [Case; 8] = [
        (b"", &[], Ok(0)),
        (b"any 17 bytes, so.", &[], Ok(0)),
        (b"sia journal v1\0\0\0", &[], Ok(0)),
        (b"sia journal v0\0\0\0\0", &[], damaged(0)),
        (
            b"sia journal v1\0\0\x01\x05\0\0\0\0\0\0\0ab",
            &[],
            damaged(16),
        ),
        (
            b"sia journal v1\0\0\x01\x01\0\0\0\0\0\0\0\x09\0",
            &[],
            damaged(16),
        ),
        (
            b"sia journal v1\0\0\x01\x01\0\0\0\0\0\0\0\x02\0",
            &[],
            damaged(16),
        ),
        (b"", &[0], Err(OpenFault::Disk)),
    ];
    for (journal, fails, wanted) in cases.iter() {
        assert_eq!(rt; opened(rt.alloc(), journal, fails)?, *wanted);
    }
    Ok(())
}
