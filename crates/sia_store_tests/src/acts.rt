//! What no clause says: that the act can be done and which bytes it leaves, and what it leaves around a call of a disk that fails.
ghost use Rattle.std.specs.Prelude.{◌≡◌, ◌∷◌, [], IfOk};
ghost use Rattle.sia_edge.specs.MemDisk.{standing_of};
ghost use Rattle.sia_journal.specs.Journal.{IsReady};

use sia_commands::PutJob;
use sia_edge::MemDisk;
use sia_encoding::{Blob, List};
use sia_journal::{FIRST_PLACE, Journal, RecordBuf};
use sia_shelf::{Mark, Shelf};
use sia_store::{StoreFault, keep};
use std::test::Fail;

const HEADER: [u8; 16] = *b"sia journal v1\0\0";

const FIRST: [u8; 64] = [7; 64];

const SECOND: [u8; 64] = [8; 64];

const PAYLOAD: [u8; 8] = *b"a record";

/// Both sectors, side by side.
const BOTH: [u8; 128] =
    *b"\x07\x07\x07\x07\x07\x07\x07\x07\x07\x07\x07\x07\x07\x07\x07\x07\x07\x07\x07\x07\x07\x07\x07\x07\x07\x07\x07\x07\x07\x07\x07\x07\x07\x07\x07\x07\x07\x07\x07\x07\x07\x07\x07\x07\x07\x07\x07\x07\x07\x07\x07\x07\x07\x07\x07\x07\x07\x07\x07\x07\x07\x07\x07\x07\x08\x08\x08\x08\x08\x08\x08\x08\x08\x08\x08\x08\x08\x08\x08\x08\x08\x08\x08\x08\x08\x08\x08\x08\x08\x08\x08\x08\x08\x08\x08\x08\x08\x08\x08\x08\x08\x08\x08\x08\x08\x08\x08\x08\x08\x08\x08\x08\x08\x08\x08\x08\x08\x08\x08\x08\x08\x08\x08\x08\x08\x08\x08\x08";

/// A disk with these bytes, of which the calls with these numbers fail.
fn disk(rt: &HostRuntime, bytes: &[u8], fails: &[u64]) -> Result<MemDisk, Fail>
    ensures { IfOk result (λ disk. (disk.start ≡ disk.bytes) × (disk.events ≡ [])) }
{
    let bytes = Blob::from_slice(rt.alloc(), bytes)?;
    let fails = List::from_vec(fails.to_vec(rt.alloc())?);
    Ok(MemDisk::new(bytes, fails))
}

/// The journal of a disk. On an empty disk it makes five calls.
fn journal(rt: &HostRuntime, bytes: &[u8], fails: &[u64]) -> Result<Journal<MemDisk>, Fail>
    ensures ready { IfOk result (λ journal. IsReady standing_of journal) }
    ensures limit { IfOk result (λ journal. journal.limit ≡ 4096) }
{
    match Journal::open(rt.alloc(), disk(rt, bytes, fails)?, &HEADER, 4096) {
        Ok(journal) => Ok(journal),
        Err((fault, _)) => Err(fault.into()),
    }
}

/// A shelf of three slots over an empty disk.
fn shelf(rt: &HostRuntime, fails: &[u64]) -> Result<Shelf<MemDisk>, Fail>
    ensures { IfOk result (λ shelf. (shelf.sector ≡ 64) × (shelf.marks ≡ Mark.Free ∷ Mark.Free ∷ Mark.Free ∷ [])) }
{
    match Shelf::new(rt.alloc(), disk(rt, &[], fails)?, 64, 3) {
        Ok(shelf) => Ok(shelf),
        Err((fault, _)) => Err(fault.into()),
    }
}

/// What an act answered, and what a read of each disk gives after it.
#[derive(Drop)]
struct Left {
    done: Result<(), StoreFault>,
    journal: MemDisk,
    shelf: MemDisk,
}

/// Two sectors are kept with one record on fresh disks, whose journal has room for it.
fn kept(rt: &HostRuntime, journal_fails: &[u64], shelf_fails: &[u64]) -> Result<Left, Fail> {
    let mut journal = journal(rt, &[], journal_fails)?;
    let mut shelf = shelf(rt, shelf_fails)?;
    let puts = [
        PutJob {
            slot: 0,
            bytes: Blob::from_slice(rt.alloc(), &FIRST)?,
        },
        PutJob {
            slot: 1,
            bytes: Blob::from_slice(rt.alloc(), &SECOND)?,
        },
    ];
    let framed = RecordBuf::new(rt.alloc(), &PAYLOAD)?;
    let done = if journal.length() <= 4000 {
        keep(&mut journal, &mut shelf, &puts, &framed)
    } else {
        Err(StoreFault::Journal)
    };
    Ok(Left {
        done,
        journal: journal.close(),
        shelf: shelf.close(),
    })
}

/// Whether a file lists the record.
fn is_listed(rt: &HostRuntime, file: &[u8]) -> Result<bool, Fail> {
    let mut journal = journal(rt, file, &[])?;
    let mut place = FIRST_PLACE;
    let mut out = Blob::new(rt.alloc());
    if !journal.read_next(rt.alloc(), &mut place, &mut out)? {
        return Ok(false);
    }
    Ok(out.as_slice() == PAYLOAD.as_slice())
}

/// The calls of an act: three of the shelf's disk, and then four of the journal's, behind the five of its opening.
#[test]
fn a_failed_call_leaves_the_old_list_or_the_new_with_its_sectors(
    rt: HostRuntime,
) -> Result<(), Fail> {
    let shelf_failed = Err(StoreFault::Shelf);
    let journal_failed = Err(StoreFault::Journal);
    let cases: [(&[u64], &[u64], Result<(), StoreFault>, &[u8], bool); 8] = [
        (&[], &[0], shelf_failed, &[], false),
        (&[], &[1], shelf_failed, &FIRST, false),
        (&[], &[2], shelf_failed, &BOTH, false),
        (&[5], &[], journal_failed, &BOTH, false),
        (&[6], &[], journal_failed, &BOTH, false),
        (&[7], &[], journal_failed, &BOTH, false),
        (&[8], &[], journal_failed, &BOTH, true),
        (&[], &[], Ok(()), &BOTH, true),
    ];
    for (journal_fails, shelf_fails, done, sectors, listed) in cases {
        let left = kept(&rt, journal_fails, shelf_fails)?;
        assert_eq!(rt; left.done, done);
        assert_eq!(rt; left.shelf.bytes(), sectors);
        assert_eq!(rt; is_listed(&rt, left.journal.bytes())?, listed);
    }
    Ok(())
}
