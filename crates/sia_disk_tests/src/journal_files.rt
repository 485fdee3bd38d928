//! What no clause says: which bytes stand in the file, that each call can succeed, and what a journal lists around a call of
//! its disk that fails. The files were written down by hand from their form.
ghost use Rattle.std.specs.Prelude.{◌≡◌, ◌^◌, ◌≤◌, IfOk};
ghost use Rattle.sia_journal.specs.Journal.{IsReady};

use sia_edge::{Disk, FileDisk, MemDisk};
use sia_encoding::{Blob, List};
use sia_journal::{FIRST_PLACE, Journal, JournalFault, RecordBuf};
use std::alloc::Global;
use std::test::Fail;
use std::{fs, process};

const HEADER: [u8; 16] = *b"sia journal v1\0\0";

/// The payloads `a` and `bc`, each behind its open gate and its length.
const A: &[u8] = b"\x01\x01\0\0\0\0\0\0\0a";

const BC: &[u8] = b"\x01\x02\0\0\0\0\0\0\0bc";

/// A disk with these bytes, of which the calls with these numbers fail.
fn disk(alloc: Global, bytes: &[u8], fails: &[u64]) -> Result<MemDisk, Fail> {
    let fails = List::from_vec(fails.to_vec(alloc)?);
    Ok(MemDisk::new(Blob::from_slice(alloc, bytes)?, fails))
}

/// Each payload from the first one on, with a comma behind it.
fn read_all<D: Disk>(alloc: Global, journal: &mut Journal<D>) -> Result<Blob, JournalFault>
    requires { IsReady D.standing journal.old }
{
    let mut text = Blob::new(alloc);
    let mut out = Blob::new(alloc);
    let mut place = FIRST_PLACE;
    for _ in 0..9 {
        if !journal.read_next(alloc, &mut place, &mut out)? {
            break;
        }
        text.append(&mut out)?;
        text.push(b',')?;
    }
    Ok(text)
}

/// What the journal of a disk lists, or why it doesn't open.
fn listed<D: Disk + Drop>(alloc: Global, disk: D, limit: u64) -> Result<Blob, JournalFault>
    requires low { 17 ≤ limit }
    requires high { limit ≤ 2 ^ 36 }
{
    match Journal::open(alloc, disk, &HEADER, limit) {
        Ok(mut journal) => read_all(alloc, &mut journal),
        Err((fault, _)) => Err(fault),
    }
}

/// Appends a payload.
fn append<D: Disk>(
    alloc: Global,
    journal: &mut Journal<D>,
    payload: &[u8],
) -> Result<(), JournalFault>
    requires { IsReady D.standing journal.old }
{
    journal.append(&RecordBuf::new(alloc, payload)?)
}

/// What a fresh journal answers to an append of the byte 2, and its file.
fn grown(alloc: Global, limit: u64) -> Result<(Result<(), JournalFault>, MemDisk), Fail>
    requires low { 17 ≤ limit }
    requires high { limit ≤ 2 ^ 36 }
{
    match Journal::open(alloc, disk(alloc, &[], &[])?, &HEADER, limit) {
        Ok(mut journal) => {
            let answer = append(alloc, &mut journal, &[2]);
            Ok((answer, journal.close()))
        }
        Err((fault, _)) => Err(fault.into()),
    }
}

#[test]
fn a_record_of_one_byte_makes_a_file_of_27(rt: HostRuntime) -> Result<(), Fail> {
    let full = Err(JournalFault::Full {
        need: 27,
        limit: 26,
    });
    let cases: [(u64, Result<(), JournalFault>, &[u8]); 2] = [
        (
            27,
            Ok(()),
            b"sia journal v1\0\0\x01\x01\0\0\0\0\0\0\0\x02\0",
        ),
        (26, full, b"sia journal v1\0\0\0"),
    ];
    for (limit, wanted, file) in cases {
        let (answer, disk) = grown(rt.alloc(), limit)?;
        assert_eq!(rt; answer, wanted);
        assert_eq!(rt; disk.bytes(), file);
    }
    Ok(())
}

#[test]
fn a_file_lists_its_records_or_is_damaged_at_a_place(rt: HostRuntime) -> Result<(), Fail> {
    let header = HEADER.as_slice();
    let damaged = |at: u64| Err(JournalFault::Damaged { at });
    let cases: [(&[&[u8]], u64, Result<&[u8], JournalFault>); 14] = [
        (&[], 17, Ok(b"")),
        (&[b"12345678901234567"], 17, Ok(b"")),
        (&[header, &[1]], 17, Ok(b"")),
        (&[header, A, BC, &[0]], 38, Ok(b"a,bc,")),
        (&[header, A, BC, &[0]], 37, damaged(37)),
        (&[header, A, &[7], BC], 99, Ok(b"a,")),
        (&[header, A, &[0, 1, 9]], 99, Ok(b"a,")),
        (&[b"sia renter v1\0\0\0", A, &[0]], 20, damaged(0)),
        (&[b"sia journal v1\0", b"\x01\0\0"], 99, damaged(0)),
        (&[header, &[1, 0]], 99, damaged(16)),
        (&[header, A], 99, damaged(26)),
        (
            &[header, A, &[1, 2, 0, 0, 0, 0, 0, 0, 0, 5]],
            99,
            damaged(26),
        ),
        (
            &[header, A, &[1, 1, 0, 0, 0, 0, 0, 0, 1, 5, 0]],
            99,
            damaged(26),
        ),
        (
            &[header, A, &[1, 255, 255, 255, 255, 255, 255, 255, 255, 0]],
            99,
            damaged(26),
        ),
    ];
    for (parts, limit, wanted) in cases {
        assert!(rt; limit >= 17);
        assert!(rt; limit <= 99);
        let file = parts.concat(rt.alloc())?;
        match listed(rt.alloc(), disk(rt.alloc(), file.as_slice(), &[])?, limit) {
            Ok(text) => assert_eq!(rt; Ok(text.as_slice()), wanted),
            Err(fault) => assert_eq!(rt; Err(fault), wanted),
        }
    }
    Ok(())
}

/// How far a run of calls came.
#[derive(Clone, Copy, Debug, PartialEq, Eq)]
enum Stage {
    Opening,
    Appending,
    Reading,
    Done,
}

/// Opens the journal of a disk, appends the payload `d`, and reads all, up to the first fault.
fn worked(alloc: Global, disk: MemDisk) -> Result<(Stage, MemDisk), Fail> {
    let framed = RecordBuf::new(alloc, b"d")?;
    match Journal::open(alloc, disk, &HEADER, 99) {
        Ok(mut journal) => {
            if journal.append(&framed).is_err() {
                return Ok((Stage::Appending, journal.close()));
            }
            let stage = match read_all(alloc, &mut journal) {
                Ok(_) => Stage::Done,
                Err(_) => Stage::Reading,
            };
            Ok((stage, journal.close()))
        }
        Err((_, disk)) => Ok((Stage::Opening, disk)),
    }
}

/// The opening syncs, reads, cuts and syncs; the append writes, syncs, writes and syncs; all records are read by one call.
#[test]
fn around_a_failed_call_the_list_is_the_old_one_or_the_new_one(
    rt: HostRuntime,
) -> Result<(), Fail> {
    let file = [HEADER.as_slice(), A, BC, A, BC, A, &[0]].concat(rt.alloc())?;
    for fails in 0..10u64 {
        let wanted = match fails {
            0..4 => Stage::Opening,
            4..8 => Stage::Appending,
            8 => Stage::Reading,
            _ => Stage::Done,
        };
        let old: &[u8] = b"a,bc,a,bc,a,";
        let text: &[u8] = if fails < 7 { old } else { b"a,bc,a,bc,a,d," };
        let (stage, left) = worked(rt.alloc(), disk(rt.alloc(), file.as_slice(), &[fails])?)?;
        assert_eq!(rt; stage, wanted, "call {fails}");
        let again = listed(rt.alloc(), disk(rt.alloc(), left.bytes(), &[])?, 99)?;
        assert_eq!(rt; again.as_slice(), text, "call {fails}");
    }
    Ok(())
}

/// The files that a crash may leave while `bc` is appended behind `a`: the file ends anywhere in what is written, of which any
/// part is there, behind a gate that is closed; and then, with all of it there, the gate is any byte.
#[test]
fn each_image_of_an_append_lists_the_old_records_or_the_new_ones(
    rt: HostRuntime,
) -> Result<(), Fail> {
    let alloc = rt.alloc();
    let written = [2, 0, 0, 0, 0, 0, 0, 0, b'b', b'c', 0];
    for (index, byte) in written.iter().enumerate() {
        let (front, behind) = written.split_at(index);
        for tail in [&[], behind, &[0], &[1, 1], &[255; 11]] {
            let file = [HEADER.as_slice(), A, &[0], front, tail].concat(alloc)?;
            let text = listed(alloc, disk(alloc, file.as_slice(), &[])?, 99)?;
            assert_eq!(rt; text.as_slice(), b"a,".as_slice(), "before {byte}");
        }
    }
    for gate in 0..=255u8 {
        let file = [HEADER.as_slice(), A, &[gate], written.as_slice()].concat(alloc)?;
        let text = listed(alloc, disk(alloc, file.as_slice(), &[])?, 99)?;
        let wanted: &[u8] = if gate == 1 { b"a,bc," } else { b"a," };
        assert_eq!(rt; text.as_slice(), wanted, "gate {gate}");
    }
    Ok(())
}

/// Makes the file of the payloads `a` and `bc`, each appended by an opening of its own.
fn make(rt: &HostRuntime, name: &[u8]) -> Result<(), Fail> {
    for payload in [b"a".as_slice(), b"bc"] {
        match Journal::open(rt.alloc(), FileDisk::open(rt, name), &HEADER, 99) {
            Ok(mut journal) => append(rt.alloc(), &mut journal, payload)?,
            Err((fault, _)) => return Err(fault.into()),
        }
    }
    Ok(())
}

#[test]
fn a_file_is_a_journal_and_one_that_was_cut_is_damaged(rt: HostRuntime) -> Result<(), Fail> {
    let name = format!(in rt.alloc(); "/tmp/sia_disk_tests_journal_{}", process::id(rt.process()))?;
    make(&rt, name.as_bytes())?;
    let whole = fs::read(&rt, name.as_str())?;
    let file = [HEADER.as_slice(), A, BC, &[0]].concat(rt.alloc())?;
    assert_eq!(rt; whole.as_slice(), file.as_slice());
    for length in 26..39usize {
        let (front, _) = file.as_slice().split_at(length.min(file.len()));
        fs::write(&rt, name.as_str(), front)?;
        let wanted: Result<&[u8], JournalFault> = match length {
            26..37 => Err(JournalFault::Damaged { at: 26 }),
            37 => Err(JournalFault::Damaged { at: 37 }),
            _ => Ok(b"a,bc,"),
        };
        match listed(rt.alloc(), FileDisk::open(&rt, name.as_bytes()), 99) {
            Ok(text) => assert_eq!(rt; Ok(text.as_slice()), wanted, "{length}"),
            Err(fault) => assert_eq!(rt; Err(fault), wanted, "{length}"),
        }
    }
    fs::remove_file(&rt, name.as_str())?;
    Ok(())
}

/// It lists the first records alone here: the reading stops after nine.
#[test]
fn a_journal_of_many_records_opens(rt: HostRuntime) -> Result<(), Fail> {
    let frames = A.repeat(rt.alloc(), 100_000)?;
    let file = [HEADER.as_slice(), frames.as_slice(), &[0]].concat(rt.alloc())?;
    let disk = disk(rt.alloc(), file.as_slice(), &[])?;
    let text = listed(rt.alloc(), disk, 2_000_000)?;
    assert_eq!(rt; text.as_slice(), b"a,a,a,a,a,a,a,a,a,".as_slice());
    Ok(())
}

/// Reads so many records that there are, and answers how many bytes their payloads have.
fn read_many<D: Disk>(
    alloc: Global,
    journal: &mut Journal<D>,
    count: usize,
) -> Result<usize, JournalFault>
    requires { IsReady D.standing journal.old }
{
    let mut out = Vec::with_capacity(alloc, count)?;
    let mut place = FIRST_PLACE;
    for _ in 0..count {
        if !journal.read_next_onto(&mut place, &mut out)? {
            break;
        }
    }
    Ok(out.len())
}

/// The opening syncs, reads 16 pieces of the million bytes, cuts and syncs, and the reading reads 16: the next call would fail.
#[test]
fn many_records_are_read_by_few_calls(rt: HostRuntime) -> Result<(), Fail> {
    let frames = A.repeat(rt.alloc(), 100_000)?;
    let file = [HEADER.as_slice(), frames.as_slice(), &[0]].concat(rt.alloc())?;
    for (fails, wanted) in [(34, Err(JournalFault::Disk)), (35, Ok(100_000))] {
        let disk = disk(rt.alloc(), file.as_slice(), &[fails])?;
        match Journal::open(rt.alloc(), disk, &HEADER, 2_000_000) {
            Ok(mut journal) => {
                assert_eq!(rt; read_many(rt.alloc(), &mut journal, 100_001), wanted);
            }
            Err((fault, _)) => return Err(fault.into()),
        }
    }
    Ok(())
}

/// The payloads stand one behind the other in the room that is there.
#[test]
fn records_are_read_onto_one_another(rt: HostRuntime) -> Result<(), Fail> {
    let alloc = rt.alloc();
    let file = [HEADER.as_slice(), A, BC, &[0]].concat(alloc)?;
    match Journal::open(alloc, disk(alloc, file.as_slice(), &[])?, &HEADER, 99) {
        Ok(mut journal) => {
            assert!(rt; journal.length() == 38);
            let mut place = FIRST_PLACE;
            let mut out = Vec::with_capacity(alloc, 3)?;
            assert_eq!(rt; journal.read_next_onto(&mut place, &mut out), Ok(true));
            assert_eq!(rt; journal.read_next_onto(&mut place, &mut out), Ok(true));
            assert_eq!(rt; journal.read_next_onto(&mut place, &mut out), Ok(false));
            assert_eq!(rt; out.as_slice(), b"abc".as_slice());
            assert!(rt; place == 37);
        }
        Err((fault, _)) => return Err(fault.into()),
    }
    Ok(())
}
