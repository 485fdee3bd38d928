//! Sources, sinks and disks in memory: that each call can succeed, and what a fault in mid-stream leaves.
ghost use Rattle.std.specs.Prelude.{◌≡◌, length};

use sia_edge::{
    Did, Disk, Ending, Got, MemDisk, MemSink, MemSource, ReadFault, Source, SureSource,
    WriteFailed, read_into, read_onto, read_to_bound, read_whole, write_all,
};
use sia_encoding::{Blob, List};
use std::fs;
use std::test::Fail;

const TEXT: &[u8] = b"0123456789";

fn source(rt: &HostRuntime, fails: &[u64]) -> Result<MemSource, Fail> {
    let bytes = Blob::from_slice(rt.alloc(), TEXT)?;
    let fails = List::from_vec(fails.to_vec(rt.alloc())?);
    Ok(MemSource::new(bytes, fails))
}

#[test]
fn a_source_is_read_to_a_bound(rt: HostRuntime) -> Result<(), Fail> {
    let cases: [(&[u64], u64, Ending, usize); 6] = [
        (&[], 10, Ending::Whole, 10),
        (&[], 11, Ending::Whole, 10),
        (&[], 9, Ending::Long, 0),
        (&[0], 10, Ending::Failed, 0),
        (&[7, 1], 10, Ending::Failed, 10),
        (&[2], 10, Ending::Whole, 10),
    ];
    for (fails, bound, ending, count) in cases {
        let mut source = source(&rt, fails)?;
        let mut out = Blob::new(rt.alloc());
        assert_eq!(rt; read_to_bound(&mut source, &mut out, bound), ending);
        assert_eq!(rt; out.len(), count);
    }
    Ok(())
}

#[test]
fn a_fault_leaves_what_was_left(rt: HostRuntime) -> Result<(), Fail> {
    let mut source = source(&rt, &[1])?;
    let mut buffer = [0u8; 4];
    assert_eq!(rt; source.read(&mut buffer), Got::Bytes(4));
    assert_eq!(rt; source.read(&mut buffer), Got::Failed);
    assert_eq!(rt; buffer.as_slice(), b"0123".as_slice());
    assert_eq!(rt; source.read(&mut buffer), Got::Bytes(4));
    assert_eq!(rt; buffer.as_slice(), b"4567".as_slice());
    assert_eq!(rt; source.read(&mut buffer), Got::Bytes(2));
    assert_eq!(rt; source.read(&mut buffer), Got::End);
    Ok(())
}

#[test]
fn a_sure_source_is_read_whole(rt: HostRuntime) -> Result<(), Fail> {
    let mut source = SureSource::new(Blob::from_slice(rt.alloc(), TEXT)?);
    let mut out = Blob::new(rt.alloc());
    assert_eq!(rt; read_to_bound(&mut source, &mut out, 10), Ending::Whole);
    assert_eq!(rt; out.as_slice(), TEXT);
    Ok(())
}

#[test]
fn a_sink_keeps_what_was_written_around_a_fault(rt: HostRuntime) -> Result<(), Fail> {
    let fails = List::from_vec([1].to_vec(rt.alloc())?);
    let mut sink = MemSink::new(rt.alloc(), fails);
    assert_eq!(rt; write_all(&mut sink, b"one"), Ok(()));
    assert_eq!(rt; write_all(&mut sink, b"two"), Err(WriteFailed));
    assert_eq!(rt; write_all(&mut sink, b"three"), Ok(()));
    assert_eq!(rt; sink.bytes(), b"onethree".as_slice());
    Ok(())
}

fn disk(rt: &HostRuntime, fails: &[u64]) -> Result<MemDisk, Fail> {
    let bytes = Blob::from_slice(rt.alloc(), b"0123")?;
    let fails = List::from_vec(fails.to_vec(rt.alloc())?);
    Ok(MemDisk::new(bytes, fails))
}

/// One write past the end, one cut, one sync and one read of all, on any disk of four bytes.
fn work<D: Disk>(disk: &mut D) -> [bool; 4]
    requires { length (D.standing disk.old).seen ≡ 4 }
{
    let written = disk.write_at(3, b"abc") == Did::Done;
    let end = disk.length().min(5);
    let cut = disk.cut(end) == Did::Done;
    let synced = disk.sync() == Did::Done;
    let read = match disk.read(0, &mut [0; 8]) {
        Got::Bytes(_) => true,
        Got::End | Got::Failed => false,
    };
    [written, cut, synced, read]
}

#[test]
fn a_fault_by_number_stops_that_call_alone(rt: HostRuntime) -> Result<(), Fail> {
    let cases: [(&[u64], [bool; 4], &[u8]); 4] = [
        (&[], [true, true, true, true], b"012ab"),
        (&[0], [false, true, true, true], b"0123"),
        (&[1], [true, false, true, true], b"012abc"),
        (&[3, 2], [true, true, false, false], b"012ab"),
    ];
    for (fails, done, bytes) in cases {
        let mut disk = disk(&rt, fails)?;
        assert_eq!(rt; disk.length(), 4);
        assert_eq!(rt; work(&mut disk), done);
        assert_eq!(rt; disk.bytes(), bytes);
    }
    Ok(())
}

#[test]
fn a_range_is_read_whole(rt: HostRuntime) -> Result<(), Fail> {
    let mut disk = disk(&rt, &[3])?;
    let mut buffer = [0u8; 2];
    let mut out = Blob::from_slice(rt.alloc(), b"x")?;
    let mut bytes = Vec::new(rt.alloc());
    assert!(rt; disk.length() == 4);
    assert_eq!(rt; read_whole(&mut disk, 1, &mut buffer), Did::Done);
    assert_eq!(rt; buffer.as_slice(), b"12".as_slice());
    assert_eq!(rt; read_into(rt.alloc(), &mut disk, 2, 2, &mut out), Ok(()));
    assert_eq!(rt; read_onto(&mut disk, 0, 3, &mut bytes), Ok(()));
    assert_eq!(rt; bytes.as_slice(), b"012".as_slice());
    assert_eq!(rt;
        read_into(rt.alloc(), &mut disk, 0, 4, &mut out),
        Err(ReadFault::Failed)
    );
    assert_eq!(rt; out.as_slice(), b"x23".as_slice());
    Ok(())
}

/// How many pages of memory this process has in use (proc's statm, its second number).
fn pages(rt: &HostRuntime) -> Result<u64, Fail> {
    let text = fs::read_to_string(rt, "/proc/self/statm")?;
    let resident = text.as_str().split_whitespace().nth(1).ok_or("statm")?;
    Ok(resident.parse()?)
}

#[test]
fn a_long_history_takes_the_memory_of_the_bytes_alone(rt: HostRuntime) -> Result<(), Fail> {
    let mut disk = MemDisk::new(Blob::new(rt.alloc()), List::new(rt.alloc()));
    let before = pages(&rt)?;
    for _ in 0..100_000 {
        let end = disk.length();
        assert_eq!(rt; disk.write_at(end, &[7; 500]), Did::Done);
        assert_eq!(rt; disk.sync(), Did::Done);
    }
    assert!(rt; disk.length() == 50_000_000);
    // The bytes and the room that a `Vec` grows by: at most three times the bytes, in pages of 4,096.
    assert!(rt; pages(&rt)?.saturating_sub(before) < 3 * 12_208);
    Ok(())
}
