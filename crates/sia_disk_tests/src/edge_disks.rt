//! Files of the system as disks.

use sia_edge::{Did, Disk, FileDisk, Got, read_into};
use sia_encoding::Blob;
use std::fs::{File, OpenOptions};
use std::os::fd::AsRawFd;
use std::os::unix::fs::symlink;
use std::test::Fail;
use std::{fs, process};

const TEXT: &[u8] = b"0123";

/// A call of a disk.
#[derive(Clone, Copy, Debug)]
enum Call {
    Read,
    Write,
    Cut,
    Sync,
}

const CALLS: [Call; 4] = [Call::Read, Call::Write, Call::Cut, Call::Sync];

/// A name in the folder of this process's tests.
fn path(rt: &HostRuntime, name: &str) -> Result<String, Fail> {
    Ok(format!(in rt.alloc(); "/tmp/sia_disk_tests_{}_{name}", process::id(rt.process()))?)
}

/// A new file of this name that holds four bytes.
fn made(rt: &HostRuntime, name: &str) -> Result<String, Fail> {
    let path = path(rt, name)?;
    fs::write(rt, path.as_str(), TEXT)?;
    Ok(path)
}

/// Whether a call was done: a read of the first byte, a write of one byte behind the end, a cut to at most one byte, or a sync.
fn done(disk: &mut FileDisk, call: Call) -> bool {
    let end = disk.length();
    match call {
        Call::Read => disk.read(0, &mut [0]) != Got::Failed,
        Call::Write => disk.write_at(end, b"x") == Did::Done,
        Call::Cut => disk.cut(end.min(1)) == Did::Done,
        Call::Sync => disk.sync() == Did::Done,
    }
}

/// What the whole file holds, opened anew.
fn bytes_of(rt: &HostRuntime, path: &str) -> Result<Vec<u8>, Fail> {
    Ok(fs::read(rt, path)?)
}

#[test]
fn what_is_written_cut_and_synced_is_in_the_file(rt: HostRuntime) -> Result<(), Fail> {
    let path = path(&rt, "disk")?;
    let mut disk = FileDisk::open(&rt, path.as_str().as_bytes());
    assert!(rt; disk.length() == 0, "a missing file is made");
    assert_eq!(rt; disk.write_at(0, b"0123456"), Did::Done);
    assert!(rt; disk.length() == 7);
    assert_eq!(rt; disk.write_at(3, b"abc"), Did::Done);
    assert!(rt; disk.length() == 7);
    assert_eq!(rt; disk.cut(5), Did::Done);
    assert_eq!(rt; disk.sync(), Did::Done);
    drop(disk);
    assert_eq!(rt;
        bytes_of(&rt, path.as_str())?.as_slice(),
        b"012ab".as_slice()
    );
    let mut again = FileDisk::open(&rt, path.as_str().as_bytes());
    let mut out = Blob::new(rt.alloc());
    assert!(rt; again.length() == 5);
    assert_eq!(rt; read_into(rt.alloc(), &mut again, 0, 5, &mut out), Ok(()));
    assert_eq!(rt; out.as_slice(), b"012ab".as_slice());
    fs::remove_file(&rt, path.as_str())?;
    Ok(())
}

/// What a file of the system is opened as.
fn handed(rt: &HostRuntime, name: &str, writes: bool) -> Result<FileDisk, Fail> {
    let file = OpenOptions::new().read(true).write(writes).open(rt, name)?;
    Ok(FileDisk::new(file)?)
}

#[test]
fn each_call_is_the_systems_own(rt: HostRuntime) -> Result<(), Fail> {
    let path = made(&rt, "own")?;
    let cases: [(&str, bool, [bool; 4]); 4] = [
        (path.as_str(), true, [true, true, true, true]),
        (path.as_str(), false, [true, false, false, true]),
        ("/dev/full", true, [true, false, false, false]),
        ("/dev/null", true, [true, true, false, false]),
    ];
    for (name, writes, wanted) in cases {
        for (call, wanted) in CALLS.into_iter().zip(wanted) {
            fs::write(&rt, path.as_str(), TEXT)?;
            let mut disk = handed(&rt, name, writes)?;
            assert_eq!(rt; done(&mut disk, call), wanted, "{call:?} of {name}");
        }
    }
    fs::remove_file(&rt, path.as_str())?;
    Ok(())
}

#[test]
fn a_closed_descriptor_fails_each_call(rt: HostRuntime) -> Result<(), Fail> {
    let path = made(&rt, "closed")?;
    for call in CALLS {
        let file = OpenOptions::new()
            .read(true)
            .write(true)
            .open(&rt, path.as_str())?;
        let descriptor = file.as_raw_fd();
        let mut disk = FileDisk::new(file)?;
        assert_eq!(rt; libc::close(descriptor), 0);
        assert!(rt; !done(&mut disk, call), "{call:?}");
    }
    assert_eq!(rt; bytes_of(&rt, path.as_str())?.as_slice(), TEXT);
    fs::remove_file(&rt, path.as_str())?;
    Ok(())
}

#[test]
fn a_file_of_another_length_has_failed(rt: HostRuntime) -> Result<(), Fail> {
    let path = path(&rt, "length")?;
    let cases: [(&[u8], [bool; 4]); 3] = [
        (b"", [false, false, false, false]),
        (b"012", [true, false, false, false]),
        (b"01234", [true, false, false, false]),
    ];
    for (other, wanted) in cases {
        for (call, wanted) in CALLS.into_iter().zip(wanted) {
            fs::write(&rt, path.as_str(), TEXT)?;
            let mut disk = FileDisk::open(&rt, path.as_str().as_bytes());
            fs::write(&rt, path.as_str(), other)?;
            assert_eq!(rt;
                done(&mut disk, call),
                wanted,
                "{call:?} at {}",
                other.len()
            );
        }
    }
    fs::remove_file(&rt, path.as_str())?;
    Ok(())
}

#[test]
fn after_a_fault_each_call_fails_until_the_file_is_opened_anew(
    rt: HostRuntime,
) -> Result<(), Fail> {
    let path = path(&rt, "fault")?;
    for failed in [Call::Write, Call::Cut, Call::Sync] {
        for later in CALLS {
            fs::write(&rt, path.as_str(), TEXT)?;
            let mut disk = FileDisk::open(&rt, path.as_str().as_bytes());
            fs::write(&rt, path.as_str(), b"other".as_slice())?;
            assert!(rt; !done(&mut disk, failed));
            fs::write(&rt, path.as_str(), TEXT)?;
            assert!(rt; !done(&mut disk, later), "{later:?} after {failed:?}");
            assert!(rt; disk.length() == 4);
            let mut again = FileDisk::open(&rt, path.as_str().as_bytes());
            assert!(rt; done(&mut again, later), "{later:?} after an opening");
        }
    }
    fs::remove_file(&rt, path.as_str())?;
    Ok(())
}

#[test]
fn a_file_that_another_one_holds_does_not_open(rt: HostRuntime) -> Result<(), Fail> {
    let path = made(&rt, "lock")?;
    let mut first = FileDisk::open(&rt, path.as_str().as_bytes());
    let mut second = FileDisk::open(&rt, path.as_str().as_bytes());
    assert!(rt; second.length() == 0);
    assert!(rt; !done(&mut second, Call::Write));
    assert!(rt; done(&mut first, Call::Write));
    drop(first);
    let mut third = FileDisk::open(&rt, path.as_str().as_bytes());
    assert!(rt; third.length() == 5);
    assert!(rt; done(&mut third, Call::Write));
    fs::remove_file(&rt, path.as_str())?;
    Ok(())
}

#[test]
fn what_does_not_open_is_empty(rt: HostRuntime) -> Result<(), Fail> {
    let link = path(&rt, "link")?;
    symlink(&rt, "/nowhere/at/all", link.as_str())?;
    let cases: [&[u8]; 6] = [
        b"/nowhere/at/all",
        b"\xFF",
        b"",
        b"/tmp",
        b"/dev/null",
        link.as_str().as_bytes(),
    ];
    for name in cases {
        for call in CALLS {
            let mut disk = FileDisk::open(&rt, name);
            assert!(rt; disk.length() == 0);
            assert!(rt; !done(&mut disk, call));
        }
    }
    fs::remove_file(&rt, link.as_str())?;
    Ok(())
}

#[test]
fn a_disk_takes_no_descriptor_of_a_standard_stream(rt: HostRuntime) -> Result<(), Fail> {
    let path = made(&rt, "streams")?;
    assert_eq!(rt; libc::close(0), 0);
    let mut disk = FileDisk::open(&rt, path.as_str().as_bytes());
    let next = File::open(&rt, path.as_str())?;
    assert_eq!(rt; next.as_raw_fd(), 0, "the stream's own descriptor is free");
    assert!(rt; done(&mut disk, Call::Write));
    fs::remove_file(&rt, path.as_str())?;
    Ok(())
}
