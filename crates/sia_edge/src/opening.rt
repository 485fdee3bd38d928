//! How files of the system are opened.
use std::fs::{File, OpenOptions};
use std::io::{self, ErrorKind};
use std::os::fd::AsRawFd;
use std::path::Path;
use std::rt::Files;
use std::{fs, str};

/// The greatest descriptor of a standard stream (POSIX).
const STANDARD_ERROR: i32 = 2;

/// The file on a descriptor above those of the standard streams: what is meant for a stream that was closed must not land in
/// it.
fn above_streams(file: File) -> io::Result<File> {
    if file.as_raw_fd() > STANDARD_ERROR {
        return Ok(file);
    }
    file.try_clone()
}

/// Opens the file of this name.
pub(crate) fn open_named<R: Files<File = File>>(
    rt: &R,
    options: &OpenOptions,
    name: &[u8],
) -> io::Result<File> {
    let Ok(path) = str::from_utf8(name) else {
        return Err(ErrorKind::InvalidInput.into());
    };
    above_streams(options.open(rt, path)?)
}

/// Syncs the folder of a name, so that a file that was just made stays.
fn sync_folder<R: Files<File = File>>(rt: &R, name: &[u8]) -> io::Result<()> {
    let Ok(path) = str::from_utf8(name) else {
        return Err(ErrorKind::InvalidInput.into());
    };
    let path = Path::new(path);
    match path.parent() {
        Some(folder) if !folder.as_str().is_empty() => fs::open(rt, folder.as_str())?.sync_all(),
        _ => fs::open(rt, ".")?.sync_all(),
    }
}

/// Opens the file of a sink for writing, and makes it and syncs its folder where it is missing.
pub(crate) fn open_or_make<R: Files<File = File>>(rt: &R, name: &[u8]) -> io::Result<File> {
    match open_named(rt, OpenOptions::new().write(true).create_new(true), name) {
        Ok(file) => {
            sync_folder(rt, name)?;
            Ok(file)
        }
        Err(error) if error.kind() == ErrorKind::AlreadyExists => {
            open_named(rt, OpenOptions::new().write(true), name)
        }
        Err(error) => Err(error),
    }
}

/// Syncs a file, and drops the system's copies of its pages: a sync that failed in an earlier process may have left them
/// other than the disk has them, and marked as written.
fn settle(file: &File) -> io::Result<()> {
    file.sync_all()?;
    match libc::posix_fadvise(file.as_raw_fd(), 0, 0, libc::POSIX_FADV_DONTNEED) {
        0 => Ok(()),
        error => Err(io::Error::from_raw_os_error(error)),
    }
}

/// Opens the file of a disk, and makes it where it is missing. No other program has it locked, and it and its folder are
/// synced.
pub(crate) fn open_settled<R: Files<File = File>>(rt: &R, name: &[u8]) -> io::Result<File> {
    let file = open_named(
        rt,
        OpenOptions::new().read(true).write(true).create(true),
        name,
    )?;
    file.try_lock()?;
    settle(&file)?;
    sync_folder(rt, name)?;
    Ok(file)
}
