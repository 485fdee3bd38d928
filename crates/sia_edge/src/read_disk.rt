//! Reading a range of a disk whole.
ghost use Rattle.std.specs.Prelude.{◌≡◌, ◌≢◌, ◌+◌, ◌≤◌, ◌<◌, ◌++◌, ℕ, Err, IsTrue, List, length, take, drop, slice_index, vec_len, vec_capacity, OnOk, OnErr, IfErr};
ghost use Rattle.sia_edge.specs.declared.read_disk.ReadFault.TheVariants.{Memory};
ghost use Rattle.sia_edge.specs.Disk.{Quiet, Faulted, Fills};

use crate::{Did, Disk, Got};
use sia_encoding::Blob;
use std::alloc::{AllocError, Global};
use std::mem;

/// Fills the buffer with the bytes at a place. After `Failed` the buffer holds any bytes.
pub fn read_whole<D: Disk>(disk: &mut D, at: u64, buffer: &mut [u8]) -> Did
    requires { at + length buffer.old ≤ length (D.standing disk.old).seen }
    ensures bytes { IsTrue D.tells → Fills result buffer.new at (D.standing disk.old).seen }
    ensures fits { (i : ℕ) → slice_index buffer.new i < 256 }
    ensures quiet { Quiet (D.standing disk.old) (D.standing disk.new) }
    ensures cause { result ≡ Did.Failed → Faulted (D.standing disk.old) (D.standing disk.new) }
{
    let end = disk.length();
    let mut done = 0;
    while done < buffer.len() {
        match disk.read(at + done as u64, &mut buffer[done..]) {
            Got::Bytes(count) => done += count,
            Got::End | Got::Failed => return Did::Failed,
        }
    }
    Did::Done
}

/// Why bytes of a disk weren't read.
#[derive(Clone, Copy, Debug, PartialEq, Eq)]
pub enum ReadFault {
    /// A read failed.
    Failed,
    /// Want of memory.
    Memory,
}

impl From<AllocError> for ReadFault {
    ghost from_gives = { λ _ fault. fault ≡ Memory };

    fn from(_: AllocError) -> ReadFault {
        ReadFault::Memory
    }
}

/// Appends so many bytes at a place to `out`, which stays as it was after an `Err`. It takes no memory where `out` has
/// room for them.
pub fn read_into<D: Disk>(
    alloc: Global,
    disk: &mut D,
    at: u64,
    count: u64,
    out: &mut Blob,
) -> Result<(), ReadFault>
    requires { at + count ≤ length (D.standing disk.old).seen }
    ensures bytes { IsTrue D.tells → OnOk result (out.new ≡ out.old ++ take count (drop at (D.standing disk.old).seen)) }
    ensures size { OnOk result (length out.new ≡ length out.old + count) }
    ensures err { OnErr result (out.new ≡ out.old) }
    ensures quiet { Quiet (D.standing disk.old) (D.standing disk.new) }
    ensures failed { result ≡ Err ReadFault.Failed → Faulted (D.standing disk.old) (D.standing disk.new) }
{
    let mut bytes = mem::replace(out, Blob::new(alloc)).into_vec();
    let read = read_onto(disk, at, count, &mut bytes);
    *out = Blob::from_vec(bytes);
    read
}

/// Appends so many bytes at a place to a `Vec`, whose elements stay as they were after an `Err`. `Memory` never comes where
/// it has room for them.
pub fn read_onto<D: Disk>(
    disk: &mut D,
    at: u64,
    count: u64,
    bytes: &mut Vec<u8>,
) -> Result<(), ReadFault>
    requires { at + count ≤ length (D.standing disk.old).seen }
    ensures bytes { IsTrue D.tells → OnOk result (bytes.new.items ≡ bytes.old.items ++ take count (drop at (D.standing disk.old).seen)) }
    ensures size { OnOk result (length bytes.new.items ≡ length bytes.old.items + count) }
    ensures err { OnErr result (bytes.new.items ≡ bytes.old.items) }
    ensures room { vec_len bytes.old + count ≤ vec_capacity bytes.old → result ≢ Err ReadFault.Memory }
    ensures quiet { Quiet (D.standing disk.old) (D.standing disk.new) }
    ensures failed { result ≡ Err ReadFault.Failed → Faulted (D.standing disk.old) (D.standing disk.new) }
{
    let start = bytes.len();
    let Some(end) = start.checked_add(count as usize) else {
        return Err(ReadFault::Memory);
    };
    bytes.resize(end, 0)?;
    match read_whole(disk, at, &mut bytes[start..]) {
        Did::Done => Ok(()),
        Did::Failed => {
            bytes.truncate(start);
            Err(ReadFault::Failed)
        }
    }
}
