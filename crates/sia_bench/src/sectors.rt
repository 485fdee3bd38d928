//! A shelf over a file: sectors are put one after another, each with a sync.

ghost use Rattle.std.specs.Prelude.{◌≡◌, ◌^◌, ◌<◌, ◌≤◌, ℕ, IsTrue, IfOk, OnOk, length, vec_len, replicate};
ghost use Rattle.sia_edge.specs.Disk.{EachImage};
ghost use Rattle.sia_shelf.specs.Slots.{Has};
ghost use Rattle.sia_shelf.specs.Shelf.{mark_of};

use sia_edge::{Did, Disk, FileDisk};
use sia_shelf::{Mark, Shelf, ShelfFault};
use std::alloc::{AllocError, Global};
use std::fs::File;
use std::io::{self, ErrorKind};
use std::rt::{Clock, Files};
use std::time::Instant;

/// How many bytes a sector has.
const SECTOR: u64 = 1 << 22;

/// How many slots a shelf has: at most 2^20.
#[derive(Clone, Copy)]
pub(crate) struct Slots {
    count: u64,
    ghost few: { count ≤ 2 ^ 20 },
}

impl Slots {
    pub(crate) fn of(count: u64) -> Option<Slots> {
        if count > 1 << 20 {
            return None;
        }
        Some(Slots { count })
    }
}

/// What a shelf's fault is to the program.
fn error_of(fault: ShelfFault) -> io::Error {
    io::Error::from(match fault {
        ShelfFault::Memory => ErrorKind::OutOfMemory,
        ShelfFault::Disk => ErrorKind::Other,
        ShelfFault::Full | ShelfFault::Short { .. } => ErrorKind::InvalidData,
    })
}

/// A shelf of free slots over a disk, which is synced first.
fn shelf_of<D: Disk + Drop>(alloc: Global, mut disk: D, slots: u64) -> Result<Shelf<D>, ShelfFault>
    requires { slots ≤ 2 ^ 20 }
    ensures sector { IfOk result (λ shelf. shelf.sector ≡ 2 ^ 22) }
    ensures free { IfOk result (λ shelf. shelf.marks ≡ replicate slots Mark.Free) }
{
    if disk.sync() == Did::Failed {
        return Err(ShelfFault::Disk);
    }
    match Shelf::new(alloc, disk, SECTOR, slots) {
        Ok(shelf) => Ok(shelf),
        Err((AllocError, _)) => Err(ShelfFault::Memory),
    }
}

/// Puts the same bytes into each slot, syncs after each, and answers how many slots aren't free any more.
fn put_each<D: Disk>(shelf: &mut Shelf<D>, bytes: &[u8], slots: u64) -> Result<u64, ShelfFault>
    requires free { shelf.old.marks ≡ replicate slots Mark.Free }
    requires size { length bytes.now ≡ shelf.old.sector }
    ensures count { IfOk result (λ count. count ≡ slots) }
    ensures live { OnOk result ((slot : ℕ) → slot < slots → mark_of shelf.new.marks slot ≡ Mark.Live) }
    ensures kept { IsTrue D.tells → OnOk result ((slot : ℕ) → slot < slots
        → EachImage (Has shelf.old.sector slot bytes.now) (D.standing shelf.new.disk)) }
{
    for slot in 0..slots {
        shelf.put(slot, bytes)?;
        shelf.sync()?;
    }
    Ok(slots.saturating_sub(shelf.free_count()))
}

/// So many bytes.
fn sector_of(alloc: Global, size: usize) -> Result<Vec<u8>, AllocError>
    ensures { IfOk result (λ bytes. vec_len bytes ≡ size) }
{
    let mut bytes = Vec::new(alloc);
    bytes.resize(size, 7)?;
    Ok(bytes)
}

/// How many sectors were put, and how many nanoseconds that took.
#[derive(Clone, Copy)]
pub(crate) struct Putting {
    pub(crate) puts: u64,
    pub(crate) nanos: u128,
}

/// Puts and syncs each slot of a shelf over a file, which is made where it is missing.
pub(crate) fn put_nanos<R: Files<File = File> + Clock>(
    rt: &R,
    alloc: Global,
    file: &str,
    slots: Slots,
) -> io::Result<Putting>
    ensures { IfOk result (λ putting. putting.puts ≡ slots.count) }
{
    let bytes = sector_of(alloc, SECTOR as usize)?;
    let disk = FileDisk::open(rt, file.as_bytes());
    let mut shelf = shelf_of(alloc, disk, slots.count).map_err(error_of)?;
    let start = Instant::now(rt)?;
    let puts = put_each(&mut shelf, bytes.as_slice(), slots.count).map_err(error_of)?;
    let nanos = start.elapsed(rt)?.as_nanos();
    Ok(Putting { puts, nanos })
}

#[cfg(test)]
mod tests {
    use super::*;
    use std::test::Fail;
    use std::{fs, process};

    #[test]
    fn each_sector_is_written(rt: HostRuntime) -> Result<(), Fail> {
        let name = format!(in rt.alloc(); "/tmp/sia_bench_sectors_{}", process::id(rt.process()))?;
        let slots = Slots::of(2);
        if let Some(slots) = slots {
            put_nanos(&rt, rt.alloc(), name.as_str(), slots)?;
        }
        let size = fs::metadata(&rt, name.as_str())?.len();
        fs::remove_file(&rt, name.as_str())?;
        assert_eq!(rt; size, 8_388_608);
        Ok(())
    }
}
