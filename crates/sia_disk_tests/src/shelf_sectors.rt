//! What no clause says: that each call can succeed, and what a shelf leaves around a call of the disk that fails.
ghost use Rattle.std.specs.Prelude.{◌≡◌, ◌∷◌, [], IfOk};

use sia_edge::MemDisk;
use sia_encoding::{Blob, List};
use sia_shelf::{Mark, Shelf, ShelfFault};
use std::test::Fail;

const SECTOR: usize = 64;

/// A shelf of three slots over an empty disk, of which the calls with these numbers fail.
fn shelf(rt: &HostRuntime, fails: &[u64]) -> Result<Shelf<MemDisk>, Fail>
    ensures { IfOk result (λ shelf. (shelf.sector ≡ 64) × (shelf.marks ≡ Mark.Free ∷ Mark.Free ∷ Mark.Free ∷ [])) }
{
    let fails = List::from_vec(fails.to_vec(rt.alloc())?);
    let disk = MemDisk::new(Blob::new(rt.alloc()), fails);
    match Shelf::new(rt.alloc(), disk, SECTOR as u64, 3) {
        Ok(shelf) => Ok(shelf),
        Err((fault, _)) => Err(fault.into()),
    }
}

/// Makes the first slot live, and puts the second one.
fn fill(shelf: &mut Shelf<MemDisk>) -> Result<(), ShelfFault>
    requires size { shelf.old.sector ≡ 64 }
    requires free { shelf.old.marks ≡ Mark.Free ∷ Mark.Free ∷ Mark.Free ∷ [] }
{
    shelf.put(0, &[7; SECTOR])?;
    shelf.sync()?;
    shelf.put(1, &[8; SECTOR])
}

#[test]
fn a_fault_of_the_disk_stops_that_call_alone(rt: HostRuntime) -> Result<(), Fail> {
    let cases: [(&[u64], Result<(), ShelfFault>, &[u64], u64); 4] = [
        (&[], Ok(()), &[2], 128),
        (&[0], Err(ShelfFault::Disk), &[0, 1, 2], 0),
        (&[1], Err(ShelfFault::Disk), &[1, 2], 64),
        (&[2], Err(ShelfFault::Disk), &[1, 2], 64),
    ];
    for (fails, filled, free, length) in cases {
        let mut shelf = shelf(&rt, fails)?;
        assert_eq!(rt; fill(&mut shelf), filled);
        assert_eq!(rt; shelf.length(), length);
        let more = free.len() as u64;
        assert_eq!(rt; shelf.free_count(), more);
        match shelf.find(rt.alloc(), more) {
            Ok(slots) => assert_eq!(rt; slots.as_slice(), free),
            Err(_) => assert!(rt; false),
        }
        match shelf.find(rt.alloc(), more + 1) {
            Ok(_) => assert!(rt; false),
            Err(fault) => assert_eq!(rt; fault, ShelfFault::Full),
        }
    }
    Ok(())
}

#[test]
fn a_sector_is_read_as_it_was_put(rt: HostRuntime) -> Result<(), Fail> {
    let mut shelf = shelf(&rt, &[4])?;
    let mut out = Blob::new(rt.alloc());
    assert_eq!(rt; fill(&mut shelf), Ok(()));
    assert_eq!(rt; shelf.read(rt.alloc(), 1, &mut out), Ok(()));
    assert_eq!(rt; out.as_slice(), [8; SECTOR].as_slice());
    assert_eq!(rt; shelf.read(rt.alloc(), 0, &mut out), Err(ShelfFault::Disk));
    assert_eq!(rt;
        shelf.read(rt.alloc(), 2, &mut out),
        Err(ShelfFault::Short { slot: 2 })
    );
    let mut room = Vec::with_capacity(rt.alloc(), SECTOR)?;
    assert_eq!(rt; shelf.read_onto(1, &mut room), Ok(()));
    assert_eq!(rt; room.as_slice(), [8; SECTOR].as_slice());
    assert_eq!(rt; shelf.close().bytes().len(), 2 * SECTOR);
    Ok(())
}
