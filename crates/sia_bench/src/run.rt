//! The kernels.

ghost use Rattle.std.specs.Prelude.{◌≡◌, ◌<◌};
ghost use Rattle.sia_blake.specs.Blake2b.{blake2b_256};

use crate::blocks::spell_nanos;
use crate::cuts::{Cuts, cut_nanos};
use crate::frames::{give_nanos, take_nanos};
use crate::kernel::Kernel;
use crate::ranges::range_nanos;
use crate::records::{append_nanos, open_nanos};
use crate::sectors::{Slots, put_nanos};
use crate::trees::{Changes, tree_nanos};
use crate::turns::{Crew, lock_nanos, turn_nanos};
use sia_blake::{Hash, digest};
use std::fs::File;
use std::marker::Brand;
use std::net::{Net, TcpListener, TcpStream};
use std::rt::{Clock, Files};
use std::sync::Wait;
use std::sync::ledger::Blank;
use std::thread::Threads;
use std::{fs, io};

/// The last of the digests, and how many were made.
#[derive(Clone, Copy)]
pub(crate) struct Digests {
    pub last: Hash,
    pub count: u64,
}

/// Digests the bytes as many times.
pub(crate) fn digest_again(bytes: &[u8], times: u64) -> Digests
    ensures last { 0 < times → result.last ≡ blake2b_256 bytes.now }
    ensures count { result.count ≡ times }
{
    let mut last = [0; 32];
    let mut count = 0;
    'again: for _ in 0..times {
        let next = digest(bytes);
        last = next;
        count += 1;
    }
    Digests { last, count }
}

/// Prints a line of a hash.
fn print_hash<R: Print>(rt: &R, hash: &Hash) -> io::Result<()> {
    for byte in hash {
        print!(rt; "{byte:02x}")?;
    }
    println!(rt; "")
}

fn print_digests<R: Files<File = File> + Print + AllocGlobal>(
    rt: &R,
    file: &str,
    times: u64,
) -> io::Result<()> {
    let bytes = fs::read(rt, file)?;
    let digests = digest_again(bytes.as_slice(), times);
    print_hash(rt, &digests.last)?;
    println!(rt; "digests {}", digests.count)
}

fn print_spelling<R: Files<File = File> + Print + AllocGlobal + Clock>(
    rt: &R,
    file: &str,
    times: u64,
) -> io::Result<()> {
    let bytes = fs::read(rt, file)?;
    let spelling = spell_nanos(rt, rt.alloc(), bytes.as_slice(), times)?;
    println!(rt; "decode {}", spelling.decode)?;
    println!(rt; "encode {}", spelling.encode)?;
    println!(rt; "digest {}", spelling.digest)?;
    println!(rt; "blocks {}", spelling.blocks)
}

fn print_turns<R: Print + AllocGlobal + Clock + Threads + Wait + Sync>(
    rt: &R,
    crew: Crew,
    times: u64,
) -> io::Result<()> {
    let turning = turn_nanos(rt, rt.alloc(), crew, times)?;
    let locks = lock_nanos(rt, rt.alloc(), crew, times)?;
    println!(rt; "turn {}", turning.nanos)?;
    println!(rt; "turns {}", turning.turns)?;
    println!(rt; "mutex {locks}")
}

fn print_ranging<R: Files<File = File> + Print + AllocGlobal + Clock>(
    rt: &R,
    file: &str,
    times: u64,
) -> io::Result<()> {
    let bytes = fs::read(rt, file)?;
    let ranging = range_nanos(rt, rt.alloc(), bytes.as_slice(), times)?;
    println!(rt; "root {}", ranging.root)?;
    println!(rt; "all {}", ranging.all)?;
    println!(rt; "inner {}", ranging.inner)?;
    println!(rt; "accepted {}", ranging.accepted)
}

fn print_appending<R: Files<File = File> + Print + AllocGlobal + Clock>(
    rt: &R,
    file: &str,
    times: u64,
) -> io::Result<()> {
    let appending = append_nanos(rt, rt.alloc(), file, times)?;
    println!(rt; "append {}", appending.nanos)?;
    println!(rt; "appends {}", appending.appends)
}

fn print_opening<R: Files<File = File> + Print + AllocGlobal + Clock>(
    rt: &R,
    file: &str,
) -> io::Result<()> {
    let opening = open_nanos(rt, rt.alloc(), file)?;
    println!(rt; "records {}", opening.records)?;
    println!(rt; "open {}", opening.open)?;
    println!(rt; "read {}", opening.read)
}

fn print_putting<R: Files<File = File> + Print + AllocGlobal + Clock>(
    rt: &R,
    file: &str,
    slots: Slots,
) -> io::Result<()> {
    let putting = put_nanos(rt, rt.alloc(), file, slots)?;
    println!(rt; "put {}", putting.nanos)?;
    println!(rt; "puts {}", putting.puts)
}

fn print_treeing<R: Print + AllocGlobal + Clock>(rt: &R, changes: Changes) -> io::Result<()> {
    let treeing = tree_nanos::<R, Brand>(rt, rt.alloc(), changes, Blank::new(1))?;
    println!(rt; "change {}", treeing.change)?;
    println!(rt; "changes {}", treeing.changes)?;
    println!(rt; "whole {}", treeing.whole)?;
    println!(rt; "wholes {}", treeing.wholes)?;
    println!(rt; "same {}", treeing.same as u8)
}

fn print_cutting<R: Files<File = File> + Print + AllocGlobal + Clock>(
    rt: &R,
    file: &str,
    cuts: Cuts,
) -> io::Result<()> {
    let bytes = fs::read(rt, file)?;
    let cutting = cut_nanos(rt, rt.alloc(), bytes.as_slice(), cuts)?;
    println!(rt; "cut {}", cutting.cut)?;
    println!(rt; "join {}", cutting.join)?;
    println!(rt; "pieces {}", cutting.pieces)?;
    print!(rt; "digest ")?;
    print_hash(rt, &cutting.digest)
}

fn print_giving<R: Net<Listener = TcpListener, Stream = TcpStream> + Print + AllocGlobal + Clock>(
    rt: &R,
    address: &str,
    size: usize,
    times: u64,
) -> io::Result<()> {
    let giving = give_nanos(rt, rt.alloc(), address, size, times)?;
    println!(rt; "give {}", giving.nanos)?;
    println!(rt; "frames {}", giving.frames)
}

fn print_taking<R: Net<Listener = TcpListener, Stream = TcpStream> + Print + AllocGlobal + Clock>(
    rt: &R,
    address: &str,
    limit: u64,
) -> io::Result<()> {
    let taking = take_nanos(rt, rt.alloc(), address, limit)?;
    println!(rt; "take {}", taking.nanos)?;
    println!(rt; "frames {}", taking.frames)?;
    println!(rt; "bytes {}", taking.bytes)
}

/// Runs the kernel, and prints how long it took and what it did.
pub(crate) fn run<
    R: Files<File = File>
        + Net<Listener = TcpListener, Stream = TcpStream>
        + Print
        + AllocGlobal
        + Clock
        + Threads
        + Wait
        + Sync,
>(rt: &R, kernel: Kernel<'_>) -> io::Result<()> {
    match kernel {
        Kernel::Digest { file, times } => print_digests(rt, file, times),
        Kernel::Block { file, times } => print_spelling(rt, file, times),
        Kernel::Turn { crew, times } => print_turns(rt, crew, times),
        Kernel::Range { file, times } => print_ranging(rt, file, times),
        Kernel::Journal { file, times } => print_appending(rt, file, times),
        Kernel::Open { file } => print_opening(rt, file),
        Kernel::Shelf { file, slots } => print_putting(rt, file, slots),
        Kernel::Tree { changes } => print_treeing(rt, changes),
        Kernel::Pieces { file, cuts } => print_cutting(rt, file, cuts),
        Kernel::Give {
            address,
            size,
            times,
        } => print_giving(rt, address, size, times),
        Kernel::Take { address, limit } => print_taking(rt, address, limit),
    }
}
