//! One kernel of the product, run many times: what the scripts in bench/ measure.
//!
//! `sia_bench digest FILE N` reads FILE whole, hashes it N times and prints the last digest in hexadecimal, and how many it
//! made.
//! `sia_bench block FILE N` decodes the block that FILE holds N times, encodes it as often, hashes its bytes as often, and prints
//! how many nanoseconds each of the three took, and how many blocks were decoded and encoded.
//! `sia_bench turn THREADS N` lets so many threads take N turns each over one counter, and then N locks of std's
//! `Mutex`, and prints how many nanoseconds each of the two took, and how many turns the counter counted.
//! `sia_bench journal FILE N` appends N records to the journal of FILE, and prints how many nanoseconds that took, and by
//! how many records the journal has grown.
//! `sia_bench open FILE` opens the journal of FILE and reads all its records, and prints how many there are and how many
//! nanoseconds each of the two took.
//! `sia_bench shelf FILE N` puts N sectors of 4 MiB into FILE, each with a sync, and prints how many nanoseconds that took,
//! and how many slots aren't free any more.
//! `sia_bench range FILE N` makes the root of FILE's bytes N times, and N times proves and checks the range of all their
//! leaves, and that of all but the first and the last, and prints how many nanoseconds each of the three took, and how
//! many ranges were accepted.
//! `sia_bench roottree PLACES CHANGES WHOLES` makes a tree of so many roots, changes one of them and asks for the root CHANGES
//! times, and hashes the whole list WHOLES times, and prints how many nanoseconds each of the two took, how often each was
//! done, and 1 where the last roots are the same.
//! `sia_bench pieces FILE K N TIMES` cuts FILE into N pieces TIMES times, and joins it as often of the last K, and prints how
//! many nanoseconds each of the two took, how many pieces it cut, and the digest of the last one.
//! `sia_bench give ADDR SIZE N` waits at ADDR for one connection and sends N frames with bodies of SIZE bytes over it, and prints
//! how many nanoseconds that took, and how many frames it sent.
//! `sia_bench take ADDR LIMIT` connects to ADDR and takes frames with bodies of at most LIMIT bytes to the end, and prints how
//! many nanoseconds that took, how many frames came, and how many bytes their bodies have.
//! Wrong words give status 1, and a file that can't be read status 2.
#![tactic(auto)]

mod blocks;
mod cuts;
mod frames;
mod kernel;
mod ranges;
mod records;
mod run;
mod sectors;
mod trees;
mod turns;

use kernel::{USAGE, kernel_of};
use run::run;
use std::process::ExitCode;
use std::{env, io};

fn main(rt: HostRuntime) -> io::Result<ExitCode> {
    let words: Vec<String> = env::args(&rt)?.skip(1).collect(rt.alloc())?;
    let Some(kernel) = kernel_of(words.as_slice()) else {
        eprintln!(&rt; "{USAGE}")?;
        return Ok(ExitCode::from(1));
    };
    if let Err(error) = run(&rt, kernel) {
        eprintln!(&rt; "sia_bench: {error}")?;
        return Ok(ExitCode::from(2));
    }
    Ok(ExitCode::SUCCESS)
}
