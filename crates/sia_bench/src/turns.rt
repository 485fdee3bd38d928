//! Threads that take turns, beside threads that lock.

ghost use Rattle.std.specs.Prelude.{◌≡◌, ℕ, ◌+◌, ◌^◌, ◌<◌, ◌≤◌, [], ◌∷◌, length, vec_len, false, All, IfOk};
ghost use Rattle.sia_turn.specs.Tokens.{IsWorker};

use sia_turn::{Logged, Named, Nothing, Pass, Turn};
use std::alloc::{AllocError, Global};
use std::io;
use std::marker::Model;
use std::rt::Clock;
use std::sync::{Mutex, Wait};
use std::thread::{Threads, for_each_mut};
use std::time::Instant;

/// How many threads a kernel has: 1 to 64.
#[derive(Clone, Copy)]
pub(crate) struct Crew {
    threads: usize,
    ghost some: { 0 < threads },
    ghost few: { threads ≤ 64 },
}

impl Crew {
    pub(crate) fn of(threads: usize) -> Option<Crew> {
        if threads == 0 || threads > 64 {
            return None;
        }
        Some(Crew { threads })
    }
}

// How often something was done. It stands for a list of so many equal entries.
#[derive(Drop)]
struct Count {
    times: u64,
}

impl Model for Count {
    ghost Value = { ℕ };

    ghost view = { λ c. c.times };
}

impl Logged for Count {
    type Entry = ();

    ghost stands = { λ count log. (count ≡ length log) × (length log < 2 ^ 64) };

    fn logged(&self) -> u64 {
        self.times
    }

    ghost short = { λ count log stands. stands.1 };
}

// One entry.
struct Once;

impl Named<Count> for Once {
    ghost entries = { tt ∷ [] };
}

// Counts one more at the pass's turn.
fn count_once<R: Wait>(rt: &R, turn: &Turn<Count>, pass: &mut Pass<Count>)
    requires { IsWorker turn.now.turn pass.old }
    ensures { IsWorker turn.now.turn pass.new }
{
    let count = turn.enter(rt, pass);
    match count.times.checked_add(1) {
        Some(times) => turn.leave::<Once>(pass, Count { times }),
        None => turn.leave::<Nothing>(pass, count),
    }
}

fn count_often<R: Wait>(rt: &R, turn: &Turn<Count>, pass: &mut Pass<Count>, turns: u64)
    requires { IsWorker turn.now.turn pass.old }
    ensures { IsWorker turn.now.turn pass.new }
{
    for _ in 0..turns {
        count_once(rt, turn, pass);
    }
}

// Each of the passes takes as many turns, on a thread of its own.
fn count_all<R: Threads + Wait + Sync>(
    rt: &R,
    turn: &Turn<Count>,
    passes: &mut Vec<Pass<Count>>,
    turns: u64,
)
    requires some { (0 < vec_len passes.old) × (vec_len passes.old ≤ 64) }
    requires workers { All (IsWorker turn.now.turn) passes.old.items }
    ensures len { vec_len passes.new ≡ vec_len passes.old }
    ensures workers { All (IsWorker turn.now.turn) passes.new.items }
{
    let workers = passes.len();
    for_each_mut(
        rt,
        passes.as_mut_slice(),
        workers,
        &|_, pass| {
            count_often(rt, turn, pass, turns);
        },
    );
}

/// How many turns were taken, as the value that was passed round counted them, and how many nanoseconds they took.
#[derive(Clone, Copy)]
pub(crate) struct Turning {
    pub(crate) turns: u64,
    pub(crate) nanos: u128,
}

/// Lets so many threads take as many turns each.
pub(crate) fn turn_nanos<R: Threads + Wait + Sync + Clock>(
    rt: &R,
    alloc: Global,
    crew: Crew,
    turns: u64,
) -> io::Result<Turning> {
    let threads = crew.threads;
    let seats = threads as u64 + 1;
    let Ok((turn, mut first)) = Turn::new::<Nothing>(alloc, Count { times: 0 }, seats) else {
        return Err(AllocError.into());
    };
    let mut passes = turn.split_all(alloc, &mut first, threads)?;
    let start = Instant::now(rt)?;
    count_all(rt, &turn, &mut passes, turns);
    let nanos = start.elapsed(rt)?.as_nanos();
    turn.gather(&mut first, passes);
    let count = turn.close(first);
    Ok(Turning {
        turns: count.times,
        nanos,
    })
}

fn lock_often<R: Wait>(rt: &R, count: &Mutex<u64>, locks: u64) {
    for _ in 0..locks {
        let mut count = count.lock(rt);
        *count = count.wrapping_add(1);
    }
}

/// The same with std's lock.
pub(crate) fn lock_nanos<R: Threads + Wait + Sync + Clock>(
    rt: &R,
    alloc: Global,
    crew: Crew,
    locks: u64,
) -> io::Result<u128> {
    let threads = crew.threads;
    let count = Mutex::new(0);
    let mut seats = vec![in alloc; 0u8; threads]?;
    let start = Instant::now(rt)?;
    for_each_mut(
        rt,
        seats.as_mut_slice(),
        threads,
        &|_, _| {
            lock_often(rt, &count, locks);
        },
    );
    Ok(start.elapsed(rt)?.as_nanos())
}
