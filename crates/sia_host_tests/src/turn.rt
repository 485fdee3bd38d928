//! No clause says that a turn comes: here threads take many turns, and end.
ghost use Rattle.std.specs.Prelude.{◌≡◌, ◌+◌, ◌<◌, ◌≤◌, false, length, vec_len, All, IfOk, OnOk};
ghost use Rattle.sia_turn.specs.Tokens.{IsWorker};

use crate::numbers::{Numbers, add};
use sia_turn::{Logged, Nothing, Pass, Turn};
use std::alloc::{AllocError, Global};
use std::sync::Wait;
use std::test::Fail;
use std::thread::{Threads, for_each_mut, join};

// Adds every so many-th of the numbers below `total`, one at each turn.
fn add_all<R: Wait>(
    rt: &R,
    turn: &Turn<Numbers>,
    pass: &mut Pass<Numbers>,
    start: usize,
    step: usize,
    total: usize,
) -> Result<(), AllocError>
    requires small { (0 < step) × (step ≤ 65) × (total ≤ 10000) }
    requires worker { IsWorker turn.now.turn pass.old }
    ensures { IsWorker turn.now.turn pass.new }
{
    let mut number = start;
    while number < total {
        add(rt, turn, pass, number as u64)?;
        number += step;
    }
    Ok(())
}

// Each pass adds its share of the numbers below `total`, in a thread of its own.
fn add_from_all<R: Threads + Wait + Sync>(
    rt: &R,
    turn: &Turn<Numbers>,
    passes: &mut Vec<Pass<Numbers>>,
    total: usize,
)
    requires total { total ≤ 10000 }
    requires some { (0 < vec_len passes.old) × (vec_len passes.old ≤ 65) }
    requires workers { All (IsWorker turn.now.turn) passes.old.items }
    ensures len { vec_len passes.new ≡ vec_len passes.old }
    ensures workers { All (IsWorker turn.now.turn) passes.new.items }
{
    let workers = passes.len();
    for_each_mut(
        rt,
        passes.as_mut_slice(),
        workers,
        &|i, pass| {
            let _ = add_all(rt, turn, pass, i, workers, total);
        },
    );
}

// The numbers below `total`, as so many workers add them.
fn numbers_by<R: Threads + Wait + Sync>(
    rt: &R,
    alloc: Global,
    workers: usize,
    total: usize,
) -> Result<Numbers, AllocError>
    requires workers { (0 < workers) × (workers ≤ 65) }
    requires total { total ≤ 10000 }
{
    let seats = workers as u64 + 1;
    let Ok((turn, mut first)) = Turn::new::<Nothing>(alloc, Numbers::new(alloc), seats) else {
        return Err(AllocError);
    };
    let mut passes = turn.split_all(alloc, &mut first, workers)?;
    add_from_all(rt, &turn, &mut passes, total);
    turn.gather(&mut first, passes);
    Ok(turn.close(first))
}

// A turn is shared by threads, and a pass goes to another one, whatever the value is that may go there.
fn split_both<T: Logged + Send, R: Threads + Sync>(
    rt: &R,
    turn: &Turn<T>,
    first: &mut Pass<T>,
    second: &mut Pass<T>,
) -> (Pass<T>, Pass<T>)
    requires turn { (first.old.turn ≡ turn.now.turn) × (second.old.turn ≡ turn.now.turn) }
    requires outside { (first.old.inside ≡ false) × (second.old.inside ≡ false) }
    requires rest { (1 ≤ first.old.rest) × (1 ≤ second.old.rest) }
{
    join(
        rt,
        || -> Pass<T>
            requires { (first.now.turn ≡ turn.now.turn) × (first.now.inside ≡ false) × (1 ≤ first.now.rest) }
        { turn.split(first) },
        || -> Pass<T>
            requires { (second.now.turn ≡ turn.now.turn) × (second.now.inside ≡ false) × (1 ≤ second.now.rest) }
        { turn.split(second) },
    )
}

// Whether each number below `total` stands there once, those of one worker in their order.
fn are_all(alloc: Global, numbers: &[u64], workers: usize, total: usize) -> Result<bool, AllocError>
    requires { 0 < workers }
{
    let mut next = Vec::new(alloc);
    for worker in 0..workers {
        next.push(worker as u64)?;
    }
    for number in numbers {
        let worker = (*number % workers as u64) as usize;
        match next.get_mut(worker) {
            Some(wanted) if *wanted == *number => *wanted = number.saturating_add(workers as u64),
            _ => return Ok(false),
        }
    }
    Ok(numbers.len() == total && next.iter().all(|n| *n >= total as u64))
}

#[test]
fn two_threads_enter_and_leave(rt: HostRuntime) -> Result<(), Fail> {
    let numbers = numbers_by(&rt, rt.alloc(), 2, 10)?;
    assert!(rt; are_all(rt.alloc(), numbers.as_slice(), 2, 10)?);
    Ok(())
}

#[test]
fn sixty_four_workers_take_ten_thousand_turns(rt: HostRuntime) -> Result<(), Fail> {
    let numbers = numbers_by(&rt, rt.alloc(), 64, 10_000)?;
    assert!(rt; are_all(rt.alloc(), numbers.as_slice(), 64, 10_000)?);
    Ok(())
}
