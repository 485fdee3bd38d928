//! The lines on standard error, and the statuses that go with them.
ghost use Rattle.std.specs.Prelude.{◌≡◌, IfOk, string_bytes};
ghost use Rattle.sia_program.specs.Answer.{Tells, TellsReason};
ghost use Rattle.sia_program.specs.Lines.{stop_line};
ghost use Rattle.sia_program.specs.Lines.{refusal_text as refusal_text_of};
ghost use Rattle.sia_program.specs.Streams.{stream};

use crate::faults::rule_text;
use crate::stop::{Refusal, Stop};
use sia_edge::{Sink, write_all};
use std::alloc::{AllocError, Global};

/// What was refused.
#[tactic(auto, unfolding(crate::specs::Lines::refusal_text))]
fn refusal_text(alloc: Global, refusal: &Refusal) -> Result<String, AllocError>
    ensures { IfOk result (λ text. string_bytes text ≡ refusal_text_of refusal.now) }
{
    match refusal {
        Refusal::ConfigText => String::from_str(alloc, "config text"),
        Refusal::ConfigKey(key) => format!(in alloc; "config {key}"),
        Refusal::Feed { at } => format!(in alloc; "feed at {at}"),
        Refusal::Block { tip_height, rule } => {
            let height = u128::from(*tip_height) + 1;
            let rule = rule_text(alloc, &rule.fault())?;
            format!(in alloc; "block {height} {rule}")
        }
        Refusal::NoBlock => String::from_str(alloc, "feed NoBlock"),
        Refusal::Range => String::from_str(alloc, "range"),
        Refusal::Input { at } => format!(in alloc; "input at {at}"),
    }
}

/// The line on standard error for a refusal.
#[tactic(auto, unfolding(crate::specs::Lines::stop_line))]
pub fn refused_line(alloc: Global, refusal: &Refusal) -> Result<String, AllocError>
    ensures { IfOk result (λ text. string_bytes text ≡ stop_line (Stop.Refused refusal.now)) }
{
    let case = refusal_text(alloc, refusal)?;
    format!(in alloc; "sia-v1: refused {case}\n")
}

/// Writes a line. Where the write fails, a front part of it is written, and nobody is told.
pub(crate) fn write_line<K: Sink>(err: &mut K, line: &[u8])
    ensures { Tells line.now (stream K.taken K.faults err.old) (stream K.taken K.faults err.new) }
{
    let _ = write_all(err, line);
}

/// Writes why a command stopped, and answers its status.
#[tactic(auto, unfolding(crate::specs::Lines::stop_line))]
pub(crate) fn tell<K: Sink>(alloc: Global, stop: Stop, err: &mut K) -> u8
    ensures { TellsReason stop result (stream K.taken K.faults err.old) (stream K.taken K.faults err.new) }
{
    match stop {
        Stop::Refused(refusal) => match refused_line(alloc, &refusal) {
            Ok(line) => {
                write_line(err, line.as_str().as_bytes());
                2
            }
            Err(_) => {
                write_line(err, "sia-v1: no memory\n".as_bytes());
                5
            }
        },
        Stop::Outside => {
            write_line(err, "sia-v1: outside fault\n".as_bytes());
            3
        }
        Stop::Memory => {
            write_line(err, "sia-v1: no memory\n".as_bytes());
            5
        }
        Stop::Long => {
            write_line(err, "sia-v1: input too long\n".as_bytes());
            8
        }
    }
}
