//! Faults of bytes that are read, told by their places.
ghost use Rattle.std.specs.Prelude.{◌≡◌};
ghost use Rattle.sia_program.specs.declared.stop.Refusal.TheVariants as refusal;
ghost use Rattle.sia_program.specs.Told.{place_told, told_at};

use crate::stop::{Fault, Refusal};
use sia_encoding::DecodeFault;

/// The place of a fault of bytes, from 0; none for want of memory.
fn place_of(fault: DecodeFault) -> Option<u64>
    ensures { result ≡ place_told fault }
{
    match fault {
        DecodeFault::Short { at }
        | DecodeFault::BadBool { at }
        | DecodeFault::BadKind { at }
        | DecodeFault::BadCurrency { at }
        | DecodeFault::TooLong { at }
        | DecodeFault::Rest { at } => Some(at),
        DecodeFault::Memory => None,
    }
}

/// How a fault of the feed's bytes is told.
pub(crate) fn feed_fault(fault: DecodeFault) -> Fault
    ensures { result ≡ told_at refusal.Feed fault }
{
    match place_of(fault) {
        Some(at) => Fault::Refused(Refusal::Feed { at }),
        None => Fault::Memory,
    }
}

/// How a fault of the input's bytes is told.
pub(crate) fn input_fault(fault: DecodeFault) -> Fault
    ensures { result ≡ told_at refusal.Input fault }
{
    match place_of(fault) {
        Some(at) => Fault::Refused(Refusal::Input { at }),
        None => Fault::Memory,
    }
}
