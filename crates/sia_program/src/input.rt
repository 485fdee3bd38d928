//! The files that a command reads whole, each within its bound.
ghost use Rattle.std.specs.Prelude.{◌≡◌, ◌≤◌, ◌<◌, ◌^◌, Err, IfSome, OnOk};
ghost use Rattle.sia_edge.specs.Edge.{Rose};
ghost use Rattle.sia_encoding.specs.Answer.{Answers};
ghost use Rattle.sia_program.specs.Answer.{ReadToEnd};
ghost use Rattle.sia_program.specs.Inputs.{within};
ghost use Rattle.sia_program.specs.Told.{stop_told};

use crate::stop::Stop;
use sia_edge::{Ending, Source, read_to_bound};
use sia_encoding::Blob;
use std::alloc::Global;

/// The most bytes that a configuration may have.
pub(crate) const CONFIG_BOUND: u64 = 65_536;

/// The most bytes that a feed or a file may have.
pub(crate) const INPUT_BOUND: u64 = 1_073_741_824;

/// All that a source has left, if it is within a bound.
#[tactic(auto, unfolding(crate::specs::Inputs::within))]
pub(crate) fn read_within<S: Source>(
    alloc: Global,
    source: &mut S,
    bound: u64,
) -> Result<Blob, Stop>
    requires { bound < 2 ^ 60 }
    ensures told { IfSome (S.left source.old) (λ left. Answers (λ bytes. bytes) stop_told result (within bound left)) }
    ensures ended { OnOk result (ReadToEnd (S.left source.old) (S.left source.new)) }
    ensures later { S.faults source.old ≤ S.faults source.new }
    ensures failed { result ≡ Err Stop.Outside → Rose (S.faults source.old) (S.faults source.new) }
{
    let mut bytes = Blob::new(alloc);
    match read_to_bound(source, &mut bytes, bound) {
        Ending::Whole => Ok(bytes),
        Ending::Long => Err(Stop::Long),
        Ending::Failed => Err(Stop::Outside),
        Ending::Memory => Err(Stop::Memory),
    }
}
