//! The steps of a diff.
ghost use Rattle.std.specs.Prelude.{◌≡◌, ◌≤◌, IsTrue};

use sia_blake::Hash;
use sia_encoding::limits::CONTRACT_SECTORS;

/// A step on a list of hashes. The steps of a diff are done in order, and places count from 0.
#[derive(Clone, Copy)]
pub enum DiffStep {
    /// Puts a hash behind the last one.
    Append(Hash),
    /// Drops so many hashes from the end.
    Trim(u64),
    /// Puts the hashes at two places in each other's place.
    Swap(u64, u64),
    /// Puts a hash in the place of the one at a place.
    Set(u64, Hash),
}

impl DiffStep {
    ghost use Rattle.sia_diff.specs.DiffSteps.{count_after_step, step_fits};

    /// Whether the step can be done on a list of so many hashes.
    pub(crate) fn fits(&self, count: u64) -> bool
        ensures { result ≡ step_fits count self.now }
    {
        match self {
            DiffStep::Append(_) => count < CONTRACT_SECTORS,
            DiffStep::Trim(fewer) => *fewer <= count,
            DiffStep::Swap(i, j) => *i < count && *j < count,
            DiffStep::Set(i, _) => *i < count,
        }
    }

    /// How many hashes there are after the step.
    pub(crate) fn count_after(&self, count: u64) -> u64
        requires count { count ≤ CONTRACT_SECTORS }
        requires fits { IsTrue (step_fits count self.now) }
        ensures count { result ≡ count_after_step count self.now }
        ensures bound { result ≤ CONTRACT_SECTORS }
    {
        match self {
            DiffStep::Append(_) => count + 1,
            DiffStep::Trim(fewer) => count - *fewer,
            DiffStep::Swap(_, _) | DiffStep::Set(_, _) => count,
        }
    }
}
