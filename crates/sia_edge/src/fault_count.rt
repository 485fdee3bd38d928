//! How often calls have failed.
ghost use Rattle.std.specs.Prelude.{◌≡◌, ◌≤◌};
ghost use Rattle.sia_edge.specs.Edge.{Rose};
ghost use Rattle.sia_edge.specs.Memory.{one_more};

use std::marker::Model;

/// A count of faults, which each object that can fail keeps. It stays at the greatest `u64`.
#[derive(Drop)]
pub(crate) struct FaultCount {
    count: u64,
}

impl Model for FaultCount {
    ghost use Rattle.std.specs.Prelude.{ℕ};

    ghost Value = { ℕ };

    ghost view = { λ faults. faults.count };
}

impl FaultCount {
    /// No call has failed so far.
    pub(crate) fn none() -> FaultCount
        ensures { result ≡ 0 }
    {
        FaultCount { count: 0 }
    }

    /// Counts a call that failed.
    pub(crate) fn add(&mut self)
        ensures counted { self.new ≡ one_more self.old }
        ensures later { self.old ≤ self.new }
        ensures rose { Rose self.old self.new }
    {
        self.count = self.count.saturating_add(1);
    }
}
