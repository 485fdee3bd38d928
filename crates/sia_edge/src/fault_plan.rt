//! Which calls of an object in memory fail, by their numbers.
ghost use Rattle.std.specs.Prelude.{◌≡◌, ◌≤◌, IsTrue};
ghost use Rattle.sia_edge.specs.Edge.{Rose};
ghost use Rattle.sia_edge.specs.Memory.{fresh_plan, fails_next, after_call, after_fault};

use crate::fault_count::FaultCount;
use sia_encoding::List;

/// The numbers of the calls that fail, counted from 0, and how many calls and faults there were so far.
#[derive(Drop)]
pub struct FaultPlan {
    fails: List<u64>,
    calls: u64,
    faults: FaultCount,
}

impl FaultPlan {
    /// No call was made so far.
    pub(crate) fn new(fails: List<u64>) -> FaultPlan
        ensures { result ≡ fresh_plan fails }
    {
        FaultPlan {
            fails,
            calls: 0,
            faults: FaultCount::none(),
        }
    }

    /// Counts a call, and says whether it fails.
    pub(crate) fn count_call(&mut self) -> bool
        ensures fails { result ≡ fails_next self.old }
        ensures counted { self.new ≡ after_call self.old }
        ensures later { self.old.faults ≤ self.new.faults }
        ensures rose { IsTrue result → Rose self.old.faults self.new.faults }
    {
        let fails = self.fails.as_slice().contains(&self.calls);
        self.calls = self.calls.saturating_add(1);
        if fails {
            self.faults.add();
        }
        fails
    }

    /// Counts a fault that the call itself met, as a growth that was refused.
    pub(crate) fn count_fault(&mut self)
        ensures counted { self.new ≡ after_fault self.old }
        ensures later { self.old.faults ≤ self.new.faults }
        ensures rose { Rose self.old.faults self.new.faults }
    {
        self.faults.add();
    }
}
