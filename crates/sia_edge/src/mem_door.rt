//! A door in memory. Contracts see its links, and which of its accepts fail.
ghost use Rattle.std.specs.Prelude.{◌≡◌, ◌<◌, [], Some, option_copied, slice_get, if◌then◌else◌};
ghost use Rattle.sia_edge.specs.Links.{Accepts, AcceptCause, GivesBack};
ghost use Rattle.sia_edge.specs.Memory.{fresh_plan, fails_next, after_call};
ghost use Rattle.sia_edge.specs.MemDoor.{first_of};

use crate::fault_plan::FaultPlan;
use crate::{Door, Link, Next};
use sia_encoding::List;
use std::collections::VecDeque;
use std::marker::Model;

/// A door that the links of a list come through, with accepts that fail by number.
///
/// Its queue has the links to come, and behind them those given back. A link given back finds the place that it left, so
/// the door takes no memory.
#[derive(Drop)]
pub struct MemDoor<L> {
    queue: VecDeque<L>,
    coming: usize,
    out: usize,
    plan: FaultPlan,
}

impl<L> Model for MemDoor<L> {
    ghost use Rattle.std.specs.Prelude.{◌+◌, ◌≤◌, length, take, drop};
    ghost use Rattle.std.specs.VecDeque.{deque_capacity};
    ghost use Rattle.sia_edge.specs.MemDoor.{DoorState};

    ghost Value = { DoorState L };

    ghost view = { λ door. record { links = record { coming = take door.coming door.queue.items; returned = drop door.coming door.queue.items; out = door.out }; plan = door.plan } };

    ghost invariant = { λ door. (door.coming ≤ length door.queue.items) × (length door.queue.items + door.out ≤ deque_capacity door.queue) };
}

impl<L> MemDoor<L> {
    /// These links are to come. The accepts with these numbers, counted from 0, will fail. It takes no memory.
    pub fn new(links: List<L>, fails: List<u64>) -> MemDoor<L>
        ensures { result ≡ record { links = record { coming = links; returned = []; out = 0 }; plan = fresh_plan fails } }
    {
        let queue = VecDeque::from(links.into_vec());
        MemDoor {
            coming: queue.len(),
            queue,
            out: 0,
            plan: FaultPlan::new(fails),
        }
    }

    /// The link that was given back with this number, counted from 0, or `None` past the last.
    pub fn returned(&self, number: usize) -> Option<&L>
        ensures { option_copied result ≡ slice_get self.now.links.returned number }
    {
        let place = self.coming.checked_add(number)?;
        self.queue.get(place)
    }
}

impl<Rt, L: Link> Door<Rt> for MemDoor<L> {
    type L = L;

    ghost links = { λ door. Some door.links };

    ghost faults = { λ door. door.plan.faults };

    fn accept(&mut self, _rt: &Rt) -> Next<L>
        ensures links { Accepts (Some self.old.links) (Some self.new.links) result }
        ensures cause { AcceptCause self.old.plan.faults self.new.plan.faults result }
        ensures exact { result ≡ (if fails_next self.old.plan then Next.Failed else first_of self.old.links.coming) }
        ensures counted { self.new.plan ≡ after_call self.old.plan }
    {
        if self.plan.count_call() {
            return Next::Failed;
        }
        if self.coming == 0 {
            return Next::Closed;
        }
        let link = self.queue.pop_front().unwrap();
        self.coming -= 1;
        self.out += 1;
        Next::Link(link)
    }

    fn give_back(&mut self, link: L)
        requires { 0 < self.old.links.out }
        ensures links { GivesBack (Some self.old.links) (Some self.new.links) link }
        ensures faults { self.new.plan.faults ≡ self.old.plan.faults }
        ensures counted { self.new.plan ≡ self.old.plan }
    {
        self.queue.push_back_reserved(link);
        self.out -= 1;
    }
}
