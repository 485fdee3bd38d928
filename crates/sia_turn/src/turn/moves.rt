//! What the calls do with a pass's seat.
ghost use Rattle.std.specs.Prelude.{◌≡◌, ℕ, ◌+◌, ◌<◌, [], ◌++◌, IfSome, IfNone, IsSomeAnd};
ghost use Rattle.sia_turn.specs.Entries.{StartsWith, AreDisjoint, OwnsAll};
ghost use Rattle.sia_turn.specs.Views.{gone, longer, IsOutside, IsInside};
ghost use Rattle.sia_turn.specs.Moves.{Enters, IsWaiting};
ghost use Rattle.sia_turn.specs.Turning.{IsOpening};
ghost use Rattle.sia_turn.specs.declared.view.Stage.TheVariants.{Outside};

use crate::logged::{Logged, Named};
use crate::steps::{Begin, Draw, Fork, Look, Meet, PassOn};
use crate::turn::Turn;
use crate::view::View;
use atomic_table::Seat;
use std::sync::Wait;

// Word 0 counts the tickets drawn, and word 1 those served.
const DRAWN: usize = 0;

const SERVED: usize = 1;

impl<T: Logged> Turn<T> {
    // The first pass puts the first value in.
    pub(super) fn begin<N: Named<T>>(&self, seat: &mut Seat<Option<T>, View<T::Entry>>, value: T)
        requires own { seat.old.table_id ≡ self.now.turn }
        requires opens { IsOpening seat.old.me.0.stage × (seat.old.me.1 ≡ []) }
        requires value { T.stands value (seat.old.me.0.seen ++ N.entries) }
        ensures own { seat.new.table_id ≡ seat.old.table_id }
        ensures outside { IsOutside seat.new.me }
        ensures view { seat.new.me.0 ≡ gone N.entries seat.old.me.0 }
    {
        self.table.shared.load::<Begin>(seat, SERVED);
        self.give::<N>(seat, value);
    }

    pub(super) fn wait<R: Wait>(&self, rt: &R, seat: &mut Seat<Option<T>, View<T::Entry>>) -> T
        requires own { seat.old.table_id ≡ self.now.turn }
        requires outside { IsOutside seat.old.me }
        requires live { 0 < seat.old.me.0.parts }
        ensures own { seat.new.table_id ≡ seat.old.table_id }
        ensures entered { Enters T.stands result seat.old.me seat.new.me }
    {
        let ticket = self.table.shared.fetch_add::<Draw>(seat, DRAWN, 1);
        for _ in rt.forever() {
            if let Some(value) = self.look(seat, ticket) {
                return value;
            }
            self.sleep(rt, ticket);
        }
        unreachable!()
    }

    // The value, where this ticket is served now.
    fn look(&self, seat: &mut Seat<Option<T>, View<T::Entry>>, ticket: u64) -> Option<T>
        requires own { seat.old.table_id ≡ self.now.turn }
        requires waits { IsWaiting ticket seat.old.me }
        ensures own { seat.new.table_id ≡ seat.old.table_id }
        ensures none { IfNone result (seat.new.me ≡ seat.old.me) }
        ensures some { IfSome result (λ x. Enters T.stands x seat.old.me seat.new.me) }
    {
        if self.table.shared.load::<Look>(seat, SERVED) != ticket {
            return None;
        }
        self.table.shared.exchange(seat, 0, None)
    }

    // Sleeps until another ticket is served. It may also return for no reason.
    fn sleep<R: Wait>(&self, rt: &R, ticket: u64) {
        let served = self.table.shared.peek(SERVED);
        if served != ticket {
            let low = (served & 0xffff_ffff) as u32;
            self.table.shared.park(rt, SERVED, low);
        }
    }

    pub(super) fn give<N: Named<T>>(&self, seat: &mut Seat<Option<T>, View<T::Entry>>, value: T)
        requires own { seat.old.table_id ≡ self.now.turn }
        requires inside { IsInside seat.old.me }
        requires value { T.stands value (seat.old.me.0.seen ++ N.entries) }
        ensures own { seat.new.table_id ≡ seat.old.table_id }
        ensures outside { IsOutside seat.new.me }
        ensures view { seat.new.me.0 ≡ gone N.entries seat.old.me.0 }
    {
        match self.table.shared.exchange(seat, 0, Some(value)) {
            None => {}
            Some(_) => unreachable!(),
        }
        let served = self.table.shared.fetch_add::<PassOn<N>>(seat, SERVED, 1);
        self.wake_after(served);
    }

    // Wakes those who wait behind this ticket, which was served. Who draws a ticket later finds it served.
    fn wake_after(&self, served: u64) {
        if self.table.shared.peek(DRAWN) != served.wrapping_add(1) {
            self.table.shared.wake_all(SERVED);
        }
    }

    pub(super) fn merge(
        &self,
        seat: &mut Seat<Option<T>, View<T::Entry>>,
        other: Seat<Option<T>, View<T::Entry>>,
    )
        requires own { (seat.old.table_id ≡ self.now.turn) × (other.table_id ≡ self.now.turn) }
        requires outside { IsOutside seat.old.me × IsOutside other.me }
        requires live { 0 < seat.old.me.0.parts }
        ensures own { seat.new.table_id ≡ seat.old.table_id }
        ensures outside { IsOutside seat.new.me }
        ensures entries { seat.new.me.0.own ≡ seat.old.me.0.own ++ other.me.0.own }
        ensures disjoint { AreDisjoint seat.old.me.0.own other.me.0.own }
        ensures sums { (seat.new.me.0.parts ≡ seat.old.me.0.parts + other.me.0.parts) × (seat.new.me.0.rest ≡ seat.old.me.0.rest + other.me.0.rest) }
        ensures longer { seat.new.me.0.seen ≡ longer seat.old.me.0.seen other.me.0.seen }
        ensures seen { StartsWith seat.new.me.0.seen seat.old.me.0.seen × StartsWith seat.new.me.0.seen other.me.0.seen }
    {
        self.table.shared.join_seat::<Fork>(seat, other);
        self.table.shared.load::<Meet>(seat, SERVED);
    }

    // The last seat has all parts, so the slot has the value.
    pub(super) fn finish(self, seat: Seat<Option<T>, View<T::Entry>>) -> Option<T>
        requires own { seat.table_id ≡ self.turn }
        requires outside { seat.me.0.stage ≡ Outside }
        requires all { seat.me.0.parts + seat.me.0.rest ≡ self.seats }
        ensures { IsSomeAnd result (λ x. OwnsAll T.stands x seat.me.0.seen seat.me.0.own) }
    {
        let Turn { table } = self;
        let mut closed = table.close_with(seat);
        let slot = closed.take(0);
        closed.free();
        slot
    }
}
