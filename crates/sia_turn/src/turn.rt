//! The turn and its passes.
ghost use Rattle.std.specs.Prelude.{◌≡◌, ℕ, ◌+◌, ◌-◌, ◌≤◌, List, [], ◌++◌, length, true, false, ◌⊎◌, IfOk, IfErr};
ghost use Rattle.sia_turn.specs.Entries.{StartsWith, numbered, StandAt, AreDisjoint, OwnsAll};
ghost use Rattle.sia_turn.specs.Tokens.{Place, Token};
ghost use Rattle.sia_turn.specs.Turning.{Turning};
ghost use Rattle.sia_turn.specs.Views.{first_view, token, IsHeld};

use crate::logged::{Logged, Named};
use crate::steps::Fork;
use crate::view::View;
use atomic_table::{Seat, Table, TableRule};
use std::alloc::{AllocError, Global};
use std::marker::Model;
use std::sync::Wait;

mod many;
mod moves;

/// The rule of a turn, which is told the number of its seats.
pub struct Ticketed;

impl<T: Logged> TableRule<Option<T>, View<T::Entry>, u64> for Ticketed {
    ghost holds = { Turning T.stands };

    ghost first = { first_view };
}

/// One value, with which passes take turns.
#[derive(Drop)]
pub struct Turn<T: Logged> {
    table: Table<Option<T>, View<T::Entry>, u64, Ticketed, Global>,
}

impl<T: Logged> Model for Turn<T> {
    ghost Value = { Place };

    ghost view = { λ t. record { turn = t.table.shared.table_id; seats = t.table.shared.key } };

    ghost invariant = { λ t. (t.table.shared.table_id.words ≡ 2) × (t.table.shared.table_id.slots ≡ 1) };
}

/// A caller's token, which has seen a list of entries and has its own ones. It takes no bytes.
#[derive(Drop)]
pub struct Pass<T: Logged> {
    seat: Seat<Option<T>, View<T::Entry>>,
}

impl<T: Logged> Model for Pass<T> {
    ghost Value = { Token T.Entry };

    ghost view = { λ p. token p.seat.table_id p.seat.me.0 };

    ghost invariant = { λ p. IsHeld p.seat.me };
}

impl<T: Logged> Turn<T> {
    /// A turn over the value, and its first pass, which has seen the entries that `N` names: these are its own.
    /// There are 1 to 66 seats, one for each pass that may exist at a time. Where memory is short the value comes back.
    pub fn new<N: Named<T>>(
        alloc: Global,
        value: T,
        seats: u64,
    ) -> Result<(Turn<T>, Pass<T>), (AllocError, T)>
        requires seats { (1 ≤ seats) × (seats ≤ 66) }
        requires value { T.stands value N.entries }
        ensures turn { IfOk result (λ r. (r.1.turn ≡ r.0.turn) × (r.0.seats ≡ seats)) }
        ensures entries { IfOk result (λ r. (r.1.seen ≡ N.entries) × (r.1.own ≡ numbered 0 N.entries)) }
        ensures pass { IfOk result (λ r. (r.1.inside ≡ false) × (r.1.parts ≡ 1) × (r.1.rest ≡ seats - 1)) }
        ensures err { IfErr result (λ e. e.1 ≡ value) }
    {
        let Ok((table, mut seat)) = Table::vacant(alloc, &[1, 0], 1, &seats) else {
            return Err((AllocError, value));
        };
        let turn = Turn { table };
        turn.begin::<N>(&mut seat, value);
        Ok((turn, Pass { seat }))
    }

    /// Splits off a pass that has seen what this one has, and has no own entries. This one can then split off one fewer.
    pub fn split(&self, pass: &mut Pass<T>) -> Pass<T>
        requires turn { pass.old.turn ≡ self.now.turn }
        requires outside { pass.old.inside ≡ false }
        requires rest { 1 ≤ pass.old.rest }
        ensures pass { pass.new ≡ record pass.old { rest = pass.old.rest - 1 } }
        ensures new { result ≡ record pass.old { own = []; parts = 1; rest = 0 } }
    {
        let seat = self.table.shared.split_seat::<Fork>(&mut pass.seat);
        Pass { seat }
    }

    /// Waits until it is the pass's turn, and takes the value. It stands for a list which begins with what the pass had
    /// seen, and has each of its own entries at its position. The pass has then seen that list.
    pub fn enter<R: Wait>(&self, rt: &R, pass: &mut Pass<T>) -> T
        requires turn { pass.old.turn ≡ self.now.turn }
        requires outside { pass.old.inside ≡ false }
        ensures pass { pass.new ≡ record pass.old { inside = true; seen = pass.new.seen } }
        ensures value { T.stands result pass.new.seen }
        ensures seen { StartsWith pass.new.seen pass.old.seen }
        ensures own { StandAt pass.new.seen pass.old.own }
    {
        self.wait(rt, &mut pass.seat)
    }

    /// Gives the value back, with the entries that `N` names added at the end of the list. They are the pass's own.
    pub fn leave<N: Named<T>>(&self, pass: &mut Pass<T>, value: T)
        requires turn { pass.old.turn ≡ self.now.turn }
        requires inside { pass.old.inside ≡ true }
        requires value { T.stands value (pass.old.seen ++ N.entries) }
        ensures { pass.new ≡ record pass.old { inside = false; seen = pass.old.seen ++ N.entries; own = pass.old.own ++ numbered (length pass.old.seen) N.entries } }
    {
        self.give::<N>(&mut pass.seat, value);
    }

    /// Takes another pass in: its entries join, the longer seen list is kept, and parts and rests add up.
    /// No position belongs to both.
    pub fn join(&self, pass: &mut Pass<T>, other: Pass<T>)
        requires turn { (pass.old.turn ≡ self.now.turn) × (other.turn ≡ self.now.turn) }
        requires outside { (pass.old.inside ≡ false) × (other.inside ≡ false) }
        ensures turn { (pass.new.turn ≡ pass.old.turn) × (pass.new.inside ≡ false) }
        ensures own { pass.new.own ≡ pass.old.own ++ other.own }
        ensures disjoint { AreDisjoint pass.old.own other.own }
        ensures longer { (pass.new.seen ≡ pass.old.seen) ⊎ (pass.new.seen ≡ other.seen) }
        ensures seen { StartsWith pass.new.seen pass.old.seen × StartsWith pass.new.seen other.seen }
        ensures sums { (pass.new.parts ≡ pass.old.parts + other.parts) × (pass.new.rest ≡ pass.old.rest + other.rest) }
    {
        let Pass { seat } = other;
        self.merge(&mut pass.seat, seat);
    }

    /// Ends the turn, and gives the value. The pass has all seats, so no other is left: it owns each position of the list.
    pub fn close(self, pass: Pass<T>) -> T
        requires turn { pass.turn ≡ self.turn }
        requires outside { pass.inside ≡ false }
        requires all { pass.parts + pass.rest ≡ self.seats }
        ensures { OwnsAll T.stands result pass.seen pass.own }
    {
        let Pass { seat } = pass;
        match self.finish(seat) {
            Some(value) => value,
            None => unreachable!(),
        }
    }
}
