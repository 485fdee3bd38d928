//! The steps of a turn.
//!
//! - draw: a ticket is drawn, by adding 1 to word 0
//! - look: word 1 is read; where it is the ticket, the pass has the slot and its value
//! - begin: the same for the first pass, which finds the slot empty
//! - pass on: the slot is given back, and 1 added to word 1
//! - split, join: one view becomes two, and two become one
//! - meet: after a join both seen lists are compared
//!
//! The value itself is moved by an exchange of the slot, which is no step.
ghost use Rattle.sia_turn.specs.Moves.{Draws, Looks, Begins, GivesBack, Meets};
ghost use Rattle.sia_turn.specs.Views.{lender, newcomer, joined, spent};

use crate::logged::{Logged, Named};
use crate::view::View;
use atomic_table::{Join, Play, Split};
use std::marker::PhantomData;

pub struct Draw;

impl<T, E> Play<Option<T>, View<E>> for Draw {
    ghost then = { Draws };
}

pub struct Look;

impl<T: Logged> Play<Option<T>, View<T::Entry>> for Look {
    ghost then = { Looks T.stands };
}

pub struct Begin;

impl<T, E> Play<Option<T>, View<E>> for Begin {
    ghost then = { Begins };
}

/// The entries that N names are added.
pub struct PassOn<N>(PhantomData<N>);

impl<T: Logged, N: Named<T>> Play<Option<T>, View<T::Entry>> for PassOn<N> {
    ghost then = { GivesBack N.entries };
}

pub struct Meet;

impl<T, E> Play<Option<T>, View<E>> for Meet {
    ghost then = { Meets };
}

pub struct Fork;

impl<E> Split<View<E>> for Fork {
    ghost left = { lender };

    ghost right = { newcomer };
}

impl<E> Join<View<E>> for Fork {
    ghost both = { joined };

    ghost spent = { spent };
}
