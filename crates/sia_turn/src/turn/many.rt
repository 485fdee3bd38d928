//! Many passes at once, as for the workers of a server.
ghost use Rattle.std.specs.Prelude.{◌≡◌, ℕ, ◌-◌, ◌≤◌, [], ◌∷◌, replicate, false, All, OnOk, OnErr, IfOk};
ghost use Rattle.sia_turn.specs.Tokens.{Gathers};

use crate::logged::Logged;
use crate::turn::{Pass, Turn};
use std::alloc::{AllocError, Global};

impl<T: Logged> Turn<T> {
    /// Splits off so many passes, each as [`split`](Turn::split) does. Its error is want of memory: the pass is as it was.
    pub fn split_all(
        &self,
        alloc: Global,
        pass: &mut Pass<T>,
        count: usize,
    ) -> Result<Vec<Pass<T>>, AllocError>
        requires turn { pass.old.turn ≡ self.now.turn }
        requires outside { pass.old.inside ≡ false }
        requires rest { count ≤ pass.old.rest }
        ensures pass { OnOk result (pass.new ≡ record pass.old { rest = pass.old.rest - count }) }
        ensures new { IfOk result (λ passes. passes.items ≡ replicate count (record pass.old { own = []; parts = 1; rest = 0 })) }
        ensures err { OnErr result (pass.new ≡ pass.old) }
    {
        let mut passes = Vec::with_capacity(alloc, count)?;
        for _ in 0..count {
            passes.push(self.split(pass))?;
        }
        Ok(passes)
    }

    /// Takes the other passes in, each as [`join`](Turn::join) does, the first one first. No position belongs to two.
    pub fn gather(&self, pass: &mut Pass<T>, others: Vec<Pass<T>>)
        requires turn { All (λ p. p.turn ≡ self.now.turn) (pass.old ∷ others.items) }
        requires outside { All (λ p. p.inside ≡ false) (pass.old ∷ others.items) }
        ensures { Gathers pass.old others.items pass.new }
    {
        for other in others {
            self.join(pass, other);
        }
    }
}
