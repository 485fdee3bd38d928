//! A worked example of a client: threads add numbers to one list.
ghost use Rattle.std.specs.Prelude.{◌≡◌, ℕ, ◌+◌, ◌^◌, ◌<◌, List, [], ◌∷◌, ◌++◌, length, true, false, Some, slice_get, IfOk, OnOk, OnErr};
ghost use Rattle.sia_turn.specs.Entries.{StartsWith};

use sia_turn::{Logged, Named, Nothing, Pass, Turn};
use std::alloc::{AllocError, Global};
use std::marker::{Brand, Model, PhantomData};
use std::sync::Wait;

/// Numbers in the order in which they were added. Contracts see them as their list, which is also what they stand for.
#[derive(Drop)]
pub struct Numbers {
    items: Vec<u64>,
}

impl Model for Numbers {
    ghost Value = { List ℕ };

    ghost view = { λ n. n.items.items };
}

impl Logged for Numbers {
    type Entry = u64;

    // Any list may be a `Numbers` in a law, so the bound stands here.
    ghost stands = { λ numbers log. (numbers ≡ log) × (length log < 2 ^ 64) };

    fn logged(&self) -> u64 {
        self.items.len() as u64
    }

    ghost short = { λ numbers log stands. stands.1 };
}

impl Numbers {
    /// No numbers.
    pub fn new(alloc: Global) -> Numbers
        ensures { result ≡ [] }
    {
        Numbers {
            items: Vec::new(alloc),
        }
    }

    pub fn as_slice(&self) -> &[u64]
        ensures { result.now ≡ self.now }
    {
        self.items.as_slice()
    }

    fn push(&mut self, number: u64) -> Result<(), AllocError>
        ensures ok { OnOk result ((self.new ≡ self.old ++ number ∷ []) × (length self.new < 2 ^ 64)) }
        ensures err { OnErr result (self.new ≡ self.old) }
    {
        self.items.push(number)?;
        let _count = self.items.len();
        Ok(())
    }
}

/// What a caller adds. Each call picks it.
pub trait Added {
    ghost added: { List ℕ };
}

impl Added for Brand {
    ghost added = { [] };
}

/// The entries of a caller that adds what `A` says.
pub struct Adding<A>(PhantomData<A>);

impl<A: Added> Named<Numbers> for Adding<A> {
    ghost entries = { A.added };
}

// Leaves with one number added.
fn leave_with<A: Added>(
    turn: &Turn<Numbers>,
    pass: &mut Pass<Numbers>,
    numbers: Numbers,
    number: &u64,
)
    requires added { A.added ≡ number.now ∷ [] }
    requires turn { pass.old.turn ≡ turn.now.turn }
    requires inside { pass.old.inside ≡ true }
    requires value { (numbers ≡ pass.old.seen ++ number.now ∷ []) × (length numbers < 2 ^ 64) }
    ensures { pass.new ≡ record pass.old { inside = false; seen = pass.old.seen ++ number.now ∷ []; own = pass.old.own ++ (length pass.old.seen, number.now) ∷ [] } }
{
    turn.leave::<Adding<A>>(pass, numbers);
}

/// Adds a number when it is the pass's turn, and answers its position in the list. Where memory is short it adds none.
pub fn add<R: Wait>(
    rt: &R,
    turn: &Turn<Numbers>,
    pass: &mut Pass<Numbers>,
    number: u64,
) -> Result<u64, AllocError>
    requires turn { pass.old.turn ≡ turn.now.turn }
    requires outside { pass.old.inside ≡ false }
    ensures added { IfOk result (λ position. (slice_get pass.new.seen position ≡ Some number) × (pass.new.own ≡ pass.old.own ++ (position, number) ∷ [])) }
    ensures err { OnErr result (pass.new.own ≡ pass.old.own) }
    ensures seen { StartsWith pass.new.seen pass.old.seen }
    ensures same { pass.new ≡ record pass.old { seen = pass.new.seen; own = pass.new.own } }
{
    let mut numbers = turn.enter(rt, pass);
    let position = numbers.logged();
    if numbers.push(number).is_err() {
        turn.leave::<Nothing>(pass, numbers);
        return Err(AllocError);
    }
    leave_with::<Brand>(turn, pass, numbers, &number);
    Ok(position)
}
