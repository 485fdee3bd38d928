//! Doors: links come in, and are given back when they were served.
ghost use Rattle.std.specs.Prelude.{◌≡◌, ℕ, Option, IfSome, ◌<◌};
ghost use Rattle.sia_edge.specs.Links.{Links, Accepts, AcceptCause, GivesBack};

use crate::Link;

/// What an accept answers.
#[derive(Drop)]
pub enum Next<L> {
    /// The first of the links to come, which is out from now on.
    Link(L),
    /// No link is to come.
    Closed,
    /// The accept failed, and the count of faults rose.
    Failed,
}

/// Where links come in, as a listener. `Rt` is the runtime that an accept needs.
pub trait Door<Rt> {
    /// The links that come in.
    type L: Link;

    /// The links to come, those given back and how many are out, where they are told.
    ghost links: { Self → Option (Links Self.L) };

    /// How often an accept has failed.
    ghost faults: { Self → ℕ };

    /// Waits for the next link. After `Closed` or `Failed` the links are those from before.
    fn accept(&mut self, rt: &Rt) -> Next<Self::L>
        ensures links { Accepts (links self.old) (links self.new) result }
        ensures cause { AcceptCause (faults self.old) (faults self.new) result };

    /// Takes back a link that is out.
    fn give_back(&mut self, link: Self::L)
        requires { IfSome (links self.old) (λ told. 0 < told.out) }
        ensures links { GivesBack (links self.old) (links self.new) link }
        ensures faults { faults self.new ≡ faults self.old };
}
