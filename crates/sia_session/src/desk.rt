//! Where the commands of sessions are acted.
ghost use Rattle.std.specs.Prelude.{◌≡◌, ◌≤◌, ℕ, List, Option, IfErr};
ghost use Rattle.sia_edge.specs.Edge.{Rose};
ghost use Rattle.sia_commands.specs.declared.stop.Stop.{Stop as Why};
ghost use Rattle.sia_session.specs.Acts.{Act, Acted, IsCaused, IsOfKind, LeavesAlone, LeavesLive};

use sia_commands::{Command, Reply, Stop};

/// Where the commands of sessions are acted, one by one. An act may wait for those of others.
pub trait Desk<Rt> {
    /// The acts of this desk of which an event was noted, where they are told.
    ghost acts: { Self → Option (List Act) };

    /// How often a command was stopped so.
    ghost stops: { Self → Why → ℕ };

    /// How many bytes a sector has.
    ghost sector: { Self → ℕ };

    /// What an act leaves alone, for whoever made the desk.
    ghost stays: { Self → Self → Type 0 };

    /// Acts a command of a session. Its error is a stop whose count rose; a leave has none.
    fn act(&mut self, rt: &Rt, session: u64, command: Command) -> Result<Reply, Stop>
        ensures acts { Acted (acts self.old) (acts self.new) session command result }
        ensures kind { IsOfKind (sector self.old) command result }
        ensures live { LeavesLive (acts self.old) session command result }
        ensures alone { LeavesAlone stays stops sector self.old self.new }
        ensures cause { IfErr result (λ why. Rose (stops self.old why) (stops self.new why)) };

    /// A desk stays as it is.
    ghost stays_itself: { (desk : Self) → stays desk desk };

    /// What each of two acts leaves alone, both do.
    ghost stays_on: { (first second third : Self) → stays first second → stays second third → stays first third };
}
