//! Sessions that begin and end, and the settings.
ghost use Rattle.std.specs.Prelude.{◌≡◌, ◌≢◌, Err, IfOk, OnErr};
ghost use Rattle.sia_host.specs.Answered.{IsReaction};
ghost use Rattle.sia_host.specs.Entering.{enter_reaction, leave_reaction, settings_reaction};

use crate::host_core::Core;
use sia_commands::codes::WRONG_STATE;
use sia_commands::{Call, Kind, Outcome, Reply, Step};
use sia_rhp::Answer;
use std::alloc::{AllocError, Global};

impl Core {
    /// A session begins.
    pub(crate) fn enter(&mut self, alloc: Global, worker: u64) -> Result<Step, AllocError>
        ensures gives { IfOk result (λ step. IsReaction self.old (enter_reaction self.old worker) step self.new) }
        ensures kept { OnErr result (self.new ≡ self.old) }
    {
        let Some(session) = self.log.entered().checked_add(1) else {
            return Err(AllocError);
        };
        let challenge = self.log.next_challenge();
        let call = Call {
            worker,
            session,
            kind: Kind::Enter,
        };
        self.answer(
            alloc,
            call,
            None,
            Outcome::Fine,
            Reply::Entered { session, challenge },
        )
    }

    /// A session ends. It takes no memory.
    pub(crate) fn leave(&mut self, alloc: Global, worker: u64, session: u64) -> Step
        ensures { IsReaction self.old (leave_reaction self.old worker session) result self.new }
    {
        let Some(live) = self.log.session(session) else {
            return Step::plain(alloc, Reply::Error { code: WRONG_STATE }, None);
        };
        let call = Call {
            worker,
            session,
            kind: Kind::Leave,
        };
        let held = live.held;
        let event = self.event(call, held, Outcome::Fine);
        self.log.note_leave(event);
        Step::plain(alloc, Reply::Applied, None)
    }

    /// The settings are told.
    pub(crate) fn tell_settings(
        &mut self,
        alloc: Global,
        worker: u64,
        session: u64,
    ) -> Result<Step, AllocError>
        ensures gives { IfOk result (λ step. IsReaction self.old (settings_reaction self.old worker session) step self.new) }
        ensures kept { OnErr result (self.new ≡ self.old) }
    {
        let settings = self.settings_now();
        let call = Call {
            worker,
            session,
            kind: Kind::Settings,
        };
        self.answer(
            alloc,
            call,
            None,
            Outcome::Fine,
            Reply::Said(Answer::Settings(settings)),
        )
    }
}
