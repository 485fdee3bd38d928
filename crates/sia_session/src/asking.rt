//! One command of a session, whose reply is sent and may change the session's state.
ghost use Rattle.std.specs.Prelude.{◌≡◌, ◌≢◌, [], IfErr, Ok};
ghost use Rattle.sia_session.specs.Acts.{IsCaused, LeavesAlone};
ghost use Rattle.sia_session.specs.Replies.{after_lock, after_proposal, after_unlock, spelled_reply};
ghost use Rattle.sia_session.specs.Script.{Follows};
ghost use Rattle.sia_session.specs.Talk.{asks, asks_in, exits, says, sends};
ghost use Rattle.sia_session.specs.Told.{Grows};

use crate::desk::Desk;
use crate::heard::{Heard, spelled_code};
use crate::state::{Done, Proposal, State, Taken};
use sia_commands::{Command, Stop};
use sia_rhp::LockRequest;
use std::alloc::Global;

/// A reply is sent. Its error is want of memory.
pub(crate) fn finish(alloc: Global, reply: &Heard, state: State) -> Result<Done, Stop>
    ensures sends { Follows (sends (spelled_reply reply.now) state) result [] }
    ensures stop { IfErr result (λ why. why ≡ Stop.Memory) }
{
    Ok(Done {
        taken: Taken::Send(reply.spelled(alloc)?),
        state,
    })
}

/// A code is sent, and nothing asked. Its error is want of memory.
pub(crate) fn say(alloc: Global, code: u64, state: State) -> Result<Done, Stop>
    ensures says { Follows (says code state) result [] }
    ensures stop { IfErr result (λ why. why ≡ Stop.Memory) }
{
    Ok(Done {
        taken: Taken::Send(spelled_code(alloc, code)?),
        state,
    })
}

/// The session ends, and nothing more is sent.
pub(crate) fn exit(state: State) -> Done
    ensures { Follows (exits state) (Ok result) [] }
{
    Done {
        taken: Taken::Exit,
        state,
    }
}

/// A command that doesn't change the state.
pub(crate) fn ask<Rt, K: Desk<Rt>>(
    alloc: Global,
    rt: &Rt,
    desk: &mut K,
    session: u64,
    command: Command,
    state: State,
) -> Result<Done, Stop>
    requires { command ≢ Command.Leave }
    ensures acts { Grows (K.acts desk.old) (K.acts desk.new) (Follows (asks_in state session command) result) }
    ensures alone { LeavesAlone K.stays K.stops K.sector desk.old desk.new }
    ensures stop { IfErr result (IsCaused K.stops desk.old desk.new) }
{
    match desk.act(rt, session, command) {
        Err(stop) => Err(stop),
        Ok(reply) => {
            let heard = Heard::new(reply);
            finish(alloc, &heard, state)
        }
    }
}

/// A request for a lock.
pub(crate) fn lock<Rt, K: Desk<Rt>>(
    alloc: Global,
    rt: &Rt,
    desk: &mut K,
    session: u64,
    request: LockRequest,
    before: State,
) -> Result<Done, Stop>
    ensures acts { Grows (K.acts desk.old) (K.acts desk.new) (Follows (asks session (Command.Lock request) (after_lock before)) result) }
    ensures alone { LeavesAlone K.stays K.stops K.sector desk.old desk.new }
    ensures stop { IfErr result (IsCaused K.stops desk.old desk.new) }
{
    match desk.act(rt, session, Command::Lock(request)) {
        Err(stop) => Err(stop),
        Ok(reply) => {
            let heard = Heard::new(reply);
            let state = heard.after_lock(before);
            finish(alloc, &heard, state)
        }
    }
}

/// A request to end the lock.
pub(crate) fn unlock<Rt, K: Desk<Rt>>(
    alloc: Global,
    rt: &Rt,
    desk: &mut K,
    session: u64,
    before: State,
) -> Result<Done, Stop>
    ensures acts { Grows (K.acts desk.old) (K.acts desk.new) (Follows (asks session Command.Unlock (after_unlock before)) result) }
    ensures alone { LeavesAlone K.stays K.stops K.sector desk.old desk.new }
    ensures stop { IfErr result (IsCaused K.stops desk.old desk.new) }
{
    match desk.act(rt, session, Command::Unlock) {
        Err(stop) => Err(stop),
        Ok(reply) => {
            let heard = Heard::new(reply);
            let state = heard.after_unlock(before);
            finish(alloc, &heard, state)
        }
    }
}

/// A command that proposes. The proposal waits for its signatures where the reply is no refusal.
pub(crate) fn propose<Rt, K: Desk<Rt>>(
    alloc: Global,
    rt: &Rt,
    desk: &mut K,
    session: u64,
    command: Command,
    proposal: Proposal,
    before: State,
) -> Result<Done, Stop>
    requires { command ≢ Command.Leave }
    ensures acts { Grows (K.acts desk.old) (K.acts desk.new) (Follows (asks session command (after_proposal proposal before)) result) }
    ensures alone { LeavesAlone K.stays K.stops K.sector desk.old desk.new }
    ensures stop { IfErr result (IsCaused K.stops desk.old desk.new) }
{
    match desk.act(rt, session, command) {
        Err(stop) => Err(stop),
        Ok(reply) => {
            let heard = Heard::new(reply);
            let state = heard.after_proposal(proposal, before);
            finish(alloc, &heard, state)
        }
    }
}
