//! What a session does for one body.
ghost use Rattle.std.specs.Prelude.{◌≡◌, ◌≤◌, ◌^◌, [], IfErr, IsErr};
ghost use Rattle.sia_session.specs.Acts.{IsCaused, LeavesAlone};
ghost use Rattle.sia_session.specs.Replies.{after_proposal};
ghost use Rattle.sia_session.specs.Script.{Follows};
ghost use Rattle.sia_session.specs.Talk.{answered, asked_of, asks, limit_of, refused, request_in, signed_of, taken_of, unsigned};
ghost use Rattle.sia_session.specs.Told.{Grows};

use crate::asking::{ask, exit, lock, propose, say, unlock};
use crate::desk::Desk;
use crate::reading::read;
use crate::signing::{sign_form, sign_renewal, sign_write};
use crate::state::{Done, Kept, Proposal, State};
use crate::writing::write;
use sia_commands::codes::WRONG_STATE;
use sia_commands::{Command, Stop};
use sia_encoding::Item;
use sia_rhp::{FormRequest, MessageFault, Request};
use sia_types::Transaction;
use std::alloc::Global;

/// No request has the label (the numbers of codes are this project's own).
const UNKNOWN_RPC: u64 = 1;

/// The body is no message.
const BAD_MESSAGE: u64 = 2;

/// Does what a body asks for, in this state.
pub(crate) fn answer<Rt, K: Desk<Rt>>(
    alloc: Global,
    rt: &Rt,
    desk: &mut K,
    session: u64,
    sector: u64,
    state: State,
    body: &[u8],
) -> Result<Done, Stop>
    requires { sector ≤ 2 ^ 22 }
    ensures acts { Grows (K.acts desk.old) (K.acts desk.new) (Follows (taken_of state session sector (request_in (limit_of sector) body.now)) result) }
    ensures alone { LeavesAlone K.stays K.stops K.sector desk.old desk.new }
    ensures stop { IfErr result (IsCaused K.stops desk.old desk.new) }
{
    match Request::decode(alloc, body, body_limit(sector)) {
        Err(fault) => refuse(alloc, fault, state),
        Ok(request) => answer_request(alloc, rt, desk, session, sector, request, state),
    }
}

/// The greatest length of a body, and of what it holds, where a sector has so many bytes.
pub(crate) fn body_limit(sector: u64) -> u64
    requires { sector ≤ 2 ^ 22 }
    ensures { result ≡ limit_of sector }
{
    4 * sector + 65_536
}

/// A body that is no request.
fn refuse(alloc: Global, fault: MessageFault, state: State) -> Result<Done, Stop>
    ensures says { Follows (refused state fault) result [] }
    ensures memory { fault ≡ MessageFault.Memory → IsErr result }
    ensures stop { IfErr result (λ why. why ≡ Stop.Memory) }
{
    match fault {
        MessageFault::UnknownRpc => say(alloc, UNKNOWN_RPC, state.dropped()),
        MessageFault::BadMessage { .. } => say(alloc, BAD_MESSAGE, state.dropped()),
        MessageFault::Memory => Err(Stop::Memory),
    }
}

/// A request.
fn answer_request<Rt, K: Desk<Rt>>(
    alloc: Global,
    rt: &Rt,
    desk: &mut K,
    session: u64,
    sector: u64,
    request: Request,
    state: State,
) -> Result<Done, Stop>
    ensures acts { Grows (K.acts desk.old) (K.acts desk.new) (Follows (answered state session sector request) result) }
    ensures alone { LeavesAlone K.stays K.stops K.sector desk.old desk.new }
    ensures stop { IfErr result (IsCaused K.stops desk.old desk.new) }
{
    match state {
        State::Idle => answer_asked(alloc, rt, desk, session, sector, request, State::Idle),
        State::Locked => answer_asked(alloc, rt, desk, session, sector, request, State::Locked),
        State::Proposed(proposal) => answer_proposed(alloc, rt, desk, session, request, proposal),
    }
}

/// A request while no proposal waits.
fn answer_asked<Rt, K: Desk<Rt>>(
    alloc: Global,
    rt: &Rt,
    desk: &mut K,
    session: u64,
    sector: u64,
    request: Request,
    state: State,
) -> Result<Done, Stop>
    ensures acts { Grows (K.acts desk.old) (K.acts desk.new) (Follows (asked_of state session sector request) result) }
    ensures alone { LeavesAlone K.stays K.stops K.sector desk.old desk.new }
    ensures stop { IfErr result (IsCaused K.stops desk.old desk.new) }
{
    match request {
        Request::Settings => ask(alloc, rt, desk, session, Command::Settings, state),
        Request::FormContract(form) => propose_form(alloc, rt, desk, session, form, state),
        Request::FormSign(_) => say(alloc, WRONG_STATE, state),
        Request::Lock(request) => lock(alloc, rt, desk, session, request, state),
        Request::Unlock => unlock(alloc, rt, desk, session, state),
        Request::Write(request) => write(alloc, rt, desk, session, sector, request, state),
        Request::WriteSign(_) => say(alloc, WRONG_STATE, state),
        Request::Read(request) => read(alloc, rt, desk, session, sector, request, state),
        Request::Roots(roots) => ask(alloc, rt, desk, session, Command::Roots(roots), state),
        Request::Renew(tx) => propose_renewal(alloc, rt, desk, session, tx, state),
        Request::RenewSign(_) => say(alloc, WRONG_STATE, state),
        Request::LoopExit => Ok(exit(state)),
    }
}

/// A request for a formation.
fn propose_form<Rt, K: Desk<Rt>>(
    alloc: Global,
    rt: &Rt,
    desk: &mut K,
    session: u64,
    form: FormRequest,
    state: State,
) -> Result<Done, Stop>
    ensures acts { Grows (K.acts desk.old) (K.acts desk.new) (Follows (asks session (Command.Form form) (after_proposal (Kept.Form form) state)) result) }
    ensures alone { LeavesAlone K.stays K.stops K.sector desk.old desk.new }
    ensures stop { IfErr result (IsCaused K.stops desk.old desk.new) }
{
    let kept = Proposal::form(form.copy(alloc)?);
    propose(alloc, rt, desk, session, Command::Form(form), kept, state)
}

/// A request for a renewal.
fn propose_renewal<Rt, K: Desk<Rt>>(
    alloc: Global,
    rt: &Rt,
    desk: &mut K,
    session: u64,
    tx: Transaction,
    state: State,
) -> Result<Done, Stop>
    ensures acts { Grows (K.acts desk.old) (K.acts desk.new) (Follows (asks session (Command.Renew tx) (after_proposal (Kept.Renew tx) state)) result) }
    ensures alone { LeavesAlone K.stays K.stops K.sector desk.old desk.new }
    ensures stop { IfErr result (IsCaused K.stops desk.old desk.new) }
{
    let kept = Proposal::renewal(tx.copy(alloc)?);
    propose(alloc, rt, desk, session, Command::Renew(tx), kept, state)
}

/// A request while a proposal waits for its signatures.
fn answer_proposed<Rt, K: Desk<Rt>>(
    alloc: Global,
    rt: &Rt,
    desk: &mut K,
    session: u64,
    request: Request,
    proposal: Proposal,
) -> Result<Done, Stop>
    ensures acts { Grows (K.acts desk.old) (K.acts desk.new) (Follows (signed_of proposal session request) result) }
    ensures alone { LeavesAlone K.stays K.stops K.sector desk.old desk.new }
    ensures stop { IfErr result (IsCaused K.stops desk.old desk.new) }
{
    match request {
        Request::FormSign(signatures) => sign_form(alloc, rt, desk, session, proposal, signatures),
        Request::WriteSign(signature) => sign_write(alloc, rt, desk, session, proposal, signature),
        Request::RenewSign(signatures) => {
            sign_renewal(alloc, rt, desk, session, proposal, signatures)
        }
        other => drop_proposal(alloc, &other, proposal.state_before()),
    }
}

/// A request that has no signatures: the proposal was dropped.
fn drop_proposal(alloc: Global, request: &Request, state: State) -> Result<Done, Stop>
    ensures says { Follows (unsigned state request.now) result [] }
    ensures stop { IfErr result (λ why. why ≡ Stop.Memory) }
{
    match request {
        Request::LoopExit => Ok(exit(state)),
        _ => say(alloc, WRONG_STATE, state),
    }
}
