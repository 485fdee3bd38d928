//! Signatures, while a proposal waits for its own. They use it up where they are for it, and else it is dropped.
ghost use Rattle.std.specs.Prelude.{IfErr};
ghost use Rattle.sia_session.specs.Acts.{IsCaused, LeavesAlone};
ghost use Rattle.sia_session.specs.Script.{Follows};
ghost use Rattle.sia_session.specs.Talk.{signed_of};
ghost use Rattle.sia_session.specs.Told.{Grows};

use crate::asking::{ask, say};
use crate::desk::Desk;
use crate::state::{Done, Proposal};
use sia_commands::codes::WRONG_STATE;
use sia_commands::{Command, Stop};
use sia_rhp::Request;
use sia_types::{Blob, List, Signature};
use std::alloc::Global;

/// Signatures of a formation.
pub(crate) fn sign_form<Rt, K: Desk<Rt>>(
    alloc: Global,
    rt: &Rt,
    desk: &mut K,
    session: u64,
    proposal: Proposal,
    signatures: List<Signature>,
) -> Result<Done, Stop>
    ensures acts { Grows (K.acts desk.old) (K.acts desk.new) (Follows (signed_of proposal session (Request.FormSign signatures)) result) }
    ensures alone { LeavesAlone K.stays K.stops K.sector desk.old desk.new }
    ensures stop { IfErr result (IsCaused K.stops desk.old desk.new) }
{
    let before = proposal.state_before();
    match proposal.into_form() {
        None => say(alloc, WRONG_STATE, before),
        Some(form) => {
            let command = Command::FormSign(form, signatures);
            ask(alloc, rt, desk, session, command, before)
        }
    }
}

/// The signature of a change of sectors.
pub(crate) fn sign_write<Rt, K: Desk<Rt>>(
    alloc: Global,
    rt: &Rt,
    desk: &mut K,
    session: u64,
    proposal: Proposal,
    signature: Blob,
) -> Result<Done, Stop>
    ensures acts { Grows (K.acts desk.old) (K.acts desk.new) (Follows (signed_of proposal session (Request.WriteSign signature)) result) }
    ensures alone { LeavesAlone K.stays K.stops K.sector desk.old desk.new }
    ensures stop { IfErr result (IsCaused K.stops desk.old desk.new) }
{
    let before = proposal.state_before();
    match proposal.into_write() {
        None => say(alloc, WRONG_STATE, before),
        Some(write) => {
            let command = Command::WriteSign(write, signature);
            ask(alloc, rt, desk, session, command, before)
        }
    }
}

/// Signatures of a renewal.
pub(crate) fn sign_renewal<Rt, K: Desk<Rt>>(
    alloc: Global,
    rt: &Rt,
    desk: &mut K,
    session: u64,
    proposal: Proposal,
    signatures: List<Signature>,
) -> Result<Done, Stop>
    ensures acts { Grows (K.acts desk.old) (K.acts desk.new) (Follows (signed_of proposal session (Request.RenewSign signatures)) result) }
    ensures alone { LeavesAlone K.stays K.stops K.sector desk.old desk.new }
    ensures stop { IfErr result (IsCaused K.stops desk.old desk.new) }
{
    let before = proposal.state_before();
    match proposal.into_renewal() {
        None => say(alloc, WRONG_STATE, before),
        Some(tx) => {
            let command = Command::RenewSign(tx, signatures);
            ask(alloc, rt, desk, session, command, before)
        }
    }
}
