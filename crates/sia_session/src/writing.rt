//! A write of a session: the sectors that it updates are asked for first, and then the write.
ghost use Rattle.std.specs.Prelude.{[], IfErr};
ghost use Rattle.sia_session.specs.Acts.{IsCaused, LeavesAlone};
ghost use Rattle.sia_session.specs.Script.{Follows, and_then};
ghost use Rattle.sia_session.specs.Talk.{fetch, sectors_changed as changed_by_all, with_fetched, write_with, writes};
ghost use Rattle.sia_session.specs.Told.{Grows};

use crate::asking::{ask, finish, propose};
use crate::desk::Desk;
use crate::fetching::{Fetched, fetch_all, sectors_changed};
use crate::heard::Heard;
use crate::state::{Done, Proposal, State};
use sia_commands::{Command, Stop, Want};
use sia_encoding::limits::ACTIONS;
use sia_records::prepare_write;
use sia_rhp::WriteRequest;
use sia_types::{Blob, List};
use std::alloc::Global;

/// A request for a change of sectors. Where it has too many actions, a sector is asked for at a place at which no contract has one.
pub(crate) fn write<Rt, K: Desk<Rt>>(
    alloc: Global,
    rt: &Rt,
    desk: &mut K,
    session: u64,
    sector: u64,
    request: WriteRequest,
    state: State,
) -> Result<Done, Stop>
    ensures acts { Grows (K.acts desk.old) (K.acts desk.new) (Follows (writes state session sector request) result) }
    ensures alone { LeavesAlone K.stays K.stops K.sector desk.old desk.new }
    ensures stop { IfErr result (IsCaused K.stops desk.old desk.new) }
{
    if request.actions.len() as u64 > ACTIONS {
        ask(
            alloc,
            rt,
            desk,
            session,
            Command::Fetch(Want::Place(u64::MAX)),
            state,
        )
    } else {
        fetch_and_write(alloc, rt, desk, session, sector, request, state)
    }
}

/// The sectors that it updates, and then the write.
fn fetch_and_write<Rt, K: Desk<Rt>>(
    alloc: Global,
    rt: &Rt,
    desk: &mut K,
    session: u64,
    sector: u64,
    request: WriteRequest,
    state: State,
) -> Result<Done, Stop>
    ensures acts { Grows (K.acts desk.old) (K.acts desk.new) (Follows (and_then (fetch session (changed_by_all sector request.actions) []) (with_fetched state (write_with state session request))) result) }
    ensures alone { LeavesAlone K.stays K.stops K.sector desk.old desk.new }
    ensures stop { IfErr result (IsCaused K.stops desk.old desk.new) }
{
    let wants = sectors_changed(alloc, sector, request.actions.as_slice())?;
    match fetch_all(alloc, rt, desk, session, wants.as_slice()) {
        Err(stop) => Err(stop),
        Ok(fetched) => write_fetched(alloc, rt, desk, session, request, fetched, state),
    }
}

/// The write with the sectors that were fetched for it, or the refusal of one of them.
fn write_fetched<Rt, K: Desk<Rt>>(
    alloc: Global,
    rt: &Rt,
    desk: &mut K,
    session: u64,
    request: WriteRequest,
    fetched: Fetched,
    state: State,
) -> Result<Done, Stop>
    ensures acts { Grows (K.acts desk.old) (K.acts desk.new) (Follows (with_fetched state (write_with state session request) fetched) result) }
    ensures alone { LeavesAlone K.stays K.stops K.sector desk.old desk.new }
    ensures stop { IfErr result (IsCaused K.stops desk.old desk.new) }
{
    match fetched {
        Fetched::Refused(reply) => {
            let heard = Heard::new(reply);
            finish(alloc, &heard, state)
        }
        Fetched::All(sectors) => write_sectors(alloc, rt, desk, session, request, sectors, state),
    }
}

/// The write with these sectors.
fn write_sectors<Rt, K: Desk<Rt>>(
    alloc: Global,
    rt: &Rt,
    desk: &mut K,
    session: u64,
    request: WriteRequest,
    sectors: List<Blob>,
    state: State,
) -> Result<Done, Stop>
    ensures acts { Grows (K.acts desk.old) (K.acts desk.new) (Follows (write_with state session request sectors) result) }
    ensures alone { LeavesAlone K.stays K.stops K.sector desk.old desk.new }
    ensures stop { IfErr result (IsCaused K.stops desk.old desk.new) }
{
    let write = prepare_write(alloc, request, sectors)?;
    let kept = Proposal::write(write.copy(alloc)?);
    propose(alloc, rt, desk, session, Command::Write(write), kept, state)
}
