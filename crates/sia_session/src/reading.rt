//! A read of a session: its sectors are asked for first, and then the read.
ghost use Rattle.std.specs.Prelude.{IfErr};
ghost use Rattle.sia_session.specs.Acts.{IsCaused, LeavesAlone};
ghost use Rattle.sia_session.specs.Script.{Follows};
ghost use Rattle.sia_session.specs.Talk.{read_with, reads, with_fetched};
ghost use Rattle.sia_session.specs.Told.{Grows};

use crate::asking::{ask, finish};
use crate::desk::Desk;
use crate::fetching::{Fetched, fetch_all, sectors_read};
use crate::heard::Heard;
use crate::state::{Done, State};
use sia_commands::{Command, Stop};
use sia_records::prepare_read;
use sia_rhp::ReadRequest;
use sia_types::{Blob, List};
use std::alloc::Global;

/// A request for parts of sectors.
pub(crate) fn read<Rt, K: Desk<Rt>>(
    alloc: Global,
    rt: &Rt,
    desk: &mut K,
    session: u64,
    sector: u64,
    request: ReadRequest,
    state: State,
) -> Result<Done, Stop>
    ensures acts { Grows (K.acts desk.old) (K.acts desk.new) (Follows (reads state session sector request) result) }
    ensures alone { LeavesAlone K.stays K.stops K.sector desk.old desk.new }
    ensures stop { IfErr result (IsCaused K.stops desk.old desk.new) }
{
    let wants = sectors_read(alloc, sector, request.sections.as_slice())?;
    match fetch_all(alloc, rt, desk, session, wants.as_slice()) {
        Err(stop) => Err(stop),
        Ok(fetched) => read_fetched(alloc, rt, desk, session, request, fetched, state),
    }
}

/// The read with the sectors that were fetched for it, or the refusal of one of them.
fn read_fetched<Rt, K: Desk<Rt>>(
    alloc: Global,
    rt: &Rt,
    desk: &mut K,
    session: u64,
    request: ReadRequest,
    fetched: Fetched,
    state: State,
) -> Result<Done, Stop>
    ensures acts { Grows (K.acts desk.old) (K.acts desk.new) (Follows (with_fetched state (read_with state session request) fetched) result) }
    ensures alone { LeavesAlone K.stays K.stops K.sector desk.old desk.new }
    ensures stop { IfErr result (IsCaused K.stops desk.old desk.new) }
{
    match fetched {
        Fetched::Refused(reply) => {
            let heard = Heard::new(reply);
            finish(alloc, &heard, state)
        }
        Fetched::All(sectors) => read_sectors(alloc, rt, desk, session, request, sectors, state),
    }
}

/// The read with these sectors.
fn read_sectors<Rt, K: Desk<Rt>>(
    alloc: Global,
    rt: &Rt,
    desk: &mut K,
    session: u64,
    request: ReadRequest,
    sectors: List<Blob>,
    state: State,
) -> Result<Done, Stop>
    ensures acts { Grows (K.acts desk.old) (K.acts desk.new) (Follows (read_with state session request sectors) result) }
    ensures alone { LeavesAlone K.stays K.stops K.sector desk.old desk.new }
    ensures stop { IfErr result (IsCaused K.stops desk.old desk.new) }
{
    let read = prepare_read(alloc, request, sectors)?;
    ask(alloc, rt, desk, session, Command::Read(read), state)
}
