//! Sectors that are asked for one by one, before a read or a write is.
ghost use Rattle.std.specs.Prelude.{◌≡◌, [], map, IfErr, IfOk};
ghost use Rattle.sia_session.specs.Acts.{IsCaused, LeavesAlone};
ghost use Rattle.sia_session.specs.Script.{Follows};
ghost use Rattle.sia_session.specs.Talk.{fetch, root_wanted, sector_changed as changed_by, sectors_changed as changed_by_all, sectors_read as read_by};
ghost use Rattle.sia_session.specs.Told.{Grows};

use crate::desk::Desk;
use sia_commands::{Command, Reply, Stop, Want};
use sia_records::{range_fits, sections_fit};
use sia_rhp::{Action, Section};
use sia_types::{Blob, List};
use std::alloc::{AllocError, Global};

/// The sectors that were asked for, in order, or the first reply that has none.
#[derive(Drop)]
pub enum Fetched {
    /// All of them.
    All(List<Blob>),
    /// The first that was refused.
    Refused(Reply),
}

/// Asks the desk for sectors, one by one, for a session. Its errors are want of memory, and the desk's stops.
pub fn fetch_all<Rt, K: Desk<Rt>>(
    alloc: Global,
    rt: &Rt,
    desk: &mut K,
    session: u64,
    wants: &[Want],
) -> Result<Fetched, Stop>
    ensures acts { Grows (K.acts desk.old) (K.acts desk.new) (Follows (fetch session wants.now []) result) }
    ensures alone { LeavesAlone K.stays K.stops K.sector desk.old desk.new }
    ensures stop { IfErr result (IsCaused K.stops desk.old desk.new) }
{
    let mut sectors = List::new(alloc);
    for want in wants {
        let reply = match desk.act(rt, session, Command::Fetch(*want)) {
            Ok(reply) => reply,
            Err(stop) => return Err(stop),
        };
        match reply {
            Reply::Sector(bytes) => sectors.push(bytes)?,
            other => return Ok(Fetched::Refused(other)),
        }
    }
    Ok(Fetched::All(sectors))
}

// The sector that a section is of.
fn sector_of(section: &Section) -> Want
    ensures { result ≡ root_wanted section.now }
{
    Want::Root(section.root)
}

// The sectors that sections are of, in order. Its error is want of memory.
fn sectors_of(alloc: Global, sections: &[Section]) -> Result<Vec<Want>, AllocError>
    ensures { IfOk result (λ wants. wants.items ≡ map root_wanted sections.now) }
{
    sections
        .iter()
        .map(|section| sector_of(section))
        .collect(alloc)
}

/// The sectors that a read needs: one for each section, or none where its own numbers refuse it. Its error is want of memory.
pub fn sectors_read(
    alloc: Global,
    sector: u64,
    sections: &[Section],
) -> Result<Vec<Want>, AllocError>
    ensures { IfOk result (λ wants. wants.items ≡ read_by sector sections.now) }
{
    if sections_fit(sector, sections) {
        sectors_of(alloc, sections)
    } else {
        Ok(Vec::new(alloc))
    }
}

// The sector that an action needs, if it is an update whose range is fit.
fn sector_changed(sector: u64, action: &Action) -> Option<Want>
    ensures { result ≡ changed_by sector action.now }
{
    match action {
        Action::Update {
            place,
            offset,
            bytes,
        } => {
            if range_fits(sector, *offset, bytes.len() as u64) {
                Some(Want::Place(*place))
            } else {
                None
            }
        }
        _ => None,
    }
}

/// The sectors that a write needs: one for each update whose range is fit. Its error is want of memory.
pub fn sectors_changed(
    alloc: Global,
    sector: u64,
    actions: &[Action],
) -> Result<Vec<Want>, AllocError>
    ensures { IfOk result (λ wants. wants.items ≡ changed_by_all sector actions.now) }
{
    actions
        .iter()
        .filter_map(|action| sector_changed(sector, action))
        .collect(alloc)
}
