//! A session, body by body.
ghost use Rattle.std.specs.Prelude.{◌≡◌, ◌≤◌, ◌^◌, IfErr, IfOk};
ghost use Rattle.sia_session.specs.Acts.{IsCaused, LeavesAlone};
ghost use Rattle.sia_session.specs.Served.{Begins, LeftWhere, Takes, script_for};
ghost use Rattle.sia_session.specs.Told.{Grows};

use crate::desk::Desk;
use crate::requests::answer;
use crate::state::{Done, State, Taken};
use sia_commands::{Command, Reply, Stop};
use sia_types::Blob;
use std::alloc::Global;
use std::marker::Model;
use std::mem::{drop, replace};

/// A session that began and hasn't left. Contracts see its number, how many bytes a sector has, and its state.
#[derive(Drop)]
pub struct Session {
    number: u64,
    sector: u64,
    state: State,
}

impl Model for Session {
    ghost use Rattle.sia_session.specs.Served.{Standing};

    ghost Value = { Standing };

    ghost view = { λ s. record { number = s.number; sector = s.sector; state = s.state } };
}

impl Session {
    /// Begins a session, where a sector has so many bytes. The bytes are those of the challenge that is sent first. After an error no
    /// session began.
    pub fn begin<Rt, K: Desk<Rt>>(
        alloc: Global,
        rt: &Rt,
        desk: &mut K,
        sector: u64,
    ) -> Result<(Session, Blob), Stop>
        ensures acts { Grows (K.acts desk.old) (K.acts desk.new) (Begins sector result) }
        ensures sector { IfOk result (λ begun. begun.0.sector ≡ sector) }
        ensures alone { LeavesAlone K.stays K.stops K.sector desk.old desk.new }
        ensures stop { IfErr result (IsCaused K.stops desk.old desk.new) }
    {
        let Ok(mut bytes) = vec![in alloc; 0u8; 16] else {
            return Err(Stop::Memory);
        };
        match desk.act(rt, 0, Command::Enter) {
            Err(stop) => Err(stop),
            Ok(Reply::Entered { session, challenge }) => {
                bytes.copy_from_slice(&challenge);
                let begun = Session {
                    number: session,
                    sector,
                    state: State::Idle,
                };
                Ok((begun, Blob::from_vec(bytes)))
            }
            Ok(_) => unreachable!(),
        }
    }

    /// Takes the body of a request: acts its commands, and answers what is to be sent. After a stop the session is only to be ended.
    pub fn take<Rt, K: Desk<Rt>>(
        &mut self,
        alloc: Global,
        rt: &Rt,
        desk: &mut K,
        body: &[u8],
    ) -> Result<Taken, Stop>
        requires { self.old.sector ≤ 2 ^ 22 }
        ensures acts { Grows (K.acts desk.old) (K.acts desk.new) (Takes (script_for self.old body.now) self.new.state result) }
        ensures number { self.new.number ≡ self.old.number }
        ensures sector { self.new.sector ≡ self.old.sector }
        ensures alone { LeavesAlone K.stays K.stops K.sector desk.old desk.new }
        ensures stop { IfErr result (IsCaused K.stops desk.old desk.new) }
    {
        let state = replace(&mut self.state, State::Idle);
        match answer(alloc, rt, desk, self.number, self.sector, state, body) {
            Err(stop) => Err(stop),
            Ok(Done { taken, state }) => {
                self.state = state;
                Ok(taken)
            }
        }
    }

    /// How many bytes a sector has.
    pub(crate) fn sector(&self) -> u64
        ensures { result ≡ self.now.sector }
    {
        self.sector
    }

    /// Ends the session: acts Leave, which is done where the session is live.
    pub fn end<Rt, K: Desk<Rt>>(self, rt: &Rt, desk: &mut K)
        ensures acts { Grows (K.acts desk.old) (K.acts desk.new) (LeftWhere self.number (K.acts desk.old)) }
        ensures alone { LeavesAlone K.stays K.stops K.sector desk.old desk.new }
    {
        drop(desk.act(rt, self.number, Command::Leave));
    }
}
