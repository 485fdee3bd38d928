//! A desk with few replies.
ghost use Rattle.std.specs.Prelude.{◌≡◌, ◌≤◌, None, Err, IfErr};
ghost use Rattle.sia_edge.specs.Edge.{Rose};
ghost use Rattle.sia_session.specs.Acts.{IsAnswerOrCode, IsOfKind};

use sia_commands::{Command, Reply, Stop, Want};
use sia_encoding::{Blob, List};
use sia_rhp::{Answer, Label, LockAnswer};
use sia_session::Desk;
use std::alloc::Global;

/// What each session signs first.
const CHALLENGE: [u8; 16] = *b"0123456789abcdef";

/// Formations and locks are accepted, each sector is one of 64 zero bytes, the settings are stopped, and all else is refused by code 7:
/// but the sector at the greatest place by 9, and the end of a lock that isn't held by 4.
#[derive(Drop)]
pub(crate) struct FewReplies {
    alloc: Global,
    is_locked: bool,
    stops: u64,
    leaves: u64,
}

impl FewReplies {
    /// No lock is held.
    pub(crate) fn new(alloc: Global) -> FewReplies {
        FewReplies {
            alloc,
            is_locked: false,
            stops: 0,
            leaves: 0,
        }
    }

    /// How often a session left.
    pub(crate) fn leaves(&self) -> u64 {
        self.leaves
    }

    /// The reply to a command.
    fn reply_to(&mut self, command: &Command) -> Result<Reply, Stop>
        ensures kind { IsOfKind 64 command.now result }
        ensures later { self.old.stops ≤ self.new.stops }
        ensures cause { IfErr result (λ why. Rose self.old.stops self.new.stops) }
    {
        match command {
            Command::Enter => Ok(Reply::Entered {
                session: 7,
                challenge: CHALLENGE,
            }),
            Command::Settings => self.stop(Stop::EventsFull),
            Command::Form(_) => Ok(Reply::Said(Answer::Form {
                inputs: List::new(self.alloc),
                outputs: List::new(self.alloc),
            })),
            Command::FormSign(_, _) => Ok(Reply::Said(Answer::FormSign(List::new(self.alloc)))),
            Command::Lock(_) => Ok(self.lock()),
            Command::Unlock => Ok(self.unlock()),
            Command::Fetch(want) => self.sector(*want),
            Command::Leave => {
                self.leaves = self.leaves.saturating_add(1);
                Ok(Reply::Applied)
            }
            Command::Stale(_, _) | Command::Due(_, _) => Ok(Reply::Next(None)),
            _ => Ok(Reply::Error { code: 7 }),
        }
    }

    /// A lock is acquired.
    fn lock(&mut self) -> Reply
        ensures kind { IsAnswerOrCode Label.Lock result }
        ensures stops { self.new.stops ≡ self.old.stops }
    {
        self.is_locked = true;
        Reply::Said(Answer::Lock(LockAnswer {
            acquired: true,
            holder: 0,
            challenge: CHALLENGE,
            newest: None,
            signatures: List::new(self.alloc),
        }))
    }

    /// It ends, if it is held.
    fn unlock(&mut self) -> Reply
        ensures kind { IsAnswerOrCode Label.Unlock result }
        ensures stops { self.new.stops ≡ self.old.stops }
    {
        if self.is_locked {
            self.is_locked = false;
            Reply::Said(Answer::Unlock)
        } else {
            Reply::Error { code: 4 }
        }
    }

    /// A sector, or none at the greatest place.
    fn sector(&mut self, want: Want) -> Result<Reply, Stop>
        ensures kind { IsOfKind 64 (Command.Fetch want) result }
        ensures later { self.old.stops ≤ self.new.stops }
        ensures cause { IfErr result (λ why. Rose self.old.stops self.new.stops) }
    {
        if want == Want::Place(u64::MAX) {
            return Ok(Reply::Error { code: 9 });
        }
        match Blob::from_slice(self.alloc, &[0; 64]) {
            Err(_) => self.stop(Stop::Memory),
            Ok(bytes) => Ok(Reply::Sector(bytes)),
        }
    }

    /// A stop, which is counted.
    fn stop(&mut self, stop: Stop) -> Result<Reply, Stop>
        ensures stop { result ≡ Err stop }
        ensures later { self.old.stops ≤ self.new.stops }
        ensures cause { Rose self.old.stops self.new.stops }
    {
        self.stops = self.stops.saturating_add(1);
        Err(stop)
    }
}

impl<Rt> Desk<Rt> for FewReplies {
    ghost acts = { λ desk. None };

    ghost stops = { λ desk why. desk.stops };

    ghost sector = { λ desk. 64 };

    ghost stays = { λ old new. Unit {0} };

    fn act(&mut self, _rt: &Rt, _session: u64, command: Command) -> Result<Reply, Stop> {
        self.reply_to(&command)
    }

    ghost stays_itself = { λ desk. tt };

    ghost stays_on = { λ first second third one two. tt };
}
