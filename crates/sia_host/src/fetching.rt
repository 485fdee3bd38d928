//! Sectors that a session asks for, before it prepares a write or a read.
ghost use Rattle.std.specs.Prelude.{◌≡◌, [], None, Ok, IfOk, OnErr};
ghost use Rattle.sia_encoding.specs.Answer.{Answers as Tells, itself};
ghost use Rattle.sia_commands.specs.declared.event.Outcome.TheVariants as outcome;
ghost use Rattle.sia_commands.specs.declared.reply.Reply.TheVariants as reply;
ghost use Rattle.sia_host.specs.Answered.{IsReaction, fetching, worked};
ghost use Rattle.sia_host.specs.Fetching.{fetch_reaction, fetched_by_place, fetched_by_root, slot_wanted as slot_wanted_so};
ghost use Rattle.sia_host.specs.Refusals.{code_told};
ghost use Rattle.sia_host.specs.Writing.{slot_with as slot_with_so};

use crate::host_core::Core;
use crate::refusal::Refusal;
use sia_blake::Hash;
use sia_commands::codes::{BAD_ACTION, NO_SECTOR};
use sia_commands::{Call, Kind, OutJob, Outcome, Reply, Step, Want};
use sia_kept::KeptContract;
use sia_types::{Blob, List};
use std::alloc::{AllocError, Global};

impl Core {
    /// A session asks for a sector of its contract.
    pub(crate) fn fetch(
        &mut self,
        alloc: Global,
        worker: u64,
        session: u64,
        want: Want,
    ) -> Result<Step, AllocError>
        ensures gives { IfOk result (λ step. IsReaction self.old (fetch_reaction self.old worker session want) step self.new) }
        ensures kept { OnErr result (self.new ≡ self.old) }
    {
        let call = Call {
            worker,
            session,
            kind: Kind::Fetch,
        };
        let held = self.held(session);
        match self.slot_wanted(session, want) {
            Err(Refusal::Memory) => Err(AllocError),
            Err(Refusal::Code(code)) => self.refuse(alloc, call, held, code),
            Ok(slot) => self.hand_sector(alloc, call, held, slot),
        }
    }

    // The slot of the sector that is wanted.
    fn slot_wanted(&self, session: u64, want: Want) -> Result<u64, Refusal>
        ensures { Tells (λ slot. slot) code_told result (slot_wanted_so self.now session want) }
    {
        match want {
            Want::Root(root) => self.slot_by_root(session, &root),
            Want::Place(place) => self.slot_by_place(session, place),
        }
    }

    // The slot of the first sector with a root.
    fn slot_by_root(&self, session: u64, root: &Hash) -> Result<u64, Refusal>
        ensures { Tells (λ slot. slot) code_told result (fetched_by_root self.now session root.now) }
    {
        let contract = self.open(session)?;
        match slot_with(contract, root) {
            None => Err(Refusal::Code(NO_SECTOR)),
            Some(slot) => Ok(slot),
        }
    }

    // The slot of the sector at a place.
    fn slot_by_place(&self, session: u64, place: u64) -> Result<u64, Refusal>
        ensures { Tells (λ slot. slot) code_told result (fetched_by_place self.now session place) }
    {
        let contract = self.open(session)?;
        match contract.sectors.slot_at(place) {
            None => Err(Refusal::Code(BAD_ACTION)),
            Some(slot) => Ok(slot),
        }
    }

    // The answer by the slot of a sector, with room for its bytes.
    fn hand_sector(
        &mut self,
        alloc: Global,
        call: Call,
        held: Option<Hash>,
        slot: u64,
    ) -> Result<Step, AllocError>
        ensures gives { IfOk result (λ step. IsReaction self.old (worked self.old call held outcome.Fine (reply.Sector []) None (fetching slot)) step self.new) }
        ensures kept { OnErr result (self.new ≡ self.old) }
    {
        let sector = Vec::with_capacity(alloc, self.settings.sector as usize)?;
        self.log.reserve()?;
        let event = self.event(call, held, Outcome::Fine);
        self.log.note(event);
        Ok(Step {
            reply: Reply::Sector(Blob::new(alloc)),
            payload: None,
            puts: List::new(alloc),
            fetch: Some(slot),
            sector,
            freed: List::new(alloc),
        })
    }
}

// The slot of the first sector of a contract with a root.
fn slot_with(contract: &KeptContract, root: &Hash) -> Option<u64>
    ensures { result ≡ slot_with_so contract.now root.now }
{
    contract.sectors.slot_with(root)
}
