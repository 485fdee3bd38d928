//! The answer to each command, and a step that is taken back.
ghost use Rattle.std.specs.Prelude.{◌≡◌, ◌+◌, true, false, length, IfOk, OnErr};
ghost use Rattle.sia_host.specs.declared.phase.Past.{Past as Before};
ghost use Rattle.sia_host.specs.declared.phase.Phase.TheVariants as phase;
ghost use Rattle.sia_host.specs.Answered.{Gives};
ghost use Rattle.sia_host.specs.Answers.{IsAnswer, is_leave};
ghost use Rattle.sia_host.specs.Spoiling.{IsStep, is_spoiled, spoiled as spoiled_so};

use crate::host_core::Core;
use crate::phase::{Phase, fault_event};
use sia_commands::{Command, Room, Step};
use sia_edge::{SigCheck, Signer};
use std::alloc::{AllocError, Global};

impl Core {
    /// Answers a command of a worker and a session, in the room that the disks have left; the check judges signatures, and the signer
    /// makes the host's. It notes an event, but for the leave of a session that isn't live, and may make a record, which the
    /// journal is to keep. Once a step was taken back, only leaves are answered.
    ///
    /// Its error is want of memory: then all is as before. A leave takes no memory.
    pub fn step<C: SigCheck, G: Signer>(
        &mut self,
        alloc: Global,
        worker: u64,
        session: u64,
        command: Command,
        room: &Room,
        check: &C,
        signer: &G,
    ) -> Result<Step, AllocError>
        requires running { is_spoiled self.old.phase ≡ true → is_leave command ≡ true }
        ensures answers { IfOk result (λ step. IsStep (IsAnswer C.verdict (G.Makes (G.public_key signer.now)) self.old room.now worker session command) self.old step self.new) }
        ensures unchanged { OnErr result (self.new ≡ self.old) }
        ensures leaves { OnErr result (is_leave command ≡ false) }
    {
        let past = self.present();
        let events = self.log.events().len();
        let step = self.answer_command(alloc, worker, session, command, room, check, signer)?;
        let noted = events < self.log.events().len();
        self.phase = self.phase.after(past, noted);
        Ok(step)
    }

    /// Takes the last step back, since a disk failed: the event of the fault stands in the place of the step's own. From then on sums, tip
    /// and the count of records are told as before that step, in later events too, and of the rest nothing is to be asked. It takes no memory.
    pub fn spoil(&mut self)
        requires stepped { (past : Before) × (self.old.phase ≡ phase.Stepped past) }
        ensures { (past : Before) → self.old.phase ≡ phase.Stepped past → self.new ≡ spoiled_so past self.old }
    {
        let Phase::Stepped(past) = self.phase else {
            unreachable!()
        };
        let Some(last) = self.log.events().last() else {
            unreachable!()
        };
        let event = fault_event(&past, last);
        self.log.spoil(event);
        self.records = past.records;
        self.phase = Phase::Spoiled(past);
    }

    // Answers a command; the phase stays.
    fn answer_command<C: SigCheck, G: Signer>(
        &mut self,
        alloc: Global,
        worker: u64,
        session: u64,
        command: Command,
        room: &Room,
        check: &C,
        signer: &G,
    ) -> Result<Step, AllocError>
        ensures answers { IfOk result (λ step. Gives (IsAnswer C.verdict (G.Makes (G.public_key signer.now)) self.old room.now worker session command) self.old step self.new) }
        ensures unchanged { OnErr result (self.new ≡ self.old) }
        ensures leaves { OnErr result (is_leave command ≡ false) }
    {
        match command {
            Command::Enter => self.enter(alloc, worker),
            Command::Settings => self.tell_settings(alloc, worker, session),
            Command::Form(request) => self.form(alloc, worker, session, &request),
            Command::FormSign(request, renter) => self.form_sign(
                alloc, room, worker, session, request, renter, check, signer,
            ),
            Command::Lock(request) => self.lock(alloc, worker, session, &request, check),
            Command::Unlock => self.unlock(alloc, worker, session),
            Command::Fetch(want) => self.fetch(alloc, worker, session, want),
            Command::Write(write) => self.write(alloc, room, worker, session, write),
            Command::WriteSign(write, renter) => self.write_sign(
                alloc, room, worker, session, write, renter, check, signer,
            ),
            Command::Read(read) => self.read(alloc, room, worker, session, read, check, signer),
            Command::Roots(request) => {
                self.roots(alloc, room, worker, session, request, check, signer)
            }
            Command::Renew(tx) => self.renew(alloc, worker, session, &tx),
            Command::RenewSign(tx, renter) => self.renew_sign(
                alloc, room, worker, session, tx, renter, check, signer,
            ),
            Command::Leave => Ok(self.leave(alloc, worker, session)),
            Command::Apply(block) => self.apply(alloc, room, worker, block, check),
            Command::Revert => self.revert(alloc, room, worker),
            Command::Stale(id, first) => self.next_stale(alloc, worker, &id, first),
            Command::Due(id, first) => self.next_due(alloc, worker, &id, first),
        }
    }
}
