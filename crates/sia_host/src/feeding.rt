//! Blocks that are put behind the last one, and dropped.
ghost use Rattle.std.specs.Prelude.{◌≡◌, ◌+◌, ◌<◌, None, Some, Ok, IfOk, IsSome, MatchResult, OnErr, OnOk, length, nat_lt, true, false};
ghost use Rattle.sia_encoding.specs.Answer.{Answers as Tells, unless};
ghost use Rattle.sia_ledger.specs.Chain.{extended, height, shortened};
ghost use Rattle.sia_ledger.specs.Refusal.{refusal, set_refusal};
ghost use Rattle.sia_records.specs.declared.host_record.HostRecord.TheVariants as records;
ghost use Rattle.sia_types.specs.declared.block.Block.{Block as Mined};
ghost use Rattle.sia_rules.specs.Answers.{block_told};
ghost use Rattle.sia_commands.specs.declared.event.Outcome.TheVariants as outcome;
ghost use Rattle.sia_commands.specs.declared.reply.Reply.TheVariants as reply;
ghost use Rattle.sia_host.specs.Answered.{IsReaction, answered, record_payload};
ghost use Rattle.sia_host.specs.Feeding.{apply_reaction, apply_given, no_session, revert_reaction, rule_number as rule_number_so};

use crate::host_core::Core;
use sia_commands::codes::STORE_FULL;
use sia_commands::{Call, Kind, Outcome, Reply, Room, Step};
use sia_edge::SigCheck;
use sia_encoding::{Blob, Item, Steps};
use sia_journal::RecordBuf;
use sia_ledger::{BlockFault, Ledger, RevertFault};
use sia_records::HostRecord;
use sia_types::{Block, Transaction};
use std::alloc::{AllocError, Global};
use std::marker::Brand;
use std::sync::ledger::{Blank, Ledger as StepBook};

/// Frames the payload of a record. The error is want of memory.
pub(crate) fn frame(alloc: Global, made: &HostRecord) -> Result<RecordBuf, AllocError>
    ensures { IfOk result (λ framed. framed ≡ record_payload made.now) }
{
    let mut payload = Blob::new(alloc);
    made.encode(&mut payload)?;
    RecordBuf::new(alloc, payload.as_slice())
}

/// Whether a framed record passes what the journal has left.
pub(crate) fn lacks_room(room: &Room, framed: &RecordBuf) -> bool
    ensures { result ≡ nat_lt room.now.bytes (length framed.now + 9) }
{
    room.bytes < framed.payload().len() as u64 + 9
}

impl Core {
    /// A block is put behind the last one.
    pub(crate) fn apply<C: SigCheck>(
        &mut self,
        alloc: Global,
        room: &Room,
        worker: u64,
        block: Block,
        check: &C,
    ) -> Result<Step, AllocError>
        ensures gives { IfOk result (λ step. IsReaction self.old (apply_reaction C.verdict self.old room.now worker block) step self.new) }
        ensures kept { OnErr result (self.new ≡ self.old) }
    {
        let made = HostRecord::Block(block);
        self.apply_made(alloc, room, worker, &made, block_of(&made), check)
    }

    // The block of a record is put behind the last one.
    fn apply_made<C: SigCheck>(
        &mut self,
        alloc: Global,
        room: &Room,
        worker: u64,
        made: &HostRecord,
        block: &Block,
        check: &C,
    ) -> Result<Step, AllocError>
        requires { made.now ≡ records.Block block.now }
        ensures gives { IfOk result (λ step. IsReaction self.old (apply_reaction C.verdict self.old room.now worker block.now) step self.new) }
        ensures kept { OnErr result (self.new ≡ self.old) }
    {
        let call = feed_call(worker, Kind::Apply);
        let framed = frame(alloc, made)?;
        if lacks_room(room, &framed) {
            return self.apply_full(alloc, call, block, check);
        }
        self.apply_fit(alloc, call, block, framed, check)
    }

    // The answer to a block for which the journal is full.
    fn apply_full<C: SigCheck>(
        &mut self,
        alloc: Global,
        call: Call,
        block: &Block,
        check: &C,
    ) -> Result<Step, AllocError>
        ensures gives { IfOk result (λ step. IsReaction self.old (apply_given self.old true call block.now (refusal C.verdict self.old.state.chain block.now)) step self.new) }
        ensures kept { OnErr result (self.new ≡ self.old) }
    {
        match judge_block(alloc, &self.ledger, block, check)? {
            Some(fault) => self.refuse_block(alloc, call, fault),
            None => self.refuse(alloc, call, None, STORE_FULL),
        }
    }

    // The answer to a block for which the journal has room.
    #[tactic(auto, unfolding(sia_kept::specs::State::with_record))]
    fn apply_fit<C: SigCheck>(
        &mut self,
        alloc: Global,
        call: Call,
        block: &Block,
        framed: RecordBuf,
        check: &C,
    ) -> Result<Step, AllocError>
        requires { framed ≡ record_payload (records.Block block.now) }
        ensures gives { IfOk result (λ step. IsReaction self.old (apply_given self.old false call block.now (refusal C.verdict self.old.state.chain block.now)) step self.new) }
        ensures kept { OnErr result (self.new ≡ self.old) }
    {
        self.log.reserve()?;
        match put_block(alloc, &mut self.ledger, block, check)? {
            Some(fault) => self.refuse_block(alloc, call, fault),
            None => {
                self.records = self.records.saturating_add(1);
                let event = self.event(call, None, Outcome::Fine);
                self.log.note(event);
                Ok(Step::plain(alloc, Reply::Applied, Some(framed)))
            }
        }
    }

    // A block is refused, by the rule that it breaks.
    fn refuse_block(
        &mut self,
        alloc: Global,
        call: Call,
        fault: BlockFault,
    ) -> Result<Step, AllocError>
        ensures gives { IfOk result (λ step. IsReaction self.old (answered self.old call None (outcome.Block (rule_number_so fault)) (reply.Refused fault) None) step self.new) }
        ensures kept { OnErr result (self.new ≡ self.old) }
    {
        let number = rule_number(&fault);
        self.answer(
            alloc,
            call,
            None,
            Outcome::Block(number),
            Reply::Refused(fault),
        )
    }

    /// The last block is dropped.
    #[tactic(auto, unfolding(sia_kept::specs::State::with_record))]
    pub(crate) fn revert(
        &mut self,
        alloc: Global,
        room: &Room,
        worker: u64,
    ) -> Result<Step, AllocError>
        ensures gives { IfOk result (λ step. IsReaction self.old (revert_reaction self.old room.now worker) step self.new) }
        ensures kept { OnErr result (self.new ≡ self.old) }
    {
        let call = feed_call(worker, Kind::Revert);
        if self.ledger.height() == 0 {
            return self.answer(alloc, call, None, Outcome::NoBlock, Reply::NoBlock);
        }
        let framed = frame(alloc, &HostRecord::Revert)?;
        if lacks_room(room, &framed) {
            return self.refuse(alloc, call, None, STORE_FULL);
        }
        self.log.reserve()?;
        drop_block(&mut self.ledger)?;
        self.records = self.records.saturating_add(1);
        let event = self.event(call, None, Outcome::Fine);
        self.log.note(event);
        Ok(Step::plain(alloc, Reply::Applied, Some(framed)))
    }
}

// The block of a record of one.
fn block_of(made: &HostRecord) -> &Block
    requires { (block : Mined) × (made.now ≡ records.Block block) }
    ensures { made.now ≡ records.Block result.now }
{
    match made {
        HostRecord::Block(block) => block,
        _ => unreachable!(),
    }
}

// What the feed gives: no session asks for it.
fn feed_call(worker: u64, kind: Kind) -> Call
    ensures { result ≡ record { worker = worker; session = no_session; kind = kind } }
{
    Call {
        worker,
        session: 0,
        kind,
    }
}

// The rule that a block breaks, if it breaks one.
#[tactic(auto, using(crate::proofs::Judged::fault_said, crate::proofs::Judged::nothing_said))]
fn judge_block<C: SigCheck>(
    alloc: Global,
    ledger: &Ledger,
    block: &Block,
    check: &C,
) -> Result<Option<BlockFault>, AllocError>
    ensures { IfOk result (λ fault. fault ≡ refusal C.verdict ledger.now block.now) }
{
    match judge_counted::<C, Brand>(alloc, ledger, block, check, Blank::new(1)) {
        Ok(()) => Ok(None),
        Err(fault) => match told(fault) {
            None => Err(AllocError),
            Some(broken) => Ok(Some(broken)),
        },
    }
}

/// The rule that a transaction breaks as the first of a next block, if it breaks one.
#[tactic(auto, using(crate::proofs::Judged::fault_said, crate::proofs::Judged::nothing_said))]
pub(crate) fn judge_set<C: SigCheck>(
    alloc: Global,
    ledger: &Ledger,
    tx: &Transaction,
    check: &C,
) -> Result<Option<BlockFault>, AllocError>
    ensures { IfOk result (λ fault. fault ≡ set_refusal C.verdict ledger.now tx.now) }
{
    match ledger.check_set(alloc, tx, check) {
        Ok(()) => Ok(None),
        Err(fault) => match told(fault) {
            None => Err(AllocError),
            Some(broken) => Ok(Some(broken)),
        },
    }
}

/// The rule that a block breaks; where it breaks none, it is put behind the last one. The error is want of memory.
#[tactic(auto, using(crate::proofs::Judged::fault_said, crate::proofs::Judged::nothing_said))]
pub(crate) fn put_block<C: SigCheck>(
    alloc: Global,
    ledger: &mut Ledger,
    block: &Block,
    check: &C,
) -> Result<Option<BlockFault>, AllocError>
    ensures judged { IfOk result (λ fault. fault ≡ refusal C.verdict ledger.old block.now) }
    ensures put { IfOk result (λ fault. fault ≡ None → ledger.new ≡ extended ledger.old block.now) }
    ensures broken { IfOk result (λ fault. IsSome fault → ledger.new ≡ ledger.old) }
    ensures err { OnErr result (ledger.new ≡ ledger.old) }
{
    match apply_counted::<C, Brand>(alloc, ledger, block, check, Blank::new(1)) {
        Ok(()) => Ok(None),
        Err(fault) => match told(fault) {
            None => Err(AllocError),
            Some(broken) => Ok(Some(broken)),
        },
    }
}

// The fault of a block that is told: any but want of memory.
fn told(fault: BlockFault) -> Option<BlockFault>
    ensures { result ≡ block_told fault }
{
    match fault {
        BlockFault::Memory => None,
        _ => Some(fault),
    }
}

// Puts a block behind the last one, where nobody counts the steps.
fn apply_counted<C: SigCheck, L: StepBook>(
    alloc: Global,
    ledger: &mut Ledger,
    block: &Block,
    check: &C,
    blank: Blank,
) -> Result<(), BlockFault>
    requires name { blank.name ≡ L.name }
    requires parts { blank.parts ≡ L.parts }
    requires one { blank.parts ≡ 1 }
    ensures judged { Tells (λ _. tt) block_told result (unless (refusal C.verdict ledger.old block.now)) }
    ensures applied { OnOk result (ledger.new ≡ extended ledger.old block.now) }
    ensures unchanged { OnErr result (ledger.new ≡ ledger.old) }
{
    let mut steps = Steps::<L>::new(blank);
    ledger.apply(alloc, block, check, &mut steps)
}

// Judges a block, where nobody counts the steps.
fn judge_counted<C: SigCheck, L: StepBook>(
    alloc: Global,
    ledger: &Ledger,
    block: &Block,
    check: &C,
    blank: Blank,
) -> Result<(), BlockFault>
    requires name { blank.name ≡ L.name }
    requires parts { blank.parts ≡ L.parts }
    requires one { blank.parts ≡ 1 }
    ensures { Tells (λ _. tt) block_told result (unless (refusal C.verdict ledger.now block.now)) }
{
    let mut steps = Steps::<L>::new(blank);
    ledger.check_block(alloc, block, check, &mut steps)
}

/// Drops the last block, of which there is one. The error is want of memory.
pub(crate) fn drop_block(ledger: &mut Ledger) -> Result<(), AllocError>
    requires { 0 < height ledger.old }
    ensures ok { OnOk result (ledger.new ≡ shortened ledger.old) }
    ensures err { OnErr result (ledger.new ≡ ledger.old) }
{
    match revert_counted::<Brand>(ledger, Blank::new(1)) {
        Ok(()) => Ok(()),
        Err(_) => Err(AllocError),
    }
}

// Drops the last block, where nobody counts the steps.
fn revert_counted<L: StepBook>(ledger: &mut Ledger, blank: Blank) -> Result<(), RevertFault>
    requires name { blank.name ≡ L.name }
    requires parts { blank.parts ≡ L.parts }
    requires one { blank.parts ≡ 1 }
    ensures reverted { OnOk result (ledger.new ≡ shortened ledger.old) }
    ensures unchanged { OnErr result (ledger.new ≡ ledger.old) }
{
    let mut steps = Steps::<L>::new(blank);
    ledger.revert(&mut steps)
}

/// The number of the rule that a block breaks.
fn rule_number(fault: &BlockFault) -> u64
    ensures { result ≡ rule_number_so fault.now }
{
    match fault {
        BlockFault::BadParent { .. } => 1,
        BlockFault::TooLarge { .. } => 2,
        BlockFault::HeightEnd => 3,
        BlockFault::SumTooLarge { .. } => 4,
        BlockFault::BadValue { .. } => 5,
        BlockFault::PayoutSum { .. } => 6,
        BlockFault::ProofMix { .. } => 7,
        BlockFault::Repeated { .. } => 8,
        BlockFault::NoCoin { .. } => 9,
        BlockFault::Immature { .. } => 10,
        BlockFault::NoContract { .. } => 11,
        BlockFault::NoFund { .. } => 12,
        BlockFault::Conditions { .. } => 13,
        BlockFault::Locked { .. } => 14,
        BlockFault::FormWindow { .. } => 15,
        BlockFault::FormSum { .. } => 16,
        BlockFault::RevNumber { .. } => 17,
        BlockFault::RevWindow { .. } => 18,
        BlockFault::RevSum { .. } => 19,
        BlockFault::ProofWindow { .. } => 20,
        BlockFault::BadProof { .. } => 21,
        BlockFault::Balance { .. } => 22,
        BlockFault::Signature { .. } => 23,
        BlockFault::SameId { .. } => 24,
        BlockFault::Memory => 0,
    }
}
