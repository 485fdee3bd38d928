//! The host, and what it keeps.
ghost use Rattle.std.specs.Prelude.{◌≡◌, ℕ, ◌*◌, ◌^◌, ◌≤◌, [], ◌∷◌, ◌++◌, None, Some, IfOk, OnOk, OnErr, length, option_copied};
ghost use Rattle.sia_encoding.specs.Answer.{Answers as Tells, itself, unless};
ghost use Rattle.sia_ledger.specs.Chain.{begun};
ghost use Rattle.sia_ledger.specs.Genesis.{genesis_refusal};
ghost use Rattle.sia_commands.specs.declared.event.Outcome.TheVariants as outcome;
ghost use Rattle.sia_commands.specs.declared.reply.Reply.TheVariants as reply;
ghost use Rattle.sia_kept.specs.Sessions.{live_sessions as live_sessions_so};
ghost use Rattle.sia_kept.specs.State.{IsSound, Kept, first_state};
ghost use Rattle.sia_host.specs.Answered.{IsReaction, Host, answered, contract_now, event_of, held_now, idle_now, refused, settings_now};
ghost use Rattle.sia_host.specs.declared.phase.Phase.TheVariants as phase;
ghost use Rattle.sia_host.specs.Spoiling.{past_of, told_now};
ghost use Rattle.sia_host.specs.Beginning.{core_told};
ghost use Rattle.sia_host.specs.Refusals.{code_told};

use crate::config::{CoreConfig, CoreFault};
use crate::phase::{Past, Phase};
use crate::refusal::Refusal;
use sia_blake::Hash;
use sia_commands::codes::{NO_CONTRACT, WRONG_STATE};
use sia_commands::{Call, Event, Kind, Outcome, Reply, Step};
use sia_kept::{KeptContract, Log, Session, find_contract};
use sia_ledger::{GenesisFault, Ledger, Params, Sums};
use sia_types::{List, Settings};
use std::alloc::{AllocError, Global};
use std::marker::Model;

/// A host: its chain, its contracts and its sessions. Contracts see its settings, its margin and its seed, what it knows by its
/// records, and the events of this run. No two of its contracts have one identifier.
#[derive(Drop)]
pub struct Core {
    pub(crate) settings: Settings,
    pub(crate) margin: u64,
    pub(crate) ledger: Ledger,
    pub(crate) contracts: List<KeptContract>,
    pub(crate) records: u64,
    pub(crate) log: Log,
    pub(crate) phase: Phase,
}

impl Model for Core {
    ghost use Rattle.std.specs.Prelude.{◌≡◌};
    ghost use Rattle.sia_kept.specs.State.{IsSound};
    ghost use Rattle.sia_host.specs.Answered.{Host};
    ghost use Rattle.sia_host.specs.Spoiling.{HasLast, is_spoiled};

    ghost Value = { Host };

    ghost view = { λ c. record { settings = c.settings; margin = c.margin; seed = c.log.seed; state = record { chain = c.ledger; contracts = c.contracts; count = c.records }; events = c.log.events; phase = c.phase } };

    ghost invariant = { λ c. IsSound c.settings.sector c.settings.host_key c.contracts × (c.log.spoiled ≡ is_spoiled c.phase) × HasLast c.phase c.log.events };
}

impl Core {
    /// A host that begins: no block, no contract and no session.
    ///
    /// # Errors
    /// [`CoreFault::Genesis`] exactly where the chain's genesis is refused, or want of memory.
    pub fn new(alloc: Global, config: CoreConfig, seed: [u8; 32]) -> Result<Core, CoreFault>
        requires size { (power : ℕ) × (power ≤ 16) × (config.settings.sector ≡ 64 * 2 ^ power) }
        ensures judged { Tells (λ _. tt) core_told result (unless (genesis_refusal config.params)) }
        ensures begun { IfOk result (λ core. core ≡ record { settings = config.settings; margin = config.margin; seed = seed; state = first_state config.params; events = []; phase = phase.Settled }) }
    {
        let CoreConfig {
            params,
            settings,
            margin,
        } = config;
        let ledger = begin_ledger(alloc, params)?;
        Ok(Core {
            settings,
            margin,
            ledger,
            contracts: List::new(alloc),
            records: 0,
            log: Log::new(alloc, seed),
            phase: Phase::Settled,
        })
    }

    /// The events of this run, in order.
    pub fn events(&self) -> &[Event]
        ensures { result.now ≡ self.now.events }
    {
        self.log.events()
    }

    /// What the chain holds; once a step was taken back, what it held before that step.
    pub fn sums(&self) -> Sums
        ensures { result ≡ (told_now self.now).sums }
    {
        self.told().sums
    }

    /// The identifier of the chain's last block; once a step was taken back, of the last one before that step.
    pub fn tip(&self) -> Hash
        ensures { result ≡ (told_now self.now).tip }
    {
        self.told().tip
    }

    /// How many records the host has kept, as far as a number of 64 bits goes; once a step was taken back, before that step.
    pub fn records(&self) -> u64
        ensures { result ≡ (told_now self.now).records }
    {
        self.told().records
    }

    /// How many sessions are live.
    pub fn live_sessions(&self) -> u64
        ensures { result ≡ length (live_sessions_so self.now.seed self.now.events) }
    {
        self.log.live_count()
    }

    // What is told of the chain and the records.
    fn told(&self) -> Past
        ensures { result ≡ told_now self.now }
    {
        match self.phase {
            Phase::Settled => self.present(),
            Phase::Stepped(_) => self.present(),
            Phase::Spoiled(past) => past,
        }
    }

    /// What the chain holds, its last block, and how many records there are.
    pub(crate) fn present(&self) -> Past
        ensures { result ≡ past_of self.now }
    {
        Past {
            sums: self.ledger.sums(),
            tip: self.ledger.tip(),
            records: self.records,
        }
    }

    /// What always holds of its contracts, told for the proof alone.
    pub(crate) fn tell_sound(&self)
        ensures { IsSound self.now.settings.sector self.now.settings.host_key self.now.state.contracts }
    {
        let _margin = self.margin;
    }

    /// The settings, with the height of the chain.
    pub(crate) fn settings_now(&self) -> Settings
        ensures { result ≡ settings_now self.now }
    {
        Settings {
            height: self.ledger.height(),
            ..self.settings
        }
    }

    /// The session with this number, which is to be live and to hold no contract.
    pub(crate) fn idle(&self, number: u64) -> Result<&Session, Refusal>
        ensures { Tells (λ session. session.now) code_told result (idle_now self.now number) }
    {
        let Some(session) = self.log.session(number) else {
            return Err(Refusal::Code(WRONG_STATE));
        };
        match session.held {
            None => Ok(session),
            Some(_) => Err(Refusal::Code(WRONG_STATE)),
        }
    }

    /// The contract that a session holds.
    pub(crate) fn held(&self, number: u64) -> Option<Hash>
        ensures { result ≡ held_now self.now number }
    {
        let session = self.log.session(number)?;
        session.held
    }

    /// The contract with this identifier, which the host is to know.
    pub(crate) fn contract(&self, id: &Hash) -> Result<&KeptContract, Refusal>
        ensures { Tells (λ c. c.now) code_told result (contract_now self.now id.now) }
    {
        match find_contract(&self.contracts, id) {
            None => Err(Refusal::Code(NO_CONTRACT)),
            Some(contract) => Ok(contract),
        }
    }

    /// Notes the event of a call that makes no record, and replies.
    pub(crate) fn answer(
        &mut self,
        alloc: Global,
        call: Call,
        contract: Option<Hash>,
        outcome: Outcome,
        reply: Reply,
    ) -> Result<Step, AllocError>
        ensures gives { IfOk result (λ step. IsReaction self.old (answered self.old call contract outcome reply None) step self.new) }
        ensures kept { OnErr result (self.new ≡ self.old) }
    {
        self.log.reserve()?;
        let event = self.event(call, contract, outcome);
        self.log.note(event);
        Ok(Step::plain(alloc, reply, None))
    }

    /// Notes the event of a call that is refused, and replies its code.
    pub(crate) fn refuse(
        &mut self,
        alloc: Global,
        call: Call,
        contract: Option<Hash>,
        code: u64,
    ) -> Result<Step, AllocError>
        ensures gives { IfOk result (λ step. IsReaction self.old (refused self.old call contract code) step self.new) }
        ensures kept { OnErr result (self.new ≡ self.old) }
    {
        self.answer(
            alloc,
            call,
            contract,
            Outcome::Code(code),
            Reply::Error { code },
        )
    }

    /// The event of a call, with as many records as there are.
    pub(crate) fn event(&self, call: Call, contract: Option<Hash>, outcome: Outcome) -> Event
        ensures { result ≡ event_of self.now call contract outcome None }
    {
        Event {
            worker: call.worker,
            session: call.session,
            kind: call.kind,
            contract,
            outcome,
            records: self.records,
        }
    }
}

// The ledger of a chain without a block.
fn begin_ledger(alloc: Global, params: Params) -> Result<Ledger, CoreFault>
    ensures judged { Tells (λ _. tt) core_told result (unless (genesis_refusal params)) }
    ensures begun { IfOk result (λ ledger. ledger ≡ begun params) }
{
    match Ledger::genesis(alloc, params) {
        Ok(ledger) => Ok(ledger),
        Err(GenesisFault::Memory) => Err(CoreFault::Memory),
        Err(fault) => Err(CoreFault::Genesis(fault)),
    }
}
