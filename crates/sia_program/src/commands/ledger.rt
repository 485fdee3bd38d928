//! `ledger CONFIG FEED`: the sums of the chain that a configuration and a feed make.
ghost use Rattle.std.specs.Prelude.{◌≡◌, ◌≤◌, ◌⊎◌, Err, None, Ok, IfOk, IfSome, OnOk, string_bytes};
ghost use Rattle.sia_edge.specs.Edge.{Rose};
ghost use Rattle.sia_encoding.specs.Answer.{Answers};
ghost use Rattle.sia_ledger.specs.Chain.{begun};
ghost use Rattle.sia_ledger.specs.Genesis.{genesis_refusal};
ghost use Rattle.sia_program.specs.Answer.{ReadToEnd};
ghost use Rattle.sia_program.specs.Commands.Ledger.{after_record, applied, begin, done_at, finish, ledger_outcome, reverted, run};
ghost use Rattle.sia_program.specs.Commands.Ledger.{ledger_form as ledger_form_of, sums_text as sums_text_of};
ghost use Rattle.sia_program.specs.Outcome.{given_both};
ghost use Rattle.sia_program.specs.Told.{refusal_told, stop_told};

use crate::feed::{FeedRecord, is_at_end, take_record};
use crate::form::{FilePlaces, Form};
use crate::input::{CONFIG_BOUND, INPUT_BOUND, read_within};
use crate::lines::{hash_text, put_number, put_text};
use crate::rule::BrokenRule;
use crate::stop::{Fault, Refusal, Stop};
use sia_blake::Hash;
use sia_config::read_config;
use sia_edge::{SigCheck, Source};
use sia_encoding::limits::BLOCK_BYTES;
use sia_encoding::{Blob, Cursor, Steps};
use sia_ledger::{Block, GenesisFault, Ledger, Params, RevertFault, Sums};
use std::alloc::{AllocError, Global};
use std::marker::Brand;
use std::sync::ledger::{Blank, Ledger as StepBook};

/// The second word names the configuration, and the third the feed.
pub(crate) const LEDGER_FILES: FilePlaces = FilePlaces {
    config: Some(1),
    input: Some(2),
};

/// The form, if the words are `ledger CONFIG FEED`.
pub(crate) fn ledger_form(words: &[Blob]) -> Option<Form>
    ensures { result ≡ ledger_form_of words.now }
{
    match words {
        [command, _, _] => {
            if command.as_slice() == b"ledger".as_slice() {
                Some(Form::Ledger)
            } else {
                None
            }
        }
        _ => None,
    }
}

/// The ledger of a genesis that is accepted. Its error is want of memory alone.
fn begin_ledger(alloc: Global, params: Params) -> Result<Ledger, Fault>
    requires { genesis_refusal params ≡ None }
    ensures { Answers (λ ledger. ledger) refusal_told result (Ok (begun params)) }
{
    match Ledger::genesis(alloc, params) {
        Ok(ledger) => Ok(ledger),
        Err(GenesisFault::Memory) => Err(Fault::Memory),
        Err(GenesisFault::FundSum { got: _ }) => unreachable!(),
        Err(GenesisFault::Maturity) => unreachable!(),
    }
}

#[tactic(auto, unfolding(crate::specs::Commands::Ledger::applied))]
fn apply<C: SigCheck, L: StepBook>(
    alloc: Global,
    ledger: &mut Ledger,
    block: &Block,
    check: &C,
    steps: &mut Steps<L>,
) -> Result<(), Fault>
    ensures { Answers (λ _. ledger.new) refusal_told result (applied C.verdict ledger.old block.now) }
{
    match ledger.apply(alloc, block, check, steps) {
        Ok(()) => Ok(()),
        Err(fault) => match BrokenRule::of(fault) {
            Some(rule) => Err(Fault::Refused(Refusal::Block {
                tip_height: ledger.height(),
                rule,
            })),
            None => Err(Fault::Memory),
        },
    }
}

#[tactic(auto, unfolding(crate::specs::Commands::Ledger::reverted))]
fn revert<L: StepBook>(ledger: &mut Ledger, steps: &mut Steps<L>) -> Result<(), Fault>
    ensures { Answers (λ _. ledger.new) refusal_told result (reverted ledger.old) }
{
    match ledger.revert(steps) {
        Ok(()) => Ok(()),
        Err(RevertFault::NoBlock) => Err(Fault::Refused(Refusal::NoBlock)),
        Err(RevertFault::Memory) => Err(Fault::Memory),
    }
}

fn follow<C: SigCheck, L: StepBook>(
    alloc: Global,
    ledger: &mut Ledger,
    record: &FeedRecord,
    check: &C,
    steps: &mut Steps<L>,
) -> Result<(), Fault>
    ensures { Answers (λ _. ledger.new) refusal_told result (after_record C.verdict ledger.old record.now) }
{
    match record {
        FeedRecord::Apply(block) => apply(alloc, ledger, block, check, steps),
        FeedRecord::Revert => revert(ledger, steps),
    }
}

/// Reads the next record of a feed, and does it.
#[tactic(auto, unfolding(crate::specs::Commands::Ledger::done_at))]
fn do_record<C: SigCheck, L: StepBook>(
    alloc: Global,
    ledger: &mut Ledger,
    cursor: &mut Cursor,
    check: &C,
    steps: &mut Steps<L>,
) -> Result<(), Fault>
    ensures { Answers (λ _. (ledger.new, cursor.new)) refusal_told result (done_at C.verdict cursor.old ledger.old) }
{
    let record = take_record(alloc, cursor)?;
    follow(alloc, ledger, &record, check, steps)
}

/// Reads and does the records of a feed in turn, up to the first that can't be read or is refused.
#[tactic(auto, unfolding(crate::specs::Commands::Ledger::run))]
fn run_counted<C: SigCheck, L: StepBook>(
    alloc: Global,
    ledger: &mut Ledger,
    feed: &[u8],
    check: &C,
    blank: Blank,
) -> Result<(), Fault>
    requires name { blank.name ≡ L.name }
    requires parts { blank.parts ≡ L.parts }
    requires one { blank.parts ≡ 1 }
    ensures { Answers (λ _. ledger.new) refusal_told result (run C.verdict ledger.old feed.now) }
{
    let mut steps = Steps::<L>::new(blank);
    let mut cursor = Cursor::new(feed, BLOCK_BYTES);
    for i in 0..feed.len() + 1 {
        if is_at_end(&cursor) {
            return Ok(());
        }
        match do_record(alloc, ledger, &mut cursor, check, &mut steps) {
            Ok(()) => {}
            Err(fault) => return Err(fault),
        }
    }
    Err(Fault::Refused(Refusal::Feed { at: cursor.at() }))
}

/// The same, where nobody counts the steps.
fn run_feed<C: SigCheck>(
    alloc: Global,
    ledger: &mut Ledger,
    feed: &[u8],
    check: &C,
) -> Result<(), Fault>
    ensures { Answers (λ _. ledger.new) refusal_told result (run C.verdict ledger.old feed.now) }
{
    run_counted::<C, Brand>(alloc, ledger, feed, check, Blank::new(1))
}

/// The lines of a chain's sums and its tip.
#[tactic(auto, unfolding(crate::specs::Commands::Ledger::sums_text))]
pub fn sums_text(alloc: Global, sums: &Sums, tip: &Hash) -> Result<String, AllocError>
    ensures { IfOk result (λ text. string_bytes text ≡ sums_text_of sums.now tip.now) }
{
    let tip = hash_text(alloc, tip)?;
    let mut out = String::new(alloc);
    put_number(&mut out, "height", u128::from(sums.height))?;
    put_text(&mut out, "tip", tip.as_str())?;
    put_number(&mut out, "outputs", sums.outputs)?;
    put_number(&mut out, "immature", sums.immature)?;
    put_number(&mut out, "escrow", sums.escrow)?;
    put_number(&mut out, "pool", sums.pool)?;
    put_number(&mut out, "unclaimed", sums.unclaimed)?;
    put_number(&mut out, "issued", sums.issued)?;
    Ok(out)
}

/// The ledger that a configuration begins.
#[tactic(auto, unfolding(crate::specs::Commands::Ledger::begin))]
fn begin_from<S: Source>(alloc: Global, config: &mut S) -> Result<Ledger, Stop>
    ensures told { IfSome (S.left config.old) (λ left. Answers (λ ledger. ledger) stop_told result (begin left)) }
    ensures ended { OnOk result (ReadToEnd (S.left config.old) (S.left config.new)) }
    ensures later { S.faults config.old ≤ S.faults config.new }
    ensures failed { result ≡ Err Stop.Outside → Rose (S.faults config.old) (S.faults config.new) }
{
    let bytes = read_within(alloc, config, CONFIG_BOUND)?;
    let read = read_config(alloc, bytes.as_slice())?;
    let ledger = begin_ledger(alloc, read.host.params)?;
    Ok(ledger)
}

/// The lines of what a feed makes of a ledger.
#[tactic(auto, unfolding(crate::specs::Commands::Ledger::finish))]
fn finish_with<S: Source, C: SigCheck>(
    alloc: Global,
    mut ledger: Ledger,
    input: &mut S,
    check: &C,
) -> Result<String, Stop>
    ensures told { IfSome (S.left input.old) (λ left. Answers string_bytes stop_told result (finish C.verdict ledger left)) }
    ensures ended { OnOk result (ReadToEnd (S.left input.old) (S.left input.new)) }
    ensures later { S.faults input.old ≤ S.faults input.new }
    ensures failed { result ≡ Err Stop.Outside → Rose (S.faults input.old) (S.faults input.new) }
{
    let bytes = read_within(alloc, input, INPUT_BOUND)?;
    run_feed(alloc, &mut ledger, bytes.as_slice(), check)?;
    let text = sums_text(alloc, &ledger.sums(), &ledger.tip())?;
    Ok(text)
}

/// What `ledger` prints: the sums of the chain that a configuration and a feed make.
#[tactic(auto, unfolding(crate::specs::Commands::Ledger::ledger_outcome))]
pub(crate) fn text_of_ledger<S: Source, C: SigCheck>(
    alloc: Global,
    config: &mut S,
    input: &mut S,
    check: &C,
) -> Result<String, Stop>
    ensures told { IfSome (given_both (ledger_outcome C.verdict) (S.left config.old) (S.left input.old)) (λ given. Answers string_bytes stop_told result given) }
    ensures config_ended { OnOk result (ReadToEnd (S.left config.old) (S.left config.new)) }
    ensures input_ended { OnOk result (ReadToEnd (S.left input.old) (S.left input.new)) }
    ensures failed { result ≡ Err Stop.Outside →
        Rose (S.faults config.old) (S.faults config.new) ⊎ Rose (S.faults input.old) (S.faults input.new) }
    ensures config_later { S.faults config.old ≤ S.faults config.new }
    ensures input_later { S.faults input.old ≤ S.faults input.new }
{
    let ledger = begin_from(alloc, config)?;
    let text = finish_with(alloc, ledger, input, check)?;
    Ok(text)
}
