//! `show transaction FILE`, `show block FILE`: the fields of one encoded transaction or block.
ghost use Rattle.std.specs.Prelude.{◌≡◌, ◌≤◌, Err, IfSome, OnOk, string_bytes};
ghost use Rattle.sia_edge.specs.Edge.{Rose};
ghost use Rattle.sia_encoding.specs.Answer.{Answers};
ghost use Rattle.sia_encoding.specs.Reading.{fault_told};
ghost use Rattle.sia_program.specs.Answer.{ReadToEnd};
ghost use Rattle.sia_program.specs.Commands.Show.{kind_shown as kind_shown_of, show_form as show_form_of};
ghost use Rattle.sia_program.specs.Commands.Show.{show_block_outcome, show_transaction_outcome, whole_record};
ghost use Rattle.sia_program.specs.declared.stop.Refusal.TheVariants as refusal;
ghost use Rattle.sia_program.specs.Told.{or_refused_at, refusal_told, stop_told};

use crate::fields::{block_lines, transaction_lines};
use crate::form::{FilePlaces, Form};
use crate::input::read_within;
use crate::places::input_fault;
use crate::stop::{Fault, Stop};
use sia_edge::Source;
use sia_encoding::limits::BLOCK_BYTES;
use sia_encoding::{Blob, Cursor, DecodeFault, Item};
use sia_types::{Block, Transaction};
use std::alloc::Global;

/// The third word names the file.
pub(crate) const SHOW_FILES: FilePlaces = FilePlaces {
    config: None,
    input: Some(2),
};

/// The form that shows a kind of record, if the word is one.
fn kind_shown(word: &[u8]) -> Option<Form>
    ensures { result ≡ kind_shown_of word.now }
{
    if word == b"transaction".as_slice() {
        Some(Form::ShowTransaction)
    } else if word == b"block".as_slice() {
        Some(Form::ShowBlock)
    } else {
        None
    }
}

/// The form, if the words are `show`, a kind of record and a file.
pub(crate) fn show_form(words: &[Blob]) -> Option<Form>
    ensures { result ≡ show_form_of words.now }
{
    match words {
        [command, kind, _] => {
            if command.as_slice() == b"show".as_slice() {
                kind_shown(kind.as_slice())
            } else {
                None
            }
        }
        _ => None,
    }
}

/// The one record that the bytes are, or the first fault of them; a rest behind it is one.
#[tactic(auto, unfolding(crate::specs::Commands::Show::whole_record))]
fn whole<T: Item>(alloc: Global, bytes: &[u8]) -> Result<T, DecodeFault>
    ensures { Answers (λ value. value) fault_told result (whole_record T.codec bytes.now) }
{
    let mut cursor = Cursor::new(bytes, BLOCK_BYTES);
    let value = T::read(alloc, &mut cursor)?;
    cursor.end()?;
    Ok(value)
}

/// The same; bytes that are no such record are refused at the place of their first fault.
fn read_record<T: Item>(alloc: Global, bytes: &[u8]) -> Result<T, Fault>
    ensures { Answers (λ value. value) refusal_told result (or_refused_at refusal.Input (whole_record T.codec bytes.now)) }
{
    match whole(alloc, bytes) {
        Ok(value) => Ok(value),
        Err(fault) => Err(input_fault(fault)),
    }
}

/// What `show transaction` prints.
#[tactic(auto, unfolding(crate::specs::Commands::Show::shown))]
pub(crate) fn text_of_transaction<S: Source>(alloc: Global, input: &mut S) -> Result<String, Stop>
    ensures told { IfSome (S.left input.old) (λ left. Answers string_bytes stop_told result (show_transaction_outcome left)) }
    ensures ended { OnOk result (ReadToEnd (S.left input.old) (S.left input.new)) }
    ensures later { S.faults input.old ≤ S.faults input.new }
    ensures failed { result ≡ Err Stop.Outside → Rose (S.faults input.old) (S.faults input.new) }
{
    let bytes = read_within(alloc, input, BLOCK_BYTES)?;
    let tx = read_record::<Transaction>(alloc, bytes.as_slice())?;
    let text = transaction_lines(alloc, &tx)?;
    Ok(text)
}

/// What `show block` prints.
#[tactic(auto, unfolding(crate::specs::Commands::Show::shown))]
pub(crate) fn text_of_block<S: Source>(alloc: Global, input: &mut S) -> Result<String, Stop>
    ensures told { IfSome (S.left input.old) (λ left. Answers string_bytes stop_told result (show_block_outcome left)) }
    ensures ended { OnOk result (ReadToEnd (S.left input.old) (S.left input.new)) }
    ensures later { S.faults input.old ≤ S.faults input.new }
    ensures failed { result ≡ Err Stop.Outside → Rose (S.faults input.old) (S.faults input.new) }
{
    let bytes = read_within(alloc, input, BLOCK_BYTES)?;
    let block = read_record::<Block>(alloc, bytes.as_slice())?;
    let text = block_lines(alloc, &block)?;
    Ok(text)
}
