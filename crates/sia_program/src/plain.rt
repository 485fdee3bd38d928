//! The commands that read their input and print a text.
ghost use Rattle.std.specs.Prelude.{◌↔◌, ◌≡◌, ◌≤◌, ◌⊎◌, Err, Some, None, OnOk, false, string_bytes};
ghost use Rattle.sia_edge.specs.Edge.{Rose};
ghost use Rattle.sia_encoding.specs.Answer.{Answers};
ghost use Rattle.sia_program.specs.Answer.{Answered, Ended, IsQuiet, ReadFell, ReadToEnds, Tells};
ghost use Rattle.sia_program.specs.Form.{form_of, names_config, names_input};
ghost use Rattle.sia_program.specs.Lines.{usage_line};
ghost use Rattle.sia_program.specs.Outcome.{OfOutcome};
ghost use Rattle.sia_program.specs.Streams.{sources, stream};
ghost use Rattle.sia_program.specs.Told.{stop_told};

use crate::commands::ledger::text_of_ledger;
use crate::commands::prove::text_of_prove;
use crate::commands::root::text_of_root;
use crate::commands::show::{text_of_block, text_of_transaction};
use crate::form::{Form, read_form};
use crate::stop::Stop;
use crate::telling::{tell, write_line};
use sia_edge::{SigCheck, Sink, Source, write_all};
use sia_encoding::Blob;
use std::alloc::Global;

/// What a form prints. A source that the form doesn't name isn't touched.
fn text_of<S: Source, C: SigCheck>(
    alloc: Global,
    form: Form,
    config: &mut S,
    input: &mut S,
    check: &C,
) -> Result<String, Stop>
    ensures told { OfOutcome C.verdict form (sources S.left S.faults config.old input.old) (λ given. Answers string_bytes stop_told result given) }
    ensures ended { OnOk result (ReadToEnds form (sources S.left S.faults config.old input.old) (sources S.left S.faults config.new input.new)) }
    ensures failed { result ≡ Err Stop.Outside → ReadFell form (sources S.left S.faults config.old input.old) (sources S.left S.faults config.new input.new) }
    ensures config_unread { names_config form ≡ false → config.new ≡ config.old }
    ensures input_unread { names_input form ≡ false → input.new ≡ input.old }
    ensures config_later { S.faults config.old ≤ S.faults config.new }
    ensures input_later { S.faults input.old ≤ S.faults input.new }
{
    match form {
        Form::Ledger => text_of_ledger(alloc, config, input, check),
        Form::Root => text_of_root(alloc, input),
        Form::Prove { start, end } => text_of_prove(alloc, start, end, input),
        Form::ShowTransaction => text_of_transaction(alloc, input),
        Form::ShowBlock => text_of_block(alloc, input),
    }
}

/// Prints what a form prints, once its whole input is read and accepted.
fn print<S: Source, K: Sink, C: SigCheck>(
    alloc: Global,
    form: Form,
    config: &mut S,
    input: &mut S,
    check: &C,
    out: &mut K,
) -> Result<(), Stop>
    ensures told { OfOutcome C.verdict form (sources S.left S.faults config.old input.old)
        (λ given. Ended result given (stream K.taken K.faults out.old) (stream K.taken K.faults out.new)) }
    ensures quiet { IsQuiet result (stream K.taken K.faults out.old) (stream K.taken K.faults out.new) }
    ensures ended { OnOk result (ReadToEnds form (sources S.left S.faults config.old input.old) (sources S.left S.faults config.new input.new)) }
    ensures failed { result ≡ Err Stop.Outside →
        ReadFell form (sources S.left S.faults config.old input.old) (sources S.left S.faults config.new input.new)
        ⊎ Rose (K.faults out.old) (K.faults out.new) }
    ensures config_unread { names_config form ≡ false → config.new ≡ config.old }
    ensures input_unread { names_input form ≡ false → input.new ≡ input.old }
    ensures config_later { S.faults config.old ≤ S.faults config.new }
    ensures input_later { S.faults input.old ≤ S.faults input.new }
    ensures out_later { K.faults out.old ≤ K.faults out.new }
{
    let text = text_of(alloc, form, config, input, check)?;
    match write_all(out, text.as_str().as_bytes()) {
        Ok(()) => Ok(()),
        Err(_) => Err(Stop::Outside),
    }
}

/// Runs the command that the words name, and answers its status.
///
/// The forms are:
///
/// - `ledger CONFIG FEED`: `config` gives the bytes of CONFIG, at most 65,536, and `input` those of FEED, at most 2^30. It
///   applies the feed to the chain that the configuration begins, where `check` judges signatures, and writes the sums to `out`.
/// - `root FILE`: `input` gives the bytes of FILE, at most 2^30, which are hashed as they are read, 65,536 at a time. It writes
///   the file's Merkle root, the count of its leaves and that of its bytes to `out`. `config` isn't read.
/// - `prove FILE A B`: the same, and A and B are decimal numbers below 2^64 without sign or leading zero. It writes the
///   file's Merkle root, the count of its leaves, and the hashes that prove the leaves from A to B, without B, to `out`. A
///   range that isn't A < B ≤ the count of leaves is refused.
/// - `show transaction FILE` and `show block FILE`: `input` gives the bytes of FILE, at most 2,000,000. It writes the fields of
///   the transaction or block that the bytes spell to `out`, a line for each entry. Bytes that spell none, or a rest behind it,
///   are refused at the place of their first fault.
///
/// Nothing is written to `out` before the whole input was accepted.
///
/// | Status | Comes where | Line on `err` |
/// |---|---|---|
/// | 0 | the text was written | none |
/// | 1 | exactly where the words have no form | `sia-v1: usage` |
/// | 2 | the configuration or the input is refused | `sia-v1: refused` and the case |
/// | 3 | a read, or a write to `out`, failed | `sia-v1: outside fault` |
/// | 5 | memory ran out | `sia-v1: no memory` |
/// | 8 | the configuration or the input is longer than its bound | `sia-v1: input too long` |
///
/// A write to `err` that fails changes no status.
pub fn run_plain<S: Source, K: Sink, C: SigCheck>(
    alloc: Global,
    words: &[Blob],
    config: &mut S,
    input: &mut S,
    check: &C,
    out: &mut K,
    err: &mut K,
) -> u8
    // Status 1 is exactly that of words without a form. Then nothing is read, and nothing written but the usage.
    ensures usage { (result ≡ 1) ↔ (form_of words.now ≡ None) }
    ensures unnamed { form_of words.now ≡ None →
        (config.new ≡ config.old) × (input.new ≡ input.old) × (out.new ≡ out.old) ×
        Tells usage_line (stream K.taken K.faults err.old) (stream K.taken K.faults err.new) }

    // What words with a form answer and leave in the outside.
    ensures answered { (form : Form) → form_of words.now ≡ Some form →
        Answered C.verdict form result
        (record {
          sources = sources S.left S.faults config.old input.old;
          out = stream K.taken K.faults out.old;
          err = stream K.taken K.faults err.old;
        })
        (record {
          sources = sources S.left S.faults config.new input.new;
          out = stream K.taken K.faults out.new;
          err = stream K.taken K.faults err.new;
        }) }

    // A source that the words don't name is as it was.
    ensures config_unread { (form : Form) → form_of words.now ≡ Some form → names_config form ≡ false → config.new ≡ config.old }
    ensures input_unread { (form : Form) → form_of words.now ≡ Some form → names_input form ≡ false → input.new ≡ input.old }
{
    let Some(form) = read_form(words) else {
        write_line(err, "sia-v1: usage\n".as_bytes());
        return 1;
    };
    match print(alloc, form, config, input, check, out) {
        Ok(()) => 0,
        Err(stop) => tell(alloc, stop, err),
    }
}
