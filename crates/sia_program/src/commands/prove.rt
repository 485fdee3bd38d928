//! `prove FILE A B`: the proof of a range of a file's leaves. The file is read in pieces and hashed as it comes.
ghost use Rattle.std.specs.Prelude.{◌≡◌, ◌≤◌, ◌++◌, Err, IfOk, IfSome, OnOk, string_bytes};
ghost use Rattle.sia_edge.specs.Edge.{Rose};
ghost use Rattle.sia_encoding.specs.Answer.{Answers};
ghost use Rattle.sia_program.specs.Answer.{ReadToEnd};
ghost use Rattle.sia_program.specs.Commands.Prove.{hash_lines, leaves_line as leaves_line_of, prove_form as prove_form_of};
ghost use Rattle.sia_program.specs.Commands.Prove.{proof_found, prove_outcome, seen, prove_text as prove_text_of, range_proof as range_proof_of};
ghost use Rattle.sia_program.specs.Told.{refusal_told, stop_told};

use crate::form::{FilePlaces, Form};
use crate::input::INPUT_BOUND;
use crate::lines::{hash_text, put_text};
use crate::stop::{Fault, Refusal, Stop};
use crate::words::read_number;
use sia_blake::Hash;
use sia_edge::{Source, fill_from};
use sia_encoding::Blob;
use sia_merkle::leaves;
use sia_range::{PIECE_LEN, RangeProof, RangeProver};
use std::alloc::{AllocError, Global};

/// The second word names the file.
pub(crate) const PROVE_FILES: FilePlaces = FilePlaces {
    config: None,
    input: Some(1),
};

/// The form, if the words are `prove FILE A B` and A and B are numbers.
pub(crate) fn prove_form(words: &[Blob]) -> Option<Form>
    ensures { result ≡ prove_form_of words.now }
{
    match words {
        [command, _, start, end] => {
            if command.as_slice() == b"prove".as_slice() {
                Some(Form::Prove {
                    start: read_number(start.as_slice())?,
                    end: read_number(end.as_slice())?,
                })
            } else {
                None
            }
        }
        _ => None,
    }
}

/// The root of a file that is read in pieces, with the proof of the leaves from `start` to `end`, and how many bytes it has.
fn find_proof<S: Source>(
    alloc: Global,
    start: u64,
    end: u64,
    input: &mut S,
) -> Result<(RangeProof, u64), Stop>
    ensures told { IfSome (S.left input.old) (λ left. Answers (λ found. seen found.0 found.1) stop_told result (proof_found start end left)) }
    ensures ended { OnOk result (ReadToEnd (S.left input.old) (S.left input.new)) }
    ensures later { S.faults input.old ≤ S.faults input.new }
    ensures failed { result ≡ Err Stop.Outside → Rose (S.faults input.old) (S.faults input.new) }
{
    let mut prover = RangeProver::new(alloc, start, end);
    let mut buffer = [0; PIECE_LEN];
    let mut size = 0;
    for _ in 0..INPUT_BOUND / PIECE_LEN as u64 + 1 {
        let Ok(count) = fill_from(input, &mut buffer) else {
            return Err(Stop::Outside);
        };
        let (piece, _) = buffer.split_at(count);
        size += count as u64;
        if size > INPUT_BOUND {
            return Err(Stop::Long);
        }
        if count < PIECE_LEN {
            let proof = prover.finish(piece)?;
            return Ok((proof, size));
        }
        prover = prover.push(piece)?;
    }
    Err(Stop::Long)
}

/// The proof of the leaves from `start` to `end`, without `end`. It is refused with [`Refusal::Range`] exactly where the
/// range has no leaf or ends past the last one.
#[tactic(auto, unfolding(crate::specs::Commands::Prove::range_proof))]
fn range_proof(start: u64, end: u64, proof: &RangeProof, size: u64) -> Result<&[Hash], Fault>
    ensures { Answers (λ hashes. hashes.now) refusal_told result (range_proof_of start end (seen proof.now size)) }
{
    if start < end && end <= leaves(size) {
        Ok(proof.hashes.as_slice())
    } else {
        Err(Fault::Refused(Refusal::Range))
    }
}

/// The line of a file's root and the count of its leaves.
#[tactic(auto, unfolding(crate::specs::Commands::Prove::leaves_line))]
fn leaves_line(alloc: Global, root: &Hash, leaves: u64) -> Result<String, AllocError>
    ensures { IfOk result (λ text. string_bytes text ≡ leaves_line_of root.now leaves) }
{
    let root = hash_text(alloc, root)?;
    format!(in alloc; "root {root} leaves {leaves}\n")
}

/// A line for each hash, in order.
fn put_hashes(alloc: Global, out: &mut String, hashes: &[Hash]) -> Result<(), AllocError>
    ensures { OnOk result (string_bytes out.new ≡ string_bytes out.old ++ hash_lines hashes.now) }
{
    for hash in hashes {
        let text = hash_text(alloc, hash)?;
        put_text(out, "hash", text.as_str())?;
    }
    Ok(())
}

/// The line of a file's root and the count of its leaves, and a line for each hash of a proof.
#[tactic(auto, unfolding(crate::specs::Commands::Prove::prove_text))]
pub fn prove_text(
    alloc: Global,
    root: &Hash,
    leaves: u64,
    hashes: &[Hash],
) -> Result<String, AllocError>
    ensures { IfOk result (λ text. string_bytes text ≡ prove_text_of root.now leaves hashes.now) }
{
    let mut out = leaves_line(alloc, root, leaves)?;
    put_hashes(alloc, &mut out, hashes)?;
    Ok(out)
}

/// What `prove` prints: the root of a file, how many leaves it has, and the hashes that prove a range of them.
#[tactic(auto, unfolding(crate::specs::Commands::Prove::prove_outcome))]
pub(crate) fn text_of_prove<S: Source>(
    alloc: Global,
    start: u64,
    end: u64,
    input: &mut S,
) -> Result<String, Stop>
    ensures told { IfSome (S.left input.old) (λ left. Answers string_bytes stop_told result (prove_outcome start end left)) }
    ensures ended { OnOk result (ReadToEnd (S.left input.old) (S.left input.new)) }
    ensures later { S.faults input.old ≤ S.faults input.new }
    ensures failed { result ≡ Err Stop.Outside → Rose (S.faults input.old) (S.faults input.new) }
{
    let (proof, size) = find_proof(alloc, start, end, input)?;
    let hashes = range_proof(start, end, &proof, size)?;
    let text = prove_text(alloc, &proof.root, leaves(size), hashes)?;
    Ok(text)
}
