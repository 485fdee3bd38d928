//! `root FILE`: the Merkle root of a file, which is read in pieces and hashed as it comes.
ghost use Rattle.std.specs.Prelude.{◌≡◌, ◌≤◌, Err, IfOk, IfSome, OnOk, string_bytes};
ghost use Rattle.sia_edge.specs.Edge.{Rose};
ghost use Rattle.sia_encoding.specs.Answer.{Answers};
ghost use Rattle.sia_program.specs.Answer.{ReadToEnd};
ghost use Rattle.sia_program.specs.Commands.Root.{root_found, root_outcome};
ghost use Rattle.sia_program.specs.Commands.Root.{root_form as root_form_of, root_text as root_text_of};
ghost use Rattle.sia_program.specs.Told.{stop_told};

use crate::form::{FilePlaces, Form};
use crate::input::INPUT_BOUND;
use crate::lines::hash_text;
use crate::stop::Stop;
use sia_blake::Hash;
use sia_edge::{Source, fill_from};
use sia_encoding::Blob;
use sia_merkle::{PieceStack, leaves};
use std::alloc::{AllocError, Global};

/// The second word names the file.
pub(crate) const ROOT_FILES: FilePlaces = FilePlaces {
    config: None,
    input: Some(1),
};

/// How many bytes are hashed at once: whole groups of 64 leaves.
const PIECE: usize = 65_536;

/// The form, if the words are `root FILE`.
pub(crate) fn root_form(words: &[Blob]) -> Option<Form>
    ensures { result ≡ root_form_of words.now }
{
    match words {
        [command, _] => {
            if command.as_slice() == b"root".as_slice() {
                Some(Form::Root)
            } else {
                None
            }
        }
        _ => None,
    }
}

/// The line of a file's root, the count of its leaves and that of its bytes.
#[tactic(auto, unfolding(crate::specs::Commands::Root::root_text))]
pub fn root_text(alloc: Global, root: &Hash, leaves: u64, bytes: u64) -> Result<String, AllocError>
    ensures { IfOk result (λ text. string_bytes text ≡ root_text_of root.now leaves bytes) }
{
    let root = hash_text(alloc, root)?;
    format!(in alloc; "root {root} leaves {leaves} bytes {bytes}\n")
}

/// The root of a file that is read in pieces, and how many bytes it has.
fn find_root<S: Source>(input: &mut S) -> Result<(Hash, u64), Stop>
    ensures told { IfSome (S.left input.old) (λ left. Answers (λ found. found) stop_told result (root_found left)) }
    ensures ended { OnOk result (ReadToEnd (S.left input.old) (S.left input.new)) }
    ensures later { S.faults input.old ≤ S.faults input.new }
    ensures failed { result ≡ Err Stop.Outside → Rose (S.faults input.old) (S.faults input.new) }
{
    let mut stack = PieceStack::new();
    let mut buffer = [0; PIECE];
    let mut size = 0;
    for _ in 0..INPUT_BOUND / PIECE as u64 + 1 {
        let Ok(count) = fill_from(input, &mut buffer) else {
            return Err(Stop::Outside);
        };
        let (piece, _) = buffer.split_at(count);
        size += count as u64;
        if size > INPUT_BOUND {
            return Err(Stop::Long);
        }
        if count < PIECE {
            return Ok((stack.root(piece), size));
        }
        stack.push(piece);
    }
    Err(Stop::Long)
}

/// What `root` prints: the root of a file, and how many leaves and bytes it has.
#[tactic(auto, unfolding(crate::specs::Commands::Root::root_outcome))]
pub(crate) fn text_of_root<S: Source>(alloc: Global, input: &mut S) -> Result<String, Stop>
    ensures told { IfSome (S.left input.old) (λ left. Answers string_bytes stop_told result (root_outcome left)) }
    ensures ended { OnOk result (ReadToEnd (S.left input.old) (S.left input.new)) }
    ensures later { S.faults input.old ≤ S.faults input.new }
    ensures failed { result ≡ Err Stop.Outside → Rose (S.faults input.old) (S.faults input.new) }
{
    let (root, size) = find_root(input)?;
    let text = root_text(alloc, &root, leaves(size), size)?;
    Ok(text)
}
