//! The lists that grow and shrink with a chain: its blocks, their identifiers, what was made and done, and the marks in it.
ghost use Rattle.std.specs.Prelude.{◌≡◌, ℕ, ◌-◌, ◌++◌, ◌∷◌, [], List as Sequence, length, take, OnOk, OnErr};

use crate::catalog::Catalog;
use crate::fact::Fact;
use crate::judging::Judged;
use sia_blake::Hash;
use sia_encoding::List;
use sia_types::Block;
use std::alloc::AllocError;

/// Puts a block, its identifier and what it makes and does behind the last ones, and a mark before the latter. Its error is want
/// of memory: all stay.
pub(crate) fn push_block(
    blocks: &mut List<Block>,
    ids: &mut List<Hash>,
    catalog: &mut Catalog,
    marks: &mut List<u64>,
    block: Block,
    judged: Judged,
) -> Result<(), AllocError>
    ensures blocks { OnOk result (blocks.new ≡ blocks.old ++ block ∷ []) }
    ensures ids { OnOk result (ids.new ≡ ids.old ++ judged.id ∷ []) }
    ensures facts { OnOk result (catalog.new ≡ catalog.old ++ judged.made) }
    ensures marks { OnOk result (marks.new ≡ marks.old ++ length catalog.old ∷ []) }
    ensures blocks_stay { OnErr result (blocks.new ≡ blocks.old) }
    ensures ids_stay { OnErr result (ids.new ≡ ids.old) }
    ensures facts_stay { OnErr result (catalog.new ≡ catalog.old) }
    ensures marks_stay { OnErr result (marks.new ≡ marks.old) }
{
    let Judged { id, made } = judged;
    let (block_count, id_count) = (blocks.len(), ids.len());
    blocks.push(block)?;
    if ids.push(id).is_err() {
        blocks.truncate(block_count);
        return Err(AllocError);
    }
    if push_marked(catalog, marks, made).is_err() {
        blocks.truncate(block_count);
        ids.truncate(id_count);
        return Err(AllocError);
    }
    Ok(())
}

// Puts facts behind the last ones, and a mark behind the last mark. Its error is want of memory: both stay.
fn push_marked(
    catalog: &mut Catalog,
    marks: &mut List<u64>,
    made: List<Fact>,
) -> Result<(), AllocError>
    ensures facts { OnOk result (catalog.new ≡ catalog.old ++ made) }
    ensures marks { OnOk result (marks.new ≡ marks.old ++ length catalog.old ∷ []) }
    ensures facts_stay { OnErr result (catalog.new ≡ catalog.old) }
    ensures marks_stay { OnErr result (marks.new ≡ marks.old) }
{
    let count = marks.len();
    marks.push(catalog.register().len() as u64)?;
    if catalog.append(made).is_err() {
        marks.truncate(count);
        return Err(AllocError);
    }
    Ok(())
}

/// Takes back the identifier of the last block, its mark, and what stands behind that. It takes no memory.
pub(crate) fn drop_block(ids: &mut List<Hash>, catalog: &mut Catalog, marks: &mut List<u64>)
    ensures ids { ids.new ≡ take (length ids.old - 1) ids.old }
    ensures facts { (earlier : Sequence ℕ) (mark : ℕ) → marks.old ≡ earlier ++ mark ∷ [] → catalog.new ≡ take mark catalog.old }
    ensures marks { (earlier : Sequence ℕ) (mark : ℕ) → marks.old ≡ earlier ++ mark ∷ [] → marks.new ≡ earlier }
{
    ids.truncate(ids.len().saturating_sub(1));
    if let Some(mark) = marks.pop() {
        catalog.truncate(mark as usize);
    }
}
