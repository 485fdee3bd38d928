//! The feed: records that apply a block or revert the last one.
ghost use Rattle.std.specs.Prelude.{◌≡◌, ◌==◌, length};
ghost use Rattle.sia_encoding.specs.Answer.{Answers};
ghost use Rattle.sia_program.specs.Feed.{block_record_at, record_at};
ghost use Rattle.sia_program.specs.Told.{refusal_told};

use crate::places::feed_fault;
use crate::stop::{Fault, Refusal};
use sia_encoding::{Cursor, Item};
use sia_types::Block;
use std::alloc::Global;

/// A record of a feed.
#[derive(Drop)]
pub enum FeedRecord {
    /// A block is put behind the last one.
    Apply(Block),
    /// The last block is dropped.
    Revert,
}

/// The block of a record whose first byte is 1.
#[tactic(auto, unfolding(crate::specs::Feed::block_record_at))]
fn take_block_record(alloc: Global, cursor: &mut Cursor) -> Result<FeedRecord, Fault>
    ensures { Answers (λ taken. (taken, cursor.new)) refusal_told result (block_record_at cursor.old) }
{
    match Block::take(alloc, cursor) {
        Ok(block) => Ok(FeedRecord::Apply(block)),
        Err(fault) => Err(feed_fault(fault)),
    }
}

/// Takes the next record: byte 1 and a block, or byte 2 for a revert. Bytes that are no record are refused with
/// [`Refusal::Feed`] at the place of their first fault.
#[tactic(auto, unfolding(crate::specs::Feed::record_at))]
pub fn take_record(alloc: Global, cursor: &mut Cursor) -> Result<FeedRecord, Fault>
    ensures { Answers (λ taken. (taken, cursor.new)) refusal_told result (record_at cursor.old) }
{
    let place = cursor.at();
    let kind = match cursor.take_fixed::<1>() {
        Ok(kind) => kind,
        Err(fault) => return Err(feed_fault(fault)),
    };
    match kind[0] {
        1 => take_block_record(alloc, cursor),
        2 => Ok(FeedRecord::Revert),
        _ => Err(Fault::Refused(Refusal::Feed { at: place })),
    }
}

/// Whether all records were taken.
pub(crate) fn is_at_end(cursor: &Cursor) -> bool
    ensures { result ≡ (length cursor.now.left == 0) }
{
    cursor.end().is_ok()
}
