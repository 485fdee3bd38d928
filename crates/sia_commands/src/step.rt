//! What a command finds of the disks, and what it leaves to be done with them.
ghost use Rattle.std.specs.Prelude.{◌≡◌, [], None};

use crate::reply::Reply;
use sia_journal::RecordBuf;
use sia_types::{Blob, List};
use std::alloc::Global;

/// The room that the disks have.
#[derive(Drop)]
pub struct Room {
    /// How many bytes more the journal takes.
    pub bytes: u64,
    /// The least free slots that the command needs, in order, or all where fewer are free.
    pub free: List<u64>,
}

/// A sector that is to be put into a slot of the shelf.
#[derive(Drop)]
pub struct PutJob {
    /// The slot.
    pub slot: u64,
    /// The sector.
    pub bytes: Blob,
}

/// What a command comes to.
#[derive(Drop)]
pub struct Step {
    /// The reply.
    pub reply: Reply,
    /// The record that the journal is to keep, if the command makes one.
    pub payload: Option<RecordBuf>,
    /// The sectors that are to be put into free slots.
    pub puts: List<PutJob>,
    /// The slot whose sector the reply is to have, if it is to have one.
    pub fetch: Option<u64>,
    /// Empty, with room for that sector.
    pub sector: Vec<u8>,
    /// The slots whose sectors the record drops.
    pub freed: List<u64>,
}

impl Step {
    /// A step that leaves nothing to be done with the shelf. It takes no memory.
    pub fn plain(alloc: Global, reply: Reply, payload: Option<RecordBuf>) -> Step
        ensures reply { result.reply ≡ reply }
        ensures payload { result.payload ≡ payload }
        ensures puts { result.puts ≡ [] }
        ensures fetch { result.fetch ≡ None }
        ensures sector { result.sector.items ≡ [] }
        ensures freed { result.freed ≡ [] }
    {
        Step {
            reply,
            payload,
            puts: List::new(alloc),
            fetch: None,
            sector: Vec::new(alloc),
            freed: List::new(alloc),
        }
    }
}
