//! Frames on a link: each body behind its length (RHP2; siad's modules/negotiate.go).
ghost use Rattle.std.specs.Prelude.{◌≡◌, ℕ, ◌+◌, ◌-◌, ◌^◌, ◌<◌, ◌≤◌, ◌++◌, take, Option, Some, None, Ok, Err, List, length as size, OnOk, OnErr, IfOk, IfErr, IfSome};
ghost use Rattle.std.specs.Io.KnownBytes.{Appends};
ghost use Rattle.sia_edge.specs.Edge.{Rose};
ghost use Rattle.sia_edge.specs.Whole.{AppendsSomeOf};
ghost use Rattle.sia_encoding.specs.Spelling.{spelled_u64};
ghost use Rattle.sia_rhp.specs.Frames.{frame_of, body_at, frame_at, length_at};
ghost use Rattle.sia_rhp.specs.Taking.{TakesOff, Moves};

use sia_edge::{Link, fill_from_link, write_to_link};
use sia_encoding::Blob;
use std::alloc::Global;
use std::marker::Model;

/// How many bytes are taken from one link at most.
pub const LINK_BYTES: u64 = 1_099_511_627_776;

/// How many bytes the length in front of a body has.
const PREFIX: usize = 8;

/// Up to so many bytes of a frame are copied behind its length, so that they go out in one write.
const FRONT: usize = 4096;

/// Why no body is read, or a frame isn't written.
#[derive(Clone, Copy, Debug, PartialEq, Eq)]
pub enum FrameFault {
    /// A length is above the limit.
    TooLong {
        /// That length.
        length: u64,
    },
    /// The link ended inside a frame.
    Short,
    /// As many bytes were taken as may be, and they hold no further whole body and no length above the limit.
    Long,
    /// A read or a write of the link failed.
    Link,
    /// Want of memory.
    Memory,
}

/// Reads frames off a link, and takes no byte of it behind the body that it gives.
#[derive(Drop)]
pub struct FrameReader {
    limit: u64,
    room: u64,
    fault: Option<FrameFault>,
}

impl Model for FrameReader {
    ghost use Rattle.sia_rhp.specs.Frames.{Reader};

    ghost Value = { Reader };

    ghost view = { λ reader. record { limit = reader.limit; room = reader.room; fault = reader.fault } };
}

impl FrameReader {
    /// A reader that has taken no byte so far. No body may be longer than the limit.
    pub fn new(limit: u64) -> FrameReader
        ensures { result ≡ record { limit = limit; room = 2 ^ 40; fault = None } }
    {
        FrameReader {
            limit,
            room: LINK_BYTES,
            fault: None,
        }
    }

    /// The next body, or none at an end between two frames. After a fault each further call answers that fault again, and reads
    /// nothing. Nothing is read behind the length at `TooLong`, nor behind the greatest count of bytes at `Long`. A fault of
    /// `Link` or `Memory` says nothing of the bytes.
    pub fn next<L: Link>(&mut self, alloc: Global, link: &mut L) -> Result<Option<Blob>, FrameFault>
        ensures bytes { self.old.fault ≡ None → IfSome (L.left link.old) (λ bytes. TakesOff (λ body. 8 + size body) self.old.room result (frame_at self.old.limit self.old.room bytes) bytes (L.left link.new)) }
        ensures moves { self.old.fault ≡ None → Moves self.old self.new result }
        ensures sticky { IfSome self.old.fault (λ fault. (result ≡ Err fault) × (self.new ≡ self.old) × (link.new ≡ link.old)) }
        ensures apart { L.taken link.new ≡ L.taken link.old }
        ensures later { L.faults link.old ≤ L.faults link.new }
        ensures cause { self.old.fault ≡ None → result ≡ Err FrameFault.Link → Rose (L.faults link.old) (L.faults link.new) }
    {
        if let Some(fault) = self.fault {
            return Err(fault);
        }
        match take_frame(alloc, link, self.limit, self.room) {
            Ok(Some(body)) => {
                self.room -= 8 + body.len() as u64;
                Ok(Some(body))
            }
            Ok(None) => Ok(None),
            Err(fault) => {
                self.fault = Some(fault);
                Err(fault)
            }
        }
    }
}

// The frame at the front of what the link has left, of which so many bytes may be taken.
fn take_frame<L: Link>(
    alloc: Global,
    link: &mut L,
    limit: u64,
    room: u64,
) -> Result<Option<Blob>, FrameFault>
    ensures bytes { IfSome (L.left link.old) (λ bytes. TakesOff (λ body. 8 + size body) room result (frame_at limit room bytes) bytes (L.left link.new)) }
    ensures within { IfOk result (λ found. IfSome found (λ body. 8 + size body ≤ room)) }
    ensures apart { L.taken link.new ≡ L.taken link.old }
    ensures later { L.faults link.old ≤ L.faults link.new }
    ensures cause { result ≡ Err FrameFault.Link → Rose (L.faults link.old) (L.faults link.new) }
{
    match take_length(link, room) {
        Err(fault) => Err(fault),
        Ok(None) => Ok(None),
        Ok(Some(length)) => {
            if length > limit {
                return Err(FrameFault::TooLong { length });
            }
            take_body(alloc, link, length, room - 8)
        }
    }
}

// The length at the front of what the link has left.
fn take_length<L: Link>(link: &mut L, room: u64) -> Result<Option<u64>, FrameFault>
    ensures bytes { IfSome (L.left link.old) (λ bytes. TakesOff (λ length. 8) room result (length_at room bytes) bytes (L.left link.new)) }
    ensures within { IfOk result (λ found. IfSome found (λ length. 8 ≤ room)) }
    ensures apart { L.taken link.new ≡ L.taken link.old }
    ensures later { L.faults link.old ≤ L.faults link.new }
    ensures cause { result ≡ Err FrameFault.Link → Rose (L.faults link.old) (L.faults link.new) }
{
    let mut prefix = [0u8; PREFIX];
    if room < PREFIX as u64 {
        return take_last(link, &mut prefix[..room as usize]);
    }
    match fill_from_link(link, &mut prefix) {
        Err(_) => Err(FrameFault::Link),
        Ok(0) => Ok(None),
        Ok(PREFIX) => Ok(Some(u64::from_le_bytes(prefix))),
        Ok(_) => Err(FrameFault::Short),
    }
}

// The last bytes that may be taken, which are too few for a length.
fn take_last<L: Link>(link: &mut L, last: &mut [u8]) -> Result<Option<u64>, FrameFault>
    requires { size last.old < 8 }
    ensures bytes { IfSome (L.left link.old) (λ bytes. TakesOff (λ length. 8) (size last.old) result (length_at (size last.old) bytes) bytes (L.left link.new)) }
    ensures none { IfOk result (λ found. found ≡ None) }
    ensures apart { L.taken link.new ≡ L.taken link.old }
    ensures later { L.faults link.old ≤ L.faults link.new }
    ensures cause { result ≡ Err FrameFault.Link → Rose (L.faults link.old) (L.faults link.new) }
{
    match fill_from_link(link, last) {
        Err(_) => Err(FrameFault::Link),
        Ok(count) => {
            if count == last.len() {
                return Err(FrameFault::Long);
            }
            if count == 0 {
                return Ok(None);
            }
            Err(FrameFault::Short)
        }
    }
}

// So many bytes of what the link has left.
fn take_body<L: Link>(
    alloc: Global,
    link: &mut L,
    length: u64,
    room: u64,
) -> Result<Option<Blob>, FrameFault>
    ensures bytes { IfSome (L.left link.old) (λ bytes. TakesOff (λ body. size body) room result (body_at length room bytes) bytes (L.left link.new)) }
    ensures within { IfOk result (λ found. IfSome found (λ body. size body ≤ room)) }
    ensures apart { L.taken link.new ≡ L.taken link.old }
    ensures later { L.faults link.old ≤ L.faults link.new }
    ensures cause { result ≡ Err FrameFault.Link → Rose (L.faults link.old) (L.faults link.new) }
{
    let want = length.min(room) as usize;
    let Ok(mut body) = vec![in alloc; 0u8; want] else {
        return Err(FrameFault::Memory);
    };
    match fill_from_link(link, &mut body) {
        Err(_) => Err(FrameFault::Link),
        Ok(count) => {
            if count < want {
                return Err(FrameFault::Short);
            }
            if room < length {
                return Err(FrameFault::Long);
            }
            Ok(Some(Blob::from_vec(body)))
        }
    }
}

/// Writes the frame of a body. A frame of up to 4 KiB goes out in one write; of a longer one the first 4 KiB go with its length.
/// After an error, which is always `Link`, some first bytes of the frame were written. It takes no memory.
pub fn send<L: Link>(link: &mut L, body: &[u8]) -> Result<(), FrameFault>
    ensures all { OnOk result (Appends (L.taken link.old) (L.taken link.new) (frame_of body.now)) }
    ensures some { OnErr result (AppendsSomeOf (L.taken link.old) (L.taken link.new) (frame_of body.now)) }
    ensures fault { IfErr result (λ fault. fault ≡ FrameFault.Link) }
    ensures apart { L.left link.new ≡ L.left link.old }
    ensures later { L.faults link.old ≤ L.faults link.new }
    ensures cause { OnErr result (Rose (L.faults link.old) (L.faults link.new)) }
{
    let (first, rest) = body.split_at(body.len().min(FRONT - PREFIX));
    match send_front(link, body.len() as u64, first) {
        Err(fault) => Err(fault),
        Ok(()) => match write_to_link(link, rest) {
            Err(_) => Err(FrameFault::Link),
            Ok(()) => Ok(()),
        },
    }
}

// A length, and the first bytes of the body behind it, in one write where the link takes them so.
fn send_front<L: Link>(link: &mut L, length: u64, first: &[u8]) -> Result<(), FrameFault>
    requires { size first.now ≤ 4088 }
    ensures all { OnOk result (Appends (L.taken link.old) (L.taken link.new) (spelled_u64 length ++ first.now)) }
    ensures some { OnErr result (AppendsSomeOf (L.taken link.old) (L.taken link.new) (spelled_u64 length ++ first.now)) }
    ensures fault { IfErr result (λ fault. fault ≡ FrameFault.Link) }
    ensures apart { L.left link.new ≡ L.left link.old }
    ensures later { L.faults link.old ≤ L.faults link.new }
    ensures cause { OnErr result (Rose (L.faults link.old) (L.faults link.new)) }
{
    let mut front = [0u8; FRONT];
    let end = front_of(length, first, &mut front);
    match write_to_link(link, &front[..end]) {
        Err(_) => Err(FrameFault::Link),
        Ok(()) => Ok(()),
    }
}

// Puts a length, and the bytes behind it, at the front of a buffer, and answers where they end.
#[tactic(auto, unfolding(sia_encoding::specs::Spelling::spelled_u64))]
fn front_of(length: u64, bytes: &[u8], front: &mut [u8]) -> usize
    requires { 8 + size bytes.now ≤ size front.old }
    ensures within { result ≤ size front.new }
    ensures bytes { take result front.new ≡ spelled_u64 length ++ bytes.now }
{
    let (prefix, behind) = front.split_at_mut(PREFIX);
    prefix.copy_from_slice(&length.to_le_bytes());
    let (place, _) = behind.split_at_mut(bytes.len());
    place.copy_from_slice(bytes);
    PREFIX + bytes.len()
}
