//! The session of a link.
ghost use Rattle.std.specs.Prelude.{◌≡◌, ◌≢◌, ◌≤◌, ◌*◌, ◌^◌, ℕ, Some};
ghost use Rattle.sia_edge.specs.Edge.{Rose};
ghost use Rattle.sia_commands.specs.declared.stop.Stop.{Stop as Why};
ghost use Rattle.sia_rhp.specs.Frames.{frame_of};
ghost use Rattle.sia_session.specs.Acts.{IsCaused, LeavesAlone};
ghost use Rattle.sia_session.specs.Script.{say};
ghost use Rattle.sia_session.specs.Served.{Conversed, Exchanged, ReadsAll, SentBy, Served, ended_at, script_for, talk_in};
ghost use Rattle.sia_session.specs.Told.{Grows, Loses};

use crate::desk::Desk;
use crate::requests::body_limit;
use crate::session::Session;
use crate::state::Taken;
use sia_commands::Stop;
use sia_edge::Link;
use sia_rhp::{FrameFault, FrameReader, send};
use std::alloc::Global;

/// How the session of a link ended.
#[derive(Clone, Copy, Debug, PartialEq, Eq)]
pub enum Ended {
    /// The link ended, inside a frame too.
    End,
    /// The other side took its leave.
    Exit,
    /// A read or a write of the link failed.
    Link,
    /// A length is above the limit.
    TooLong {
        /// That length.
        length: u64,
    },
    /// As many bytes were read as may be.
    Long,
    /// A command was stopped, or there was no memory.
    Stop(Stop),
}

/// Serves a link to its end, where a sector has so many bytes. What is acted and sent is what the session's script says for the bytes
/// that were read, given the desk's replies, and an answer is sent only after its act returned. Once Enter was answered, Leave is acted
/// before the return.
pub fn serve_link<Rt, K: Desk<Rt>, L: Link>(
    alloc: Global,
    rt: &Rt,
    desk: &mut K,
    link: &mut L,
    sector: u64,
) -> Ended
    requires { (power : ℕ) × (power ≤ 16) × (sector ≡ 64 * 2 ^ power) }
    ensures served { Loses (L.left link.old) (L.left link.new) (λ read rest.
        Grows (K.acts desk.old) (K.acts desk.new) (λ acts.
        Grows (L.taken link.old) (L.taken link.new) (λ sent. Served sector read result acts sent × ReadsAll result rest))) }
    ensures alone { LeavesAlone K.stays K.stops K.sector desk.old desk.new }
    ensures later { L.faults link.old ≤ L.faults link.new }
    ensures stop { (why : Why) → result ≡ Ended.Stop why → IsCaused K.stops desk.old desk.new why }
    ensures link { result ≡ Ended.Link → Rose (L.faults link.old) (L.faults link.new) }
{
    match Session::begin(alloc, rt, desk, sector) {
        Err(stop) => Ended::Stop(stop),
        Ok((mut session, challenge)) => {
            let ended = greet(alloc, rt, desk, link, &mut session, challenge.as_slice());
            session.end(rt, desk);
            ended
        }
    }
}

/// The challenge, and then body after body.
fn greet<Rt, K: Desk<Rt>, L: Link>(
    alloc: Global,
    rt: &Rt,
    desk: &mut K,
    link: &mut L,
    session: &mut Session,
    challenge: &[u8],
) -> Ended
    requires { session.old.sector ≤ 2 ^ 22 }
    ensures talk { Loses (L.left link.old) (L.left link.new) (λ read rest.
        Grows (K.acts desk.old) (K.acts desk.new) (λ acts.
        Grows (L.taken link.old) (L.taken link.new) (λ sent.
        Conversed (say (frame_of challenge.now) (talk_in session.old (2 ^ 40) read)) result acts sent × ReadsAll result rest))) }
    ensures number { session.new.number ≡ session.old.number }
    ensures alone { LeavesAlone K.stays K.stops K.sector desk.old desk.new }
    ensures later { L.faults link.old ≤ L.faults link.new }
    ensures stop { (why : Why) → result ≡ Ended.Stop why → IsCaused K.stops desk.old desk.new why }
    ensures link { result ≡ Ended.Link → Rose (L.faults link.old) (L.faults link.new) }
{
    match send(link, challenge) {
        Err(_) => Ended::Link,
        Ok(()) => converse(alloc, rt, desk, link, session),
    }
}

/// Body after body, to the end.
fn converse<Rt, K: Desk<Rt>, L: Link>(
    alloc: Global,
    rt: &Rt,
    desk: &mut K,
    link: &mut L,
    session: &mut Session,
) -> Ended
    requires { session.old.sector ≤ 2 ^ 22 }
    ensures talk { Loses (L.left link.old) (L.left link.new) (λ read rest.
        Grows (K.acts desk.old) (K.acts desk.new) (λ acts.
        Grows (L.taken link.old) (L.taken link.new) (λ sent.
        Conversed (talk_in session.old (2 ^ 40) read) result acts sent × ReadsAll result rest))) }
    ensures number { session.new.number ≡ session.old.number }
    ensures alone { LeavesAlone K.stays K.stops K.sector desk.old desk.new }
    ensures later { L.faults link.old ≤ L.faults link.new }
    ensures stop { (why : Why) → result ≡ Ended.Stop why → IsCaused K.stops desk.old desk.new why }
    ensures link { result ≡ Ended.Link → Rose (L.faults link.old) (L.faults link.new) }
{
    let mut reader = FrameReader::new(body_limit(session.sector()));
    loop {
        match reader.next(alloc, link) {
            Err(fault) => return ended_by(fault),
            Ok(None) => return Ended::End,
            Ok(Some(body)) => {
                match exchange(alloc, rt, desk, link, session, body.as_slice()) {
                    Some(ended) => return ended,
                    None => {}
                }
            }
        }
    }
}

/// How a session ends where no further body can be read.
fn ended_by(fault: FrameFault) -> Ended
    ensures { result ≡ ended_at fault }
{
    match fault {
        FrameFault::Short => Ended::End,
        FrameFault::TooLong { length } => Ended::TooLong { length },
        FrameFault::Long => Ended::Long,
        FrameFault::Link => Ended::Link,
        FrameFault::Memory => Ended::Stop(Stop::Memory),
    }
}

/// One body, and what it leads to. It answers how the session ends, if it ends by it.
fn exchange<Rt, K: Desk<Rt>, L: Link>(
    alloc: Global,
    rt: &Rt,
    desk: &mut K,
    link: &mut L,
    session: &mut Session,
    body: &[u8],
) -> Option<Ended>
    requires { session.old.sector ≤ 2 ^ 22 }
    ensures acts { Grows (K.acts desk.old) (K.acts desk.new) (λ acts.
        Grows (L.taken link.old) (L.taken link.new) (λ sent.
        Exchanged (script_for session.old body.now) session.new.state result acts sent)) }
    ensures number { session.new.number ≡ session.old.number }
    ensures sector { session.new.sector ≡ session.old.sector }
    ensures apart { L.left link.new ≡ L.left link.old }
    ensures alone { LeavesAlone K.stays K.stops K.sector desk.old desk.new }
    ensures later { L.faults link.old ≤ L.faults link.new }
    ensures stop { (why : Why) → result ≡ Some (Ended.Stop why) → IsCaused K.stops desk.old desk.new why }
    ensures link { result ≡ Some Ended.Link → Rose (L.faults link.old) (L.faults link.new) }
{
    match session.take(alloc, rt, desk, body) {
        Err(stop) => Some(Ended::Stop(stop)),
        Ok(taken) => send_taken(link, &taken),
    }
}

/// What a body led to is sent. It answers how the session ends, if it ends by it.
fn send_taken<L: Link>(link: &mut L, taken: &Taken) -> Option<Ended>
    ensures sent { Grows (L.taken link.old) (L.taken link.new) (SentBy taken.now result) }
    ensures apart { L.left link.new ≡ L.left link.old }
    ensures later { L.faults link.old ≤ L.faults link.new }
    ensures stop { (why : Why) → result ≢ Some (Ended.Stop why) }
    ensures link { result ≡ Some Ended.Link → Rose (L.faults link.old) (L.faults link.new) }
{
    match taken {
        Taken::Exit => Some(Ended::Exit),
        Taken::Send(answer) => match send(link, answer.as_slice()) {
            Ok(()) => None,
            Err(_) => Some(Ended::Link),
        },
    }
}
