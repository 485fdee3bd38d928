//! Frames over a connection: one side gives them, and the other takes them to the end.

ghost use Rattle.std.specs.Prelude.{◌≡◌, ◌^◌, IfOk, OnOk, IfSome, length, replicate};
ghost use Rattle.std.specs.Io.KnownBytes.{Appends};
ghost use Rattle.std.specs.List.{concat, sum_by};
ghost use Rattle.sia_rhp.specs.Frames.{frame_of, frames_of};

use sia_edge::{Door, Link, Next, TcpDoor, TcpLink, listen};
use sia_rhp::{FrameFault, FrameReader, send};
use std::alloc::Global;
use std::io::{self, ErrorKind};
use std::net::{Net, TcpListener, TcpStream};
use std::rt::Clock;
use std::time::Instant;

/// How many frames were given, and how many nanoseconds that took.
#[derive(Clone, Copy)]
pub(crate) struct Giving {
    pub frames: u64,
    pub nanos: u128,
}

/// How many frames were taken, and how many bytes their bodies have.
#[derive(Clone, Copy)]
struct Taken {
    frames: u64,
    bytes: u64,
}

/// How many frames were taken, how many bytes their bodies have, and how many nanoseconds it took.
#[derive(Clone, Copy)]
pub(crate) struct Taking {
    pub frames: u64,
    pub bytes: u64,
    pub nanos: u128,
}

/// What a fault of a frame is to the program.
fn error_of(fault: FrameFault) -> io::Error {
    io::Error::from(match fault {
        FrameFault::Memory => ErrorKind::OutOfMemory,
        FrameFault::Link => ErrorKind::Other,
        FrameFault::TooLong { .. } | FrameFault::Short | FrameFault::Long => ErrorKind::InvalidData,
    })
}

/// Sends the frame of a body as many times, and answers how many were sent.
fn send_often<L: Link>(link: &mut L, body: &[u8], times: u64) -> Result<u64, FrameFault>
    ensures count { IfOk result (λ count. count ≡ times) }
    ensures sent { OnOk result (Appends (L.taken link.old) (L.taken link.new) (concat (replicate times (frame_of body.now)))) }
{
    let mut count = 0;
    for _ in 0..times {
        send(link, body)?;
        count += 1;
    }
    Ok(count)
}

/// Takes frames to an end between two of them.
fn take_all<L: Link>(alloc: Global, link: &mut L, limit: u64) -> Result<Taken, FrameFault>
    ensures frames { IfSome (L.left link.old) (λ bytes. IfOk result (λ taken. taken.frames ≡ length (frames_of limit (2 ^ 40) bytes).bodies)) }
    ensures bytes { IfSome (L.left link.old) (λ bytes. IfOk result (λ taken. taken.bytes ≡ sum_by length (frames_of limit (2 ^ 40) bytes).bodies)) }
{
    let mut reader = FrameReader::new(limit);
    let mut frames = 0;
    let mut bytes = 0;
    while let Some(body) = reader.next(alloc, link)? {
        frames += 1;
        bytes += body.len() as u64;
    }
    Ok(Taken { frames, bytes })
}

/// Waits at the address for one connection, and sends as many frames with a body of so many bytes.
pub(crate) fn give_nanos<R: Net<Listener = TcpListener, Stream = TcpStream> + Clock>(
    rt: &R,
    alloc: Global,
    address: &str,
    size: usize,
    times: u64,
) -> io::Result<Giving>
    ensures { IfOk result (λ giving. giving.frames ≡ times) }
{
    let body = vec![in alloc; 7u8; size]?;
    let Some(listener) = listen(rt, address.as_bytes()) else {
        return Err(io::Error::from(ErrorKind::AddrNotAvailable));
    };
    let mut door = TcpDoor::new(&listener, 1);
    let Next::Link(mut link) = door.accept(rt) else {
        return Err(io::Error::from(ErrorKind::NotConnected));
    };
    let start = Instant::now(rt)?;
    let frames = send_often(&mut link, body.as_slice(), times).map_err(error_of)?;
    let nanos = start.elapsed(rt)?.as_nanos();
    Door::<R>::give_back(&mut door, link);
    Ok(Giving { frames, nanos })
}

/// Connects to the address, and takes frames with bodies within the limit to the end.
pub(crate) fn take_nanos<R: Net<Listener = TcpListener, Stream = TcpStream> + Clock>(
    rt: &R,
    alloc: Global,
    address: &str,
    limit: u64,
) -> io::Result<Taking> {
    let mut link = TcpLink::connect(rt, address.as_bytes());
    let start = Instant::now(rt)?;
    let taken = take_all(alloc, &mut link, limit).map_err(error_of)?;
    Ok(Taking {
        frames: taken.frames,
        bytes: taken.bytes,
        nanos: start.elapsed(rt)?.as_nanos(),
    })
}
