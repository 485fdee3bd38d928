//! Links and doors over real connections of this machine.
use sia_edge::{Door, Next, TcpDoor, TcpLink};
use sia_rhp::{FrameFault, FrameReader, send};
use std::io::{Read, Write};
use std::net::{Shutdown, TcpListener, TcpStream};
use std::test::Fail;

const LIMIT: u64 = 1000;

/// The next link of a door.
fn accepted(rt: &HostRuntime, door: &mut TcpDoor) -> Result<TcpLink, Fail> {
    match door.accept(rt) {
        Next::Link(link) => Ok(link),
        _ => Err("a link")?,
    }
}

#[test]
fn frames_come_in_one_write_and_in_many(rt: HostRuntime) -> Result<(), Fail> {
    let listener = TcpListener::bind(&rt, "127.0.0.1:0")?;
    let mut peer = TcpStream::connect(&rt, listener.local_addr()?)?;
    let mut door = TcpDoor::new(&listener, 1);
    let mut link = accepted(&rt, &mut door)?;
    peer.write_all(b"\x01\0\0\0\0\0\0\0a\x01\0\0\0\0\0\0\0b")?;
    for byte in b"\x02\0\0\0\0\0\0\0cd" {
        peer.write_all(&[*byte])?;
    }
    peer.shutdown(Shutdown::Write)?;
    let mut reader = FrameReader::new(LIMIT);
    for body in [&b"a"[..], b"b", b"cd"] {
        let read = reader.next(rt.alloc(), &mut link)?.ok_or("a body")?;
        assert_eq!(rt; read.as_slice(), body);
    }
    assert!(rt; reader.next(rt.alloc(), &mut link)?.is_none());
    send(&mut link, b"last")?;
    Door::<HostRuntime>::give_back(&mut door, link);
    let mut last = [0u8; 12];
    peer.read_exact(&mut last)?;
    assert_eq!(rt; &last[..], &b"\x04\0\0\0\0\0\0\0last"[..]);
    assert_eq!(rt; peer.read(&mut last)?, 0);
    assert!(rt; matches!(door.accept(&rt), Next::Closed));
    Ok(())
}

#[test]
fn a_peer_closes_inside_a_frame(rt: HostRuntime) -> Result<(), Fail> {
    let listener = TcpListener::bind(&rt, "127.0.0.1:0")?;
    let mut peer = TcpStream::connect(&rt, listener.local_addr()?)?;
    let mut door = TcpDoor::new(&listener, 1);
    let mut link = accepted(&rt, &mut door)?;
    peer.write_all(b"\x02\0\0\0\0\0\0\0c")?;
    drop(peer);
    let read = FrameReader::new(LIMIT).next(rt.alloc(), &mut link);
    assert_eq!(rt; read.err(), Some(FrameFault::Short));
    Door::<HostRuntime>::give_back(&mut door, link);
    Ok(())
}

#[test]
fn a_peer_resets(rt: HostRuntime) -> Result<(), Fail> {
    let listener = TcpListener::bind(&rt, "127.0.0.1:0")?;
    let mut peer = TcpLink::new(TcpStream::connect(&rt, listener.local_addr()?)?);
    let mut door = TcpDoor::new(&listener, 1);
    let mut link = accepted(&rt, &mut door)?;
    send(&mut peer, b"asked")?;
    send(&mut link, b"unread")?;
    let mut reader = FrameReader::new(LIMIT);
    assert!(rt; reader.next(rt.alloc(), &mut link)?.is_some());
    drop(peer);
    assert_eq!(rt;
        reader.next(rt.alloc(), &mut link).err(),
        Some(FrameFault::Link)
    );
    Door::<HostRuntime>::give_back(&mut door, link);
    Ok(())
}

#[test]
fn what_did_not_open_fails(rt: HostRuntime) -> Result<(), Fail> {
    let mut door = TcpDoor::empty();
    assert!(rt; matches!(door.accept(&rt), Next::Failed));
    let mut link = TcpLink::connect(&rt, b"127.0.0.1:1");
    assert_eq!(rt; send(&mut link, b"x").err(), Some(FrameFault::Link));
    Ok(())
}
