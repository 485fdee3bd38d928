//! Frames over links in memory.
use crate::cuts::CutLink;
use sia_edge::MemLink;
use sia_encoding::{Blob, List};
use sia_rhp::{FrameFault, FrameReader, Label, Request, send};
use std::test::Fail;

/// The frame of a request to unlock, and two frames with empty bodies.
const FRAMES: [u8; 40] =
    *b"\x10\0\0\0\0\0\0\0unlock\0\0\0\0\0\0\0\0\0\0\0\0\0\0\0\0\0\0\0\0\0\0\0\0\0\0";

/// The greatest body where sectors have 64 bytes.
const LIMIT: u64 = 65_792;

#[test]
fn frames_are_read_however_they_are_cut(rt: HostRuntime) -> Result<(), Fail> {
    for most in [1, 40] {
        for cut in 0..41 {
            let mut link = CutLink {
                left: &FRAMES,
                cut,
                most,
            };
            let mut reader = FrameReader::new(LIMIT);
            for body in [&Label::Unlock.text()[..], &[], &[]] {
                let read = reader.next(rt.alloc(), &mut link)?.ok_or("a body")?;
                assert_eq!(rt; read.as_slice(), body, "cut at {cut}");
            }
            assert!(rt; reader.next(rt.alloc(), &mut link)?.is_none());
        }
    }
    Ok(())
}

/// Bytes that hold no whole frame, and what a reader says of them.
const FAULTS: [(&[u8], FrameFault); 4] = [
    (
        &[1, 1, 1, 0, 0, 0, 0, 0],
        FrameFault::TooLong { length: 65_793 },
    ),
    (&[0, 1, 1, 0, 0, 0, 0, 0], FrameFault::Short),
    (&[1, 0, 0], FrameFault::Short),
    (&[2, 0, 0, 0, 0, 0, 0, 0, 7], FrameFault::Short),
];

#[test]
fn faults_are_told_again(rt: HostRuntime) -> Result<(), Fail> {
    for (bytes, fault) in FAULTS {
        let given = Blob::from_slice(rt.alloc(), bytes)?;
        let mut link = MemLink::new(rt.alloc(), given, List::new(rt.alloc()));
        let mut reader = FrameReader::new(LIMIT);
        for _ in 0..2 {
            match reader.next(rt.alloc(), &mut link) {
                Ok(_) => assert!(rt; false, "{fault:?}"),
                Err(told) => assert_eq!(rt; told, fault),
            }
        }
    }
    Ok(())
}

#[test]
fn a_failed_read_ends_the_reader(rt: HostRuntime) -> Result<(), Fail> {
    let given = Blob::from_slice(rt.alloc(), &FRAMES)?;
    let fails = List::from_slice(rt.alloc(), &[1])?;
    let mut link = MemLink::new(rt.alloc(), given, fails);
    let mut reader = FrameReader::new(LIMIT);
    for _ in 0..2 {
        match reader.next(rt.alloc(), &mut link) {
            Ok(_) => assert!(rt; false, "the second read fails"),
            Err(told) => assert_eq!(rt; told, FrameFault::Link),
        }
    }
    Ok(())
}

#[test]
fn a_request_to_unlock_is_sent(rt: HostRuntime) -> Result<(), Fail> {
    let mut body = Blob::new(rt.alloc());
    Request::Unlock.encode(&mut body)?;
    let nothing = Blob::new(rt.alloc());
    let mut link = MemLink::new(rt.alloc(), nothing, List::new(rt.alloc()));
    send(&mut link, body.as_slice())?;
    send(&mut link, &[])?;
    send(&mut link, &[])?;
    assert_eq!(rt; link.bytes(), &FRAMES[..]);
    Ok(())
}

#[test]
fn a_long_body_is_sent_whole(rt: HostRuntime) -> Result<(), Fail> {
    let body = [7u8; 5000];
    let nothing = Blob::new(rt.alloc());
    let mut link = MemLink::new(rt.alloc(), nothing, List::new(rt.alloc()));
    send(&mut link, &body)?;
    let (length, sent) = link.bytes().split_at(link.bytes().len().min(8));
    assert_eq!(rt; length, &5000u64.to_le_bytes()[..]);
    assert_eq!(rt; sent, &body[..]);
    Ok(())
}
