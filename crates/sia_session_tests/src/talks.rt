//! What sessions send for the frames of a link that were spelled by hand after docs/messages.md, where a sector has 64 bytes; and what
//! they do where a call of the link fails.
use crate::desk::FewReplies;
use sia_commands::Stop;
use sia_edge::{MemLink, fill_from_link};
use sia_encoding::{Blob, List};
use sia_session::{Ended, serve_link};
use std::alloc::Global;
use std::test::Fail;

/// The bytes of a link and those that are sent behind the challenge, in hexadecimal digits; how the session ends, and how many bytes of
/// the link it leaves unread.
#[derive(Clone, Copy)]
struct Talk {
    name: &'static str,
    given: &'static str,
    sent: &'static str,
    ended: Ended,
    unread: usize,
}

/// How many talks there are.
const COUNT: u64 = 10;

/// The talk at a place from 0.
fn talk_at(place: u64) -> Talk {
    match place {
        0 => Talk {
            name: "the end of a lock that isn't held",
            given: "1000000000000000756e6c6f636b00000000000000000000",
            sent: "0900000000000000010400000000000000",
            ended: Ended::End,
            unread: 0,
        },
        1 => Talk {
            name: "a lock and its end",
            given: "\
            42000000000000006c6f636b0000000000000000000000000404040404040404040404040404040404040404040404040404040404040404\
            020000000000000001028813000000000000\
            1000000000000000756e6c6f636b00000000000000000000",
            sent: "\
            23000000000000000001000000000000000030313233343536373839616263646566000000000000000000\
            010000000000000000",
            ended: Ended::End,
            unread: 0,
        },
        2 => Talk {
            name: "a body of 15 bytes and an unknown label, and the session goes on",
            given: "\
            0f00000000000000000000000000000000000000000000\
            10000000000000003f3f3f3f3f3f3f3f3f3f3f3f3f3f3f3f\
            1000000000000000756e6c6f636b00000000000000000000",
            sent: "\
            0900000000000000010200000000000000\
            0900000000000000010100000000000000\
            0900000000000000010400000000000000",
            ended: Ended::End,
            unread: 0,
        },
        3 => Talk {
            name: "a length above the limit",
            given: "0101010000000000756e6c6f636b00000000000000000000",
            sent: "",
            ended: Ended::TooLong { length: 65_793 },
            unread: 16,
        },
        4 => Talk {
            name: "an end inside a frame",
            given: "1000000000000000756e6c6f636b000000000000000000",
            sent: "",
            ended: Ended::End,
            unread: 0,
        },
        5 => Talk {
            name: "loop exit, with a frame behind it",
            given: "\
            10000000000000006c6f6f70206578697400000000000000\
            1000000000000000756e6c6f636b00000000000000000000",
            sent: "",
            ended: Ended::Exit,
            unread: 24,
        },
        6 => Talk {
            name: "settings, which the desk stops",
            given: "\
            100000000000000073657474696e67730000000000000000\
            1000000000000000756e6c6f636b00000000000000000000",
            sent: "",
            ended: Ended::Stop(Stop::EventsFull),
            unread: 24,
        },
        7 => Talk {
            name: "a formation with its signatures, and one that is dropped by another request",
            given: "\
            8000000000000000666f726d20636f6e74726163740000000303030303030303030303030303030303030303030303030303030303030303\
            0000000000000000000000000000000000000000000000000000000000000000000000000000000000000000000000000000000000000000\
            000000000000000000000000000000000000000000000000\
            1800000000000000666f726d207369676e000000000000000000000000000000\
            8000000000000000666f726d20636f6e74726163740000000303030303030303030303030303030303030303030303030303030303030303\
            0000000000000000000000000000000000000000000000000000000000000000000000000000000000000000000000000000000000000000\
            000000000000000000000000000000000000000000000000\
            1000000000000000756e6c6f636b00000000000000000000\
            1800000000000000666f726d207369676e000000000000000000000000000000",
            sent: "\
            11000000000000000000000000000000000000000000000000\
            0900000000000000000000000000000000\
            11000000000000000000000000000000000000000000000000\
            0900000000000000010400000000000000\
            0900000000000000010400000000000000",
            ended: Ended::End,
            unread: 0,
        },
        8 => Talk {
            name: "an update and a section with their sectors, roots, and a renewal",
            given: "\
            9000000000000000777269746500000000000000000000000100000000000000000000000000000000000000000000000100000000000000\
            0300000000000000000000000000000000000000000000004000000000000000050505050505050505050505050505050505050505050505\
            05050505050505050505050505050505050505050505050505050505050505050505050505050505\
            6900000000000000726561640000000000000000000000000100000000000000060606060606060606060606060606060606060606060606\
            0606060606060606000000000000000040000000000000000100000000000000000000000000000000000000000000000100000000000000\
            01\
            4100000000000000736563746f7220726f6f7473000000000000000000000000010000000000000002000000000000000000000000000000\
            0000000000000000010000000000000001\
            600000000000000072656e657720616e6420636c656172000000000000000000000000000000000000000000000000000000000000000000\
            000000000000000000000000000000000000000000000000000000000000000000000000000000000000000000000000",
            sent: "\
            0900000000000000010700000000000000\
            0900000000000000010700000000000000\
            0900000000000000010700000000000000\
            0900000000000000010700000000000000",
            ended: Ended::End,
            unread: 0,
        },
        _ => Talk {
            name: "a write of 17 actions, and signatures for none",
            given: "\
            4001000000000000777269746500000000000000000000000100000000000000000000000000000000000000000000001100000000000000\
            0100000000000000010000000000000001000000000000000100000000000000010000000000000001000000000000000100000000000000\
            0100000000000000010000000000000001000000000000000100000000000000010000000000000001000000000000000100000000000000\
            0100000000000000010000000000000001000000000000000100000000000000010000000000000001000000000000000100000000000000\
            0100000000000000010000000000000001000000000000000100000000000000010000000000000001000000000000000100000000000000\
            010000000000000001000000000000000100000000000000010000000000000001000000000000000100000000000000\
            19000000000000007772697465207369676e000000000000010000000000000001\
            180000000000000072656e6577207369676e0000000000000000000000000000",
            sent: "\
            0900000000000000010900000000000000\
            0900000000000000010400000000000000\
            0900000000000000010400000000000000",
            ended: Ended::End,
            unread: 0,
        },
    }
}

/// The frame of the challenge, in hexadecimal digits.
const GREETING: &str = "100000000000000030313233343536373839616263646566";

/// Bytes in hexadecimal digits.
fn bytes_of(alloc: Global, digits: &str) -> Result<Blob, Fail> {
    let bytes = hex::decode(alloc, digits)?;
    Ok(Blob::from_slice(alloc, bytes.as_slice())?)
}

/// All that is sent in a talk.
fn sent_in(alloc: Global, talk: Talk) -> Result<Blob, Fail> {
    let mut sent = bytes_of(alloc, GREETING)?;
    let answers = bytes_of(alloc, talk.sent)?;
    sent.extend(answers.as_slice())?;
    Ok(sent)
}

/// How many bytes a link has left, up to 32.
fn unread_of(link: &mut MemLink) -> Result<usize, Fail> {
    let mut rest = [0; 32];
    Ok(fill_from_link(link, &mut rest)?)
}

/// A link that gives bytes in hexadecimal digits.
fn link_of(alloc: Global, digits: &str, fails: &[u64]) -> Result<MemLink, Fail> {
    let given = bytes_of(alloc, digits)?;
    Ok(MemLink::new(alloc, given, List::from_slice(alloc, fails)?))
}

#[test]
fn each_talk_is_answered(rt: HostRuntime) -> Result<(), Fail> {
    for place in 0..COUNT {
        let talk = talk_at(place);
        let mut link = link_of(rt.alloc(), talk.given, &[])?;
        let mut desk = FewReplies::new(rt.alloc());
        let ended = serve_link(rt.alloc(), &rt, &mut desk, &mut link, 64);
        let is_sent = link.bytes() == sent_in(rt.alloc(), talk)?.as_slice();
        let seen = (ended, is_sent, unread_of(&mut link)?, desk.leaves());
        assert_eq!(rt; seen, (talk.ended, true, talk.unread, 1), "{}", talk.name);
    }
    Ok(())
}

/// Calls of a link that fail, and how many bytes were written before: the challenge goes out first, then a frame is read by two calls,
/// and its answer goes out.
const FAILS: [(u64, usize); 4] = [(0, 0), (1, 24), (2, 24), (3, 24)];

#[test]
fn a_failed_call_ends_a_session(rt: HostRuntime) -> Result<(), Fail> {
    for (fails, written) in FAILS {
        let mut link = link_of(rt.alloc(), talk_at(0).given, &[fails])?;
        let mut desk = FewReplies::new(rt.alloc());
        let ended = serve_link(rt.alloc(), &rt, &mut desk, &mut link, 64);
        assert_eq!(rt; ended, Ended::Link, "call {fails}");
        assert_eq!(rt; desk.leaves(), 1, "call {fails}");
        assert_eq!(rt; link.bytes().len(), written, "call {fails}");
    }
    Ok(())
}
