//! Messages that were spelled by hand after docs/messages.md: they are read and spelled again, cut at each byte, and followed by a
//! byte.
use sia_encoding::Blob;
use sia_rhp::{Answer, Label, MessageFault, Request};
use std::alloc::Global;
use std::test::Fail;

/// The greatest length and count.
const LIMIT: u64 = 65_792;

/// The bytes of a message, in hexadecimal digits.
#[derive(Clone, Copy)]
struct Message {
    name: &'static str,
    /// The label of the request that it answers; `None` where it is a request itself.
    answers: Option<Label>,
    digits: &'static str,
}

/// How many messages there are.
const COUNT: u64 = 25;

/// The message at a place from 0.
fn message_at(place: u64) -> Message {
    match place {
        0 => Message {
            name: "the request settings",
            answers: None,
            digits: "73657474696e67730000000000000000",
        },
        1 => Message {
            name: "the request form contract",
            answers: None,
            digits: "\
            666f726d20636f6e7472616374000000\
            010101010101010101010101010101010101010101010101010101010101010101000000000000000505050505050505\
            050505050505050505050505050505050505050505050505000000000000000001000000000000007365616c00000000\
            000000000000000020000000000000000101010101010101010101010101010101010101010101010101010101010101\
            010000000000000001000000000000000200000000000000012c06060606060606060606060606060606060606060606\
            060606060606060606060000000000000000000000000000000000000000000000000000000000000000000000000000\
            0000010000000000000001000000000000000700000000000000000000000000000000",
        },
        2 => Message {
            name: "the request form sign",
            answers: None,
            digits: "\
            666f726d207369676e00000000000000\
            010000000000000005050505050505050505050505050505050505050505050505050505050505050000000000000000\
            000000000000000001000000000000000000000000000000000000000000000000000000000000000000000000000000\
            000000000000000000000000000000000000000000000000000000000000000000000000000000000003000000000000\
            00010203",
        },
        3 => Message {
            name: "the request lock",
            answers: None,
            digits: "\
            6c6f636b000000000000000000000000\
            040404040404040404040404040404040404040404040404040404040404040402000000000000000102881300000000\
            0000",
        },
        4 => Message {
            name: "the request unlock",
            answers: None,
            digits: "756e6c6f636b00000000000000000000",
        },
        5 => Message {
            name: "the request write",
            answers: None,
            digits: "\
            77726974650000000000000000000000\
            08000000000000000200000000000000020000000000000003e800000000000000000200000000000000020000000000\
            000003e80000000000000000040000000000000000000000000000000300000000000000616263010000000000000002\
            000000000000000200000000000000000000000000000003000000000000000300000000000000010000000000000040\
            0000000000000002000000000000007879",
        },
        6 => Message {
            name: "the request write sign",
            answers: None,
            digits: "\
            7772697465207369676e000000000000\
            02000000000000000506",
        },
        7 => Message {
            name: "the request read",
            answers: None,
            digits: "\
            72656164000000000000000000000000\
            010000000000000007070707070707070707070707070707070707070707070707070707070707074000000000000000\
            800000000000000008000000000000000200000000000000020000000000000003e80000000000000000020000000000\
            0000020000000000000003e80000000000000000010000000000000009",
        },
        8 => Message {
            name: "the request sector roots",
            answers: None,
            digits: "\
            736563746f7220726f6f747300000000\
            0200000000000000030000000000000008000000000000000200000000000000020000000000000003e8000000000000\
            00000200000000000000020000000000000003e80000000000000000010000000000000009",
        },
        9 => Message {
            name: "the request renew and clear",
            answers: None,
            digits: "\
            72656e657720616e6420636c65617200\
            010000000000000005050505050505050505050505050505050505050505050505050505050505050000000000000000\
            01000000000000007365616c000000000000000000000000200000000000000001010101010101010101010101010101\
            01010101010101010101010101010101010000000000000001000000000000000200000000000000012c060606060606\
            060606060606060606060606060606060606060606060606060600000000000000000000000000000000000000000000\
            000000000000000000000000000000000000010000000000000001000000000000000700000000000000000000000000\
            000000",
        },
        10 => Message {
            name: "the request renew sign",
            answers: None,
            digits: "\
            72656e6577207369676e000000000000\
            010000000000000005050505050505050505050505050505050505050505050505050505050505050000000000000000\
            000000000000000001000000000000000000000000000000000000000000000000000000000000000000000000000000\
            000000000000000000000000000000000000000000000000000000000000000000000000000000000003000000000000\
            00010203",
        },
        11 => Message {
            name: "the request loop exit",
            answers: None,
            digits: "6c6f6f70206578697400000000000000",
        },
        12 => Message {
            name: "the answer settings",
            answers: Some(Label::Settings),
            digits: "\
            00\
            000040000000000064000000000000000202020202020202020202020202020202020202020202020202020202020202\
            030303030303030303030303030303030303030303030303030303030303030390000000000000004065000000000000\
            020000000000000003e80100000000000000c80100000000000000010100000000000000020100000000000000030100\
            00000000000004010000000000000005010000000000000006",
        },
        13 => Message {
            name: "the answer form contract",
            answers: Some(Label::FormContract),
            digits: "\
            00\
            010000000000000005050505050505050505050505050505050505050505050505050505050505050000000000000000\
            01000000000000007365616c000000000000000000000000200000000000000001010101010101010101010101010101\
            01010101010101010101010101010101010000000000000001000000000000000200000000000000012c060606060606\
            0606060606060606060606060606060606060606060606060606",
        },
        14 => Message {
            name: "the answer form sign",
            answers: Some(Label::FormSign),
            digits: "\
            00\
            010000000000000005050505050505050505050505050505050505050505050505050505050505050000000000000000\
            000000000000000001000000000000000000000000000000000000000000000000000000000000000000000000000000\
            000000000000000000000000000000000000000000000000000000000000000000000000000000000003000000000000\
            00010203",
        },
        15 => Message {
            name: "the answer lock with a revision",
            answers: Some(Label::Lock),
            digits: "\
            00\
            010000000000000000070707070707070707070707070707070104040404040404040404040404040404040404040404\
            04040404040404040404000000000000000001000000000000007365616c000000000000000000000000200000000000\
            000001010101010101010101010101010101010101010101010101010101010101010100000000000000070000000000\
            000000004000000000000808080808080808080808080808080808080808080808080808080808080808320000000000\
            00003c0000000000000001000000000000000200000000000000012c0606060606060606060606060606060606060606\
            06060606060606060606060601000000000000000200000000000000012c060606060606060606060606060606060606\
            060606060606060606060606060609090909090909090909090909090909090909090909090909090909090909090200\
            000000000000010000000000000001010000000000000002",
        },
        16 => Message {
            name: "the answer lock without a revision",
            answers: Some(Label::Lock),
            digits: "\
            00\
            00030000000000000007070707070707070707070707070707000000000000000000",
        },
        17 => Message {
            name: "the answer unlock",
            answers: Some(Label::Unlock),
            digits: "00",
        },
        18 => Message {
            name: "the answer write",
            answers: Some(Label::Write),
            digits: "\
            00\
            010101010101010101010101010101010101010101010101010101010101010101000000000000000202020202020202\
            020202020202020202020202020202020202020202020202010000000000000003030303030303030303030303030303\
            030303030303030303030303030303030100000000000000010000000000000001010101010101010101010101010101\
            010101010101010101010101010101010200000000000000020202020202020202020202020202020202020202020202\
            02020202020202020303030303030303030303030303030303030303030303030303030303030303",
        },
        19 => Message {
            name: "the answer write sign",
            answers: Some(Label::WriteSign),
            digits: "\
            00\
            010000000000000005",
        },
        20 => Message {
            name: "the answer read",
            answers: Some(Label::Read),
            digits: "\
            00\
            010000000000000005010000000000000003000000000000006162630100000000000000040404040404040404040404\
            0404040404040404040404040404040404040404",
        },
        21 => Message {
            name: "the answer sector roots",
            answers: Some(Label::Roots),
            digits: "\
            00\
            010000000000000005020000000000000001010101010101010101010101010101010101010101010101010101010101\
            010202020202020202020202020202020202020202020202020202020202020202010000000000000003030303030303\
            03030303030303030303030303030303030303030303030303",
        },
        22 => Message {
            name: "the answer renew and clear",
            answers: Some(Label::Renew),
            digits: "\
            00\
            010000000000000005050505050505050505050505050505050505050505050505050505050505050000000000000000\
            01000000000000007365616c000000000000000000000000200000000000000001010101010101010101010101010101\
            01010101010101010101010101010101010000000000000001000000000000000200000000000000012c060606060606\
            0606060606060606060606060606060606060606060606060606",
        },
        23 => Message {
            name: "the answer renew sign",
            answers: Some(Label::RenewSign),
            digits: "\
            00\
            010000000000000005050505050505050505050505050505050505050505050505050505050505050000000000000000\
            000000000000000001000000000000000000000000000000000000000000000000000000000000000000000000000000\
            000000000000000000000000000000000000000000000000000000000000000000000000000000000003000000000000\
            00010203",
        },
        _ => Message {
            name: "an error",
            answers: Some(Label::Write),
            digits: "\
            01\
            0b00000000000000",
        },
    }
}

/// The answer to a request with this label that the bytes spell.
fn answer_to(alloc: Global, bytes: &[u8], label: Label) -> Result<Answer, MessageFault> {
    let text = label.text();
    match Label::of(&text) {
        None | Some(Label::LoopExit) => Err(MessageFault::UnknownRpc),
        Some(_) => Answer::decode(alloc, bytes, LIMIT, &text),
    }
}

/// Reads the message that the bytes spell, and spells it again.
fn spelled_again(
    alloc: Global,
    bytes: &[u8],
    answers: Option<Label>,
) -> Result<Blob, MessageFault> {
    let mut out = Blob::new(alloc);
    let spelled = match answers {
        None => Request::decode(alloc, bytes, LIMIT)?.encode(&mut out),
        Some(label) => answer_to(alloc, bytes, label)?.encode(&mut out),
    };
    spelled.map_err(|_| MessageFault::Memory)?;
    Ok(out)
}

#[test]
fn a_message_is_read_and_spelled_again(rt: HostRuntime) -> Result<(), Fail> {
    for place in 0..COUNT {
        let message = message_at(place);
        let bytes = hex::decode(rt.alloc(), message.digits)?;
        let again = spelled_again(rt.alloc(), bytes.as_slice(), message.answers)?;
        assert!(rt; again.as_slice() == bytes.as_slice(), "{}", message.name);
    }
    Ok(())
}

#[test]
fn a_message_that_is_cut_is_wrong(rt: HostRuntime) -> Result<(), Fail> {
    for place in 0..COUNT {
        let message = message_at(place);
        let bytes = hex::decode(rt.alloc(), message.digits)?;
        for length in 0..bytes.len() {
            let (front, _) = bytes.as_slice().split_at(length);
            let told = spelled_again(rt.alloc(), front, message.answers);
            let is_told =
                matches!(told, Err(MessageFault::BadMessage { at }) if at <= length as u64);
            assert!(rt; is_told, "{} at {length}", message.name);
        }
    }
    Ok(())
}

#[test]
fn a_byte_behind_a_message_is_wrong(rt: HostRuntime) -> Result<(), Fail> {
    for place in 0..COUNT {
        let message = message_at(place);
        let mut bytes = hex::decode(rt.alloc(), message.digits)?;
        let at = bytes.len() as u64;
        bytes.push(0)?;
        let told = spelled_again(rt.alloc(), bytes.as_slice(), message.answers);
        assert_eq!(rt;
            told.err(),
            Some(MessageFault::BadMessage { at }),
            "{}",
            message.name
        );
    }
    Ok(())
}
