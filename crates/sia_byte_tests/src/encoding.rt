//! Spellings worked out by hand from the rules of the encoding, and the first fault of bytes that are none.
use sia_encoding::{Blob, Cursor, DecodeFault, Item, List};
use std::test::Fail;

/// A currency, its spelling, and a name.
const CURRENCIES: [(u128, &[u8], &str); 3] = [
    (0, &[0, 0, 0, 0, 0, 0, 0, 0], "nothing has no digit"),
    (
        256,
        &[2, 0, 0, 0, 0, 0, 0, 0, 1, 0],
        "the highest digit first",
    ),
    (
        u128::MAX,
        &[
            16, 0, 0, 0, 0, 0, 0, 0, 255, 255, 255, 255, 255, 255, 255, 255, 255, 255, 255, 255,
            255, 255, 255, 255,
        ],
        "the most",
    ),
];

#[test]
fn currencies_are_spelled_by_their_digits(rt: HostRuntime) -> Result<(), Fail> {
    for (value, spelled, name) in CURRENCIES {
        let mut out = Blob::new(rt.alloc());
        value.encode(&mut out)?;
        assert_eq!(rt; out.as_slice(), spelled, "{name}");
        let read = Cursor::new(spelled, 16).take_currency();
        assert_eq!(rt; read, Ok(value), "{name}");
    }
    Ok(())
}

/// Bytes that spell no currency, the limit, the first fault, and a name.
const BAD_CURRENCIES: [(&[u8], u64, DecodeFault, &str); 4] = [
    (
        &[1, 0, 0, 0, 0, 0, 0, 0, 0],
        100,
        DecodeFault::BadCurrency { at: 0 },
        "a zero in front",
    ),
    (
        &[17, 0, 0, 0, 0, 0, 0, 0, 1],
        100,
        DecodeFault::BadCurrency { at: 0 },
        "seventeen digits",
    ),
    (
        &[17, 0, 0, 0, 0, 0, 0, 0, 1],
        3,
        DecodeFault::BadCurrency { at: 0 },
        "seventeen digits above the limit",
    ),
    (
        &[2, 0, 0, 0, 0, 0, 0, 0, 1],
        100,
        DecodeFault::Short { at: 8 },
        "one digit of two",
    ),
];

/// Bytes that spell no byte string, the first fault at the limit 3, and a name.
const BAD_BYTES: [(&[u8], DecodeFault, &str); 3] = [
    (
        &[2, 0, 0, 0, 0, 0, 0, 0, 1],
        DecodeFault::Short { at: 8 },
        "one byte of two",
    ),
    (
        &[4, 0, 0, 0, 0, 0, 0, 0],
        DecodeFault::TooLong { at: 0 },
        "above the limit, and missing",
    ),
    (&[1], DecodeFault::Short { at: 0 }, "no length"),
];

#[test]
fn the_first_fault_is_told(rt: HostRuntime) {
    for (bytes, limit, fault, name) in BAD_CURRENCIES {
        let read = Cursor::new(bytes, limit).take_currency();
        assert_eq!(rt; read, Err(fault), "{name}");
    }
    for (bytes, fault, name) in BAD_BYTES {
        assert_eq!(rt;
            Cursor::new(bytes, 3).take_bytes().err(),
            Some(fault),
            "{name}"
        );
    }
    assert_eq!(rt;
        Cursor::new(&[1], 3).end(),
        Err(DecodeFault::Rest { at: 0 })
    );
}

/// The bytes of a number that may be missing, what they spell, and a name.
const OPTIONS: [(&[u8], Result<Option<u64>, DecodeFault>, &str); 4] = [
    (&[0], Ok(None), "missing"),
    (&[1, 2, 1, 0, 0, 0, 0, 0, 0], Ok(Some(258)), "there"),
    (
        &[2, 2, 1, 0, 0, 0, 0, 0, 0],
        Err(DecodeFault::BadBool { at: 0 }),
        "neither",
    ),
    (&[1, 2], Err(DecodeFault::Short { at: 1 }), "there in part"),
];

#[test]
fn a_value_may_be_missing(rt: HostRuntime) -> Result<(), Fail> {
    for (bytes, expected, name) in OPTIONS {
        let read: Result<Option<u64>, DecodeFault> = Item::take(
            rt.alloc(),
            &mut Cursor::new(bytes, 3),
        );
        assert_eq!(rt; read, expected, "{name}");
        if let Ok(value) = expected {
            let mut out = Blob::new(rt.alloc());
            Item::copy(&value, rt.alloc())?.encode(&mut out)?;
            assert_eq!(rt; out.as_slice(), bytes, "{name}");
        }
    }
    Ok(())
}

#[test]
fn items_are_put_behind_each_other(rt: HostRuntime) -> Result<(), Fail> {
    let mut out = Blob::new(rt.alloc());
    258u64.encode(&mut out)?;
    true.encode(&mut out)?;
    [7u8, 8].encode(&mut out)?;
    Blob::from_slice(rt.alloc(), b"ab")?.encode(&mut out)?;
    let spelled = [
        2, 1, 0, 0, 0, 0, 0, 0, 1, 7, 8, 2, 0, 0, 0, 0, 0, 0, 0, 97, 98,
    ];
    assert_eq!(rt; out.as_slice(), spelled.as_slice());
    Ok(())
}

#[test]
fn lists_are_put_and_taken_and_copied(rt: HostRuntime) -> Result<(), Fail> {
    let mut heights = List::new(rt.alloc());
    heights.push(1_u64)?;
    heights.extend(&[2])?;
    let mut out = Blob::new(rt.alloc());
    heights.encode(&mut out)?;
    let spelled = [
        2, 0, 0, 0, 0, 0, 0, 0, 1, 0, 0, 0, 0, 0, 0, 0, 2, 0, 0, 0, 0, 0, 0, 0,
    ];
    assert_eq!(rt; out.as_slice(), spelled.as_slice());
    let mut taken: List<u64> = Item::take(rt.alloc(), &mut Cursor::new(&spelled, 3)).map_err(
        |_| "a fault",
    )?;
    let mut copied = Item::copy(&taken, rt.alloc())?;
    taken.append(&mut copied)?;
    assert_eq!(rt; taken.as_slice(), [1, 2, 1, 2].as_slice());
    assert_eq!(rt; heights.copy(rt.alloc())?.as_slice(), [1, 2].as_slice());
    Ok(())
}
