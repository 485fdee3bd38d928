//! The command `ledger`, from the bytes that come in to those that go out.
//!
//! The blocks, identifiers and sums were worked out by Python's hashlib and integers.
use crate::call::{Answer, Call, check, over, printed, told};
use std::alloc::Global;
use std::process::Abort;
use std::test::Fail;

/// One siafund output of all 10,000, to the zero address.
pub const CONFIG: &str =
    "[[chain.siafund]]\nto = \"0000000000000000000000000000000000000000000000000000000000000000\"\nvalue = 10000\n";

/// The first block behind the genesis of `CONFIG`, as a record of a feed in hexadecimal digits.
const FIRST: &str =
    "01936c26b77f0d7687b46a1f44c4148916cf47cf3f6a5af613d879880806fa85260000000000000000010000000000000001000000000000000d0000000000000003c9595b492c877a723f00000000000000000000000000000000000000000000000000000000000000000000000000000000000000";

/// The same with a payout of one hasting more.
const OVERPAID: &str =
    "01936c26b77f0d7687b46a1f44c4148916cf47cf3f6a5af613d879880806fa85260000000000000000010000000000000001000000000000000d0000000000000003c9595b492c877a723f00000100000000000000000000000000000000000000000000000000000000000000000000000000000000";

/// A block behind `FIRST`.
const SECOND: &str =
    "015b274da91e04bdaf1bea251b8fc3236ba1cea902b58ba9743c8b651c47cb4cf30000000000000000020000000000000001000000000000000d0000000000000003c958878710b8ad849e00000000000000000000000000000000000000000000000000000000000000000000000000000000000000";

const AT_GENESIS: &str =
    "height 0\ntip 936c26b77f0d7687b46a1f44c4148916cf47cf3f6a5af613d879880806fa8526\noutputs 0\nimmature 0\nescrow 0\npool 0\nunclaimed 0\nissued 0\n";

const AFTER_FIRST: &str =
    "height 1\ntip 5b274da91e04bdaf1bea251b8fc3236ba1cea902b58ba9743c8b651c47cb4cf3\noutputs 299999000000000000000000000000\nimmature 299999000000000000000000000000\nescrow 0\npool 0\nunclaimed 0\nissued 299999000000000000000000000000\n";

const AFTER_SECOND: &str =
    "height 2\ntip 4b6f1bab9468d84d3de46a03a08fe38dc711e3cdecd5f41c7fa3710310a5bb81\noutputs 599997000000000000000000000000\nimmature 599997000000000000000000000000\nescrow 0\npool 0\nunclaimed 0\nissued 599997000000000000000000000000\n";

const WORDS: [&str; 3] = ["ledger", "CONFIG", "FEED"];

/// A call of `ledger` over these bytes, where no call of the outside fails.
pub fn ledger<'a>(config: &'a [u8], feed: &'a [u8]) -> Call<'a> {
    Call {
        config,
        config_fails: &[],
        ..over(&WORDS, feed)
    }
}

/// An answer other than want of memory, whatever the program may be: one that always gives up is refused here.
#[test]
fn a_feed_is_applied_or_refused_by_its_first_case(rt: HostRuntime) -> Result<(), Fail> {
    let cases: [(&str, &[&str], Answer); 10] = [
        ("an empty feed leaves the genesis", &[], printed(AT_GENESIS)),
        ("a block is applied", &[FIRST], printed(AFTER_FIRST)),
        (
            "a second block is applied behind it",
            &[FIRST, SECOND],
            printed(AFTER_SECOND),
        ),
        (
            "a revert takes the block back",
            &[FIRST, "02"],
            printed(AT_GENESIS),
        ),
        (
            "a payout of a hasting too much",
            &[OVERPAID],
            told(
                2,
                "sia-v1: refused block 1 B6 PayoutSum 299999000000000000000000000000 299999000000000000000000000001\n",
            ),
        ),
        (
            "a block whose parent isn't the tip",
            &[FIRST, FIRST],
            told(
                2,
                "sia-v1: refused block 2 B1 BadParent 5b274da91e04bdaf1bea251b8fc3236ba1cea902b58ba9743c8b651c47cb4cf3\n",
            ),
        ),
        (
            "a revert of the genesis",
            &[FIRST, "02", "02"],
            told(2, "sia-v1: refused feed NoBlock\n"),
        ),
        (
            "a record is done before the next one is read",
            &["02", FIRST, "00"],
            told(2, "sia-v1: refused feed NoBlock\n"),
        ),
        (
            "a record that ends early",
            &[FIRST, "01"],
            told(2, "sia-v1: refused feed at 119\n"),
        ),
        (
            "a record of no kind",
            &[FIRST, "03"],
            told(2, "sia-v1: refused feed at 118\n"),
        ),
    ];
    for (name, records, wanted) in cases {
        let digits = records.concat(rt.alloc())?;
        let feed = hex::decode(rt.alloc(), digits.as_str())?;
        check(
            &rt,
            name,
            &ledger(CONFIG.as_bytes(), feed.as_slice()),
            &wanted,
        )?;
    }
    Ok(())
}

/// These words have no form.
fn check_usage(
    rt: &(impl Alloc<A = Global> + Abort),
    name: &str,
    words: &[&str],
) -> Result<(), Fail> {
    check(rt, name, &over(words, &[]), &told(1, "sia-v1: usage\n"))
}

#[test]
fn words_without_a_form_and_long_configurations_are_told(rt: HostRuntime) -> Result<(), Fail> {
    let none: [&str; 0] = [];
    check_usage(&rt, "no words", &none)?;
    check_usage(&rt, "a word too few", &["ledger"])?;
    check_usage(&rt, "a word too many", &["ledger", "CONFIG", "FEED", "1"])?;
    check_usage(&rt, "another command", &["ledgers", "CONFIG", "FEED"])?;
    let lengths = [
        (
            "a configuration at its bound",
            65_536usize,
            printed(AT_GENESIS),
        ),
        (
            "a configuration of a byte more",
            65_537,
            told(8, "sia-v1: input too long\n"),
        ),
    ];
    for (name, length, wanted) in lengths {
        let spaces = " ".repeat(rt.alloc(), length.saturating_sub(CONFIG.len()))?;
        let config = [CONFIG, spaces.as_str()].concat(rt.alloc())?;
        check(&rt, name, &ledger(config.as_str().as_bytes(), &[]), &wanted)?;
    }
    Ok(())
}

/// The first read of a source gives its bytes, and the second its end: each fails once, and each write.
#[test]
fn a_fault_of_the_outside_is_told_and_nothing_is_printed(rt: HostRuntime) -> Result<(), Fail> {
    let feed = hex::decode(rt.alloc(), FIRST)?;
    let whole = ledger(CONFIG.as_bytes(), feed.as_slice());
    let outside = told(3, "sia-v1: outside fault\n");
    let cases = [
        (
            "the configuration's bytes",
            Call {
                config_fails: &[0],
                ..whole
            },
            outside,
        ),
        (
            "the configuration's end",
            Call {
                config_fails: &[1],
                ..whole
            },
            outside,
        ),
        (
            "the feed's bytes",
            Call {
                input_fails: &[0],
                ..whole
            },
            outside,
        ),
        (
            "the feed's end",
            Call {
                input_fails: &[1],
                ..whole
            },
            outside,
        ),
        (
            "standard output",
            Call {
                out_fails: &[0],
                ..whole
            },
            outside,
        ),
        (
            "standard error changes no status",
            Call {
                input: &[3],
                err_fails: &[0],
                ..whole
            },
            told(2, ""),
        ),
    ];
    for (name, call, wanted) in cases {
        check(&rt, name, &call, &wanted)?;
    }
    Ok(())
}
