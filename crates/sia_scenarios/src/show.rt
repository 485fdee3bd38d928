//! The command `show`, from the bytes of a record to the lines of its fields.
//!
//! The identifiers were computed by Python's hashlib over texts that a short program spelled.
use crate::call::{check, over, printed, told};
use std::test::Fail;

/// A transaction with one output, one fee and one note.
const TRANSACTION: &str = "\
    0000000000000000\
    010000000000000001000000000000000511111111111111111111111111111111111111111111111111111111111111\
    110000000000000000000000000000000000000000000000000000000000000000000000000000000001000000000000\
    0002000000000000000102010000000000000003000000000000006162630000000000000000";

/// What is in front of it in a block that has it alone: the parent, the nonce, the moment, and one payout.
const HEADER: &str = "\
    0707070707070707070707070707070707070707070707070707070707070707\
    0000000000000000\
    0000735500000000\
    0100000000000000\
    0200000000000000012c1111111111111111111111111111111111111111111111111111111111111111\
    0100000000000000";

/// The transaction's lines.
const LINES: &str = "\
    transaction 13e6db4dff83bd5a9684bccc7538ed8357274658e1a02dfcf7d3dcc0702ef220\n\
    output 979794b2b52c2c7f0a6be8ce7818306213abd2c21323e2c3f47037127e22eb80 5 1111111111111111111111111111111111111111111111111111111111111111\n\
    fee 258\n\
    note 3\n";

/// The block's own lines.
const BLOCK_LINES: &str = "\
    block 95c7adea7c1d0c955c8c91f04ae4d61721d23ea164bf23b9f6e556fc543a373f 0707070707070707070707070707070707070707070707070707070707070707 1433600000\n\
    payout 03d976f5a685f4859818298f8a5bba0197d3298b47cfa6dacdfa2b7ebd09ef44 300 1111111111111111111111111111111111111111111111111111111111111111\n";

#[test]
fn the_fields_of_a_transaction_are_printed(rt: HostRuntime) -> Result<(), Fail> {
    let bytes = hex::decode(rt.alloc(), TRANSACTION)?;
    let words = ["show", "transaction", "FILE"];
    check(
        &rt,
        "one output, one fee, one note",
        &over(&words, bytes.as_slice()),
        &printed(LINES),
    )
}

#[test]
fn a_block_is_printed_before_its_transactions(rt: HostRuntime) -> Result<(), Fail> {
    let mut bytes = hex::decode(rt.alloc(), HEADER)?;
    bytes.extend_from_slice(hex::decode(rt.alloc(), TRANSACTION)?.as_slice())?;
    let mut lines = String::from_str(rt.alloc(), BLOCK_LINES)?;
    lines.push_str(LINES)?;
    let words = ["show", "block", "FILE"];
    check(
        &rt,
        "one payout, one transaction",
        &over(&words, bytes.as_slice()),
        &printed(lines.as_str()),
    )
}

#[test]
fn bytes_that_are_no_record_are_refused_at_their_first_fault(rt: HostRuntime) -> Result<(), Fail> {
    let zeros = [0; 81];
    let words = ["show", "transaction", "FILE"];
    let cases = [
        ("no bytes", 0, "sia-v1: refused input at 0\n"),
        (
            "a count that is cut off",
            79,
            "sia-v1: refused input at 72\n",
        ),
        (
            "a byte behind the record",
            81,
            "sia-v1: refused input at 80\n",
        ),
    ];
    for (name, length, line) in cases {
        let (bytes, _) = zeros.split_at(length);
        check(&rt, name, &over(&words, bytes), &told(2, line))?;
    }
    Ok(())
}
