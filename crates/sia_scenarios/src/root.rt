//! The command `root`, from the bytes of a file to the line that is printed.
//!
//! The roots were computed by Python's hashlib and the recursion of the tree: the leaf's digest behind a byte 0, or the
//! digest of both parts' roots behind a byte 1, the left part having the largest power of two of leaves below their number.
use crate::call::{Call, check, file, over, printed, told};
use std::test::Fail;

const WORDS: [&str; 2] = ["root", "FILE"];

#[test]
fn the_root_of_a_file_is_printed_with_its_leaves_and_bytes(rt: HostRuntime) -> Result<(), Fail> {
    let files = [
        (
            "no bytes have 32 zero bytes for a root",
            0,
            "root 0000000000000000000000000000000000000000000000000000000000000000 leaves 0 bytes 0\n",
        ),
        (
            "one byte",
            1,
            "root 9ee6dfb61a2fb903df487c401663825643bb825d41695e63df8af6162ab145a6 leaves 1 bytes 1\n",
        ),
        (
            "a leaf that lacks a byte",
            63,
            "root ececc4684b90ca46cc2fcfc9566faff0d8f7013e6bcbcd2bbd78f94bff821236 leaves 1 bytes 63\n",
        ),
        (
            "a whole leaf",
            64,
            "root 5450d0d0dc7eb22a12f09617236354bde65426d37c7221ea1dad7ff37b58ab26 leaves 1 bytes 64\n",
        ),
        (
            "a leaf and a byte",
            65,
            "root 063c0a6b0a9c8bef29e71bad71c765c52b3c072ad39fc90237c636fd3206a355 leaves 2 bytes 65\n",
        ),
        (
            "two leaves, the second short",
            127,
            "root 68a84257af80bfd993197615ebe0d0b2263dd6365388e1ee00143a7dc61c8929 leaves 2 bytes 127\n",
        ),
        (
            "two whole leaves",
            128,
            "root 4c4eb6762fac662b259e12798162aa15d88bf32b897a2ec195f902b2a58491ec leaves 2 bytes 128\n",
        ),
        (
            "three leaves",
            129,
            "root de722fd03dbe207d60e7475852edbc0e397f2a0f60b31771aea1a47d0a9ba4d5 leaves 3 bytes 129\n",
        ),
        (
            "a file of sixteen leaves",
            1000,
            "root eb9a43b29d7bbb6e33cd69f459e3df75793bb17d7f8359f840a7b73005af10c2 leaves 16 bytes 1000\n",
        ),
        (
            "a piece that lacks a byte",
            65_535,
            "root 38bd6f742fa3bdd13acffa586ab31af5e25f64bbee12e277e7f2288773722e31 leaves 1024 bytes 65535\n",
        ),
        (
            "a whole piece",
            65_536,
            "root a0905193e83c373548de749562fd76923a42c174626e9f9962fdad0d7ac3cdec leaves 1024 bytes 65536\n",
        ),
        (
            "a piece and a byte",
            65_537,
            "root 7b3985b9c0c7ba679b2e6fa67dce16153ed6f35d0ad4475880e3e65cae4e0950 leaves 1025 bytes 65537\n",
        ),
        (
            "three pieces and a rest",
            200_000,
            "root c06ce459045b11271fdff02f5321be10e08881f8bc561a90ec4d79d1dd1b70ba leaves 3125 bytes 200000\n",
        ),
    ];
    for (name, length, line) in files {
        let file = file(rt.alloc(), length)?;
        check(&rt, name, &over(&WORDS, file.as_slice()), &printed(line))?;
    }
    Ok(())
}

/// A read gives what there is room for, and at the end of the file none.
#[test]
fn a_failed_read_is_told_and_no_root_is_printed(rt: HostRuntime) -> Result<(), Fail> {
    let cases: [(&str, usize, &[u64]); 4] = [
        ("the only bytes", 65, &[0]),
        ("the end behind them", 65, &[1]),
        ("the second piece", 65_537, &[1]),
        ("the end behind a whole piece", 65_536, &[1]),
    ];
    for (name, length, fails) in cases {
        let file = file(rt.alloc(), length)?;
        let call = Call {
            input_fails: fails,
            ..over(&WORDS, file.as_slice())
        };
        check(&rt, name, &call, &told(3, "sia-v1: outside fault\n"))?;
    }
    Ok(())
}
