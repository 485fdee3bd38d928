//! The command `prove`, from the bytes of a file to the lines that are printed.
//!
//! The hashes were computed by Python's hashlib: the roots of the largest subtrees without a leaf of the range, from left to
//! right.
use crate::call::{Answer, Call, check, file, over, printed, told};
use std::alloc::Global;
use std::process::Abort;
use std::test::Fail;

/// Proves a range of a file of so many bytes, of which the calls with these numbers fail.
fn check_range(
    rt: &(impl Alloc<A = Global> + Abort),
    name: &str,
    length: usize,
    fails: &[u64],
    range: [&str; 2],
    wanted: &Answer,
) -> Result<(), Fail> {
    let file = file(rt.alloc(), length)?;
    let words = ["prove", "FILE", range[0], range[1]];
    let call = Call {
        input_fails: fails,
        ..over(&words, file.as_slice())
    };
    check(rt, name, &call, wanted)
}

#[test]
fn the_hashes_of_the_cover_are_printed_from_left_to_right(rt: HostRuntime) -> Result<(), Fail> {
    let proofs = [
        (
            "two leaves of seven",
            448,
            ["1", "3"],
            "root f10f6029affa45e47f443d9941a168ce37e51c394d883507e47c1b73a189fb8f leaves 7\n\
             hash 5450d0d0dc7eb22a12f09617236354bde65426d37c7221ea1dad7ff37b58ab26\n\
             hash 7884e0745fb5111c44a874256741de5707d7c6b5b057c374e781dca6290d4db9\n\
             hash 5c90d2beadd4a0f0573627db0febd163270286fd72ca7f8be03277778894bf04\n\
             hash cd6ba806798204d9757a1eed7dd7d7a864c84f855e475de71bf5c8e6a72ee34c\n",
        ),
        (
            "all leaves need no hash",
            448,
            ["0", "7"],
            "root f10f6029affa45e47f443d9941a168ce37e51c394d883507e47c1b73a189fb8f leaves 7\n",
        ),
        (
            "a short last leaf",
            65,
            ["1", "2"],
            "root 063c0a6b0a9c8bef29e71bad71c765c52b3c072ad39fc90237c636fd3206a355 leaves 2\n\
             hash 5450d0d0dc7eb22a12f09617236354bde65426d37c7221ea1dad7ff37b58ab26\n",
        ),
        (
            "of five pieces of 1,024 leaves, the third one",
            327_680,
            ["2048", "3072"],
            "root 6c94d14d7f86de62503562283977ab00e0dcfd2fbff33bc123340bc33492b2e1 leaves 5120\n\
             hash bd89eca11ed9b2f123011f1333b22b628face87dfdcd5b88be1ba9071cc211ab\n\
             hash c892652b2887d0a8851a41fc5dd542ce2e552b15f438891690211b99cffa53c8\n\
             hash 46d4467d869c9df50a58e33bfc66899716ffe89ff68acbb2d9d864f5e6d332d5\n",
        ),
        (
            "a file of one leaf",
            1,
            ["0", "1"],
            "root 9ee6dfb61a2fb903df487c401663825643bb825d41695e63df8af6162ab145a6 leaves 1\n",
        ),
        (
            "the last leaf of sixteen",
            1000,
            ["15", "16"],
            "root eb9a43b29d7bbb6e33cd69f459e3df75793bb17d7f8359f840a7b73005af10c2 leaves 16\n\
             hash d1956986cca317288e9486f46fa82c8a80172fc05d6ff18b05f91c3d78f7fc0c\n\
             hash cc7e821560a961b39a0759943da1d573d1f93f394695e518b03cf6cc204a1562\n\
             hash 7493d9ecdd394a67df23859bd094ec399781073a95f577767417fe911426ce0a\n\
             hash fb3693cba250a626450c335e8d170ad82e161dbbbdb91f3caa8e19a8a34eec9b\n",
        ),
    ];
    for (name, length, range, lines) in proofs {
        check_range(&rt, name, length, &[], range, &printed(lines))?;
    }
    Ok(())
}

#[test]
fn a_range_without_leaves_or_past_the_end_is_refused(rt: HostRuntime) -> Result<(), Fail> {
    let refused = told(2, "sia-v1: refused range\n");
    let outside = told(3, "sia-v1: outside fault\n");
    let cases: [(&str, usize, &[u64], [&str; 2], Answer); 7] = [
        ("no leaf", 448, &[], ["3", "3"], refused),
        ("an end before the start", 448, &[], ["3", "2"], refused),
        ("a leaf past the last", 448, &[], ["6", "8"], refused),
        ("no leaf of an empty file", 0, &[], ["0", "0"], refused),
        ("a leaf of an empty file", 0, &[], ["0", "1"], refused),
        (
            "the greatest number",
            448,
            &[],
            ["0", "18446744073709551615"],
            refused,
        ),
        (
            "the file is read before the range is judged",
            448,
            &[0],
            ["3", "3"],
            outside,
        ),
    ];
    for (name, length, fails, range, wanted) in cases {
        check_range(&rt, name, length, fails, range, &wanted)?;
    }
    Ok(())
}

#[test]
fn numbers_are_decimal_without_sign_or_leading_zero(rt: HostRuntime) -> Result<(), Fail> {
    let usage = told(1, "sia-v1: usage\n");
    let numbers = [
        ("no digit", ""),
        ("a plus", "+1"),
        ("a minus", "-1"),
        ("a leading zero", "01"),
        ("two zeros", "00"),
        ("a space before", " 1"),
        ("a space behind", "1 "),
        ("hexadecimal digits", "0x1"),
        ("a separator", "1_0"),
        ("2^64", "18446744073709551616"),
    ];
    for (name, number) in numbers {
        check_range(&rt, name, 448, &[], [number, "3"], &usage)?;
        check_range(&rt, name, 448, &[], ["0", number], &usage)?;
    }
    Ok(())
}
