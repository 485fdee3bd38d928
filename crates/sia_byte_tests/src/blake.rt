//! Digests of messages of many lengths, every cut of two messages, and four messages side by side.
use crate::bytes::{hash, message};
use sia_blake::{Hasher, digest, digest_four};
use std::test::Fail;

/// How many bytes of the message, and their digest.
const DIGESTS: [(usize, &str); 11] = [
    (
        0,
        "0e5751c026e543b2e8ab2eb06099daa1d1e5df47778f7787faab45cdf12fe3a8",
    ),
    (
        1,
        "03170a2e7597b7b7e3d84c05391d139a62b157e78786d8c082f29dcf4c111314",
    ),
    (
        63,
        "29e41a64fbdd2fd27612228623c0702222bf367451e7324287f181cb3dcf7237",
    ),
    (
        64,
        "10d8e6d534b00939843fe9dcc4dae48cdf008f6b8b2b82b156f5404d874887f5",
    ),
    (
        65,
        "84c04ab082c8ae24206561f77397704b627892089a05887a2a1996472bcfe15d",
    ),
    (
        127,
        "f2fe67ff342e21b8f45e8f2e0bcd1d9243245d50ee6c78042e9c491388791c72",
    ),
    (
        128,
        "c3582f71ebb2be66fa5dd750f80baae97554f3b015663c8be377cfcb2488c1d1",
    ),
    (
        129,
        "f7f3c46ba2564ff4c4c162da1f5b605f9f1c4aa6a20652a9f9a337c1a2f5b9c9",
    ),
    (
        255,
        "d9ef0fc521b4266d16df662bec231bc2ec3989e7adeaf63169c295dc239dbbea",
    ),
    (
        256,
        "582f782226018ec33076bd8d1c42413530ac7e1126260ffc0f306ba3befc3f24",
    ),
    (
        1000,
        "b372d0608f720c8c3dd41e9c8eecb10143b41abe520b616607e754bf79c08331",
    ),
];

#[test]
fn digests_are_those_of_another_program(rt: HostRuntime) -> Result<(), Fail> {
    let message = message::<1000>();
    for (length, expected) in DIGESTS {
        assert!(rt; length <= message.len());
        assert!(rt;
            digest(&message[..length]) == hash(expected)?,
            "at {length} bytes"
        );
    }
    Ok(())
}

#[test]
fn every_cut_gives_the_same_digest(rt: HostRuntime) {
    let message = message::<1000>();
    for length in [128, 129] {
        let whole = digest(&message[..length]);
        for cut in 0..=length {
            let mut hasher = Hasher::new();
            hasher.update(&message[..cut]);
            hasher.update(&message[cut..length]);
            assert!(rt; hasher.finish() == whole, "{length} bytes cut at {cut}");
        }
    }
}

#[test]
fn four_side_by_side_have_their_plain_digests(rt: HostRuntime) {
    let pieces = message::<256>();
    for first in [0, 1] {
        let four = digest_four(first, &pieces);
        for (i, side_by_side) in four.iter().enumerate() {
            let mut one = [first; 65];
            one[1..].copy_from_slice(&pieces[64 * i..64 * i + 64]);
            assert!(rt;
                *side_by_side == digest(&one),
                "message {i} after the byte {first}"
            );
        }
    }
}
