//! Roots of byte strings and of hashes, whole groups of 64 and ones that lack some, storage proofs of one leaf, and
//! subtrees.
ghost use Rattle.std.specs.Prelude.{◌≡◌};

use crate::bytes::{hash, message};
use sia_blake::Hash;
use sia_encoding::Steps;
use sia_merkle::{
    Nodes, PlainNodes, RootStack, check_leaf, leaf_hash, leaves, node, node_hash, node_root,
    prove_leaf, root,
};
use std::marker::Brand;
use std::sync::ledger::{Blank, Ledger};
use std::test::Fail;

/// How many bytes of the message, and their root.
const ROOTS: [(usize, &str); 21] = [
    (
        0,
        "0000000000000000000000000000000000000000000000000000000000000000",
    ),
    (
        1,
        "9ee6dfb61a2fb903df487c401663825643bb825d41695e63df8af6162ab145a6",
    ),
    (
        63,
        "ececc4684b90ca46cc2fcfc9566faff0d8f7013e6bcbcd2bbd78f94bff821236",
    ),
    (
        64,
        "5450d0d0dc7eb22a12f09617236354bde65426d37c7221ea1dad7ff37b58ab26",
    ),
    (
        65,
        "063c0a6b0a9c8bef29e71bad71c765c52b3c072ad39fc90237c636fd3206a355",
    ),
    (
        127,
        "68a84257af80bfd993197615ebe0d0b2263dd6365388e1ee00143a7dc61c8929",
    ),
    (
        128,
        "4c4eb6762fac662b259e12798162aa15d88bf32b897a2ec195f902b2a58491ec",
    ),
    (
        129,
        "de722fd03dbe207d60e7475852edbc0e397f2a0f60b31771aea1a47d0a9ba4d5",
    ),
    (
        1000,
        "eb9a43b29d7bbb6e33cd69f459e3df75793bb17d7f8359f840a7b73005af10c2",
    ),
    (
        1023,
        "3a2b1ef5b8563d54aa7dc19c7676292975ac1d0371a921162665dd8d006a9997",
    ),
    (
        1024,
        "66c3c5a38952aaefbf2f26f03f697b654b50acb002ba8fd3544e796c85b84df5",
    ),
    (
        1025,
        "9a7ebcd219514989e2e5a395ba546b13d272d93c945721f47b1bca941e634d95",
    ),
    (
        4095,
        "ebd383162ea3386b6af9638cf906241a427508635ef2a1196c9d5c2e961327da",
    ),
    (
        4096,
        "03e08163c4010ce541fa907b9c22a9d5592139996e003ae3b13163a2f13a7007",
    ),
    (
        4097,
        "7497f5736d0e72abe3d643d7ce11d07c9946b3e7aee468d48ed607293247aeb9",
    ),
    (
        8192,
        "78c944850b6172f666799a73485954650dde6107129cd1b3709c2850c54aef35",
    ),
    (
        13000,
        "58cde42bc609ab0ee3483d9b5ca0e9596a4ddebd30c7f1a9e9381396ab17b59c",
    ),
    (
        65535,
        "38bd6f742fa3bdd13acffa586ab31af5e25f64bbee12e277e7f2288773722e31",
    ),
    (
        65536,
        "a0905193e83c373548de749562fd76923a42c174626e9f9962fdad0d7ac3cdec",
    ),
    (
        65537,
        "7b3985b9c0c7ba679b2e6fa67dce16153ed6f35d0ad4475880e3e65cae4e0950",
    ),
    (
        65599,
        "a100c21afd5b8280611582a20d41464cf2f4b2b9a2e955c918253ca11528c744",
    ),
];

#[test]
fn roots_of_bytes_and_of_their_leaves_are_those_of_another_program(
    rt: HostRuntime,
) -> Result<(), Fail> {
    let message = message::<65599>();
    for (count, digits) in ROOTS {
        let (bytes, _) = message.split_at(count.min(message.len()));
        let mut hashes: Vec<Hash> = Vec::new(rt.alloc());
        for leaf in bytes.chunks(64) {
            hashes.push(leaf_hash(leaf))?;
        }
        let expected = hash(digits)?;
        assert!(rt; root(bytes) == expected, "of {count} bytes");
        assert!(rt;
            node_root(hashes.as_slice()) == expected,
            "over the hashes of {count} bytes"
        );
    }
    Ok(())
}

#[test]
fn a_leaf_that_is_not_whole_is_hashed_as_it_is(rt: HostRuntime) {
    let mut stack = RootStack::new();
    stack.push_leaf(&[7; 64]);
    stack.push_leaf(&[7]);
    assert!(rt; stack.root() == root(&[7; 65]));
    assert!(rt; leaves(65) == 2);
}

#[test]
fn every_leaf_is_proved_and_no_changed_one_is_accepted(rt: HostRuntime) -> Result<(), Fail> {
    let message = message::<1000>();
    let root = root(&message);
    for place in 0..16 {
        let start = place as usize * 64;
        let end = (start + 64).min(1000);
        let mut leaf = [0; 64];
        leaf[..end - start].copy_from_slice(&message[start..end]);
        let proof = prove_leaf(rt.alloc(), &message, place)?;
        let hashes = proof.as_slice();
        assert!(rt; hashes.len() == 4, "proof of {place}");
        assert!(rt;
            check_leaf(&root, 1000, place, &leaf, hashes),
            "leaf {place}"
        );
        assert!(rt;
            !check_leaf(&root, 1000, place, &leaf, &hashes[1..]),
            "one hash fewer at {place}"
        );
        assert!(rt;
            !check_leaf(&root, 1000, 15 - place, &leaf, hashes),
            "leaf {place} elsewhere"
        );
        leaf[0] ^= 1;
        assert!(rt;
            !check_leaf(&root, 1000, place, &leaf, hashes),
            "changed leaf {place}"
        );
    }
    Ok(())
}

#[test]
fn subtrees_of_a_plain_tree_have_their_roots(rt: HostRuntime) {
    let hashes = [
        leaf_hash(b"a"),
        leaf_hash(b"b"),
        leaf_hash(b"c"),
        leaf_hash(b"d"),
        leaf_hash(b"e"),
    ];
    let nodes = PlainNodes { hashes: &hashes };
    assert!(rt; nodes.count() == 5);
    assert!(rt; nodes.node(0, 4) == hashes[4]);
    let pair = nodes.node(1, 1);
    let left = nodes.node(1, 0);
    assert!(rt; pair == node_root(&hashes[2..4]));
    assert!(rt; nodes.node(2, 0) == node_root(&[left, pair]));
    assert!(rt; node_root(&hashes) == node_root(&[nodes.node(2, 0), hashes[4]]));
}

fn counted_node<L: Ledger>(left: &Hash, right: &Hash, blank: Blank) -> Hash
    requires name { blank.name ≡ L.name }
    requires parts { blank.parts ≡ L.parts }
    requires one { L.parts ≡ 1 }
{
    let mut steps = Steps::<L>::new(blank);
    node_hash(left, right, &mut steps)
}

#[test]
fn a_node_is_the_root_over_its_two_parts(rt: HostRuntime) {
    let left = leaf_hash(b"left");
    let right = leaf_hash(b"right");
    let root = node_root(&[left, right]);
    assert!(rt; node(&left, &right) == root);
    assert!(rt; counted_node::<Brand>(&left, &right, Blank::new(1)) == root);
}
