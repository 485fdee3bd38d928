//! Storage proofs of a contract of two sectors of four leaves: the leaf that is chosen, and the hashes beside its path.
ghost use Rattle.std.specs.Prelude.{◌≡◌, length};

use crate::bytes::{hash, message};
use sia_blake::Hash;
use sia_ids::segment_index;
use sia_merkle::{PlainNodes, check_leaf};
use sia_prover::make_proof;
use sia_types::StorageProof;
use std::alloc::{AllocError, Global};
use std::test::Fail;

/// The identifier of the contract.
const CONTRACT: Hash = [200; 32];

/// The root of the first sector, whose bytes are those of the message.
const FIRST: &str = "b790279b2a780f839ef2d6abe11306c11693d29e33b52a1a3afcf71fca48fb1b";

/// The root of the second sector, each of whose bytes is 7.
const SECOND: &str = "e830dd68aaedcfed93ca25c48fc9e78513769d31873d473411f1ab4a31236953";

/// The root over both.
const ROOT: &str = "ca11f84358777e6b379995a32a7cd6d6868873448556d7f03cb85ca398cdbc63";

/// The sector at a place.
fn sector_at(place: u64) -> [u8; 256]
    ensures { length result ≡ 256 }
{
    match place {
        0 => message::<256>(),
        _ => [7; 256],
    }
}

/// The proof of the leaf that is chosen, from the sector in which it stands.
#[tactic(auto, unfolding(sia_prover::specs::Proofs::chosen_leaf))]
fn prove(alloc: Global, roots: &[Hash; 2], trigger: &Hash) -> Result<StorageProof, AllocError> {
    let place = segment_index(trigger, &CONTRACT, 8) / 4;
    let sector = sector_at(place);
    let nodes = PlainNodes { hashes: roots };
    make_proof(alloc, &sector, place, &nodes, trigger, &CONTRACT)
}

/// Whether a trigger block chooses the leaf at this place, and its proof begins with this byte, has these hashes, and is
/// accepted.
fn is_proved(
    alloc: Global,
    trigger: Hash,
    place: u64,
    first: u8,
    hashes: &[Hash; 3],
) -> Result<bool, Fail> {
    let roots = [hash(FIRST)?, hash(SECOND)?];
    let proof = prove(alloc, &roots, &trigger)?;
    let index = segment_index(&trigger, &CONTRACT, 8);
    Ok(
        index == place
            && proof.leaf[0] == first
            && proof.hashes.as_slice() == hashes.as_slice()
            && check_leaf(&hash(ROOT)?, 512, index, &proof.leaf, hashes.as_slice()),
    )
}

#[test]
fn a_leaf_of_the_first_sector_is_proved(rt: HostRuntime) -> Result<(), Fail> {
    let hashes = [
        hash("7884e0745fb5111c44a874256741de5707d7c6b5b057c374e781dca6290d4db9")?,
        hash("4c4eb6762fac662b259e12798162aa15d88bf32b897a2ec195f902b2a58491ec")?,
        hash(SECOND)?,
    ];
    assert!(rt; is_proved(rt.alloc(), [4; 32], 2, 128, &hashes)?);
    Ok(())
}

#[test]
fn a_leaf_of_the_second_sector_is_proved(rt: HostRuntime) -> Result<(), Fail> {
    let hashes = [
        hash("13e60b5f45e720854f4605d2c0b620bc57b1e2b1330c01e80d56ed44714e92cd")?,
        hash("59c819d0184e395e7bdb19c6bc27fba9adcc901b8b0715b1cbe18846708250aa")?,
        hash(FIRST)?,
    ];
    assert!(rt; is_proved(rt.alloc(), [5; 32], 7, 7, &hashes)?);
    Ok(())
}
