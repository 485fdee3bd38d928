//! Seal, a stand-in for a signature scheme that anybody can compute.
ghost use Rattle.std.specs.Prelude.{◌≡◌, ◌++◌, length, codes};
ghost use Rattle.sia_blake.specs.Blake2b.{blake2b_256};
ghost use Rattle.sia_encoding.specs.Spelling.{label};
ghost use Rattle.sia_sign.specs.Seal.{IsSeal, accepts_seal, seal};

use sia_blake::{Hash, Hasher};
use sia_edge::{SigCheck, Signer};
use sia_encoding::Blob;
use std::alloc::{AllocError, Global};

/// The label of a seal, filled with zero bytes to 16.
const SIA_SEAL: [u8; 16] = *b"sia seal\0\0\0\0\0\0\0\0";

/// A check that accepts the seal of a hash under a key of 32 bytes, and nothing else. It protects nothing.
#[derive(Clone, Copy, Debug, PartialEq, Eq)]
pub struct Seal;

impl SigCheck for Seal {
    ghost verdict = { accepts_seal };

    #[tactic(auto, unfolding(crate::specs::Seal::accepts_seal))]
    fn accepts(&self, key: &[u8], hash: &Hash, sig: &[u8]) -> bool {
        if key.len() != 32 {
            return false;
        }
        sig == seal_bytes(key, hash).as_slice()
    }
}

/// A signer who makes seals under its key.
#[derive(Clone, Copy)]
pub struct SealSigner {
    key: [u8; 32],
}

impl SealSigner {
    /// The signer of this key.
    pub fn new(key: [u8; 32]) -> SealSigner
        ensures { ⟦<SealSigner as Signer>⟧.public_key result ≡ key }
    {
        SealSigner { key }
    }
}

impl Signer for SealSigner {
    ghost public_key = { λ signer. signer.key };

    ghost Makes = { IsSeal };

    fn key(&self) -> [u8; 32] {
        self.key
    }

    fn sign(&self, alloc: Global, hash: &Hash) -> Result<Blob, AllocError> {
        Blob::from_slice(alloc, seal_bytes(&self.key, hash).as_slice())
    }
}

// The digest that a seal begins with.
fn seal_digest(key: &[u8], hash: &Hash) -> Hash
    requires { length key.now ≡ 32 }
    ensures { result ≡ blake2b_256 (label (codes "sia seal") ++ key.now ++ hash.now) }
{
    let mut hasher = Hasher::new();
    hasher.update(&SIA_SEAL);
    hasher.update(key);
    hasher.update(hash);
    hasher.finish()
}

// The seal of a hash under a key of 32 bytes.
#[tactic(auto, unfolding(crate::specs::Seal::seal))]
fn seal_bytes(key: &[u8], hash: &Hash) -> [u8; 64]
    requires { length key.now ≡ 32 }
    ensures { result ≡ seal key.now hash.now }
{
    let front = seal_digest(key, hash);
    let mut bytes = [0; 64];
    let (left, _) = bytes.split_at_mut(32);
    left.copy_from_slice(&front);
    bytes
}
