//! What judges signatures, and who makes them.
ghost use Rattle.std.specs.Prelude.{◌≡◌, ℕ, Bool, List as Sequence, IfOk};

use sia_encoding::Blob;
use std::alloc::{AllocError, Global};

/// A check of signatures, as a signature scheme's verification.
pub trait SigCheck {
    /// Whether it accepts a signature of a hash under a key, given as key, hash and signature: one verdict for every value of
    /// the type.
    ghost verdict: { Sequence ℕ → Sequence ℕ → Sequence ℕ → Bool };

    /// Whether the signature of the hash under the key is accepted.
    fn accepts(&self, key: &[u8], hash: &[u8; 32], sig: &[u8]) -> bool
        ensures { result ≡ verdict key.now hash.now sig.now };
}

/// A holder of one key, who signs hashes with it.
pub trait Signer {
    /// The key under which its signatures are checked: it is the value's own, and stays.
    ghost public_key: { Self → Sequence ℕ };

    /// Which signatures of a hash it may make under a key, given as key, hash and signature.
    ghost Makes: { Sequence ℕ → Sequence ℕ → Sequence ℕ → Type 0 };

    /// The key under which its signatures are checked.
    fn key(&self) -> [u8; 32]
        ensures { result ≡ public_key self.now };

    /// A signature of the hash. Its error is want of memory.
    fn sign(&self, alloc: Global, hash: &[u8; 32]) -> Result<Blob, AllocError>
        ensures { IfOk result (λ sig. Makes (public_key self.now) hash.now sig) };
}
