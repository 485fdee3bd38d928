//! Laws of seals. The functions do nothing: their contracts are the laws.
ghost use Rattle.std.specs.Prelude.{◌≡◌, ◌↔◌, ℕ, List as Sequence, length};
ghost use Rattle.sia_sign.specs.Seal.{IsAccepted, IsSeal};

/// A seal is accepted under each key of 32 bytes, and nothing else is accepted under any key.
pub fn seals_alone_are_accepted()
    ensures { (key hash sig : Sequence ℕ) → IsAccepted key hash sig ↔ ((length key ≡ 32) × IsSeal key hash sig) }
{}
