//! Laws of the amounts. The functions do nothing: their contracts are the laws.
ghost use Rattle.std.specs.Prelude.{ℕ, ◌<◌, ◌^◌};
ghost use Rattle.sia_rules.specs.Amounts.{issued};

/// What the blocks up to a height create is less than 2^128 hastings, at each height that a block may have.
pub fn issue_fits()
    ensures { (height : ℕ) → height < 2 ^ 32 → issued height < 2 ^ 128 }
{}
