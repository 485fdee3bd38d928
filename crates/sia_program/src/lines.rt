//! The parts of printed lines that commands share.
ghost use Rattle.std.specs.Prelude.{◌≡◌, ◌++◌, IfOk, OnOk, string_bytes, decimal};
ghost use Rattle.hex.specs.Hex.{encode_lower};
ghost use Rattle.sia_program.specs.Lines.{line};

use sia_blake::Hash;
use std::alloc::{AllocError, Global};

/// Appends the line of a name and a number.
#[tactic(auto, unfolding(crate::specs::Lines::line))]
pub(crate) fn put_number(out: &mut String, name: &str, value: u128) -> Result<(), AllocError>
    ensures { OnOk result (string_bytes out.new ≡ string_bytes out.old ++ line name.now (decimal value)) }
{
    write!(out, "{name} {value}\n")
}

/// Appends the line of a name and a text.
#[tactic(auto, unfolding(crate::specs::Lines::line))]
pub(crate) fn put_text(out: &mut String, name: &str, value: &str) -> Result<(), AllocError>
    ensures { OnOk result (string_bytes out.new ≡ string_bytes out.old ++ line name.now value.now) }
{
    write!(out, "{name} {value}\n")
}

/// A hash in lower-case hexadecimal digits.
pub(crate) fn hash_text(alloc: Global, hash: &Hash) -> Result<String, AllocError>
    ensures { IfOk result (λ text. string_bytes text ≡ encode_lower hash.now) }
{
    hex::encode(alloc, hash.as_slice())
}
