//! A message, and hashes that are written in digits.
use hex::FromHex;
use sia_blake::Hash;
use std::test::Fail;

/// The byte at place i of the message is i modulo 251.
pub(crate) fn message<const N: usize>() -> [u8; N] {
    let mut bytes = [0; N];
    for (i, byte) in bytes.iter_mut().enumerate() {
        *byte = (i % 251) as u8;
    }
    bytes
}

/// The hash of 64 hexadecimal digits.
pub(crate) fn hash(digits: &str) -> Result<Hash, Fail> {
    Ok(<[u8; 32] as FromHex>::from_hex(digits)?)
}
