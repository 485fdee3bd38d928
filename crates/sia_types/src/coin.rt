//! Siacoin outputs that can be spent.

/// A live siacoin output, as an owner of addresses sees it.
#[derive(Clone, Copy)]
pub struct Coin {
    /// Its identifier.
    pub id: [u8; 32],
    /// Its value in hastings.
    pub value: u128,
    /// The unlock hash that it was paid to.
    pub address: [u8; 32],
    /// The height, in blocks, from which it can be spent.
    pub from: u64,
}
