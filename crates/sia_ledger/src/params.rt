//! What a chain begins from.
use sia_encoding::List;
use sia_types::FundOutput;

/// What a chain begins from.
#[derive(Drop)]
pub struct Params {
    /// How many blocks a miner payout, a claim or an output of a settled contract rests before it can be spent: 1 to 10,000.
    pub maturity: u64,
    /// The siafund outputs of the genesis, in order. Together they hold the 10,000 siafunds, and each holds at least
    /// one. Each is made with the claim start 0, whatever stands here.
    pub funds: List<FundOutput>,
}
