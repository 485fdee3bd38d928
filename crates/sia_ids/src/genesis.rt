//! The identifiers of a genesis and of its siafund outputs.
ghost use Rattle.std.specs.Prelude.{◌≡◌, ◌++◌, map, length, IfOk, OnOk};
ghost use Rattle.sia_encoding.specs.Spelling.{spelled_list};
ghost use Rattle.sia_types.specs.Funds.{fund_output};
ghost use Rattle.sia_ids.specs.Identifiers.{AreSized, new_fund, genesis_id as genesis_id_of, genesis_fund_id as genesis_fund_id_of};

use sia_blake::{Hash, Hasher, digest};
use sia_encoding::{Blob, put_fixed, put_u64};
use sia_types::{FundOutput, Item};
use std::alloc::{AllocError, Global};

/// The label of a genesis, filled with zero bytes to 16.
const GENESIS: [u8; 16] = *b"genesis\0\0\0\0\0\0\0\0\0";

/// The label of a siafund output.
const SIAFUND_OUTPUT: [u8; 16] = *b"siafund output\0\0";

/// The identifier of the genesis that makes these siafund outputs, each with the claim start 0. Its error is want of
/// memory.
#[tactic(auto, unfolding(crate::specs::Identifiers::genesis_text, crate::specs::Identifiers::genesis_id))]
pub fn genesis_id(alloc: Global, funds: &[FundOutput]) -> Result<Hash, AllocError>
    ensures id { IfOk result (λ id. id ≡ genesis_id_of funds.now) }
    ensures sized { OnOk result (AreSized funds.now) }
{
    let mut text = Blob::new(alloc);
    put_fixed(&mut text, &GENESIS)?;
    put_new_funds(&mut text, funds)?;
    Ok(digest(text.as_slice()))
}

/// The identifier of the siafund output at an index from 0 of the genesis with this identifier.
#[tactic(auto, unfolding(crate::specs::Identifiers::genesis_fund_text, crate::specs::Identifiers::genesis_fund_id, sia_encoding::specs::Spelling::spelled_u64))]
pub fn genesis_fund_id(genesis: &Hash, index: u64) -> Hash
    ensures { result ≡ genesis_fund_id_of genesis.now index }
{
    let mut hasher = Hasher::new();
    hasher.update(&SIAFUND_OUTPUT);
    hasher.update(genesis);
    hasher.update(&index.to_le_bytes());
    hasher.finish()
}

// Puts the siafund outputs as the genesis makes them: their count, then each.
fn put_new_funds(out: &mut Blob, funds: &[FundOutput]) -> Result<(), AllocError>
    ensures put { OnOk result (out.new ≡ out.old ++ spelled_list fund_output.spelled (map new_fund funds.now)) }
    ensures sized { OnOk result (AreSized funds.now) }
{
    put_u64(out, funds.len() as u64)?;
    for fund in funds {
        put_new_fund(out, fund)?;
    }
    Ok(())
}

// Puts a siafund output as the genesis makes it: with the claim start 0.
fn put_new_fund(out: &mut Blob, fund: &FundOutput) -> Result<(), AllocError>
    ensures put { OnOk result (out.new ≡ out.old ++ fund_output.spelled (new_fund fund.now)) }
    ensures sized { length fund.now.address ≡ 32 }
{
    FundOutput {
        claim_start: 0,
        ..*fund
    }
    .encode(out)
}
