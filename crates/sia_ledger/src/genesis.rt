//! What a chain begins from: whether it may, and what its genesis makes.
ghost use Rattle.std.specs.Prelude.{◌≡◌, ◌∷◌, [], ◌==◌, IfOk, OnOk};
ghost use Rattle.std.specs.List.{list_any};
ghost use Rattle.sia_encoding.specs.Answer.{Answers, unless};
ghost use Rattle.sia_ids.specs.Identifiers.{genesis_fund_id as genesis_fund_id_of, genesis_id, new_fund};
ghost use Rattle.sia_rules.specs.Amounts.{capped};
ghost use Rattle.sia_rules.specs.Sums.{fund_sum};
ghost use Rattle.sia_ledger.specs.Answers.{genesis_told};
ghost use Rattle.sia_ledger.specs.Blocks.{genesis_facts, genesis_state};
ghost use Rattle.sia_ledger.specs.Genesis.{genesis_refusal};
ghost use Rattle.sia_ledger.specs.Known.{state_in};
ghost use Rattle.sia_ledger.specs.State.{add_all, numbered};
ghost use Rattle.sia_ledger.specs.Facts.{fact};
ghost use Rattle.sia_ledger.specs.declared.fact.Deed.TheVariants as deed;

use crate::base::Base;
use crate::catalog::Catalog;
use crate::draft::Draft;
use crate::fact::{Deed, Fact};
use crate::fault::GenesisFault;
use crate::params::Params;
use sia_blake::Hash;
use sia_encoding::List;
use sia_ids::genesis_fund_id;
use sia_rules::FUND_COUNT;
use sia_types::FundOutput;
use std::alloc::{AllocError, Global};

/// The longest that a miner payout may rest, in blocks.
const LONGEST_MATURITY: u64 = 10_000;

/// Whether a chain may begin from the parameters.
pub(crate) fn check_params(params: &Params) -> Result<(), GenesisFault>
    ensures { Answers (λ _. tt) genesis_told result (unless (genesis_refusal params.now)) }
{
    let funds = params.funds.as_slice();
    let got = sum_of_funds(funds);
    if got != FUND_COUNT || has_empty_fund(funds) {
        return Err(GenesisFault::FundSum { got });
    }
    if params.maturity < 1 || params.maturity > LONGEST_MATURITY {
        return Err(GenesisFault::Maturity);
    }
    Ok(())
}

// The lesser of the siafunds' sum and 2^128 - 1.
fn sum_of_funds(funds: &[FundOutput]) -> u128
    ensures { result ≡ capped (fund_sum funds.now) }
{
    let mut sum: u128 = 0;
    for fund in funds {
        sum = sum.saturating_add(fund.value);
    }
    sum
}

// Whether an output holds no siafund.
fn has_empty_fund(funds: &[FundOutput]) -> bool
    ensures { result ≡ list_any (λ fund. fund.value == 0) funds.now }
{
    funds.iter().any(|fund| fund.value == 0)
}

/// What the genesis makes, and the first identifier that it makes a second time.
#[derive(Drop)]
pub(crate) struct Begun {
    pub made: List<Fact>,
    pub twice: Option<Hash>,
}

/// What the genesis with this identifier makes.
#[tactic(auto, unfolding(crate::specs::Blocks::genesis_state))]
pub(crate) fn make_genesis(
    alloc: Global,
    id: &Hash,
    funds: &[FundOutput],
) -> Result<Begun, AllocError>
    requires { id.now ≡ genesis_id funds.now }
    ensures { IfOk result (λ begun. genesis_state funds.now ≡ record { ids = id.now ∷ []; facts = begun.made; twice = begun.twice }) }
{
    let own = *id;
    let ids = [own];
    let none = Catalog::new(alloc);
    let base = Base::new(&ids, &none);
    let mut draft = Draft::begin(alloc, &base);
    add_genesis(&mut draft, id, funds)?;
    let (made, twice) = draft.finish();
    Ok(Begun { made, twice })
}

// The genesis makes its own identifier, then its siafund outputs.
fn add_genesis(draft: &mut Draft<'_>, id: &Hash, funds: &[FundOutput]) -> Result<(), AllocError>
    requires { id.now ≡ genesis_id funds.now }
    ensures made { OnOk result (state_in draft.new ≡ add_all (state_in draft.old) (genesis_facts funds.now)) }
    ensures kept { draft.new.kept ≡ draft.old.kept }
    ensures ids { draft.new.ids ≡ draft.old.ids }
{
    let own = *id;
    draft.add(Fact {
        id: own,
        deed: Deed::Block,
    })?;
    add_funds(draft, id, funds)
}

// The siafund outputs of the genesis with this identifier are made.
fn add_funds(draft: &mut Draft<'_>, id: &Hash, funds: &[FundOutput]) -> Result<(), AllocError>
    ensures made { OnOk result (state_in draft.new ≡ add_all (state_in draft.old) (numbered (λ i (fund : FundOutput). fact (genesis_fund_id_of id.now i) (deed.Fund (new_fund fund))) 0 funds.now)) }
    ensures kept { draft.new.kept ≡ draft.old.kept }
    ensures ids { draft.new.ids ≡ draft.old.ids }
{
    for (index, fund) in funds.iter().enumerate() {
        let id = genesis_fund_id(id, index as u64);
        let made = FundOutput {
            claim_start: 0,
            ..*fund
        };
        draft.add(Fact {
            id,
            deed: Deed::Fund(made),
        })?;
    }
    Ok(())
}
