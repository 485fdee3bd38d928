//! `chain.siafund`, the siafund outputs of the genesis.
ghost use Rattle.std.specs.Prelude.{length, ◌*◌, ◌<◌, ◌^◌, ◌≤◌, ◌≡◌, IfOk, None};
ghost use Rattle.std.specs.Option.{ok_or};
ghost use Rattle.toml.specs.View.{view, items_view};
ghost use Rattle.sia_encoding.specs.Answer.{Answers};
ghost use Rattle.sia_ledger.specs.Genesis.{wrong_funds};
ghost use Rattle.sia_rules.specs.Sums.{fund_sum};
ghost use Rattle.sia_config.specs.Siafunds.{address_of, siafund_of, siafunds_of_items, siafunds as siafunds_of, is_whole_issue as is_whole_issue_of};
ghost use Rattle.sia_config.specs.Told.{config_told};

use crate::document::{integer_in, value_at};
use crate::fault::ConfigFault;
use crate::key::ConfigKey;
use hex::FromHex;
use sia_blake::Hash;
use sia_encoding::List;
use sia_types::FundOutput;
use std::alloc::Global;
use toml::Value;

/// An address in 64 hexadecimal digits.
fn address(text: &str) -> Option<Hash>
    ensures { result ≡ address_of text.now }
{
    <[u8; 32] as FromHex>::from_hex(text).ok()
}

/// The output that one table names.
fn siafund(table: &Value) -> Option<FundOutput>
    ensures { result ≡ siafund_of (view table.now) }
{
    let address = address(table.get("to")?.as_str()?)?;
    let value = integer_in(table.get("value")?, 1, 10_000)?;
    Some(FundOutput {
        value: u128::from(value),
        address,
        claim_start: 0,
    })
}

fn siafund_list(alloc: Global, tables: &[Value]) -> Result<List<FundOutput>, ConfigFault>
    ensures { Answers (λ value. value) config_told result (ok_or (siafunds_of_items (items_view tables.now)) (ConfigFault.Key ConfigKey.Siafund)) }
{
    let mut funds = List::new(alloc);
    for table in tables {
        match siafund(table) {
            Some(fund) => match funds.push(fund) {
                Ok(()) => {}
                Err(_) => return Err(ConfigFault::Memory),
            },
            None => return Err(ConfigFault::Key(ConfigKey::Siafund)),
        }
    }
    Ok(funds)
}

fn siafund_count(funds: &[FundOutput]) -> u128
    requires { fund_sum funds.now < 2 ^ 128 }
    ensures { result ≡ fund_sum funds.now }
{
    funds.iter().map(|fund| fund.value).sum()
}

/// Whether there are 1 to 100 outputs, which hold all siafunds.
fn is_whole_issue(funds: &[FundOutput]) -> bool
    requires { fund_sum funds.now ≤ 10000 * length funds.now }
    ensures { result ≡ is_whole_issue_of funds.now }
{
    1 <= funds.len() && funds.len() <= 100 && siafund_count(funds) == 10_000
}

/// The outputs at the key.
#[tactic(auto, unfolding(crate::specs::Siafunds::siafunds))]
pub(crate) fn siafunds(alloc: Global, document: &Value) -> Result<List<FundOutput>, ConfigFault>
    ensures exact { Answers (λ value. value) config_told result (siafunds_of (view document.now)) }
    ensures founds { IfOk result (λ funds. wrong_funds funds ≡ None) }
{
    let refused = ConfigFault::Key(ConfigKey::Siafund);
    let Some(value) = value_at(document, ConfigKey::Siafund) else {
        return Err(refused);
    };
    let Some(tables) = value.as_array() else {
        return Err(refused);
    };
    let funds = siafund_list(alloc, tables.as_slice())?;
    if is_whole_issue(funds.as_slice()) {
        Ok(funds)
    } else {
        Err(refused)
    }
}
