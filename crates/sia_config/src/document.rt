//! The document that a configuration is, and the values at its keys.
ghost use Rattle.std.specs.Prelude.{◌≡◌, ◌≤◌, IfOk, option_map};
ghost use Rattle.std.specs.Option.{ok_or};
ghost use Rattle.toml.specs.View.{view};
ghost use Rattle.sia_encoding.specs.Answer.{Answers};
ghost use Rattle.sia_config.specs.Document.{document as document_of, value_at as value_at_of};
ghost use Rattle.sia_config.specs.Values.{amount_in as amount_in_of, integer_in as integer_in_of, amount as amount_of, integer as integer_of};
ghost use Rattle.sia_config.specs.Told.{config_told};

use crate::decimal::read_decimal;
use crate::fault::ConfigFault;
use crate::key::ConfigKey;
use std::alloc::Global;
use toml::Value;

/// Parses the bytes of a configuration.
pub(crate) fn parse(alloc: Global, bytes: &[u8]) -> Result<Value, ConfigFault>
    ensures { Answers view config_told result (ok_or (document_of bytes.now) ConfigFault.Text) }
{
    match toml::table_from_slice(alloc, bytes) {
        Ok(table) => Ok(Value::Table(table)),
        Err(fault) => {
            if fault.is_memory() {
                Err(ConfigFault::Memory)
            } else {
                Err(ConfigFault::Text)
            }
        }
    }
}

/// What stands at a key.
#[tactic(auto, unfolding(crate::specs::Document::value_at))]
pub(crate) fn value_at<'a>(document: &'a Value, key: ConfigKey) -> Option<&'a Value>
    ensures { option_map (λ v. view v.now) result ≡ value_at_of key (view document.now) }
{
    match document.get(key.table()) {
        Some(table) => table.get(key.name()),
        None => None,
    }
}

/// A value that is an integer from `low` to `high`.
pub(crate) fn integer_in(value: &Value, low: u64, high: u64) -> Option<u64>
    ensures { result ≡ integer_in_of low high (view value.now) }
{
    match value.as_integer() {
        Some(value) => match u64::try_from(value) {
            Ok(value) if low <= value && value <= high => Some(value),
            _ => None,
        },
        None => None,
    }
}

/// A value that is an amount.
fn amount_in(value: &Value) -> Option<u128>
    ensures { result ≡ amount_in_of (view value.now) }
{
    match value.as_str() {
        Some(text) => read_decimal(text.as_bytes()),
        None => None,
    }
}

/// The integer at a key, from `low` to `high`, or its default where the key is absent.
#[tactic(auto, unfolding(crate::specs::Values::integer))]
pub(crate) fn integer(
    document: &Value,
    key: ConfigKey,
    low: u64,
    high: u64,
    default: u64,
) -> Result<u64, ConfigFault>
    requires least { low ≤ default }
    requires most { default ≤ high }
    ensures exact { result ≡ integer_of (view document.now) key low high default }
    ensures within { IfOk result (λ value. (low ≤ value) × (value ≤ high)) }
{
    let Some(value) = value_at(document, key) else {
        return Ok(default);
    };
    integer_in(value, low, high).ok_or(ConfigFault::Key(key))
}

/// The amount at a key, or its default where the key is absent.
#[tactic(auto, unfolding(crate::specs::Values::amount))]
pub(crate) fn amount(document: &Value, key: ConfigKey, default: u128) -> Result<u128, ConfigFault>
    ensures { result ≡ amount_of (view document.now) key default }
{
    let Some(value) = value_at(document, key) else {
        return Ok(default);
    };
    amount_in(value).ok_or(ConfigFault::Key(key))
}
