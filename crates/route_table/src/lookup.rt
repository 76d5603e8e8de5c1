//! The values at single keys.
ghost use Rattle.std.specs.Prelude.{◌≡◌};
ghost use Rattle.std.specs.Option.{option_map};
ghost use Rattle.toml.specs.View.{view, table_view};
ghost use Rattle.route_table.specs.Fault.{shown};
ghost use Rattle.route_table.specs.Table.{value_at, text_at, is_text, address_at, number_at, optional_address_at, optional_number_at, word_at};

use crate::address::parse_address;
use crate::fault::ConfigFault;
use crate::key::Key;
use std::net::SocketAddr;
use toml::{Table, Value};

pub(crate) fn value_at<'a>(doc: &'a Table, key: Key) -> Option<&'a Value>
    ensures { option_map (λ v. view v.now) result ≡ value_at (table_view doc.now) key }
{
    doc.get(key.name())
}

pub(crate) fn text_at<'a>(doc: &'a Table, key: Key) -> Result<&'a str, ConfigFault>
    ensures { shown (λ s. s.now) result ≡ text_at (table_view doc.now) key }
{
    let Some(value) = value_at(doc, key) else {
        return Err(ConfigFault::Missing { key });
    };
    match value.as_str() {
        Some(text) => Ok(text),
        None => Err(ConfigFault::BadValue { key }),
    }
}

/// Whether a value is this text.
pub(crate) fn is_text(text: &str, value: &Value) -> bool
    ensures { result ≡ is_text text.now (view value.now) }
{
    match value.as_str() {
        Some(other) => other == text,
        None => false,
    }
}

/// A text that is a numeric address and port.
#[tactic(auto, unfolding(crate::specs::Table::address_at))]
pub(crate) fn address_at(doc: &Table, key: Key) -> Result<SocketAddr, ConfigFault>
    ensures { shown (λ a. a) result ≡ address_at (table_view doc.now) key }
{
    let text = text_at(doc, key)?;
    match parse_address(text) {
        Some(address) => Ok(address),
        None => Err(ConfigFault::BadValue { key }),
    }
}

/// The same, or None where the key isn't there.
#[tactic(auto, unfolding(crate::specs::Table::optional_address_at))]
pub(crate) fn optional_address_at(doc: &Table, key: Key) -> Result<Option<SocketAddr>, ConfigFault>
    ensures { shown (λ a. a) result ≡ optional_address_at (table_view doc.now) key }
{
    match value_at(doc, key) {
        None => Ok(None),
        Some(_) => Ok(Some(address_at(doc, key)?)),
    }
}

/// A number from `low` to `high`, which is `default` where the key isn't there.
#[tactic(auto, unfolding(crate::specs::Table::number_at))]
pub(crate) fn number_at(
    doc: &Table,
    key: Key,
    low: u64,
    high: u64,
    default: u64,
) -> Result<u64, ConfigFault>
    ensures { shown (λ n. n) result ≡ number_at (table_view doc.now) key
        (record { low = low; high = high; default = default }) }
{
    let number = match value_at(doc, key) {
        None => default,
        Some(Value::Integer(n)) if *n >= 0 => n.unsigned_abs(),
        Some(_) => return Err(ConfigFault::BadValue { key }),
    };
    if low <= number && number <= high {
        Ok(number)
    } else {
        Err(ConfigFault::BadValue { key })
    }
}

/// A number from `low` to `high`, or None where the key isn't there.
#[tactic(auto, unfolding(crate::specs::Table::optional_number_at))]
pub(crate) fn optional_number_at(
    doc: &Table,
    key: Key,
    low: u64,
    high: u64,
) -> Result<Option<u64>, ConfigFault>
    ensures { shown (λ n. n) result ≡ optional_number_at (table_view doc.now) key
        (record { low = low; high = high; default = low }) }
{
    match value_at(doc, key) {
        None => Ok(None),
        Some(_) => Ok(Some(number_at(doc, key, low, high, low)?)),
    }
}

/// What one of two words stands for, which is the first where the key isn't there.
#[tactic(auto, unfolding(crate::specs::Table::word_at))]
pub(crate) fn word_at<T: Copy>(
    doc: &Table,
    key: Key,
    first: (&str, T),
    second: (&str, T),
) -> Result<T, ConfigFault>
    ensures { shown (λ v. v) result ≡
        word_at (table_view doc.now) key (first.entry.0.now, first.entry.1) (second.entry.0.now, second.entry.1) }
{
    let Some(value) = value_at(doc, key) else {
        return Ok(first.1);
    };
    if is_text(first.0, value) {
        Ok(first.1)
    } else if is_text(second.0, value) {
        Ok(second.1)
    } else {
        Err(ConfigFault::BadValue { key })
    }
}
