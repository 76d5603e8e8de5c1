//! Arrays of tables.
ghost use Rattle.std.specs.Prelude.{◌≡◌, ◌&&◌, nat_le, length, map};
ghost use Rattle.std.specs.List.{list_all};
ghost use Rattle.std.specs.Option.{option_map};
ghost use Rattle.toml.specs.View.{view, table_view};
ghost use Rattle.route_table.specs.Fault.{shown};
ghost use Rattle.route_table.specs.Entries.{is_table, list_of, tables_at};

use crate::fault::ConfigFault;
use crate::key::Key;
use crate::lookup::value_at;
use toml::{Table, Value};

/// The items of a value that is an array.
pub(crate) fn list_of(value: &Value) -> Option<&[Value]>
    ensures { option_map (λ vs. map view vs.now) result ≡ list_of (view value.now) }
{
    match value.as_array() {
        Some(items) => Some(items.as_slice()),
        None => None,
    }
}

fn are_tables(values: &[Value]) -> bool
    ensures { result ≡ list_all (λ value. is_table (view value)) values.now }
{
    values.iter().all(Value::is_table)
}

/// Whether these are tables, and at most so many.
fn are_few_tables(values: &[Value], most: usize) -> bool
    ensures { result ≡ (nat_le (length values.now) most && list_all (λ value. is_table (view value)) values.now) }
{
    values.len() <= most && are_tables(values)
}

/// The entries of an array of tables, none where the key isn't there.
#[tactic(auto, unfolding(crate::specs::Entries::tables_at))]
pub(crate) fn tables_at<'a>(
    doc: &'a Table,
    key: Key,
    most: usize,
) -> Result<&'a [Value], ConfigFault>
    ensures { shown (λ vs. map view vs.now) result ≡ tables_at (table_view doc.now) key most }
{
    let Some(value) = value_at(doc, key) else {
        return Ok(&[]);
    };
    let Some(tables) = list_of(value) else {
        return Err(ConfigFault::BadValue { key });
    };
    if are_few_tables(tables, most) {
        Ok(tables)
    } else {
        Err(ConfigFault::BadValue { key })
    }
}
