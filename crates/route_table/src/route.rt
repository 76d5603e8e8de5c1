//! The routes of a configuration.
ghost use Rattle.std.specs.Prelude.{◌≡◌, ℕ, List, [], map, true, cond, string_bytes, IfOk, IfErr, OnOk};
ghost use Rattle.std.specs.List.{list_any};
ghost use Rattle.std.specs.Str.{bytes_eq};
ghost use Rattle.std.specs.HashSet.{contains_text};
ghost use Rattle.route_table.specs.declared.fault.ConfigFault.TheVariants.{Memory};
ghost use Rattle.toml.specs.View.{view, table_view};
ghost use Rattle.route_table.specs.Fault.{shown, IsUnlessMemory};
ghost use Rattle.route_table.specs.Table.{is_text};
ghost use Rattle.route_table.specs.Entries.{is_dst, dst_at, are_texts, are_names, names_at, place_of, places_in, route_in, route_of, routes_in, each, dst_clash};
ghost use Rattle.route_table.specs.Views.{server_view, servers_view, route_view, routes_view};

use crate::arrays::{list_of, tables_at};
use crate::fault::ConfigFault;
use crate::key::Key;
use crate::lookup::{is_text, text_at, value_at};
use crate::server::{Server, position_of};
use mux_history::ServerId;
use std::alloc::Global;
use std::collections::HashSet;
use toml::{Table, Value};

/// How many routes there may be.
const MOST_ROUTES: usize = 4_096;

/// The servers of a destination.
#[derive(Drop)]
pub struct Route {
    /// 0 to 65,535 bytes.
    pub dst: String,
    /// 1 to 64 places of servers in the configuration, none twice.
    pub servers: Vec<ServerId>,
}

fn is_dst(text: &str) -> bool
    ensures { result ≡ is_dst text.now }
{
    text.len() <= 65_535
}

#[tactic(auto, unfolding(crate::specs::Entries::dst_at))]
fn dst_at(doc: &Table) -> Result<&str, ConfigFault>
    ensures { shown (λ s. s.now) result ≡ dst_at (table_view doc.now) }
{
    let key = Key::RouteDst;
    let dst = text_at(doc, key)?;
    if is_dst(dst) {
        Ok(dst)
    } else {
        Err(ConfigFault::BadValue { key })
    }
}

fn has_text(text: &str, values: &[Value]) -> bool
    ensures { result ≡ list_any (λ value. is_text text.now (view value)) values.now }
{
    values.iter().any(|value| is_text(text, value))
}

/// Whether these are texts, none twice.
fn are_texts(values: &[Value]) -> bool
    ensures { result ≡ are_texts (map view values.now) }
{
    for (i, value) in values.iter().enumerate() {
        let Value::String(text) = value else {
            return false;
        };
        if has_text(text.as_str(), &values[i + 1..]) {
            return false;
        }
    }
    true
}

/// Whether these are the names of a route's servers: 1 to 64 texts, none twice.
fn are_names(values: &[Value]) -> bool
    ensures { result ≡ are_names (map view values.now) }
{
    if values.is_empty() || values.len() > 64 {
        return false;
    }
    are_texts(values)
}

#[tactic(auto, unfolding(crate::specs::Entries::names_at))]
fn names_at(doc: &Table) -> Result<&[Value], ConfigFault>
    ensures { shown (λ vs. map view vs.now) result ≡ names_at (table_view doc.now) }
{
    let key = Key::RouteServers;
    let Some(value) = value_at(doc, key) else {
        return Err(ConfigFault::Missing { key });
    };
    let Some(names) = list_of(value) else {
        return Err(ConfigFault::BadValue { key });
    };
    if are_names(names) {
        Ok(names)
    } else {
        Err(ConfigFault::BadValue { key })
    }
}

fn place_of(alloc: Global, servers: &[Server], value: &Value) -> Result<ServerId, ConfigFault>
    ensures { IsUnlessMemory (shown (λ p. p) result) (place_of (servers_view servers.now) (view value.now)) }
{
    let Value::String(name) = value else {
        return Err(ConfigFault::BadValue {
            key: Key::RouteServers,
        });
    };
    let name = name.as_str();
    match position_of(name, servers) {
        Some(place) => Ok(place as u64),
        None => Err(ConfigFault::UnknownServer {
            name: String::from_str(alloc, name)?,
        }),
    }
}

#[tactic(auto, unfolding(crate::specs::Entries::places_in))]
fn places_in(
    alloc: Global,
    servers: &[Server],
    names: &[Value],
) -> Result<Vec<ServerId>, ConfigFault>
    ensures { IsUnlessMemory (shown (λ ps. ps.items) result)
        (places_in (servers_view servers.now) (map view names.now)) }
{
    let mut places = Vec::new(alloc);
    for name in names {
        places.push(place_of(alloc, servers, name)?)?;
    }
    Ok(places)
}

#[tactic(auto, unfolding(crate::specs::Entries::route_in))]
fn route_in(alloc: Global, servers: &[Server], doc: &Table) -> Result<Route, ConfigFault>
    ensures { IsUnlessMemory (shown route_view result) (route_in (servers_view servers.now) (table_view doc.now)) }
{
    let dst = dst_at(doc)?;
    let names = names_at(doc)?;
    let servers = places_in(alloc, servers, names)?;
    Ok(Route {
        dst: String::from_str(alloc, dst)?,
        servers,
    })
}

fn route_of(alloc: Global, servers: &[Server], entry: &Value) -> Result<Route, ConfigFault>
    ensures { IsUnlessMemory (shown route_view result) (route_of (servers_view servers.now) (view entry.now)) }
{
    match entry {
        Value::Table(doc) => route_in(alloc, servers, doc),
        _ => Err(ConfigFault::BadValue { key: Key::Route }),
    }
}

/// Whether a route's destination is one of these. From now on it is.
fn is_taken(alloc: Global, taken: &mut HashSet<String>, route: &Route) -> Result<bool, ConfigFault>
    ensures memory { IfErr result (λ e. e ≡ Memory) }
    ensures was { IfOk result (λ was. was ≡ contains_text taken.old (string_bytes route.now.dst)) }
    ensures is { OnOk result ((d : List ℕ) → contains_text taken.new d
        ≡ cond (bytes_eq (string_bytes route.now.dst) d) true (contains_text taken.old d)) }
{
    let is_new = taken.insert(String::from_str(alloc, route.dst.as_str())?)?;
    Ok(!is_new)
}

fn routes_from(
    alloc: Global,
    servers: &[Server],
    entries: &[Value],
) -> Result<Vec<Route>, ConfigFault>
    ensures { IsUnlessMemory (shown (λ rs. routes_view rs.items) result)
        (each (route_of (servers_view servers.now)) dst_clash [] (map view entries.now)) }
{
    let mut routes = Vec::new(alloc);
    let mut taken = HashSet::new(alloc);
    for entry in entries {
        let route = route_of(alloc, servers, entry)?;
        if is_taken(alloc, &mut taken, &route)? {
            return Err(ConfigFault::DoubleRoute { dst: route.dst });
        }
        routes.push(route)?;
    }
    Ok(routes)
}

/// The routes to these servers, in the order of the text.
#[tactic(auto, unfolding(crate::specs::Entries::routes_in))]
pub(crate) fn routes_in(
    alloc: Global,
    servers: &[Server],
    doc: &Table,
) -> Result<Vec<Route>, ConfigFault>
    ensures { IsUnlessMemory (shown (λ rs. routes_view rs.items) result)
        (routes_in (servers_view servers.now) (table_view doc.now)) }
{
    let entries = tables_at(doc, Key::Route, MOST_ROUTES)?;
    routes_from(alloc, servers, entries)
}
