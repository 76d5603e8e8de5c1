//! The servers of a configuration.
ghost use Rattle.std.specs.Prelude.{◌≡◌, [], map, is_some, string_bytes};
ghost use Rattle.std.specs.List.{list_all, position};
ghost use Rattle.toml.specs.View.{view, table_view};
ghost use Rattle.route_table.specs.Fault.{shown, IsUnlessMemory};
ghost use Rattle.route_table.specs.Entries.{is_name_byte, is_name, name_at, server_address_at, init_at, server_in, server_of, servers_in, is_named, each, name_clash};
ghost use Rattle.route_table.specs.Views.{server_view, servers_view};

use crate::address::parse_address;
use crate::arrays::tables_at;
use crate::fault::ConfigFault;
use crate::key::Key;
use crate::lookup::{text_at, word_at};
use mux_history::InitMode;
use std::alloc::Global;
use std::net::SocketAddr;
use toml::{Table, Value};

/// How many servers there may be.
const MOST_SERVERS: usize = 256;

/// A server that dispatches are sent to.
#[derive(Drop)]
pub struct Server {
    /// 1 to 64 of `a` to `z`, `0` to `9` and `-`.
    pub name: String,
    /// None: an operator gives it one.
    pub address: Option<SocketAddr>,
    pub init: InitMode,
}

fn is_name_byte(b: u8) -> bool
    ensures { result ≡ is_name_byte b }
{
    b.is_ascii_lowercase() || b.is_ascii_digit() || b == b'-'
}

fn are_name_bytes(bytes: &[u8]) -> bool
    ensures { result ≡ list_all is_name_byte bytes.now }
{
    bytes.iter().all(|b| is_name_byte(*b))
}

fn is_name(text: &str) -> bool
    ensures { result ≡ is_name text.now }
{
    if text.is_empty() || text.len() > 64 {
        return false;
    }
    are_name_bytes(text.as_bytes())
}

#[tactic(auto, unfolding(crate::specs::Entries::name_at))]
fn name_at(doc: &Table) -> Result<&str, ConfigFault>
    ensures { shown (λ s. s.now) result ≡ name_at (table_view doc.now) }
{
    let key = Key::ServerName;
    let name = text_at(doc, key)?;
    if is_name(name) {
        Ok(name)
    } else {
        Err(ConfigFault::BadValue { key })
    }
}

/// An address, or none yet.
#[tactic(auto, unfolding(crate::specs::Entries::server_address_at))]
fn server_address_at(doc: &Table) -> Result<Option<SocketAddr>, ConfigFault>
    ensures { shown (λ a. a) result ≡ server_address_at (table_view doc.now) }
{
    let key = Key::ServerAddress;
    let text = text_at(doc, key)?;
    if text == "none" {
        return Ok(None);
    }
    match parse_address(text) {
        Some(address) => Ok(Some(address)),
        None => Err(ConfigFault::BadValue { key }),
    }
}

fn init_at(doc: &Table) -> Result<InitMode, ConfigFault>
    ensures { shown (λ i. i) result ≡ init_at (table_view doc.now) }
{
    word_at(
        doc,
        Key::ServerInit,
        ("probe", InitMode::Probe),
        ("plain", InitMode::Plain),
    )
}

#[tactic(auto, unfolding(crate::specs::Entries::server_in))]
fn server_in(alloc: Global, doc: &Table) -> Result<Server, ConfigFault>
    ensures { IsUnlessMemory (shown server_view result) (server_in (table_view doc.now)) }
{
    let name = name_at(doc)?;
    let address = server_address_at(doc)?;
    let init = init_at(doc)?;
    Ok(Server {
        name: String::from_str(alloc, name)?,
        address,
        init,
    })
}

fn server_of(alloc: Global, entry: &Value) -> Result<Server, ConfigFault>
    ensures { IsUnlessMemory (shown server_view result) (server_of (view entry.now)) }
{
    match entry {
        Value::Table(doc) => server_in(alloc, doc),
        _ => Err(ConfigFault::BadValue { key: Key::Server }),
    }
}

/// The place of the server of a name.
pub(crate) fn position_of(name: &str, servers: &[Server]) -> Option<usize>
    ensures { result ≡ position (λ server. is_named name.now (server_view server)) servers.now }
{
    servers
        .iter()
        .position(|server| server.name.as_str() == name)
}

/// Whether one of these servers has this one's name.
fn is_taken(server: &Server, servers: &[Server]) -> bool
    ensures { result ≡ is_some (position (λ other. is_named (string_bytes server.now.name) (server_view other))
        servers.now) }
{
    position_of(server.name.as_str(), servers).is_some()
}

fn servers_from(alloc: Global, entries: &[Value]) -> Result<Vec<Server>, ConfigFault>
    ensures { IsUnlessMemory (shown (λ s. servers_view s.items) result)
        (each server_of name_clash [] (map view entries.now)) }
{
    let mut servers = Vec::new(alloc);
    for entry in entries {
        let server = server_of(alloc, entry)?;
        if is_taken(&server, servers.as_slice()) {
            return Err(ConfigFault::DoubleName { name: server.name });
        }
        servers.push(server)?;
    }
    Ok(servers)
}

/// The servers, in the order of the text.
#[tactic(auto, unfolding(crate::specs::Entries::servers_in))]
pub(crate) fn servers_in(alloc: Global, doc: &Table) -> Result<Vec<Server>, ConfigFault>
    ensures { IsUnlessMemory (shown (λ s. servers_view s.items) result) (servers_in (table_view doc.now)) }
{
    let entries = tables_at(doc, Key::Server, MOST_SERVERS)?;
    servers_from(alloc, entries)
}
