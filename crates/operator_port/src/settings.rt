//! What a router was configured with.
ghost use Rattle.std.specs.Prelude.{◌≡◌, ◌++◌, ◌∷◌, [], map, codes, IfOk, OnOk, string_bytes};
ghost use Rattle.std.specs.List.{join_by};
ghost use Rattle.operator_port.specs.Settings.{address_text, audit_text, config_lines, init_text, name_at, names_line, optional_address, optional_number, route_table, server_table, setting, value_of};
ghost use Rattle.operator_port.specs.Texts.{text_of};

use crate::escapes::push_toml;
use crate::pages::{Prints, push_all, push_line, push_str};
use mux_history::{InitMode, ServerId};
use route_table::{AuditMode, Config, Key, Route, Server};
use std::alloc::{AllocError, Global};
use std::net::SocketAddr;

/// What a key is set to.
#[derive(Clone, Copy, Drop)]
pub(crate) enum Value {
    Number(u64),
    Address(SocketAddr),
    Audit(AuditMode),
    Unset,
}

/// All values of a configuration, defaults too, as lines that can be read as the same configuration; the last one is
/// `# end`.
///
/// Out of memory is the one error.
pub fn config_page(alloc: Global, config: &Config) -> Result<Vec<u8>, AllocError>
    ensures { IfOk result (λ t. t.items ≡ text_of (config_lines config.now)) }
{
    let keys = [
        Key::Listen,
        Key::Admin,
        Key::Audit,
        Key::ReconnectMs,
        Key::Clients,
        Key::Sessions,
        Key::ClientIdleMs,
        Key::ServerSilentMs,
        Key::EjectAfter,
        Key::EjectMs,
        Key::Window,
        Key::Out,
        Key::History,
        Key::ServerWindow,
        Key::ServerOut,
        Key::ServerHistory,
        Key::OutBytes,
        Key::MaxFrame,
        Key::Operator,
        Key::MetricsHttp,
        Key::Retries,
        Key::Boot,
        Key::TickMs,
        Key::FrameMs,
        Key::AdminIdleMs,
        Key::Threads,
        Key::Recorded,
    ];
    let mut text = Vec::new(alloc);
    push_all(alloc, &mut text, config, &keys)?;
    push_all(alloc, &mut text, config, config.servers.as_slice())?;
    push_all(alloc, &mut text, config, config.routes.as_slice())?;
    push_line(&mut text, "# end")?;
    Ok(text)
}

impl Prints<Key> for Config {
    ghost use Rattle.route_table.specs.Table.{name_of};
    ghost use Rattle.operator_port.specs.Settings.{setting, value_of};

    ghost line = { λ c key. setting (name_of key) (value_of c key) };

    fn push(&self, alloc: Global, text: &mut Vec<u8>, row: &Key) -> Result<(), AllocError> {
        let line = setting_text(alloc, row.name(), value_of(self, *row))?;
        push_line(text, line.as_str())
    }
}

impl Prints<Server> for Config {
    ghost use Rattle.operator_port.specs.Settings.{server_table};

    ghost line = { λ _ server. server_table server };

    fn push(&self, alloc: Global, text: &mut Vec<u8>, row: &Server) -> Result<(), AllocError> {
        let table = server_text(alloc, row)?;
        push_line(text, table.as_str())
    }
}

impl Prints<Route> for Config {
    ghost use Rattle.operator_port.specs.Settings.{route_table};

    ghost line = { λ c route. route_table c.servers.items route };

    fn push(&self, alloc: Global, text: &mut Vec<u8>, row: &Route) -> Result<(), AllocError> {
        push_route(alloc, text, self.servers.as_slice(), row)
    }
}

fn value_of(config: &Config, key: Key) -> Value
    ensures { result ≡ value_of config.now key }
{
    match key {
        Key::Listen => Value::Address(config.listen),
        Key::Admin => Value::Address(config.admin),
        Key::Boot => Value::Number(config.boot),
        Key::MaxFrame => Value::Number(config.max_frame),
        Key::Window => Value::Number(config.window),
        Key::Out => Value::Number(config.out),
        Key::History => Value::Number(config.history),
        Key::ServerWindow => Value::Number(config.server_window),
        Key::ServerOut => Value::Number(config.server_out),
        Key::ServerHistory => Value::Number(config.server_history),
        Key::OutBytes => Value::Number(config.out_bytes),
        Key::Clients => Value::Number(config.clients),
        Key::Sessions => Value::Number(config.sessions),
        Key::Retries => Value::Number(config.retries),
        Key::TickMs => Value::Number(config.tick_ms),
        Key::AdminIdleMs => Value::Number(config.admin_idle_ms),
        Key::ClientIdleMs => optional_number(config.client_idle_ms),
        Key::FrameMs => Value::Number(config.frame_ms),
        Key::ServerSilentMs => optional_number(config.server_silent_ms),
        Key::Operator => optional_address(config.operator),
        Key::MetricsHttp => optional_address(config.metrics_http),
        Key::ReconnectMs => optional_number(config.reconnect_ms),
        Key::EjectAfter => optional_number(config.eject_after),
        Key::EjectMs => Value::Number(config.eject_ms),
        Key::Threads => Value::Number(config.threads),
        Key::Recorded => Value::Number(config.recorded),
        Key::Audit => Value::Audit(config.audit),
        Key::Server | Key::ServerName | Key::ServerAddress | Key::ServerInit => Value::Unset,
        Key::Route | Key::RouteDst | Key::RouteServers => Value::Unset,
    }
}

fn optional_number(value: Option<u64>) -> Value
    ensures { result ≡ optional_number value }
{
    match value {
        Some(number) => Value::Number(number),
        None => Value::Unset,
    }
}

fn optional_address(value: Option<SocketAddr>) -> Value
    ensures { result ≡ optional_address value }
{
    match value {
        Some(address) => Value::Address(address),
        None => Value::Unset,
    }
}

fn setting_text(alloc: Global, name: &str, value: Value) -> Result<String, AllocError>
    ensures { IfOk result (λ t. string_bytes t ≡ setting name.now value) }
{
    match value {
        Value::Number(number) => format!(in alloc; "{name} = {number}"),
        Value::Address(address) => format!(in alloc; "{name} = \"{address}\""),
        Value::Audit(mode) => {
            let mode = audit_text(mode);
            format!(in alloc; "{name} = \"{mode}\"")
        }
        Value::Unset => format!(in alloc; "# {name} = none"),
    }
}

fn audit_text(mode: AuditMode) -> &'static str
    ensures { result.now ≡ audit_text mode }
{
    match mode {
        AuditMode::Close => "close",
        AuditMode::Rolling => "rolling",
    }
}

fn init_text(mode: InitMode) -> &'static str
    ensures { result.now ≡ init_text mode }
{
    match mode {
        InitMode::Probe => "probe",
        InitMode::Plain => "plain",
    }
}

fn server_text(alloc: Global, server: &Server) -> Result<String, AllocError>
    ensures { IfOk result (λ t. string_bytes t ≡ server_table server.now) }
{
    let address = address_text(alloc, server.address)?;
    let (name, address, init) = (
        server.name.as_str(),
        address.as_str(),
        init_text(server.init),
    );
    format!(in alloc; "[[server]]\nname = \"{name}\"\naddress = \"{address}\"\ninit = \"{init}\"")
}

fn address_text(alloc: Global, address: Option<SocketAddr>) -> Result<String, AllocError>
    ensures { IfOk result (λ t. string_bytes t ≡ address_text address) }
{
    match address {
        Some(address) => format!(in alloc; "{address}"),
        None => String::from_str(alloc, "none"),
    }
}

fn push_route(
    alloc: Global,
    text: &mut Vec<u8>,
    servers: &[Server],
    route: &Route,
) -> Result<(), AllocError>
    ensures { OnOk result (text.new.items
        ≡ text.old.items ++ (route_table servers.now route.now ++ (10 ∷ []))) }
{
    push_str(text, "[[route]]\ndst = \"")?;
    push_toml(text, route.dst.as_str())?;
    push_names(alloc, text, servers, route)?;
    Ok(())
}

// What stands behind the destination.
fn push_names(
    alloc: Global,
    text: &mut Vec<u8>,
    servers: &[Server],
    route: &Route,
) -> Result<(), AllocError>
    ensures { OnOk result (text.new.items ≡ text.old.items ++ (names_line servers.now route.now ++ (10 ∷ []))) }
{
    let names = names_text(alloc, servers, route)?;
    let line = format!(in alloc; "\"\nservers = [\"{names}\"]")?;
    push_line(text, line.as_str())
}

#[tactic(auto, using(crate::proofs::TextLemmas::joined_same))]
fn names_text(alloc: Global, servers: &[Server], route: &Route) -> Result<String, AllocError>
    ensures { IfOk result (λ t. string_bytes t
        ≡ join_by (name_at servers.now) (codes "\", \"") route.now.servers.items) }
{
    let names = names_of(alloc, servers, route)?;
    names.join(alloc, "\", \"")
}

fn names_of(alloc: Global, servers: &[Server], route: &Route) -> Result<Vec<String>, AllocError>
    ensures { IfOk result (λ names. map string_bytes names.items
        ≡ map (name_at servers.now) route.now.servers.items) }
{
    let mut names = Vec::with_capacity(alloc, route.servers.len())?;
    for place in &route.servers {
        let name = String::from_str(alloc, name_at(servers, *place))?;
        names.push(name).map_err(AllocError::from)?;
    }
    Ok(names)
}

fn name_at(servers: &[Server], place: ServerId) -> &str
    ensures { result.now ≡ name_at servers.now place }
{
    match servers.get(place as usize) {
        Some(server) => server.name.as_str(),
        None => "",
    }
}
