//! What stands outside the arrays of a configuration.
//!
//! These fields are those of `Config` too: this type is read first and has a definition of its own, that one is what
//! callers see.
ghost use Rattle.std.specs.Prelude.{◌≡◌};
ghost use Rattle.toml.specs.View.{table_view};
ghost use Rattle.route_table.specs.Fault.{shown};
ghost use Rattle.route_table.specs.Table.{settings_in};

use crate::audit::{AuditMode, audit_at};
use crate::fault::ConfigFault;
use crate::key::Key;
use crate::lookup::{address_at, number_at, optional_address_at, optional_number_at};
use std::net::SocketAddr;
use toml::Table;

pub(crate) struct Settings {
    pub listen: SocketAddr,
    pub admin: SocketAddr,
    pub boot: u64,
    pub max_frame: u64,
    pub window: u64,
    pub out: u64,
    pub history: u64,
    pub server_window: u64,
    pub server_out: u64,
    pub server_history: u64,
    pub out_bytes: u64,
    pub clients: u64,
    pub sessions: u64,
    pub retries: u64,
    pub tick_ms: u64,
    pub admin_idle_ms: u64,
    pub client_idle_ms: Option<u64>,
    pub frame_ms: u64,
    pub server_silent_ms: Option<u64>,
    pub operator: Option<SocketAddr>,
    pub metrics_http: Option<SocketAddr>,
    pub reconnect_ms: Option<u64>,
    pub eject_after: Option<u64>,
    pub eject_ms: u64,
    pub threads: u64,
    pub recorded: u64,
    pub audit: AuditMode,
}

#[tactic(auto, unfolding(crate::specs::Table::settings_in))]
pub(crate) fn settings_in(doc: &Table) -> Result<Settings, ConfigFault>
    ensures { shown (λ s. s) result ≡ settings_in (table_view doc.now) }
{
    let listen = address_at(doc, Key::Listen)?;
    let admin = address_at(doc, Key::Admin)?;
    let boot = number_at(doc, Key::Boot, 1, 1_000_000_000, 1)?;
    let max_frame = number_at(doc, Key::MaxFrame, 32, 16_777_216, 1_048_576)?;
    let window = number_at(doc, Key::Window, 1, 65_536, 1_024)?;
    let out = number_at(doc, Key::Out, window + 4, 1_048_576, 2_048)?;
    let history = number_at(doc, Key::History, 16, 16_777_216, 65_536)?;
    let server_window = number_at(doc, Key::ServerWindow, 1, 65_536, window)?;
    let least = server_window + 4;
    let server_out = number_at(doc, Key::ServerOut, least, 1_048_576, out.max(least))?;
    let server_history = number_at(doc, Key::ServerHistory, 16, 16_777_216, history)?;
    let out_bytes = number_at(doc, Key::OutBytes, 1_048_576, 4_294_967_296, 67_108_864)?;
    let clients = number_at(doc, Key::Clients, 1, 1_024, 64)?;
    let sessions = number_at(doc, Key::Sessions, 1, 65_536, 1_024)?;
    let retries = number_at(doc, Key::Retries, 0, 3, 0)?;
    let tick_ms = number_at(doc, Key::TickMs, 10, 60_000, 1_000)?;
    let admin_idle_ms = number_at(doc, Key::AdminIdleMs, 100, 3_600_000, 60_000)?;
    let client_idle_ms = optional_number_at(doc, Key::ClientIdleMs, 100, 86_400_000)?;
    let frame_ms = number_at(doc, Key::FrameMs, 100, 3_600_000, 30_000)?;
    let server_silent_ms = optional_number_at(doc, Key::ServerSilentMs, 100, 86_400_000)?;
    let operator = optional_address_at(doc, Key::Operator)?;
    let metrics_http = optional_address_at(doc, Key::MetricsHttp)?;
    let reconnect_ms = optional_number_at(doc, Key::ReconnectMs, 10, 3_600_000)?;
    let eject_after = optional_number_at(doc, Key::EjectAfter, 1, 1_000)?;
    let eject_ms = number_at(doc, Key::EjectMs, 100, 3_600_000, 10_000)?;
    let threads = number_at(doc, Key::Threads, 1, 16, 1)?;
    let recorded = number_at(doc, Key::Recorded, 0, 10_000, 0)?;
    let audit = audit_at(doc)?;
    Ok(Settings {
        listen,
        admin,
        boot,
        max_frame,
        window,
        out,
        history,
        server_window,
        server_out,
        server_history,
        out_bytes,
        clients,
        sessions,
        retries,
        tick_ms,
        admin_idle_ms,
        client_idle_ms,
        frame_ms,
        server_silent_ms,
        operator,
        metrics_http,
        reconnect_ms,
        eject_after,
        eject_ms,
        threads,
        recorded,
        audit,
    })
}
