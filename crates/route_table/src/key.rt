//! The keys of a configuration.
ghost use Rattle.std.specs.Prelude.{◌≡◌};
ghost use Rattle.route_table.specs.Table.{name_of};

use std::fmt;

/// A key of a configuration. It prints as an operator writes it; a key inside an array has the
/// array's name in front, as `server.name`.
#[derive(Clone, Copy)]
pub enum Key {
    Listen,
    Admin,
    Boot,
    MaxFrame,
    Window,
    Out,
    History,
    ServerWindow,
    ServerOut,
    ServerHistory,
    OutBytes,
    Clients,
    Sessions,
    Retries,
    TickMs,
    AdminIdleMs,
    ClientIdleMs,
    FrameMs,
    ServerSilentMs,
    Operator,
    MetricsHttp,
    ReconnectMs,
    EjectAfter,
    EjectMs,
    Threads,
    Recorded,
    Audit,
    Server,
    ServerName,
    ServerAddress,
    ServerInit,
    Route,
    RouteDst,
    RouteServers,
}

impl Key {
    /// The key within its table.
    pub fn name(self) -> &'static str
        ensures { result.now ≡ name_of self }
    {
        match self {
            Key::Listen => "listen",
            Key::Admin => "admin",
            Key::Boot => "boot",
            Key::MaxFrame => "max_frame",
            Key::Window => "window",
            Key::Out => "out",
            Key::History => "history",
            Key::ServerWindow => "server_window",
            Key::ServerOut => "server_out",
            Key::ServerHistory => "server_history",
            Key::OutBytes => "out_bytes",
            Key::Clients => "clients",
            Key::Sessions => "sessions",
            Key::Retries => "retries",
            Key::TickMs => "tick_ms",
            Key::AdminIdleMs => "admin_idle_ms",
            Key::ClientIdleMs => "client_idle_ms",
            Key::FrameMs => "frame_ms",
            Key::ServerSilentMs => "server_silent_ms",
            Key::Operator => "operator",
            Key::MetricsHttp => "metrics_http",
            Key::ReconnectMs => "reconnect_ms",
            Key::EjectAfter => "eject_after",
            Key::EjectMs => "eject_ms",
            Key::Threads => "threads",
            Key::Recorded => "record",
            Key::Audit => "audit",
            Key::Server => "server",
            Key::ServerName => "name",
            Key::ServerAddress => "address",
            Key::ServerInit => "init",
            Key::Route => "route",
            Key::RouteDst => "dst",
            Key::RouteServers => "servers",
        }
    }

    /// The key as an operator writes it.
    pub(crate) fn text(self) -> &'static str {
        match self {
            Key::ServerName => "server.name",
            Key::ServerAddress => "server.address",
            Key::ServerInit => "server.init",
            Key::RouteDst => "route.dst",
            Key::RouteServers => "route.servers",
            _ => self.name(),
        }
    }
}

impl fmt::Display for Key {
    fn fmt<W: fmt::Write>(&self, f: &mut fmt::Formatter<W>) -> fmt::Result {
        f.write_str(self.text())
    }
}
