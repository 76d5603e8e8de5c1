//! Lists of servers.
ghost use Rattle.std.specs.Prelude.{◌≡◌};
ghost use Rattle.route_table.specs.Routes.{is_server_list};

use mux_history::ServerId;

/// Whether these can be the servers of a route: 1 to 64, none twice.
pub fn is_server_list(servers: &[ServerId]) -> bool
    ensures { result ≡ is_server_list servers.now }
{
    if servers.is_empty() || servers.len() > 64 {
        return false;
    }
    for (place, server) in servers.iter().enumerate() {
        if servers[place + 1..].contains(server) {
            return false;
        }
    }
    true
}
