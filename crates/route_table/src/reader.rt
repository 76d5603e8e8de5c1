//! From texts and documents to configurations.
ghost use Rattle.toml.specs.Parse.{parse_document};
ghost use Rattle.toml.specs.View.{table_view};
ghost use Rattle.route_table.specs.Fault.{shown, IsUnlessMemory};
ghost use Rattle.route_table.specs.Views.{config_view, config_in, config_of};

use crate::config::Config;
use crate::fault::ConfigFault;
use crate::route::routes_in;
use crate::server::servers_in;
use crate::settings::{Settings, settings_in};
use std::alloc::Global;
use toml::Table;

impl Config {
    /// The configuration that a TOML text has, or its first fault.
    ///
    /// The keys outside the arrays are looked at first, then the servers and then the routes, each
    /// in its order; a key's value is judged before the next key is looked at. Keys of other names
    /// are passed over. Out of memory may be reported wherever memory was refused.
    pub fn read(alloc: Global, text: &str) -> Result<Config, ConfigFault>
        ensures { IsUnlessMemory (shown config_view result) (config_of (parse_document text.now)) }
    {
        match toml::table_from_str(alloc, text) {
            Ok(doc) => Config::from_table(alloc, &doc),
            Err(e) if e.is_memory() => Err(ConfigFault::Memory),
            Err(_) => Err(ConfigFault::Toml),
        }
    }

    /// The configuration that a document has, or its first fault, in the order of `read`.
    #[tactic(auto, unfolding(crate::specs::Views::config_in))]
    pub fn from_table(alloc: Global, doc: &Table) -> Result<Config, ConfigFault>
        ensures { IsUnlessMemory (shown config_view result) (config_in (table_view doc.now)) }
    {
        let Settings {
            listen,
            admin,
            boot,
            max_frame,
            window,
            out,
            history,
            server_window,
            server_out,
            server_history,
            out_bytes,
            clients,
            sessions,
            retries,
            tick_ms,
            admin_idle_ms,
            client_idle_ms,
            frame_ms,
            server_silent_ms,
            operator,
            metrics_http,
            reconnect_ms,
            eject_after,
            eject_ms,
            threads,
            recorded,
            audit,
        } = settings_in(doc)?;
        let servers = servers_in(alloc, doc)?;
        let routes = routes_in(alloc, servers.as_slice(), doc)?;
        Ok(Config {
            listen,
            admin,
            boot,
            max_frame,
            window,
            out,
            history,
            server_window,
            server_out,
            server_history,
            out_bytes,
            clients,
            sessions,
            retries,
            tick_ms,
            admin_idle_ms,
            client_idle_ms,
            frame_ms,
            server_silent_ms,
            operator,
            metrics_http,
            reconnect_ms,
            eject_after,
            eject_ms,
            threads,
            recorded,
            audit,
            servers,
            routes,
        })
    }
}
