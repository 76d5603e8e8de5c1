//! Where dispatches go: the routes from destinations to servers, and the configuration of a router.
#![tactic(auto)]

mod address;
mod arrays;
mod audit;
mod config;
mod fault;
mod key;
mod lookup;
mod reader;
mod route;
mod routes;
mod server;
mod servers;
mod settings;

pub use address::parse_address;
pub use audit::AuditMode;
pub use config::Config;
pub use fault::ConfigFault;
pub use key::Key;
pub use route::Route;
pub use routes::{Routes, Routing};
pub use server::Server;
pub use servers::is_server_list;
