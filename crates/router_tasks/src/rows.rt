//! What an operator is shown of a session, a server's work and a route.
ghost use Rattle.std.specs.Prelude.{◌≡◌, ◌++◌, ◌∷◌, [], map, string_bytes, IfOk, OnOk};
ghost use Rattle.router_tasks.specs.Rows.{client_row, name_at, names_at, IsServerRow, IsServerWork};

use hub::{DownFigures, UpCounts, UpFigures};
use mux_history::ServerId;
use operator_port::{ClientRow, RouteRow, ServerRow, ServerWork};
use route_table::Routing;
use std::alloc::{AllocError, Global};
use std::net::SocketAddr;

/// How the session of the client of this number stands.
pub(crate) fn client_row(number: u64, peer: Option<SocketAddr>, figures: DownFigures) -> ClientRow
    ensures { result ≡ client_row number peer figures }
{
    let DownFigures {
        word,
        entries,
        records,
        epoch,
        queued,
    } = figures;
    ClientRow {
        number,
        peer,
        word,
        entries,
        records,
        epoch,
        queued,
    }
}

/// How the session with the server of this name stands, which is asked last for so long. Out of memory is the one
/// error.
pub(crate) fn server_row(
    alloc: Global,
    name: &str,
    peer: Option<SocketAddr>,
    figures: UpFigures,
    ejected: u64,
) -> Result<ServerRow, AllocError>
    ensures { IfOk result (IsServerRow name.now peer figures ejected) }
{
    let UpFigures {
        word,
        load,
        lapse,
        records,
        epoch,
        queued,
    } = figures;
    Ok(ServerRow {
        name: String::from_str(alloc, name)?,
        peer,
        word,
        load,
        lapse,
        ejected,
        records,
        epoch,
        queued,
    })
}

/// What was done by the server of this name, which answered so many dispatches by an error. Out of memory is the one
/// error.
pub(crate) fn server_work(
    alloc: Global,
    name: &str,
    done: UpCounts,
    errors: u64,
) -> Result<ServerWork, AllocError>
    ensures { IfOk result (IsServerWork name.now done errors) }
{
    let UpCounts { steps, delays } = done;
    Ok(ServerWork {
        name: String::from_str(alloc, name)?,
        steps,
        errors,
        delays,
    })
}

/// A route with the names of its servers. Out of memory is the one error.
pub(crate) fn route_row(
    alloc: Global,
    routing: Routing,
    names: &[String],
) -> Result<RouteRow, AllocError>
    ensures { IfOk result (λ row. (row.dst ≡ routing.dst)
        × (map string_bytes row.names.items ≡ names_at routing.servers.items names.now)) }
{
    let Routing { dst, servers } = routing;
    let names = names_of(alloc, servers.as_slice(), names)?;
    Ok(RouteRow { dst, names })
}

// The names of these servers. One that has none is left out.
fn names_of(
    alloc: Global,
    servers: &[ServerId],
    names: &[String],
) -> Result<Vec<String>, AllocError>
    ensures { IfOk result (λ ns. map string_bytes ns.items ≡ names_at servers.now names.now) }
{
    let mut found = Vec::new(alloc);
    for server in servers {
        add_named(alloc, names, *server, &mut found)?;
    }
    Ok(found)
}

fn add_named(
    alloc: Global,
    names: &[String],
    server: ServerId,
    found: &mut Vec<String>,
) -> Result<(), AllocError>
    ensures { OnOk result (map string_bytes found.new.items
        ≡ map string_bytes found.old.items ++ name_at names.now server) }
{
    match names.get(server as usize) {
        Some(name) => add_name(alloc, found, name.as_str()),
        None => Ok(()),
    }
}

fn add_name(alloc: Global, names: &mut Vec<String>, name: &str) -> Result<(), AllocError>
    ensures { OnOk result (map string_bytes names.new.items ≡ map string_bytes names.old.items ++ name.now ∷ []) }
{
    let name = String::from_str(alloc, name)?;
    names.push(name).map_err(AllocError::from)
}
