//! Where a router listens.

use crate::end::Failure;
use route_table::Config;
use router_state::Ports;
use std::alloc::Global;
use std::io;
use std::net::{Net, SocketAddr, TcpListener as StdListener, TcpStream as StdStream};
use std::sync::Mutex;
use tokio::net::TcpListener;
use tokio::reactor::Handle;
use tokio::runtime::LocalRuntime;

/// The sockets of a router's ports.
#[derive(Drop)]
pub struct Sockets {
    clients: StdListener,
    admin: StdListener,
    operator: Option<StdListener>,
    metrics_http: Option<StdListener>,
}

impl Sockets {
    /// Binds the clients' address, and then those of operators. The first address that can't be bound is the error.
    pub fn bind<R>(rt: &R, config: &Config) -> Result<Sockets, Failure>
    where
        R: Net<Listener = StdListener, Stream = StdStream>,
    {
        Ok(Sockets {
            clients: bind(rt, config.listen)?,
            admin: bind(rt, config.admin)?,
            operator: bind_if(rt, config.operator)?,
            metrics_http: bind_if(rt, config.metrics_http)?,
        })
    }

    /// Where these threads listen: each for clients, and the last for operators. No other listener is left.
    pub fn ports(self, alloc: Global, threads: &[LocalRuntime]) -> Result<Ports, Failure> {
        let mut clients = Vec::with_capacity(alloc, threads.len())?;
        for thread in threads {
            clients.push(listen_client(&self.clients, thread.handle().reactor())?)?;
        }
        let Some(last) = threads.last() else {
            return Err(Failure::Memory);
        };
        let reactor = last.handle().reactor();
        Ok(Ports {
            clients,
            admin: listen(&self.admin, reactor)?,
            operator: listen_if(&self.operator, reactor)?,
            metrics_http: listen_if(&self.metrics_http, reactor)?,
        })
    }
}

fn bind<R: Net<Listener = StdListener, Stream = StdStream>>(
    rt: &R,
    address: SocketAddr,
) -> Result<StdListener, Failure> {
    StdListener::bind(rt, address).map_err(|_| Failure::Listen(address))
}

fn bind_if<R: Net<Listener = StdListener, Stream = StdStream>>(
    rt: &R,
    address: Option<SocketAddr>,
) -> Result<Option<StdListener>, Failure> {
    match address {
        Some(address) => Ok(Some(bind(rt, address)?)),
        None => Ok(None),
    }
}

// A listener at a socket that others listen at too.
fn listen(socket: &StdListener, reactor: &Handle) -> io::Result<Mutex<TcpListener>> {
    let own = socket.try_clone()?;
    Ok(Mutex::new(TcpListener::from_std(own, reactor)?))
}

fn listen_client(socket: &StdListener, reactor: &Handle) -> io::Result<Mutex<Option<TcpListener>>> {
    let own = socket.try_clone()?;
    Ok(Mutex::new(Some(TcpListener::from_std(own, reactor)?)))
}

fn listen_if(
    socket: &Option<StdListener>,
    reactor: &Handle,
) -> io::Result<Option<Mutex<TcpListener>>> {
    match socket {
        Some(socket) => Ok(Some(listen(socket, reactor)?)),
        None => Ok(None),
    }
}
