//! Where a router listens.
ghost use Rattle.futures.specs.Poll.{OnPending};
ghost use Rattle.futures.specs.Task.{IsArmed, Keeps};

use futures::task::{Context, Poll};
use std::io;
use std::net::SocketAddr;
use std::sync::{Mutex, Wait};
use tokio::net::{TcpListener, TcpStream};

/// The ports of a router.
#[derive(Drop)]
pub struct Ports {
    /// Clients come in here: one listener for each thread, all of the same port. None once it is closed.
    pub clients: Vec<Mutex<Option<TcpListener>>>,
    /// An operator comes in here.
    pub admin: Mutex<TcpListener>,
    /// Operators ask here, in lines.
    pub operator: Option<Mutex<TcpListener>>,
    /// Figures are scraped here, by HTTP.
    pub metrics_http: Option<Mutex<TcpListener>>,
}

/// The next connection of a port.
pub fn poll_accept<R: Wait>(
    rt: &R,
    port: &Mutex<TcpListener>,
    cx: &mut Context<'_>,
) -> Poll<io::Result<(TcpStream, SocketAddr)>>
    ensures registered { OnPending result (IsArmed cx.new) }
    ensures kept { Keeps cx.old cx.new }
{
    let mut listener = port.lock(rt);
    (*listener).poll_accept(cx)
}

/// The next client, while its port is open.
pub fn poll_client<R: Wait>(
    rt: &R,
    port: &Mutex<Option<TcpListener>>,
    cx: &mut Context<'_>,
) -> Poll<io::Result<(TcpStream, SocketAddr)>>
    requires { IsArmed cx.old }
    ensures registered { OnPending result (IsArmed cx.new) }
    ensures kept { Keeps cx.old cx.new }
{
    let mut place = port.lock(rt);
    match &mut *place {
        Some(listener) => listener.poll_accept(cx),
        None => Poll::Pending,
    }
}

/// Closes a port of clients: whether it was open.
pub fn close<R: Wait>(rt: &R, port: &Mutex<Option<TcpListener>>) -> bool {
    port.lock(rt).take().is_some()
}
