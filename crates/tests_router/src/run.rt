//! A whole router in a thread, beside its peers.
//!
//! The bounds of a runtime are written at each function, as in `serving` of router_serve.

use crate::peers::{accept, connect, gets, send};
use router_serve::{ServeEnd, serve};
use std::alloc::{AllocGlobal, Global};
use std::net::{Net, SocketAddr, TcpListener, TcpStream};
use std::random::RandomSource;
use std::sync::Wait;
use std::test::Fail;
use std::thread::Threads;
use std::time::Clock;
use std::{io, thread};

const ANY_PORT: &str = "127.0.0.1:0";

/// What the peers of a run do: whether they got what was to come.
#[derive(Clone, Copy)]
pub enum Part {
    Row4,
    Record,
    Status,
    NeverReads,
    ServerIsBack,
    ServerRejoins,
    ReaderRolls,
    Burst,
    ServerBurst,
    ComeAndGo,
}

/// Where a router listens, at ports that were free, and its server.
#[derive(Drop)]
pub struct Site<R> {
    pub rt: R,
    listen: SocketAddr,
    pub admin: SocketAddr,
    operator: SocketAddr,
    server: TcpListener,
}

impl<R: Net<Listener = TcpListener, Stream = TcpStream> + Clock + AllocGlobal + Drop> Site<R> {
    /// Takes ports that are free: keeps the server's, and lets those of the router go again.
    pub fn find(rt: R) -> io::Result<Self> {
        let server = TcpListener::bind(&rt, ANY_PORT)?;
        // All are held until each has its own.
        let listen = TcpListener::bind(&rt, ANY_PORT)?;
        let admin = TcpListener::bind(&rt, ANY_PORT)?;
        let operator = TcpListener::bind(&rt, ANY_PORT)?;
        Ok(Site {
            rt,
            listen: listen.local_addr()?,
            admin: admin.local_addr()?,
            operator: operator.local_addr()?,
            server,
        })
    }

    /// A plain server, and a route of `/s/a` to it, beside these keys.
    pub fn config(&self, alloc: Global, keys: &str) -> Result<String, Fail> {
        let server = self.server.local_addr()?;
        Ok(format!(in alloc;
            "{keys}
listen = \"{}\"
admin = \"{}\"
operator = \"{}\"

[[server]]
name = \"a\"
address = \"{server}\"
init = \"plain\"

[[route]]
dst = \"/s/a\"
servers = [\"a\"]
",
            self.listen, self.admin, self.operator
        )?)
    }

    pub fn client(&self) -> io::Result<TcpStream> {
        connect(&self.rt, self.listen)
    }

    pub fn server(&self) -> io::Result<TcpStream> {
        accept(&self.server)
    }

    /// A client, and the server's connection.
    pub fn peers(&self) -> io::Result<(TcpStream, TcpStream)> {
        Ok((self.client()?, self.server()?))
    }

    pub fn operator(&self) -> io::Result<TcpStream> {
        connect(&self.rt, self.operator)
    }

    /// Whether an operator's line gets this reply.
    pub fn asks(&self, line: &[u8], reply: &[u8]) -> io::Result<bool> {
        let operator = self.operator()?;
        send(&operator, line)?;
        gets(&operator, reply)
    }

    /// Whether a line of the admin port gets this reply.
    pub fn administers(&self, line: &[u8], reply: &[u8]) -> io::Result<bool> {
        let admin = connect(&self.rt, self.admin)?;
        send(&admin, line)?;
        gets(&admin, reply)
    }

    fn take_part(&self, part: Part) -> io::Result<bool> {
        let played = match part {
            Part::Row4 => self.row_4(),
            Part::Record => self.record(),
            Part::Status => self.status(),
            Part::NeverReads => self.never_reads(),
            Part::ServerIsBack => self.server_is_back(),
            Part::ServerRejoins => self.rejoins(),
            Part::ReaderRolls => self.rolls(),
            Part::Burst => self.burst(),
            Part::ServerBurst => self.pings(),
            Part::ComeAndGo => self.come_and_go(),
        };
        // The router ends whatever came.
        let quits = self.administers(b"quit\n", b"bye\n")?;
        Ok(played? && quits)
    }
}

/// Runs a router with these keys in its configuration beside its peers: whether the peers got what was to come, and
/// the router printed the lines of one that closed well.
pub fn runs<R>(rt: R, keys: &str, part: Part) -> Result<bool, Fail>
where
    R: Threads
        + Wait
        + Sync
        + Send
        + Copy
        + Drop
        + Clock
        + RandomSource
        + AllocGlobal
        + Net<Listener = TcpListener, Stream = TcpStream>
        + 'static,
{
    let site = Site::find(rt)?;
    let site = &site;
    let config = site.config(rt.alloc(), keys)?;
    let (routed, played) = thread::join(
        &rt,
        move || {
            let mut lines = Vec::new(rt.alloc());
            let end = serve(rt, config.as_str(), &mut lines);
            (end, lines)
        },
        move || site.take_part(part),
    );
    let (end, lines) = routed;
    let wanted = format!(in rt.alloc(); "listening {}\nclosed ok\n", site.listen)?;
    Ok(end == ServeEnd::Done && lines.as_slice() == wanted.as_bytes() && played?)
}
