//! Runs of a router whose audit is the default, but where a test names another.

use crate::peers::{
    PING, PONG, R2, R5, T2, T5, gets, gets_tagged, has_line, push_tagged, reads_to, send,
    send_tagged,
};
use crate::run::{Part, Site, runs};
use replay_script::{ReplayEnd, replay};
use router_serve::{ServeEnd, serve};
use std::alloc::AllocGlobal;
use std::net::{Net, TcpListener, TcpStream};
use std::ops::Range;
use std::test::Fail;
use std::time::{Clock, Duration};
use std::{io, thread};

/// No tick comes while a test runs.
const NO_TICK: &str = "tick_ms = 60000\n";

const RECORDED: &str = "tick_ms = 60000\nrecord = 10\n";

const SOON: &str = "tick_ms = 50\n";

/// Its server is connected to again.
const RECONNECTS: &str = "tick_ms = 50\nreconnect_ms = 50\n";

const ROLLING_RECONNECTS: &str = "tick_ms = 50\nreconnect_ms = 50\naudit = \"rolling\"\n";

/// The least history with which no session is lost for want of places: 4 x 8 x (2 + 3), and 4 x 8 x 2.
const LEAST_OF_CLIENTS: &str = "tick_ms = 60000\nwindow = 8\nretries = 3\nhistory = 160\n";

const LEAST_OF_SERVERS: &str = "tick_ms = 60000\nwindow = 8\nhistory = 64\n";

/// A Tdispatch to `/s/b` on tag 5, and that there is no route to it.
const ASTRAY: &[u8] = b"\x00\x00\x00\x10\x02\x00\x00\x05\x00\x00\x00\x04/s/b\x00\x00hi";

const NO_ROUTE: &[u8] = b"\x00\x00\x00\x0c\x80\x00\x00\x05no route";

/// How many dispatches, or bursts, follow one another: more than a history has places for.
const ROUNDS: usize = 60;

/// The tags of a burst, which is sent by one write.
const BURST: Range<u8> = 10..16;

const PINGS: usize = 200;

/// How many dispatches a client sends that never reads.
const UNREAD: u8 = 24;

/// A reply of 655,360 bytes begins so, on tag 2. The rest of it comes in blocks.
const LONG_R2: &[u8] = b"\x00\x0a\x00\x07\xfe\x00\x00\x02\x00\x00\x00";

const BLOCK: usize = 4_096;

const BLOCKS: usize = 160;

fn is_served(client: &TcpStream, server: &TcpStream) -> io::Result<bool> {
    send(client, T5)?;
    if !gets(server, T2)? {
        return Ok(false);
    }
    send(server, R2)?;
    gets(client, R5)
}

impl<R: Net<Listener = TcpListener, Stream = TcpStream> + Clock + AllocGlobal + Drop> Site<R> {
    pub fn row_4(&self) -> io::Result<bool> {
        let (client, server) = self.peers()?;
        is_served(&client, &server)
    }

    /// What was recorded is played again, and sends the client the same reply.
    pub fn record(&self) -> io::Result<bool> {
        if !self.row_4()? {
            return Ok(false);
        }
        let operator = self.operator()?;
        send(&operator, b"record\n")?;
        let alloc = self.rt.alloc();
        let mut script = Vec::new(alloc);
        reads_to(&operator, b"# end\n", &mut script)?;
        let mut printed = Vec::new(alloc);
        let end = replay(alloc, script.as_slice(), &mut printed);
        let is_same = has_line(printed.as_slice(), "c1 > 00000009fe000005000000796f")
            && has_line(printed.as_slice(), "agree");
        Ok(end == ReplayEnd::Done && is_same)
    }

    pub fn status(&self) -> io::Result<bool> {
        let client = self.client()?;
        send(&client, PING)?;
        let rows = b"boot 1
client 1 open entries 0 records 1
server a open load 0 records 0
end
";
        Ok(gets(&client, PONG)? && self.administers(b"status\n", rows)?)
    }

    /// The server's replies are more than what the system keeps for a client that never reads them.
    pub fn never_reads(&self) -> io::Result<bool> {
        let (client, server) = self.peers()?;
        for tag in 2..UNREAD + 2 {
            send_tagged(&client, T2, tag)?;
            if !gets_tagged(&server, T2, tag)? {
                return Ok(false);
            }
        }
        for tag in 2..UNREAD + 2 {
            send_tagged(&server, LONG_R2, tag)?;
            for _ in 0..BLOCKS {
                send(&server, &[0u8; BLOCK])?;
            }
        }
        Ok(true)
    }

    /// The server closes its connection, and listens on. The router connects again, and the client goes on.
    pub fn server_is_back(&self) -> io::Result<bool> {
        let (client, server) = self.peers()?;
        if !is_served(&client, &server)? {
            return Ok(false);
        }
        drop(server);
        self.is_served_again(&client)
    }

    /// The client is served over the next connection to the server, once the session of that is open.
    fn is_served_again(&self, client: &TcpStream) -> io::Result<bool> {
        let server = self.server()?;
        send(&server, PING)?;
        Ok(gets(&server, PONG)? && is_served(client, &server)?)
    }

    /// An operator has a lost server connected to again. One that is there is left alone.
    pub fn rejoins(&self) -> io::Result<bool> {
        let (client, server) = self.peers()?;
        if !is_served(&client, &server)?
            || !self.asks(b"rejoin a\n", b"error Open\n")?
            || !self.asks(b"rejoin b\n", b"error UnknownServer\n")?
        {
            return Ok(false);
        }
        drop(server);
        for _ in 0..100 {
            // It is told that the server is lost a little later.
            if self.asks(b"rejoin a\n", b"ok\n")? {
                return self.is_served_again(&client);
            }
            thread::sleep(&self.rt, Duration::from_millis(20));
        }
        Ok(false)
    }

    /// More dispatches than a history has places for, and no tick.
    pub fn rolls(&self) -> io::Result<bool> {
        let (client, server) = self.peers()?;
        for _ in 0..ROUNDS {
            if !is_served(&client, &server)? {
                return Ok(false);
            }
        }
        Ok(true)
    }

    /// Dispatches without a route, one, and then some at once: each is answered, wherever the history ends.
    pub fn burst(&self) -> io::Result<bool> {
        let client = self.client()?;
        let mut bytes = Vec::new(self.rt.alloc());
        for tag in BURST {
            push_tagged(&mut bytes, ASTRAY, tag)?;
        }
        for _ in 0..ROUNDS {
            send(&client, ASTRAY)?;
            if !gets(&client, NO_ROUTE)? {
                return Ok(false);
            }
            send(&client, bytes.as_slice())?;
            for tag in BURST {
                if !gets_tagged(&client, NO_ROUTE, tag)? {
                    return Ok(false);
                }
            }
        }
        Ok(true)
    }

    /// A server pings more often at once than a history has places for.
    pub fn pings(&self) -> io::Result<bool> {
        let (client, server) = self.peers()?;
        let mut bytes = Vec::new(self.rt.alloc());
        for _ in 0..PINGS {
            bytes.extend_from_slice(PING)?;
        }
        send(&server, bytes.as_slice())?;
        for _ in 0..PINGS {
            if !gets(&server, PONG)? {
                return Ok(false);
            }
        }
        is_served(&client, &server)
    }
}

#[test]
fn loopback_row_4(rt: HostRuntime) -> Result<(), Fail> {
    assert!(rt; runs(rt, NO_TICK, Part::Row4)?);
    Ok(())
}

#[test]
fn loopback_record(rt: HostRuntime) -> Result<(), Fail> {
    assert!(rt; runs(rt, RECORDED, Part::Record)?);
    Ok(())
}

#[test]
fn loopback_status(rt: HostRuntime) -> Result<(), Fail> {
    assert!(rt; runs(rt, NO_TICK, Part::Status)?);
    Ok(())
}

#[test]
fn loopback_quit(rt: HostRuntime) -> Result<(), Fail> {
    assert!(rt; runs(rt, SOON, Part::NeverReads)?);
    Ok(())
}

/// A server that was lost is connected to again, in its own slot.
#[test]
fn server_reconnects(rt: HostRuntime) -> Result<(), Fail> {
    assert!(rt; runs(rt, RECONNECTS, Part::ServerIsBack)?);
    assert!(rt; runs(rt, ROLLING_RECONNECTS, Part::ServerIsBack)?);
    Ok(())
}

/// The same, since an operator says so.
#[test]
fn server_rejoins(rt: HostRuntime) -> Result<(), Fail> {
    assert!(rt; runs(rt, SOON, Part::ServerRejoins)?);
    Ok(())
}

#[test]
fn reader_rolls(rt: HostRuntime) -> Result<(), Fail> {
    assert!(rt; runs(rt, LEAST_OF_SERVERS, Part::ReaderRolls)?);
    Ok(())
}

#[test]
fn burst_at_the_bound(rt: HostRuntime) -> Result<(), Fail> {
    assert!(rt; runs(rt, LEAST_OF_CLIENTS, Part::Burst)?);
    Ok(())
}

#[test]
fn server_burst_at_the_bound(rt: HostRuntime) -> Result<(), Fail> {
    assert!(rt; runs(rt, LEAST_OF_SERVERS, Part::ServerBurst)?);
    Ok(())
}

/// The operator's address is taken.
#[test]
fn listens_nowhere(rt: HostRuntime) -> Result<(), Fail> {
    let site = Site::find(rt)?;
    let taken = TcpListener::bind(&rt, site.admin)?;
    let config = site.config(rt.alloc(), NO_TICK)?;
    let mut lines = Vec::new(rt.alloc());
    assert_eq!(rt;
        serve(rt, config.as_str(), &mut lines),
        ServeEnd::ListenFault
    );
    let wanted = format!(in rt.alloc(); "listen: {}\n", site.admin)?;
    assert_eq!(rt; lines.as_slice(), wanted.as_bytes());
    drop(taken);
    Ok(())
}
