//! Runs with more connections than `sessions`, of clients that come and leave, where the audit is rolling.

use crate::peers::{R2, R5, T2, T5, gets, send};
use crate::run::{Part, Site, runs};
use std::alloc::AllocGlobal;
use std::io;
use std::net::{Net, TcpListener, TcpStream};
use std::test::Fail;
use std::time::Clock;

/// Histories end after a few dispatches, and are looked at and thrown away.
const FEW_SESSIONS: &str = "sessions = 4\ntick_ms = 50\nhistory = 64\naudit = \"rolling\"";

/// How many clients come and leave.
const VISITS: u16 = 60;

/// Sends a frame with this number in place of its last two bytes.
fn send_numbered(stream: &TcpStream, frame: &[u8], number: u16) -> io::Result<()> {
    send(stream, head(frame))?;
    send(stream, &number.to_be_bytes())
}

/// Whether a frame comes next with this number in place of its last two bytes.
fn gets_numbered(stream: &TcpStream, frame: &[u8], number: u16) -> io::Result<bool> {
    Ok(gets(stream, head(frame))? && gets(stream, &number.to_be_bytes())?)
}

fn head(frame: &[u8]) -> &[u8] {
    frame.get(..frame.len().saturating_sub(2)).unwrap_or(frame)
}

/// Whether a dispatch goes to the server, and its reply comes back.
fn is_served(client: &TcpStream, server: &TcpStream, number: u16) -> io::Result<bool> {
    send_numbered(client, T5, number)?;
    if !gets_numbered(server, T2, number)? {
        return Ok(false);
    }
    send_numbered(server, R2, number)?;
    gets_numbered(client, R5, number)
}

impl<R: Net<Listener = TcpListener, Stream = TcpStream> + Clock + AllocGlobal + Drop> Site<R> {
    /// Clients come one after another, and leave once their dispatch is answered; one that stays sends another in
    /// between.
    pub fn come_and_go(&self) -> io::Result<bool> {
        let (stays, server) = self.peers()?;
        for number in 0..VISITS {
            let comes = self.client()?;
            if !is_served(&comes, &server, number)? || !is_served(&stays, &server, number)? {
                return Ok(false);
            }
        }
        Ok(true)
    }
}

/// With a rolling audit `sessions` bounds the clients at once, and not those of the run.
#[test]
fn loopback_slots_are_used_again(rt: HostRuntime) -> Result<(), Fail> {
    for threads in 1..3 {
        let keys = format!(in rt.alloc(); "threads = {threads}\n{FEW_SESSIONS}")?;
        assert!(rt; runs(rt, keys.as_str(), Part::ComeAndGo)?);
    }
    Ok(())
}
