//! Clients, servers and operators of a router.

use std::io::{Read, Write};
use std::net::{Net, SocketAddr, TcpListener, TcpStream};
use std::time::{Clock, Duration};
use std::{io, thread};

/// No peer waits for longer, in seconds.
const PATIENCE: u64 = 20;

/// The Tdispatch to `/s/a` on tag 5, with the body `hi`.
pub const T5: &[u8] = b"\x00\x00\x00\x10\x02\x00\x00\x05\x00\x00\x00\x04/s/a\x00\x00hi";

/// The same on tag 2, as a server gets it.
pub const T2: &[u8] = b"\x00\x00\x00\x10\x02\x00\x00\x02\x00\x00\x00\x04/s/a\x00\x00hi";

/// The Rdispatch on tag 2, with the body `yo`.
pub const R2: &[u8] = b"\x00\x00\x00\x09\xfe\x00\x00\x02\x00\x00\x00yo";

/// The same on tag 5, as the client gets it.
pub const R5: &[u8] = b"\x00\x00\x00\x09\xfe\x00\x00\x05\x00\x00\x00yo";

/// A Tping and its Rping, on tag 1.
pub const PING: &[u8] = b"\x00\x00\x00\x04\x41\x00\x00\x01";

pub const PONG: &[u8] = b"\x00\x00\x00\x04\xbf\x00\x00\x01";

/// Connects to a router that is about to listen.
pub fn connect<R: Net<Listener = TcpListener, Stream = TcpStream> + Clock>(
    rt: &R,
    address: SocketAddr,
) -> io::Result<TcpStream> {
    for _ in 0..400 {
        if let Ok(stream) = TcpStream::connect(rt, address) {
            stream.set_read_timeout(Some(Duration::from_secs(PATIENCE)))?;
            return Ok(stream);
        }
        thread::sleep(rt, Duration::from_millis(20));
    }
    Err(io::Error::from(io::ErrorKind::TimedOut))
}

/// The router's connection to this server.
pub fn accept(listener: &TcpListener) -> io::Result<TcpStream> {
    let (stream, _) = listener.accept()?;
    stream.set_read_timeout(Some(Duration::from_secs(PATIENCE)))?;
    Ok(stream)
}

/// Sends bytes.
pub fn send(mut stream: &TcpStream, bytes: &[u8]) -> io::Result<()> {
    stream.write_all(bytes)
}

/// Whether these bytes come next.
pub fn gets(mut stream: &TcpStream, wanted: &[u8]) -> io::Result<bool> {
    let mut byte = [0u8];
    for want in wanted {
        stream.read_exact(&mut byte)?;
        if byte[0] != *want {
            return Ok(false);
        }
    }
    Ok(true)
}

/// Sends a frame with this tag in place of its own.
pub fn send_tagged(stream: &TcpStream, frame: &[u8], tag: u8) -> io::Result<()> {
    let (Some(head), Some(body)) = (frame.get(..7), frame.get(8..)) else {
        return Ok(());
    };
    send(stream, head)?;
    send(stream, &[tag])?;
    send(stream, body)
}

/// Appends a frame with this tag in place of its own.
pub fn push_tagged(bytes: &mut Vec<u8>, frame: &[u8], tag: u8) -> io::Result<()> {
    let (Some(head), Some(body)) = (frame.get(..7), frame.get(8..)) else {
        return Ok(());
    };
    bytes.extend_from_slice(head)?;
    bytes.push(tag)?;
    bytes.extend_from_slice(body)?;
    Ok(())
}

/// Whether a frame comes next with this tag in place of its own.
pub fn gets_tagged(stream: &TcpStream, frame: &[u8], tag: u8) -> io::Result<bool> {
    let (Some(head), Some(body)) = (frame.get(..7), frame.get(8..)) else {
        return Ok(false);
    };
    Ok(gets(stream, head)? && gets(stream, &[tag])? && gets(stream, body)?)
}

/// Reads up to these bytes, but no more than 65,536.
pub fn reads_to(mut stream: &TcpStream, last: &[u8], text: &mut Vec<u8>) -> io::Result<()> {
    let mut byte = [0u8];
    for _ in 0..65_536 {
        stream.read_exact(&mut byte)?;
        text.push(byte[0])?;
        if text.ends_with(last) {
            return Ok(());
        }
    }
    Err(io::Error::from(io::ErrorKind::InvalidData))
}

/// Whether a text has this line.
pub fn has_line(text: &[u8], wanted: &str) -> bool {
    match str::from_utf8(text) {
        Ok(text) => text.lines().any(|line| line == wanted),
        Err(_) => false,
    }
}
