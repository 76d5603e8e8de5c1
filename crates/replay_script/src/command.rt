//! What a line of a script says.

ghost use Rattle.std.specs.Prelude.{◌≡◌, IsTrue};
ghost use Rattle.route_table.specs.Routes.{is_server_list};

use crate::words::{
    parse_client, parse_hand, parse_hex, parse_number, parse_server, parse_session, split_word,
};
use mux_history::{InitMode, Limits, ServerId, SessionId};
use route_table::is_server_list;
use std::alloc::{AllocError, Global};
use thiserror::Error;

/// One line of a script.
#[derive(Drop)]
pub enum Command {
    /// An empty line, or one that begins with `#`.
    Nothing,
    /// The histories are to be held against each other, at the end of each boot.
    Judge,
    Limits(Limits),
    /// The reading of the clock for the lines that follow.
    Now(u64),
    /// Whether frames are held back.
    Hold(bool),
    OpenClient,
    OpenServer(InitMode),
    /// Bytes that have come.
    In { session: SessionId, bytes: Vec<u8> },
    /// A stream has ended.
    End(SessionId),
    /// A connection is lost.
    Lose(SessionId),
    Step(Step),
    Retire(ServerId),
    Spend { hand: u64, by: Purpose },
    Route(Route),
    /// A ticket goes to one of the servers of its destination.
    Place(u64),
    Restart,
}

/// The servers of a destination: 1 to 64, none twice.
#[derive(Drop)]
pub struct Route {
    pub dst: Vec<u8>,
    pub servers: Vec<ServerId>,
    ghost listed: { IsTrue (is_server_list servers.items) },
}

/// A step of a session that prints no line of the script's own.
#[derive(Clone, Copy, Debug, PartialEq, Eq)]
pub enum Step {
    Drain(u64),
    Clock(ServerId),
    Ping(ServerId),
    /// The next loss, or the next recall, of a session that is closed.
    Next(SessionId),
    Seal(SessionId),
    Roll(SessionId),
}

/// What a value in hand is used for.
#[derive(Clone, Copy, Debug, PartialEq, Eq)]
pub enum Purpose {
    Offer(ServerId),
    Note,
    Settle,
    Nack,
    Unroute,
    Fail,
    Recall,
}

/// Why a line gives no command.
#[derive(Clone, Copy, Debug, Error, PartialEq, Eq)]
pub enum LineFault {
    /// It can't be read.
    #[error("Unreadable")]
    Unreadable,
    /// A growth was refused.
    #[error("Memory")]
    Memory,
}

impl From<AllocError> for LineFault {
    fn from(_: AllocError) -> LineFault
        ensures { result ≡ LineFault.Memory }
    {
        LineFault::Memory
    }
}

/// The command on a line.
pub fn parse_line(alloc: Global, line: &[u8]) -> Result<Command, LineFault> {
    let Ok(line) = str::from_utf8(line) else {
        return Err(LineFault::Unreadable);
    };
    if line.is_empty() || line.starts_with('#') {
        return Ok(Command::Nothing);
    }
    match line.split_once(' ') {
        None => parse_word(line),
        Some((word, rest)) => parse_command(alloc, word, rest),
    }
}

fn parse_word(word: &str) -> Result<Command, LineFault> {
    match word {
        "judge" => Ok(Command::Judge),
        "client" => Ok(Command::OpenClient),
        "restart" => Ok(Command::Restart),
        _ => Err(LineFault::Unreadable),
    }
}

fn parse_command(alloc: Global, word: &str, rest: &str) -> Result<Command, LineFault> {
    match word {
        "limits" => parse_limits(rest),
        "now" => Ok(Command::Now(parse_number(rest)?)),
        "hold" => parse_hold(rest),
        "server" => parse_mode(rest),
        "in" => parse_in(alloc, rest),
        "end" => Ok(Command::End(parse_session(rest)?)),
        "lose" => Ok(Command::Lose(parse_session(rest)?)),
        "retire" => Ok(Command::Retire(parse_server(rest)?)),
        "route" => parse_route(alloc, rest),
        "place" => Ok(Command::Place(parse_hand(rest)?)),
        "offer" => parse_offer(rest),
        "drain" | "clock" | "ping" | "next" | "seal" | "roll" => {
            Ok(Command::Step(parse_step(word, rest)?))
        }
        _ => Ok(Command::Spend {
            by: parse_purpose(word)?,
            hand: parse_hand(rest)?,
        }),
    }
}

// `MAXFRAME WINDOW OUT HISTORY`, and `RETRIES` if there is a fifth.
fn parse_limits(rest: &str) -> Result<Command, LineFault> {
    let (max_frame, rest) = split_word(rest)?;
    let (window, rest) = split_word(rest)?;
    let (out, rest) = split_word(rest)?;
    let (history, retries) = rest.split_once(' ').unwrap_or((rest, "0"));
    let limits = Limits::new(
        parse_size(max_frame)?,
        parse_size(window)?,
        parse_size(out)?,
        parse_size(history)?,
        parse_size(retries)?,
    );
    limits.map(Command::Limits).ok_or(LineFault::Unreadable)
}

fn parse_size(word: &str) -> Result<usize, LineFault> {
    usize::try_from(parse_number(word)?).map_err(|_| LineFault::Unreadable)
}

fn parse_hold(rest: &str) -> Result<Command, LineFault> {
    match rest {
        "on" => Ok(Command::Hold(true)),
        "off" => Ok(Command::Hold(false)),
        _ => Err(LineFault::Unreadable),
    }
}

fn parse_mode(rest: &str) -> Result<Command, LineFault> {
    match rest {
        "plain" => Ok(Command::OpenServer(InitMode::Plain)),
        "probe" => Ok(Command::OpenServer(InitMode::Probe)),
        _ => Err(LineFault::Unreadable),
    }
}

// `cN HEX` or `sN HEX`
fn parse_in(alloc: Global, rest: &str) -> Result<Command, LineFault> {
    let (id, digits) = split_word(rest)?;
    let session = parse_session(id)?;
    let bytes = parse_hex(alloc, digits)?;
    Ok(Command::In { session, bytes })
}

// `DST sN ..`: 1 to 64 servers, none twice.
fn parse_route(alloc: Global, rest: &str) -> Result<Command, LineFault> {
    let (dst, ids) = split_word(rest)?;
    let mut servers = Vec::new(alloc);
    for id in ids.split(' ') {
        servers.push(parse_server(id)?).map_err(AllocError::from)?;
    }
    if dst.is_empty() || !is_server_list(&servers) {
        return Err(LineFault::Unreadable);
    }
    let dst = Vec::from_slice(alloc, dst.as_bytes())?;
    Ok(Command::Route(Route { dst, servers }))
}

// `hN sN`
fn parse_offer(rest: &str) -> Result<Command, LineFault> {
    let (hand, server) = split_word(rest)?;
    Ok(Command::Spend {
        hand: parse_hand(hand)?,
        by: Purpose::Offer(parse_server(server)?),
    })
}

fn parse_step(word: &str, id: &str) -> Result<Step, LineFault> {
    match word {
        "drain" => Ok(Step::Drain(parse_client(id)?)),
        "clock" => Ok(Step::Clock(parse_server(id)?)),
        "ping" => Ok(Step::Ping(parse_server(id)?)),
        "next" => Ok(Step::Next(parse_session(id)?)),
        "seal" => Ok(Step::Seal(parse_session(id)?)),
        _ => Ok(Step::Roll(parse_session(id)?)),
    }
}

fn parse_purpose(word: &str) -> Result<Purpose, LineFault> {
    match word {
        "note" => Ok(Purpose::Note),
        "settle" => Ok(Purpose::Settle),
        "nack" => Ok(Purpose::Nack),
        "unroute" => Ok(Purpose::Unroute),
        "fail" => Ok(Purpose::Fail),
        "recall" => Ok(Purpose::Recall),
        _ => Err(LineFault::Unreadable),
    }
}
