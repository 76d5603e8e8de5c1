//! The question that a line asks.
ghost use Rattle.std.specs.Prelude.{ℕ, List, MatchOption};
ghost use Rattle.operator_port.specs.Questions.{AsksByWords, Names, Query, Spells, SpellsOne, StopsIn, view};

use crate::place::parse_server;
use line_session::{is_name, parse_number};
use mux_history::InitMode;
use std::net::SocketAddr;

/// So many seconds `stop` has.
const STOP_SECONDS: u64 = 30;

/// So many it may have.
const MOST_SECONDS: u64 = 3_600;

/// What an operator asks.
#[derive(Clone, Copy, Debug, PartialEq, Eq)]
pub enum Question<'a> {
    /// Which lines there are.
    Help,
    /// Whether some server is open, and a further client can have a session.
    Health,
    /// Where dispatches go.
    Routes,
    /// Where each server is.
    Servers,
    /// To give the server of this name this address, and to connect to it at once.
    Server {
        name: &'a str,
        address: SocketAddr,
        init: InitMode,
    },
    /// To take the address of the server of this name away.
    Forget(&'a str),
    /// To ask every open client to send no more dispatches.
    DrainAll,
    /// To connect to the lost server of this name again at once.
    Rejoin(&'a str),
    /// To lose the session of the server of this name at once.
    Cut(&'a str),
    /// To end the router once its clients have their answers, or after so many seconds.
    Stop(u64),
    /// Which connections ended of late, and why.
    Events,
    /// How every session stands.
    Full,
    /// What the router was configured with.
    Config,
    /// The figures in Prometheus' text format.
    Metrics,
    /// A script of what came over the connections.
    Record,
}

/// The question that a line asks, without its line feed; it asks one at most. None if it asks none.
pub fn parse_question(line: &str) -> Option<Question<'_>>
    ensures question { MatchOption result ((query : Query) → Spells query line.now → ⊥)
        (λ question. Spells (view question) line.now) }
    ensures one { SpellsOne line.now }
{
    match line {
        "help" => Some(Question::Help),
        "health" => Some(Question::Health),
        "routes" => Some(Question::Routes),
        "servers" => Some(Question::Servers),
        "drain all" => Some(Question::DrainAll),
        "stop" => Some(Question::Stop(STOP_SECONDS)),
        "events" => Some(Question::Events),
        "status full" => Some(Question::Full),
        "config" => Some(Question::Config),
        "metrics" => Some(Question::Metrics),
        "record" => Some(Question::Record),
        _ => parse_words(line),
    }
}

// `rejoin NAME`, `cut NAME`, `forget NAME`, `server NAME ADDRESS` or `stop N`.
fn parse_words(line: &str) -> Option<Question<'_>>
    ensures { MatchOption result (AsksByWords line.now → ⊥) (λ question. Spells (view question) line.now) }
{
    if let Some(name) = parse_name(line, "rejoin ") {
        return Some(Question::Rejoin(name));
    }
    if let Some(name) = parse_name(line, "cut ") {
        return Some(Question::Cut(name));
    }
    if let Some(name) = parse_name(line, "forget ") {
        return Some(Question::Forget(name));
    }
    if let Some(question) = parse_server(line) {
        return Some(question);
    }
    match parse_stop(line) {
        Some(seconds) => Some(Question::Stop(seconds)),
        None => None,
    }
}

// The name behind a word and its space.
fn parse_name<'a>(line: &'a str, word: &str) -> Option<&'a str>
    ensures { MatchOption result ((name : List ℕ) → Names word.now name line.now → ⊥)
        (λ name. Names word.now name.now line.now) }
{
    let Some(name) = line.strip_prefix(word) else {
        return None;
    };
    if is_name(name) { Some(name) } else { None }
}

// The seconds in `stop N`.
fn parse_stop(line: &str) -> Option<u64>
    ensures { MatchOption result ((n : ℕ) → StopsIn n line.now → ⊥) (λ n. StopsIn n line.now) }
{
    let Some(digits) = line.strip_prefix("stop ") else {
        return None;
    };
    let Some(seconds) = parse_number(digits) else {
        return None;
    };
    if seconds <= MOST_SECONDS {
        Some(seconds)
    } else {
        None
    }
}
