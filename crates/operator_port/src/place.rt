//! The line that gives a server an address.
ghost use Rattle.std.specs.Prelude.{◌≡◌, ◌++◌, ℕ, List, MatchOption};
ghost use Rattle.std.specs.Option.{option_map};
ghost use Rattle.std.specs.declared.net.socket_addr.SocketAddr.{SocketAddr};
ghost use Rattle.mux_history.specs.declared.session.InitMode.{InitMode};
ghost use Rattle.operator_port.specs.Questions.{Places, Spells, Stands, view};

use crate::question::Question;
use line_session::{is_name, split_word};
use mux_history::InitMode;
use route_table::parse_address;
use std::net::SocketAddr;

/// `server NAME ADDRESS`, with ` plain` behind it or not.
pub(crate) fn parse_server(line: &str) -> Option<Question<'_>>
    ensures { MatchOption result
        ((name : List ℕ) (address : SocketAddr) (init : InitMode) → Places name address init line.now → ⊥)
        (λ question. Spells (view question) line.now) }
{
    let Some(rest) = behind("server ", line) else {
        return None;
    };
    let Some((name, place)) = split_word(rest) else {
        return None;
    };
    if !is_name(name) {
        return None;
    }
    match parse_place(place) {
        Some((address, init)) => Some(Question::Server {
            name,
            address,
            init,
        }),
        None => None,
    }
}

// What stands behind a word, with its space.
fn behind<'a>(word: &str, line: &'a str) -> Option<&'a str>
    ensures { MatchOption result ((rest : List ℕ) → line.now ≡ word.now ++ rest → ⊥)
        (λ rest. line.now ≡ word.now ++ rest.now) }
{
    line.strip_prefix(word)
}

// An address, with ` plain` behind it or not.
fn parse_place(place: &str) -> Option<(SocketAddr, InitMode)>
    ensures { MatchOption result ((address : SocketAddr) (init : InitMode) → Stands address init place.now → ⊥)
        (λ at. Stands at.0 at.1 place.now) }
{
    let Some((text, word)) = split_word(place) else {
        return with_init(parse_address(place), InitMode::Probe);
    };
    match word {
        "plain" => with_init(parse_address(text), InitMode::Plain),
        _ => None,
    }
}

fn with_init(address: Option<SocketAddr>, init: InitMode) -> Option<(SocketAddr, InitMode)>
    ensures { result ≡ option_map (λ a. (a, init)) address }
{
    match address {
        Some(address) => Some((address, init)),
        None => None,
    }
}
