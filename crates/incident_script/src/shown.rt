//! How a script writes sessions, as replay_script prints them.

use mux_history::SessionId;
use std::fmt;

/// A session by its side and its number: `c1` or `s1`.
#[derive(Clone, Copy, Debug)]
pub struct ShownSession(pub SessionId);

impl fmt::Display for ShownSession {
    fn fmt<W: fmt::Write>(&self, f: &mut fmt::Formatter<W>) -> fmt::Result {
        match self.0 {
            SessionId::Client(number) => write!(f, "c{number}"),
            SessionId::Server(number) => write!(f, "s{number}"),
        }
    }
}
