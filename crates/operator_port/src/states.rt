//! How sessions stand, in words.
//!
//! The words stand in `report` of admin_port too: the admin lines are a format that is given, these may change.
ghost use Rattle.std.specs.Prelude.{◌≡◌, ◌==◌, count_by};
ghost use Rattle.operator_port.specs.States.{down_code, down_text, up_code, up_text};

use crate::figures::{ClientRow, ServerRow};
use hub_close::{DownWord, UpWord};

pub(crate) fn down_text(word: DownWord) -> &'static str
    ensures { result.now ≡ down_text word }
{
    match word {
        DownWord::Closed => "closed",
        DownWord::Drained => "drained",
        DownWord::Draining => "draining",
        DownWord::Open => "open",
    }
}

pub(crate) fn up_text(word: UpWord) -> &'static str
    ensures { result.now ≡ up_text word }
{
    match word {
        UpWord::Closed => "closed",
        UpWord::Drained => "drained",
        UpWord::Retired => "retired",
        UpWord::Opening => "opening",
        UpWord::Open => "open",
    }
}

fn down_code(word: DownWord) -> u8
    ensures { result ≡ down_code word }
{
    match word {
        DownWord::Closed => 0,
        DownWord::Drained => 1,
        DownWord::Draining => 2,
        DownWord::Open => 3,
    }
}

fn up_code(word: UpWord) -> u8
    ensures { result ≡ up_code word }
{
    match word {
        UpWord::Closed => 0,
        UpWord::Drained => 1,
        UpWord::Retired => 2,
        UpWord::Opening => 3,
        UpWord::Open => 4,
    }
}

/// How many clients stand so.
pub(crate) fn clients_that_are(word: DownWord, clients: &[ClientRow]) -> usize
    ensures { result ≡ count_by (λ c. down_code c.word == down_code word) clients.now }
{
    clients
        .iter()
        .filter(|client| down_code(client.word) == down_code(word))
        .count()
}

/// How many servers stand so.
pub(crate) fn servers_that_are(word: UpWord, servers: &[ServerRow]) -> usize
    ensures { result ≡ count_by (λ s. up_code s.word == up_code word) servers.now }
{
    servers
        .iter()
        .filter(|server| up_code(server.word) == up_code(word))
        .count()
}
