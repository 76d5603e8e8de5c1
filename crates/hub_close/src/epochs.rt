//! The histories of one session.
ghost use Rattle.std.specs.Prelude.{◌≡◌};
ghost use Rattle.hub_close.specs.Receipts.{down_epochs, up_epochs};

use mux_agree::{DownHistory, UpHistory};
use mux_history::{History, ServerId};

/// The epochs of a client, whose numbers count from 1: none, if its slot holds no history of it. Each
/// history lies at the place of its slot, which clients use one after the other.
pub fn down_epochs(downs: &[DownHistory], client: u64) -> &[History]
    ensures { result.now ≡ down_epochs downs.now client }
{
    if client == 0 || downs.is_empty() {
        return &[];
    }
    let slot = (client - 1) % downs.len() as u64;
    let down = &downs[slot as usize];
    if down.client != client {
        return &[];
    }
    down.epochs.as_slice()
}

/// The epochs of a server, whose numbers count from 0: none, if its slot holds no history of it. Servers
/// use the slots one after the other, too.
pub fn up_epochs(ups: &[UpHistory], server: ServerId) -> &[History]
    ensures { result.now ≡ up_epochs ups.now server }
{
    if ups.is_empty() {
        return &[];
    }
    let slot = server % ups.len() as u64;
    let up = &ups[slot as usize];
    if up.server != server {
        return &[];
    }
    up.epochs.as_slice()
}
