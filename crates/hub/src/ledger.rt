//! What the seats of one hub have in common.
ghost use Rattle.std.specs.Prelude.{ℕ};

use hub_log::Room;
use published_routes::Naming;
use std::marker::Brand;
use std::sync::ledger::Ledger;

/// The ledger of one hub, the book of its routes and the log of its sessions, with the numbers of its slots. Whoever
/// opens a hub is generic over it, and is called with `Brand`.
pub trait HubLedger: Ledger + Naming + Room {
    /// All its parts: one for each slot, and one for each who gives orders.
    ghost all: { ℕ };

    /// For how many clients it has slots.
    ghost sessions: { ℕ };

    /// For how many servers it has slots.
    ghost servers: { ℕ };
}

impl HubLedger for Brand {
    ghost all = { 0 };

    ghost sessions = { 0 };

    ghost servers = { 0 };
}
