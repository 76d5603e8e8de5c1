//! What is known of a boot: what its sessions wrote down, and the frames that they took.

use mux_history::{InitMode, Limits, Record};

/// What one session wrote down, and what it was given.
#[derive(Clone, Copy, Drop)]
pub struct Conversation<'a> {
    /// The records of all epochs of the session, the oldest first, from its first record on.
    pub records: &'a [Record],
    /// The frames that the session took, from the first on, one behind the other as they came:
    /// `size:4 type:1 tag:3 body`. A frame that was refused, and handed in again, stands here once;
    /// one that was refused for good doesn't stand in front of others. They may break off anywhere.
    pub frames: &'a [u8],
    /// The turn of each of these frames: no less than that of any frame, of any session, whose step was made before this
    /// one came. Turns may be those of more frames than there are.
    pub turns: &'a [u64],
}

/// What is known of a session towards a server.
#[derive(Clone, Copy, Drop)]
pub struct Server<'a> {
    /// How it began. A server that was never connected to has no records, and is best called Plain: in
    /// mode Probe a replay sends it the probe.
    pub mode: InitMode,
    pub conversation: Conversation<'a>,
}

/// What is known of a boot. Histories may have been copied one after another while the router ran.
#[derive(Clone, Copy, Drop)]
pub struct Incident<'a> {
    /// Those of the sessions of clients.
    pub limits: Limits,
    /// Those of the sessions towards servers, with the same `max_frame` and `retries`.
    pub server_limits: Limits,
    /// The sessions of clients, the first of which has the number 1.
    pub clients: &'a [Conversation<'a>],
    /// Those of servers, the first of which has the number 1.
    pub servers: &'a [Server<'a>],
}
