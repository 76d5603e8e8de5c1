//! How a router stands.

use crate::ends::End;
use hub_close::{DownWord, UpWord};
use mux_history::{Delays, InitMode, KindCounts};
use std::net::SocketAddr;

/// How a router stands.
#[derive(Drop)]
pub struct Figures {
    /// The number of its boot.
    pub boot: u64,
    /// Milliseconds since it began.
    pub elapsed: u64,
    /// How many records an epoch of a client's session has places for.
    pub history: u64,
    /// And one of a server's session.
    pub server_history: u64,
    /// Each client that ever came, by rising number.
    pub clients: Vec<ClientRow>,
    /// Each server that has an address and was connected to, in the order of the configuration.
    pub servers: Vec<ServerRow>,
    /// Each server that has an address, in the order of the configuration.
    pub work: Vec<ServerWork>,
    /// Each destination whose dispatches are counted, and then all others together.
    pub destinations: Vec<DestinationRow>,
    pub traffic: Traffic,
    pub ended: Ended,
    pub latency: Latency,
}

/// How a client's session stands.
#[derive(Clone, Copy, Drop)]
pub struct ClientRow {
    pub number: u64,
    /// The address at the other end of its connection, if it is open and known.
    pub peer: Option<SocketAddr>,
    pub word: DownWord,
    /// The dispatches that it holds.
    pub entries: usize,
    /// The records of its present epoch.
    pub records: usize,
    /// How many epochs were ended.
    pub epoch: u32,
    /// The frames that wait to be sent.
    pub queued: usize,
}

/// How a server's session stands.
#[derive(Drop)]
pub struct ServerRow {
    pub name: String,
    /// The address at the other end of its connection, if it is open and known.
    pub peer: Option<SocketAddr>,
    pub word: UpWord,
    /// The dispatches that it holds.
    pub load: usize,
    /// When its last lease lapses, in milliseconds since the router began. None if none was granted.
    pub lapse: Option<u64>,
    /// For how many milliseconds more it is asked last.
    pub ejected: u64,
    /// The records of its present epoch.
    pub records: usize,
    /// How many epochs were ended.
    pub epoch: u32,
    /// The frames that wait to be sent.
    pub queued: usize,
}

/// What a server's sessions, those that are over too, have done since the router began.
#[derive(Drop)]
pub struct ServerWork {
    pub name: String,
    /// How many steps were of each kind that is counted.
    pub steps: KindCounts,
    /// How many dispatches it answered by an error.
    pub errors: u64,
    /// How long its dispatches took, from the reading at which each was sent to that of its reply.
    pub delays: Delays,
}

/// How many dispatches to a destination were counted.
#[derive(Drop)]
pub struct DestinationRow {
    /// None for all destinations that have no row of their own.
    pub dst: Option<Vec<u8>>,
    /// Those that clients sent while it had a route.
    pub dispatches: u64,
    /// Those among them that no server could take.
    pub nacks: u64,
}

/// Where the dispatches to a destination go.
#[derive(Drop)]
pub struct RouteRow {
    pub dst: Vec<u8>,
    /// The servers' names, in the order of the route.
    pub names: Vec<String>,
}

/// Where a server is.
#[derive(Drop)]
pub struct AddressRow {
    pub name: String,
    pub address: SocketAddr,
    /// How its session begins.
    pub init: InitMode,
}

/// What went over the connections of one side.
#[derive(Clone, Copy, Default, Drop)]
pub struct Volume {
    /// Frames that were read.
    pub frames_read: u64,
    /// Frames that were handed to a connection to be written.
    pub frames_written: u64,
    /// The bytes of the frames that were read, their length fields among them.
    pub bytes_read: u64,
    /// The bytes of the frames that were handed over to be written, their length fields among them.
    pub bytes_written: u64,
}

/// What the router has carried since it began.
#[derive(Clone, Copy, Drop)]
pub struct Traffic {
    pub clients: Volume,
    pub servers: Volume,
    /// How many steps of sessions were of each kind that is counted.
    pub steps: KindCounts,
}

/// How many connections ended for this cause.
#[derive(Clone, Copy, Drop)]
pub struct EndRow {
    pub end: End,
    pub count: u64,
}

/// The connections that have ended since the router began, by their causes.
#[derive(Drop)]
pub struct Ended {
    pub clients: Vec<EndRow>,
    pub servers: Vec<EndRow>,
    /// Those of clients for which no session was opened.
    pub turned_away: Vec<EndRow>,
}

/// How many of the measured dispatches took at most `bound` microseconds.
#[derive(Clone, Copy, Drop)]
pub struct Bucket {
    pub bound: u64,
    pub count: u64,
}

/// How long dispatches of clients took, from where they were read to where their reply was handed over to be written.
#[derive(Drop)]
pub struct Latency {
    /// By rising bound, each with those of the ones before.
    pub buckets: Vec<Bucket>,
    /// How many dispatches were measured.
    pub count: u64,
    /// How long they took together, in microseconds.
    pub sum: u64,
}
