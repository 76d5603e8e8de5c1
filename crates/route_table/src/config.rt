//! The configuration of a router.
ghost use Rattle.std.specs.Prelude.{◌≡◌};
ghost use Rattle.mux_history.specs.Bounds.{InRange};

use crate::audit::AuditMode;
use crate::route::Route;
use crate::server::Server;
use mux_history::Limits;
use std::net::SocketAddr;

/// What an operator sets. Each number is in its key's range.
#[derive(Drop)]
pub struct Config {
    /// Where clients connect.
    pub listen: SocketAddr,
    /// Where an operator connects.
    pub admin: SocketAddr,
    /// The number of the router's run, 1 to 1,000,000,000.
    pub boot: u64,
    /// The greatest size of a frame that is accepted, 32 to 16,777,216 bytes.
    pub max_frame: u64,
    /// How many dispatches a client's session holds, 1 to 65,536.
    pub window: u64,
    /// How many frames a client's session queues, `window` + 4 to 1,048,576.
    pub out: u64,
    /// How many records a client's session keeps, 16 to 16,777,216.
    pub history: u64,
    /// How many dispatches a server's session holds, 1 to 65,536.
    pub server_window: u64,
    /// How many frames a server's session queues, `server_window` + 4 to 1,048,576.
    pub server_out: u64,
    /// How many records a server's session keeps, 16 to 16,777,216.
    pub server_history: u64,
    /// How many bytes of frames a session may have queued before it takes no more, 1,048,576 to 4,294,967,296.
    pub out_bytes: u64,
    /// How many clients are connected at once, 1 to 1,024.
    pub clients: u64,
    /// How many client sessions a router has, 1 to 65,536.
    pub sessions: u64,
    /// How often a dispatch that was nacked is sent again, 0 to 3.
    pub retries: u64,
    /// The time between two looks at the clock, 10 to 60,000 milliseconds.
    pub tick_ms: u64,
    /// After this time a silent connection of an operator is closed, 100 to 3,600,000 milliseconds.
    pub admin_idle_ms: u64,
    /// After this time a client that is silent and has nothing open is drained, and closed after as long again, 100 to
    /// 86,400,000 milliseconds. None: never.
    pub client_idle_ms: Option<u64>,
    /// Within this time a begun frame has to end, 100 to 3,600,000 milliseconds.
    pub frame_ms: u64,
    /// After this time a server that holds dispatches and sends nothing is lost, 100 to 86,400,000 milliseconds; it is sent a
    /// ping at half of it. None: never.
    pub server_silent_ms: Option<u64>,
    /// Where operators ask, and drain, rejoin, cut and stop. None: nowhere.
    pub operator: Option<SocketAddr>,
    /// Where figures are scraped by HTTP. None: nowhere.
    pub metrics_http: Option<SocketAddr>,
    /// After this time a server that is lost is connected to again, 10 to 3,600,000 milliseconds. None: never.
    pub reconnect_ms: Option<u64>,
    /// After so many errors and nacks in a row a server is asked last for `eject_ms`, 1 to 1,000. None: never.
    pub eject_after: Option<u64>,
    /// For so long it is asked last at first, 100 to 3,600,000 milliseconds.
    pub eject_ms: u64,
    /// How many threads carry the clients and the servers, 1 to 16.
    pub threads: u64,
    /// Of so many dispatches what came over each connection is kept, up to 10,000; 0 is none.
    pub recorded: u64,
    /// Whether the histories of the run are kept until it closes, or are looked at while it goes on.
    pub audit: AuditMode,
    /// At most 256, no two of one name. A server's id is its place here, from 0.
    pub servers: Vec<Server>,
    /// At most 4,096, no two to one destination.
    pub routes: Vec<Route>,
    ghost within: { InRange (record {
      max_frame = max_frame;
      window = window;
      out = out;
      history = history;
      retries = retries;
    }) },
    ghost server_within: { InRange (record {
      max_frame = max_frame;
      window = server_window;
      out = server_out;
      history = server_history;
      retries = retries;
    }) },
}

impl Config {
    /// The limits of each client's session.
    pub fn limits(&self) -> Limits
        ensures { result ≡ record {
          max_frame = self.now.max_frame;
          window = self.now.window;
          out = self.now.out;
          history = self.now.history;
          retries = self.now.retries;
        } }
    {
        let max_frame = self.max_frame as usize;
        let window = self.window as usize;
        let out = self.out as usize;
        let history = self.history as usize;
        let retries = self.retries as usize;
        let Some(limits) = Limits::new(max_frame, window, out, history, retries) else {
            unreachable!()
        };
        limits
    }

    /// The limits of each server's session.
    pub fn server_limits(&self) -> Limits
        ensures { result ≡ record {
          max_frame = self.now.max_frame;
          window = self.now.server_window;
          out = self.now.server_out;
          history = self.now.server_history;
          retries = self.now.retries;
        } }
    {
        let max_frame = self.max_frame as usize;
        let window = self.server_window as usize;
        let out = self.server_out as usize;
        let history = self.server_history as usize;
        let retries = self.retries as usize;
        let Some(limits) = Limits::new(max_frame, window, out, history, retries) else {
            unreachable!()
        };
        limits
    }
}
