use mux_history::Limits;

/// What a hub was opened with.
#[derive(Clone, Copy, Debug)]
pub struct Terms {
    /// Which run of the router it is.
    pub boot: u64,
    /// The limits of sessions towards clients.
    pub limits: Limits,
    /// The limits of sessions towards servers.
    pub server_limits: Limits,
    /// The slots for sessions towards clients.
    pub clients: u64,
    /// The slots for sessions towards servers.
    pub servers: u64,
}
