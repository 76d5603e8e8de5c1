//! A connection in two halves.

use tokio::net::{OwnedReadHalf, OwnedWriteHalf, TcpStream};

/// Both halves of a connection.
#[derive(Drop)]
pub struct Halves {
    /// The half that is read.
    pub to_read: OwnedReadHalf,
    /// The half that is written.
    pub to_write: OwnedWriteHalf,
}

impl Halves {
    /// The halves of a connection whose frames are sent at once, however small. `None` if the system refuses.
    pub fn of(stream: TcpStream) -> Option<Halves> {
        // Without this option small frames are only slower.
        let _ = stream.set_nodelay(true);
        let (to_read, to_write) = stream.into_split().ok()?;
        Some(Halves { to_read, to_write })
    }
}
