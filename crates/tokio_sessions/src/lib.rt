//! Frames over asynchronous readers and writers: two futures written by hand.
//!
//! [`ReadSession`] reads bytes from a transport and hands the frames that they spell to a [`FrameSink`].
//! [`WriteSession`] takes frames from a [`FrameSource`] and writes their bytes to a transport. Either is
//! polled by whoever owns it, and ends with a value that says why. What is read and written is exactly
//! the frames' bytes, in order, whatever the transport, the sink and the source do.
#![tactic(auto)]

mod memory;
mod outlet;
mod read_buffer;
mod read_session;
mod shared_body;
mod sink;
mod source;
mod step;
mod write_buffer;
mod write_session;

pub use read_buffer::ReadBuffer;
pub use read_session::{ReadEnd, ReadSession};
pub use sink::{FrameSink, Offered};
pub use source::FrameSource;
pub use write_buffer::WriteBuffer;
pub use write_session::{WriteEnd, WriteSession};
