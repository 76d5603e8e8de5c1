//! The bytes of one connection, on their way to frames.

ghost use Rattle.std.specs.Prelude.{◌≡◌, ◌||◌, IfOk, IsTrue};
ghost use Rattle.replay_script.specs.Nexts.{Nexts, tells_fault};

use bytes::BytesMut;
use mux_frame::{Frame, FrameCodec, FrameFault};
use mux_history::SessionId;
use std::alloc::{AllocError, Global};
use tokio_util::codec::Decoder;

/// What is told of a stream that gives no frame.
#[derive(Clone, Copy, Debug, PartialEq, Eq)]
pub enum NoFrame {
    /// Less than a frame is left.
    Waits,
    Fault(FrameFault),
}

/// The bytes of a connection that no frame has taken yet.
#[derive(Drop)]
pub struct Stream {
    pub session: SessionId,
    codec: FrameCodec,
    bytes: BytesMut,
    /// The end, or a fault: nothing comes any more.
    pub over: bool,
    /// The session was closed, by a frame or as lost.
    pub closed: bool,
}

impl Stream {
    /// The stream of a session, with no bytes yet.
    pub fn new(alloc: Global, session: SessionId, codec: FrameCodec) -> Stream {
        Stream {
            session,
            codec,
            bytes: BytesMut::new(alloc),
            over: false,
            closed: false,
        }
    }

    /// How many bytes wait.
    pub fn waiting(&self) -> usize {
        self.bytes.len()
    }

    /// Adds bytes behind those that are there.
    pub fn add(&mut self, bytes: &[u8]) -> Result<(), AllocError> {
        self.bytes.extend_from_slice(bytes)
    }

    /// The next frame. After a fault the stream is over.
    pub fn next_frame(&mut self) -> Result<Frame, NoFrame>
        ensures next { Nexts self.old.codec self.old.bytes.items result self.new.codec self.new.bytes.items }
        ensures over { self.new.over ≡ (self.old.over || tells_fault result) }
        ensures closed { self.new.closed ≡ self.old.closed }
        ensures as_read { IfOk result (λ f. IsTrue f.as_read) }
    {
        match self.codec.decode(&mut self.bytes) {
            Ok(Some(frame)) => Ok(frame),
            Ok(None) => Err(NoFrame::Waits),
            Err(fault) => {
                self.over = true;
                Err(NoFrame::Fault(fault))
            }
        }
    }

    /// The end of the bytes, and the fault where it comes inside a frame.
    pub fn end(&mut self) -> Option<FrameFault> {
        self.over = true;
        self.codec.decode_eof(&mut self.bytes).err()
    }
}
