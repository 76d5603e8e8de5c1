//! What a client and a server do by calls that take many frames.
//!
//! Loops over what comes are twins of those in `client` and `server`, where a call takes one.
ghost use Rattle.std.specs.Prelude.{IsTrue};

use crate::client::is_new;
use crate::frames::{dispatch, reply};
use crate::held::PATIENCE;
use crate::jobs::{Crew, Script};
use hub::{Batch, ClientSeat, HubLedger, ServerSeat};
use mux_frame::Frame;
use mux_history::SessionId;
use published_routes::Publish;
use std::collections::VecDeque;
use std::sync::Wait;
use std::sync::atomic::{AtomicU64, Ordering};
use std::thread;

/// The frames that a session queues at most.
const OUT: usize = 2_048;

/// How many of these frames are first replies. None if one isn't.
fn new_ones(client: u64, frames: &mut VecDeque<Frame>, seen: &mut [bool; 256]) -> Option<usize> {
    for count in 0..OUT {
        let Some(frame) = frames.pop_front() else {
            return Some(count);
        };
        if !is_new(client, &frame, seen) {
            return None;
        }
    }
    None
}

impl<L: HubLedger, B: Publish<L>, R: Wait> Crew<'_, L, B, R> {
    /// Sends the dispatches of these tags by one call.
    fn send_batch(&self, seat: &mut ClientSeat<L>, tags: &[u8], batch: &mut Batch) -> bool {
        for tag in tags {
            let Ok(frame) = dispatch(self.alloc, seat.client(), *tag) else {
                return false;
            };
            if batch.push(frame).is_err() {
                return false;
            }
        }
        self.hub.client_frames(self.rt, seat, batch, 0).is_ok()
    }

    /// Takes so many replies.
    fn receive_batches(
        &self,
        client: u64,
        count: usize,
        frames: &mut VecDeque<Frame>,
        seen: &mut [bool; 256],
    ) -> bool {
        let mut left = count;
        for _ in 0..PATIENCE {
            if left == 0 {
                return true;
            }
            if self
                .hub
                .next_outs(self.rt, SessionId::Client(client), frames)
                .came
                == 0
            {
                thread::yield_now();
            }
            let Some(came) = new_ones(client, frames, seen) else {
                return false;
            };
            left = left.saturating_sub(came);
        }
        false
    }

    /// Sends dispatches in batches, and takes the reply to each: whether all came.
    pub fn ask_in_batches(&self, seat: &mut ClientSeat<L>, script: Script) -> bool {
        let (Ok(mut batch), Ok(mut frames)) = (
            Batch::new(self.alloc),
            VecDeque::with_capacity(self.alloc, OUT),
        ) else {
            return false;
        };
        if script.ahead == 0 {
            return false;
        }
        let mut seen = [false; 256];
        for tags in script.tags.chunks(script.ahead) {
            if !self.rest(seat.client())
                || !self.send_batch(seat, tags, &mut batch)
                || !self.receive_batches(seat.client(), tags.len(), &mut frames, &mut seen)
            {
                return false;
            }
        }
        true
    }

    /// Replies to so many frames by one call.
    fn answer_batch(
        &self,
        seat: &mut ServerSeat<L>,
        frames: &mut VecDeque<Frame>,
        count: usize,
        batch: &mut Batch,
    ) -> bool {
        for _ in 0..count {
            let Some(frame) = frames.pop_front() else {
                break;
            };
            let Ok(Some(reply)) = reply(self.alloc, &frame) else {
                return false;
            };
            if batch.push(reply).is_err() {
                return false;
            }
        }
        self.hub.server_frames(self.rt, seat, batch, 0).is_ok()
    }

    /// Replies to all these frames, in batches.
    fn answer_all(
        &self,
        seat: &mut ServerSeat<L>,
        frames: &mut VecDeque<Frame>,
        count: usize,
        batch: &mut Batch,
    ) -> bool {
        for _ in 0..OUT {
            if frames.is_empty() {
                return true;
            }
            if !self.answer_batch(seat, frames, count, batch) {
                return false;
            }
        }
        false
    }

    /// Replies to what comes, in batches, until all clients are done: whether all was well.
    pub fn serve_in_batches(
        &self,
        seat: &mut ServerSeat<L>,
        script: Script,
        left: &AtomicU64,
    ) -> bool {
        let (Ok(mut batch), Ok(mut frames)) = (
            Batch::new(self.alloc),
            VecDeque::with_capacity(self.alloc, OUT),
        ) else {
            return false;
        };
        for _ in 0..PATIENCE {
            if self
                .hub
                .next_outs(self.rt, SessionId::Server(seat.server()), &mut frames)
                .came
                > 0
            {
                if !self.answer_all(seat, &mut frames, script.ahead, &mut batch) {
                    return false;
                }
            } else if left.load(Ordering::SeqCst) == 0 {
                return true;
            } else {
                thread::yield_now();
            }
        }
        false
    }
}
