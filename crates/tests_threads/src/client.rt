//! What a client does.
//!
//! `client_frame` and `client_frame_again` have twins in `server`: seats of clients and of servers are two types.
ghost use Rattle.std.specs.Prelude.{IsTrue};

use crate::frames::{answered, dispatch};
use crate::held::PATIENCE;
use crate::jobs::{Crew, Script};
use hub::{ClientSeat, HubFault, HubLedger};
use mux_frame::Frame;
use mux_history::SessionId;
use published_routes::Publish;
use std::sync::Wait;
use std::thread;

/// At most so many servers are there.
const SERVERS: u64 = 2;

/// Whether it is the first reply to a dispatch of this client.
pub fn is_new(client: u64, frame: &Frame, seen: &mut [bool; 256]) -> bool {
    let Some(tag) = answered(client, frame) else {
        return false;
    };
    let was = seen[usize::from(tag)];
    seen[usize::from(tag)] = true;
    !was
}

impl<L: HubLedger, B: Publish<L>, R: Wait> Crew<'_, L, B, R> {
    /// Hands a frame in. A seat that is full grows first.
    fn client_frame(&self, seat: &mut ClientSeat<L>, frame: Frame, grown: &mut u32) -> bool
        requires { IsTrue frame.as_read }
    {
        match self.hub.client_frame(self.rt, seat, frame, 0) {
            Ok(_) => true,
            Err(HubFault::SeatFull(frame)) => {
                *grown = grown.saturating_add(1);
                seat.grow().is_ok() && self.client_frame_again(seat, frame)
            }
            Err(_) => false,
        }
    }

    fn client_frame_again(&self, seat: &mut ClientSeat<L>, frame: Frame) -> bool {
        frame.as_read() && self.hub.client_frame(self.rt, seat, frame, 0).is_ok()
    }

    /// Sends the dispatches of these tags.
    fn send(&self, seat: &mut ClientSeat<L>, tags: &[u8], grown: &mut u32) -> bool {
        for tag in tags {
            let Ok(frame) = dispatch(self.alloc, seat.client(), *tag) else {
                return false;
            };
            if !self.client_frame(seat, frame, grown) {
                return false;
            }
            self.hub.gate.returned(seat.client());
        }
        true
    }

    /// Takes so many replies.
    fn receive(&self, client: u64, count: usize, seen: &mut [bool; 256]) -> bool {
        let mut left = count;
        for _ in 0..PATIENCE {
            if left == 0 {
                return true;
            }
            match self.hub.next_out(self.rt, SessionId::Client(client)) {
                Some(frame) => {
                    if !is_new(client, &frame, seen) {
                        return false;
                    }
                    left -= 1;
                }
                None => thread::yield_now(),
            }
        }
        false
    }

    /// Waits until neither the client's session nor that of a server should get quiet.
    pub fn rest(&self, client: u64) -> bool {
        for _ in 0..PATIENCE {
            let mut wanted = self.hub.wants_rest(SessionId::Client(client));
            for server in 0..SERVERS {
                wanted = wanted || self.hub.wants_rest(SessionId::Server(server));
            }
            if !wanted {
                return true;
            }
            thread::yield_now();
        }
        false
    }

    /// Sends dispatches, and takes the reply to each: whether all came, the session had its epochs and the
    /// seat grew.
    pub fn ask(&self, seat: &mut ClientSeat<L>, script: Script) -> bool {
        if script.ahead == 0 {
            return false;
        }
        let (mut seen, mut grown) = ([false; 256], 0u32);
        for tags in script.tags.chunks(script.ahead) {
            if !self.rest(seat.client())
                || !self.send(seat, tags, &mut grown)
                || !self.receive(seat.client(), tags.len(), &mut seen)
            {
                return false;
            }
        }
        let receipts = seat.receipts();
        let epoch = if receipts.is_empty() {
            0
        } else {
            receipts.last().epoch
        };
        epoch >= script.epoch && grown >= script.grown
    }
}
