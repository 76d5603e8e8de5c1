//! What a server does, and whoever seals epochs.
ghost use Rattle.std.specs.Prelude.{IsTrue};

use crate::frames::reply;
use crate::held::PATIENCE;
use crate::jobs::{Crew, Script};
use hub::{HubFault, HubLedger, Seats, ServerSeat};
use mux_frame::Frame;
use mux_history::SessionId;
use published_routes::Publish;
use std::sync::Wait;
use std::sync::atomic::{AtomicU64, Ordering};
use std::thread;

impl<L: HubLedger, B: Publish<L>, R: Wait> Crew<'_, L, B, R> {
    /// Hands a frame in. A seat that is full grows first.
    fn server_frame(&self, seat: &mut ServerSeat<L>, frame: Frame, grown: &mut u32) -> bool
        requires { IsTrue frame.as_read }
    {
        match self.hub.server_frame(self.rt, seat, frame, 0) {
            Ok(_) => true,
            Err(HubFault::SeatFull(frame)) => {
                *grown = grown.saturating_add(1);
                seat.grow().is_ok() && self.server_frame_again(seat, frame)
            }
            Err(_) => false,
        }
    }

    fn server_frame_again(&self, seat: &mut ServerSeat<L>, frame: Frame) -> bool {
        frame.as_read() && self.hub.server_frame(self.rt, seat, frame, 0).is_ok()
    }

    /// Replies to a frame that came, with the body that came.
    fn answer(&self, seat: &mut ServerSeat<L>, frame: &Frame, grown: &mut u32) -> bool {
        match reply(self.alloc, frame) {
            Ok(Some(reply)) => self.server_frame(seat, reply, grown),
            _ => false,
        }
    }

    /// Replies to what comes, until all clients are done: whether all was well and the seat grew.
    pub fn serve(&self, seat: &mut ServerSeat<L>, script: Script, left: &AtomicU64) -> bool {
        let mut grown = 0u32;
        for _ in 0..PATIENCE {
            match self.hub.next_out(self.rt, SessionId::Server(seat.server())) {
                Some(frame) => {
                    if !self.answer(seat, &frame, &mut grown) {
                        return false;
                    }
                }
                None if left.load(Ordering::SeqCst) == 0 => return grown >= script.grown,
                None => thread::yield_now(),
            }
        }
        false
    }

    /// Seals epochs until all clients are done, and hands the clock on after each: whether memory was
    /// found.
    pub fn tick(&self, seats: &mut Seats<L>, left: &AtomicU64) -> bool {
        for _ in 0..PATIENCE {
            let Ok(sealed) = self.hub.seal(self.rt, self.alloc, &mut seats.orders[0]) else {
                return false;
            };
            if sealed > 0 {
                self.hub.clock(self.rt, &mut seats.orders[0], 0);
            } else if left.load(Ordering::SeqCst) == 0 {
                return true;
            } else {
                thread::yield_now();
            }
        }
        false
    }
}
