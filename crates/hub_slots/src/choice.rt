//! The choice of a server, by loads that are read without a lock.
ghost use Rattle.std.specs.Prelude.{length};
ghost use Rattle.hub_slots.specs.Choosing.{Chooses, HasLoad};

use crate::up_slot::UpSlot;
use balancer::Loads;
use hub_log::Room;
use mux_history::ServerId;

/// The loads that sessions showed after their last steps, at a reading.
#[derive(Drop)]
struct Shown<'a, B: Room> {
    slots: &'a [UpSlot<B>],
    now: u64,
}

impl<B: Room> Loads for Shown<'_, B> {
    ghost reads = { λ shown server read. HasLoad (length shown.slots.now) server read };

    #[inline(always)]
    fn load(&self, server: ServerId) -> Option<u32> {
        let slot = self.slots.get(server as usize)?;
        Some(slot.load(self.now))
    }
}

/// The server with the least load among these, but not this one; the earlier one at equal loads: all by the places
/// of their slots. One that is asked last at the reading `now` is chosen if there is no other. It counts one dispatch more, up
/// to its session's next step.
pub fn choose<B: Room>(
    slots: &[UpSlot<B>],
    servers: &[ServerId],
    but: Option<ServerId>,
    now: u64,
) -> Option<ServerId>
    ensures { Chooses (length slots.now) but servers.now result }
{
    let (server, _) = balancer::choose(&Shown { slots, now }, servers, but)?;
    if let Some(slot) = slots.get(server as usize) {
        slot.expect_one();
    }
    Some(server)
}
