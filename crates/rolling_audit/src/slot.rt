//! Slots that sessions take one after the other.
ghost use Rattle.std.specs.Prelude.{◌≡◌, ◌<◌, IfSome, IsNone};
ghost use Rattle.rolling_audit.specs.Slots.{place_of, slot_of as slot_in};

/// The slot of a client, among so many. None if its number is 0, or if there is no slot.
pub fn slot_of(client: u64, slots: usize) -> Option<usize>
    ensures some { IfSome result (λ slot. (slot ≡ slot_in slots client) × (slot < slots) × (0 < client)) }
    ensures none { IsNone result → 0 < client → slots ≡ 0 }
{
    if client == 0 {
        return None;
    }
    server_slot(client - 1, slots)
}

/// The slot of a server, among so many. None if there is no slot.
pub fn server_slot(server: u64, slots: usize) -> Option<usize>
    ensures some { IfSome result (λ slot. (slot ≡ place_of slots server) × (slot < slots)) }
    ensures none { IsNone result → slots ≡ 0 }
{
    if slots == 0 {
        return None;
    }
    Some((server % slots as u64) as usize)
}
