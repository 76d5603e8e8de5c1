//! The order in which servers are tried.
ghost use Rattle.std.specs.Prelude.{◌≤◌, length};
ghost use Rattle.balancer.specs.Order.{IsOrder, loads_of};

use crate::places::Order;
use arrayvec::ArrayVec;
use mux_history::ServerId;

/// The order of these candidates: least load first, and at equal loads the earlier place first.
///
/// There are at most 64 candidates. It takes no memory.
pub fn order(candidates: &[(ServerId, u32)]) -> Order
    requires { length candidates.now ≤ 64 }
    ensures { IsOrder (loads_of candidates.now) result }
{
    let mut keys: ArrayVec<(u32, usize), 64> = ArrayVec::new();
    for (place, (_, load)) in candidates.iter().enumerate() {
        keys.push((*load, place));
    }
    keys.sort_unstable();
    let mut places = ArrayVec::new();
    for (_, place) in keys.as_slice() {
        places.push(*place);
    }
    Order { places }
}
