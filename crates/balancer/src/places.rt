//! Places of candidates in an order.
ghost use Rattle.std.specs.Prelude.{◌≡◌};

use arrayvec::ArrayVec;
use std::marker::Model;

/// The places of some candidates, the one to be tried first in front. Places count from 0.
///
/// Contracts see the list of the places.
#[derive(Drop)]
pub struct Order {
    pub(crate) places: ArrayVec<usize, 64>,
}

impl Model for Order {
    ghost use Rattle.std.specs.Prelude.{ℕ, List};

    ghost Value = { List ℕ };

    ghost view = { λ o. o.places.items };
}

impl Order {
    /// The places, the one to be tried first in front.
    pub fn as_slice(&self) -> &[usize]
        ensures { result.now ≡ self.now }
    {
        &self.places
    }
}
