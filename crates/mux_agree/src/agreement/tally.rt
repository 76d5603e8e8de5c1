//! Counts of records over any number of histories.
ghost use Rattle.std.specs.Prelude.{◌≡◌, ◌+◌, ◌<◌, ◌≤◌, ◌^◌, nat_lt};
ghost use Rattle.mux_agree.specs.Tallies.{tallied};

/// A count. So many histories of so many records may be lent that a `u128` could wrap.
#[derive(Clone, Copy)]
pub struct Tally {
    /// How often `rest` went past its greatest value.
    pub wraps: u64,
    pub rest: u128,
}

impl Tally {
    /// So many more.
    pub fn plus(self, more: u128) -> Tally
        requires { self.wraps + 1 < 2 ^ 64 }
        ensures value { tallied result ≡ tallied self + more }
        ensures within { result.wraps ≤ self.wraps + 1 }
    {
        let room = u128::MAX - self.rest;
        if more <= room {
            Tally {
                wraps: self.wraps,
                rest: self.rest + more,
            }
        } else {
            Tally {
                wraps: self.wraps + 1,
                rest: more - room - 1,
            }
        }
    }

    /// Whether it is more than another.
    pub fn is_above(self, other: Tally) -> bool
        ensures { result ≡ nat_lt (tallied other) (tallied self) }
    {
        other.wraps < self.wraps || (other.wraps == self.wraps && other.rest < self.rest)
    }
}
