//! A server's leases: how long dispatches may be sent to it.
ghost use Rattle.std.specs.Prelude.{◌≡◌, None, not};
ghost use Rattle.mux_history.specs.Lapse as lapse;

use std::marker::Model;

/// The milliseconds that a Tlease grants. Unit 0 is milliseconds, and a negative number of them
/// counts as 0; a Tlease of another unit grants nothing.
pub fn granted(unit: u8, howmuch: i64) -> Option<u64>
    ensures { result ≡ lapse.granted unit howmuch }
{
    if unit == 0 {
        Some(howmuch.max(0) as u64)
    } else {
        None
    }
}

/// The last lease of a session, if it has one. Readings are in milliseconds.
///
/// Contracts see the reading from which on the lease has lapsed; without a lease nothing is limited.
#[derive(Clone, Copy, Debug, PartialEq, Eq)]
pub struct Lease {
    lapse: Option<u64>,
}

impl Model for Lease {
    ghost use Rattle.std.specs.Prelude.{ℕ, Option};

    ghost Value = { Option ℕ };

    ghost view = { λ l. l.lapse };

    ghost inverse = { λ lapse. record { lapse = lapse } };
}

impl Lease {
    /// No lease was granted: the session is not limited.
    pub fn none() -> Lease
        ensures { result ≡ None }
    {
        Lease { lapse: None }
    }

    /// The lease after a Tlease that is taken at the reading `now`. One of unit 0 replaces the
    /// lease, and one of another unit leaves it as it was. A lease lasts to `u64::MAX` at most.
    pub fn grant(self, unit: u8, howmuch: i64, now: u64) -> Lease
        ensures { result ≡ lapse.leased now (lapse.granted unit howmuch) self }
    {
        match granted(unit, howmuch) {
            Some(duration) => Lease {
                lapse: Some(now.saturating_add(duration)),
            },
            None => self,
        }
    }

    /// The reading from which on the lease has lapsed.
    pub fn lapse(self) -> Option<u64>
        ensures { result ≡ self }
    {
        self.lapse
    }

    /// At the reading `now` the lease has not lapsed.
    pub fn allows(self, now: u64) -> bool
        ensures { result ≡ not (lapse.has_lapsed self now) }
    {
        match self.lapse {
            Some(lapse) => now < lapse,
            None => true,
        }
    }
}
