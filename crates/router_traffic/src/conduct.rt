//! How a server answers, and when it is asked last for that.
ghost use Rattle.std.specs.Prelude.{◌≡◌, ◌||◌, is_some};
ghost use Rattle.router_traffic.specs.Conducts.{ejected_by, ejection_of, failed, judged, seen, unseen};
ghost use Rattle.router_state.specs.Meters.{counted_read};

use mux_frame::Frame;
use router_state::{Ejection, Glance, LONGEST, MOST_DOUBLINGS, Outcome, Side, Tally, whole_wait};

/// When a connection's peer is asked last: never, if it is a client.
pub fn ejection_of(eject: Ejection, side: Side) -> Ejection
    ensures { result ≡ ejection_of side eject }
{
    match side {
        Side::Client { .. } => Ejection { after: None, ms: 0 },
        Side::Server(_) => eject,
    }
}

/// How the server of one connection has answered so far. Times are readings, in milliseconds.
#[derive(Clone, Copy, Drop)]
pub struct Conduct {
    eject: Ejection,
    // How many failures came one after another.
    streak: u64,
    // How often the time for which it is asked last has doubled.
    level: u64,
    // Up to this reading it is asked last.
    until: u64,
    // What came since it was judged: too many failures, or a dispatch that was carried out.
    has_failed: bool,
    is_ok: bool,
}

impl Conduct {
    /// Nothing came yet.
    pub fn new(eject: Ejection) -> Conduct
        ensures { result ≡ unseen eject }
    {
        Conduct {
            eject,
            streak: 0,
            level: 0,
            until: 0,
            has_failed: false,
            is_ok: false,
        }
    }

    /// A frame came, which says this.
    #[inline(always)]
    fn see(&mut self, outcome: Outcome)
        ensures { self.new ≡ seen outcome self.old }
    {
        let Some(after) = self.eject.after else {
            return;
        };
        match outcome {
            Outcome::Ok => {
                self.streak = 0;
                self.is_ok = true;
            }
            Outcome::Nack => self.fail(after),
            Outcome::Rerr => self.fail(after),
            Outcome::Error => {}
            Outcome::Other => {}
        }
    }

    #[inline(always)]
    fn fail(&mut self, after: u64)
        ensures { self.new ≡ failed after self.old }
    {
        self.streak = self.streak.saturating_add(1);
        self.has_failed |= after <= self.streak;
    }

    /// Whether something came by which it is judged.
    #[inline(always)]
    pub fn is_to_judge(&self) -> bool
        ensures { result ≡ (self.now.has_failed || self.now.is_ok) }
    {
        self.has_failed || self.is_ok
    }

    /// Judges it at this reading: the one up to which it is asked last from now on, if it failed too often. What came
    /// while it was asked last already doesn't count.
    pub fn judge(&mut self, now: u64) -> Option<u64>
        ensures until { result ≡ ejected_by self.old now }
        ensures after { self.new ≡ judged self.old now }
    {
        let (has_failed, is_ok) = (self.has_failed, self.is_ok);
        self.has_failed = false;
        self.is_ok = false;
        if now < self.until {
            self.streak = 0;
            return None;
        }
        if has_failed {
            self.streak = 0;
            self.until = now.saturating_add(whole_wait(self.eject.ms.min(LONGEST), self.level));
            self.level = self.level.saturating_add(1).min(MOST_DOUBLINGS);
            return Some(self.until);
        }
        if is_ok {
            self.level = self.level.saturating_sub(1);
        }
        None
    }
}

/// Whoever counts the frames of a run.
pub trait Counts {
    ghost use Rattle.mux_frame.specs.Spelling.{MuxFrame};

    /// Behind a frame that was read.
    ghost counts: { MuxFrame → Self → Self → Type 0 };

    /// Counts a frame.
    fn count(&mut self, frame: &Frame)
        ensures { counts frame.now.frame self.old self.new };
}

impl Counts for Tally {
    ghost use Rattle.std.specs.Prelude.{◌≡◌};
    ghost use Rattle.router_state.specs.Meters.{counted_read, glance_of};

    ghost counts = { λ frame old new. new ≡ counted_read (glance_of frame) old };

    #[inline(always)]
    fn count(&mut self, frame: &Frame) {
        self.add_read(&Glance::of(frame));
    }
}

impl Counts for Seen {
    ghost use Rattle.std.specs.Prelude.{◌≡◌};
    ghost use Rattle.router_state.specs.Meters.{counted_read, glance_of};
    ghost use Rattle.router_state.specs.Outcomes.{outcome_of};
    ghost use Rattle.router_traffic.specs.Conducts.{seen};

    ghost counts = { λ frame old new. (new.tally ≡ counted_read (glance_of frame) old.tally)
        × (new.conduct ≡ seen (outcome_of frame) old.conduct) };

    #[inline(always)]
    fn count(&mut self, frame: &Frame) {
        self.add(&Glance::of(frame));
    }
}

/// What came over a connection.
#[derive(Drop)]
pub struct Seen {
    /// Since it was counted last.
    pub tally: Tally,
    pub conduct: Conduct,
}

impl Seen {
    /// Nothing came yet.
    pub fn new(eject: Ejection) -> Seen
        ensures { result.conduct ≡ unseen eject }
    {
        Seen {
            tally: Tally::new(),
            conduct: Conduct::new(eject),
        }
    }

    /// Whether frames are looked at, beside being counted.
    #[inline(always)]
    pub fn looks(&self) -> bool
        ensures { result ≡ is_some self.now.conduct.eject.after }
    {
        self.conduct.eject.after.is_some()
    }

    /// Counts a frame by what was seen of it.
    #[inline(always)]
    pub fn add(&mut self, glance: &Glance)
        ensures counted { self.new.tally ≡ counted_read glance.now self.old.tally }
        ensures seen { self.new.conduct ≡ seen glance.now.outcome self.old.conduct }
    {
        self.tally.add_read(glance);
        if self.looks() {
            self.see(glance.outcome);
        }
    }

    // Whether its server fails.
    #[cold]
    #[inline(never)]
    fn see(&mut self, outcome: Outcome)
        ensures { self.new ≡ record self.old { conduct = seen outcome self.old.conduct } }
    {
        self.conduct.see(outcome);
    }
}
