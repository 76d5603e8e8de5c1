//! How long dispatches took until their reply came, counted by bounds.
ghost use Rattle.std.specs.Prelude.{◌≡◌, ◌≤◌, ◌<◌, ◌+◌, length, nat_le, position, IfSome};
ghost use Rattle.mux_history.specs.Delaying.{added, answered, bucket_of, count_to, no_delay, no_span, AreBoth, IsBoth};

/// The greatest duration of each bucket but the last, in milliseconds. The last has all that took longer.
pub const BOUNDS: [u64; 12] = [1, 2, 5, 10, 20, 50, 100, 200, 500, 1_000, 2_000, 5_000];

/// How many took so long, each count up to the greatest number of its type.
#[derive(Clone, Copy, Debug, PartialEq, Eq)]
pub struct Spans {
    // Of each bucket without those of the others.
    counts: [u64; 13],
    sum: u64,
}

// The place of the first bound that is no less.
#[inline(always)]
fn first_no_less(bounds: &[u64], ms: u64) -> Option<usize>
    ensures value { result ≡ position (nat_le ms) bounds.now }
    ensures within { IfSome result (λ place. place < length bounds.now) }
{
    bounds.iter().position(|bound| ms <= *bound)
}

// The bucket of a duration, in milliseconds.
#[inline(always)]
fn bucket_of(ms: u64) -> usize
    ensures value { result ≡ bucket_of ms }
    ensures within { result ≤ 12 }
{
    first_no_less(&BOUNDS, ms).unwrap_or(12)
}

impl Spans {
    /// Nothing took any time yet.
    pub fn none() -> Spans
        ensures { result ≡ no_span }
    {
        Spans {
            counts: [0; 13],
            sum: 0,
        }
    }

    /// One more took so many milliseconds.
    #[inline(always)]
    pub fn add(&mut self, ms: u64)
        ensures { self.new ≡ added ms self.old }
    {
        let bucket = bucket_of(ms);
        self.counts[bucket] = self.counts[bucket].saturating_add(1);
        self.sum = self.sum.saturating_add(ms);
    }

    /// How many took at most so many milliseconds, if that is one of the bounds.
    pub fn within(&self, bound: u64) -> u64
        ensures { result ≡ count_to (bucket_of bound + 1) self.now }
    {
        self.count_to(bucket_of(bound) + 1)
    }

    /// How many there are.
    pub fn count(&self) -> u64
        ensures { result ≡ count_to 13 self.now }
    {
        self.count_to(13)
    }

    // How many are in the first so many buckets.
    fn count_to(&self, buckets: usize) -> u64
        ensures { result ≡ count_to buckets self.now }
    {
        let mut count: u64 = 0;
        for more in &self.counts[..buckets.min(13)] {
            count = count.saturating_add(*more);
        }
        count
    }

    /// How long all took together, in milliseconds.
    pub fn sum(&self) -> u64
        ensures { result ≡ self.now.sum }
    {
        self.sum
    }

    /// Both together.
    pub fn plus(self, other: Spans) -> Spans
        ensures { IsBoth self other result }
    {
        let mut both = self;
        for bucket in 0..13 {
            both.counts[bucket] = both.counts[bucket].saturating_add(other.counts[bucket]);
        }
        both.sum = both.sum.saturating_add(other.sum);
        both
    }
}

/// How long dispatches took until their reply came, by what it was.
#[derive(Clone, Copy, Debug, PartialEq, Eq)]
pub struct Delays {
    /// Those that were answered by a reply.
    pub replies: Spans,
    /// Those that were nacked.
    pub nacks: Spans,
}

impl Delays {
    /// None was answered yet.
    pub fn none() -> Delays
        ensures { result ≡ no_delay }
    {
        Delays {
            replies: Spans::none(),
            nacks: Spans::none(),
        }
    }

    /// One more was answered, so many milliseconds after it was sent.
    #[inline(always)]
    pub fn add(&mut self, is_nack: bool, ms: u64)
        ensures { self.new ≡ answered is_nack ms self.old }
    {
        if is_nack {
            self.nacks.add(ms);
        } else {
            self.replies.add(ms);
        }
    }

    /// Both together.
    pub fn plus(self, other: Delays) -> Delays
        ensures { AreBoth self other result }
    {
        Delays {
            replies: self.replies.plus(other.replies),
            nacks: self.nacks.plus(other.nacks),
        }
    }
}
