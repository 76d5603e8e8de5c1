//! Bodies of frames that are written where they lie, among a buffer's own bytes.

ghost use Rattle.std.specs.Prelude.{◌≡◌, ℕ, ◌-◌, ◌≤◌, ◌==◌, List, ◌++◌, length, drop};
ghost use Rattle.std.specs.List.{list_all};
ghost use Rattle.tokio_sessions.specs.Weaving.{count_before, woven};

use bytes::Bytes;

/// A body, and how many own bytes of a buffer stand between the body before and it.
#[derive(Default, Drop)]
pub struct SharedBody {
    pub behind: usize,
    pub body: Bytes,
}

/// Own bytes and bodies, cut behind the first body: what is before it, it, and what is left of both.
#[derive(Drop)]
pub struct Front<'a> {
    pub before: &'a [u8],
    pub body: &'a [u8],
    pub own: &'a [u8],
    pub bodies: &'a [SharedBody],
}

impl<'a> Front<'a> {
    /// Cuts behind the first body. Where there is none, nothing is cut off.
    pub fn new(own: &'a [u8], bodies: &'a [SharedBody]) -> Front<'a>
        requires { count_before bodies.now ≤ length own.now }
        ensures bytes { woven own.now bodies.now
            ≡ result.before.now ++ (result.body.now ++ woven result.own.now result.bodies.now) }
        ensures within { count_before result.bodies.now ≤ length result.own.now }
        ensures fewer { length result.bodies.now ≡ length bodies.now - 1 }
    {
        match bodies.split_first() {
            None => Front {
                before: &[],
                body: &[],
                own,
                bodies,
            },
            Some((first, bodies)) => {
                let (before, own) = own.split_at(first.behind);
                Front {
                    before,
                    body: first.body.as_slice(),
                    own,
                    bodies,
                }
            }
        }
    }
}

/// Whether each body was written.
pub fn are_written(bodies: &[SharedBody]) -> bool
    ensures { result ≡ list_all (λ b. length b.body == 0) bodies.now }
{
    bodies.iter().all(|b| b.body.is_empty())
}

/// The first `count` bytes were written: answers how many of them are own bytes.
pub fn drop_front(bodies: &mut [SharedBody], count: usize) -> usize
    ensures bound { result ≤ count }
    ensures before { count_before bodies.new ≡ count_before bodies.old - result }
    ensures within { (own : List ℕ) → count_before bodies.old ≤ length own
        → count ≤ length (woven own bodies.old) → result ≤ length own }
    ensures bytes { (own : List ℕ) → count_before bodies.old ≤ length own
        → (woven (drop result own) bodies.new ≡ drop count (woven own bodies.old)) }
{
    let Some((first, others)) = bodies.split_first_mut() else {
        return count;
    };
    if count < first.behind {
        first.behind -= count;
        return count;
    }
    let behind = first.behind;
    let count = count - behind;
    first.behind = 0;
    if count < first.body.len() {
        first.body.advance(count);
        return behind;
    }
    let left = count - first.body.len();
    first.body = Bytes::new();
    behind + drop_front(others, left)
}
