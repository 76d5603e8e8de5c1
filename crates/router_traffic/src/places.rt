//! When a reader ends its session's epoch, and what it does with a frame that its session refused.
ghost use Rattle.std.specs.Prelude.{◌≡◌, ◌⊎◌, true};
ghost use Rattle.router_traffic.specs.Places.{next_by, rolls_by};

use router_state::Rolled;

/// An epoch that began crowded is ended only once this share of its history, 1 in so many, was taken in frames.
const SHARE: usize = 32;

/// Whether a reader ends its session's epoch between two batches: if few of its places are left. `is_crowded`: as few
/// were left when it began, since the session holds nearly too much. Then not before `since`, the frames that were
/// taken in it, is a share of `history`, in records.
pub fn rolls_now(wants_rest: bool, is_crowded: bool, since: usize, history: usize) -> bool
    ensures { result ≡ rolls_by wants_rest is_crowded since history }
{
    wants_rest && (!is_crowded || since >= history / SHARE)
}

/// What a reader does with a frame that its session refused.
#[derive(Clone, Copy, Debug, PartialEq, Eq)]
pub enum Next {
    /// It hands the frame in once more.
    Again,
    /// It waits until frames were taken out, or for the next tick.
    Wait,
    /// The session is lost.
    End,
}

/// What a reader does with a frame for whose record there is no place (`Spent`), by what came of the wish to end the
/// epoch. `is_new`: the epoch was ended for this very frame before.
///
/// A session with a history of at least 4 x `window` x (2 + `retries`) records isn't refused the next epoch for what it
/// holds, and has places in it: so it isn't lost for want of places.
pub fn next_of(rolled: Rolled, is_new: bool) -> Next
    ensures table { result ≡ next_by rolled is_new }
    ensures ends { result ≡ Next.End → (rolled ≡ Rolled.Refused) ⊎ ((rolled ≡ Rolled.Begun) × (is_new ≡ true)) }
{
    match rolled {
        Rolled::Begun if !is_new => Next::Again,
        Rolled::Begun | Rolled::Refused => Next::End,
        Rolled::NoMemory => Next::Wait,
    }
}
