//! Has clients send no more dispatches.
ghost use Rattle.std.specs.Prelude.{◌≡◌, ◌≤◌};
ghost use Rattle.router_tasks.specs.Drains.{drain_of, step_by};

use hub::{AdminOrder, AdminReply, Bell, OrderFault, OrderRefusal};
use hub_close::DownWord;
use router_state::Control;
use server_session::DrainRefusal;
use std::sync::Wait;
use std::sync::atomic::{AtomicU64, Ordering};

/// How many clients are asked in a turn.
const MOST: u64 = 100;

/// No place.
const NOWHERE: u64 = u64::MAX;

/// What an order to drain led to.
#[derive(Clone, Copy, Debug, PartialEq, Eq)]
pub(crate) enum Drain {
    /// The client was asked.
    Asked,
    /// It is open, and can't be asked now.
    Left,
    /// It is closed, or was asked before.
    Passed,
    /// There is no such client.
    Unknown,
}

fn drain_of(reply: &Result<AdminReply, OrderFault>) -> Drain
    ensures { result ≡ drain_of reply.now }
{
    match reply {
        Ok(_) => Drain::Asked,
        Err(OrderFault::Refused(OrderRefusal::Drain(DrainRefusal::Busy | DrainRefusal::Spent))) => {
            Drain::Left
        }
        Err(OrderFault::NoSuchSession) => Drain::Unknown,
        Err(_) => Drain::Passed,
    }
}

/// What becomes of a client in a turn.
#[derive(Clone, Copy, Debug, PartialEq, Eq)]
pub(crate) enum Step {
    /// It is asked.
    Ask,
    /// It waits for the next turn.
    Wait,
    /// It is closed, or was asked before.
    Pass,
}

/// What becomes of a client of this word, where so many were asked in this turn. Those that connect anew then find
/// room in a listen queue of 128.
fn step_of(word: DownWord, asked: u64) -> Step
    ensures { result ≡ step_by word asked }
{
    match word {
        DownWord::Open if asked >= MOST => Step::Wait,
        DownWord::Open => Step::Ask,
        DownWord::Closed | DownWord::Drained | DownWord::Draining => Step::Pass,
    }
}

/// What a turn led to.
#[derive(Clone, Copy)]
pub(crate) struct Turn {
    /// How many clients were asked.
    pub drained: u64,
    /// How many are open and weren't asked: they can't be now, or wait.
    pub left: u64,
    /// The place of the first that waits for the next turn.
    pub next: Option<usize>,
}

/// Asks the first open clients of those in the places from `from` on, before `end`, to send no more dispatches.
pub(crate) fn drain_turn<H: Control, R: Wait>(rt: &R, router: &H, from: usize, end: usize) -> Turn
    ensures { result.drained ≤ 100 }
{
    let mut turn = Turn {
        drained: 0,
        left: 0,
        next: None,
    };
    for place in from..end {
        let Some((number, shown)) = router.client_at(rt, place) else {
            continue;
        };
        match step_of(shown.word, turn.drained) {
            Step::Ask => match drain_of(&router.order(rt, AdminOrder::DrainClient(number))) {
                Drain::Asked => turn.drained = turn.drained.saturating_add(1),
                Drain::Left => turn.left = turn.left.saturating_add(1),
                Drain::Passed | Drain::Unknown => {}
            },
            Step::Wait => {
                turn.left = turn.left.saturating_add(1);
                turn.next = turn.next.or(Some(place));
            }
            Step::Pass => {}
        }
    }
    router.shared().switchboard.ring_all();
    turn
}

/// The places in which the ticker is to go on, behind the turn of an operator's order.
#[derive(Drop)]
pub struct Drains {
    next: AtomicU64,
    end: AtomicU64,
}

impl Drains {
    /// Nothing is to be gone on with.
    pub fn new() -> Drains {
        Drains {
            next: AtomicU64::new(NOWHERE),
            end: AtomicU64::new(0),
        }
    }

    /// The ticker is to go on in the places from `next` on, before `end`. The last order counts.
    pub(crate) fn leave(&self, next: usize, end: usize) {
        self.end.store(end as u64, Ordering::SeqCst);
        self.next.store(next as u64, Ordering::SeqCst);
    }

    /// The places, once.
    pub(crate) fn take(&self) -> Option<(usize, usize)> {
        match self.next.swap(NOWHERE, Ordering::SeqCst) {
            NOWHERE => None,
            next => Some((next as usize, self.end.load(Ordering::SeqCst) as usize)),
        }
    }
}
