//! From the hub to a connection.
ghost use Rattle.std.specs.Prelude.{◌≡◌, ◌≤◌, [], ◌∷◌, false, refl, IfNone, IfSome};
ghost use Rattle.futures.specs.Poll.{IfReady, OnPending};
ghost use Rattle.futures.specs.Task.{IsArmed, Keeps};
ghost use Rattle.mux_frame.specs.Spelling.{size_of};
ghost use Rattle.tokio_sessions.specs.Passing.{HasNoNext};
ghost use Rattle.router_traffic.specs.Giving.{Gives};

use futures::task::{Context, Poll};
use mux_frame::Frame;
use mux_history::SessionId;
use router_state::{Control, Glance, Slot, Tally, Way, is_done_with, is_ready};
use std::alloc::{AllocError, Global};
use std::collections::VecDeque;
use std::mem;
use std::sync::Wait;
use std::time::Clock;
use tokio_sessions::{FrameSource, WriteBuffer};

/// The greatest body that a source may give: the greatest size of a frame, less type and tag.
const MAX_BODY: usize = 16_777_212;

/// Gives the frames that the hub has queued for one session, all at once in their order.
///
/// It ends once the session is over, or the router has let its client go, and at a frame that is too large to be
/// written.
#[derive(Drop)]
pub struct HubSource<'a, H: Control, R: Wait + Clock> {
    rt: &'a R,
    router: &'a H,
    slot: &'a Slot,
    session: SessionId,
    next: VecDeque<Frame>,
}

impl<'a, H: Control, R: Wait + Clock> HubSource<'a, H, R> {
    /// Out of memory is the one error.
    pub fn new(
        rt: &'a R,
        router: &'a H,
        slot: &'a Slot,
        session: SessionId,
    ) -> Result<HubSource<'a, H, R>, AllocError> {
        let limits = router.shared().limits.of(session);
        Ok(HubSource {
            rt,
            router,
            slot,
            session,
            next: VecDeque::with_capacity(router.shared().alloc, limits.out())?,
        })
    }

    // Ready with true once frames are there, and with false if none is to come.
    #[cold]
    #[inline(never)]
    fn refill(&mut self, cx: &mut Context<'_>) -> Poll<bool>
        requires { self.old.next.items ≡ [] }
        ensures gives { Gives self.old.session self.old.next.items [] self.new.next.items }
        ensures same { self.new.session ≡ self.old.session }
        ensures ended { IfReady result (λ is_there. is_there ≡ false → self.new.next.items ≡ []) }
        ensures registered { OnPending result (IsArmed cx.new) }
        ensures kept { Keeps cx.old cx.new }
    {
        self.slot.writer.clear();
        begin_again(self.router.shared().alloc, &mut self.next);
        if self.router.next_outs(self.rt, self.session, &mut self.next) > 0 {
            self.see_room();
            self.count_given();
            return Poll::Ready(true);
        }
        if self.is_over() {
            return Poll::Ready(false);
        }
        if is_ready(self.slot.writer.poll_notified(cx)) {
            return cx.yield_now();
        }
        Poll::Pending
    }

    // Whether no frame is to come: also if a client has all its answers, and the router lets it go.
    fn is_over(&self) -> bool {
        if self.slot.is_over() || self.router.shared().switchboard.is_stopped() {
            return true;
        }
        match self.session {
            SessionId::Client(client) => is_done_with(self.rt, self.router, client),
            SessionId::Server(_) => false,
        }
    }

    // Counts the frames that were taken out.
    fn count_given(&mut self)
        ensures { (self.new.session ≡ self.old.session) × (self.new.next.items ≡ self.old.next.items) }
    {
        match self.session {
            SessionId::Client(_) => self.count_answers(),
            SessionId::Server(_) => self.count_asked(),
        }
    }

    fn count_answers(&self) {
        let mut tally = Tally::new();
        for frame in &self.next {
            tally.add(&Glance::of(frame));
            if self.slot.probe.is_of(frame.tag()) {
                self.measure(&Glance::of(frame));
            }
        }
        self.router.shared().meter.count(Way::ToClient, &tally);
    }

    fn count_asked(&mut self)
        ensures { (self.new.session ≡ self.old.session) × (self.new.next.items ≡ self.old.next.items) }
    {
        let mut tally = Tally::new();
        for frame in &self.next {
            tally.add(&Glance::of(frame));
        }
        self.router.shared().meter.count(Way::ToServer, &tally);
    }

    // The dispatch whose time is taken was answered, if this frame with its tag is final. A nack says nothing of how
    // long a server takes.
    #[cold]
    #[inline(never)]
    fn measure(&self, answer: &Glance) {
        if !answer.kind.is_final() {
            return;
        }
        let took = self
            .slot
            .probe
            .end(self.router.shared().microseconds(self.rt));
        if answer.outcome.is_served() {
            self.router.shared().meter.took(took);
        }
    }

    // Frames were taken out: a reader may wait for that.
    fn see_room(&self) {
        if self.slot.waits() {
            self.slot.set_waits(false);
            self.slot.reader.notify();
        }
    }
}

// The hub puts the next frames at the front of an emptied deque's memory, where the cache has it: else they would go
// round all of its room.
fn begin_again(alloc: Global, next: &mut VecDeque<Frame>)
    ensures { next.new.items ≡ next.old.items }
{
    let emptied = mem::replace(next, VecDeque::new(alloc));
    *next = VecDeque::from_vec(emptied.into_vec());
}

// The first frame, unless it is too large to be written: then it stays.
#[inline(always)]
fn pop(next: &mut VecDeque<Frame>) -> Option<Frame>
    ensures front { IfSome result (λ f. next.old.items ≡ f ∷ next.new.items) }
    ensures size { IfSome result (λ f. size_of f.frame ≤ 16777216) }
    ensures left { IfNone result ((next.new.items ≡ next.old.items) × HasNoNext next.new.items) }
{
    match next.front() {
        Some(frame) if frame.body_len() <= MAX_BODY => next.pop_front(),
        _ => None,
    }
}

impl<H: Control, R: Wait + Clock> FrameSource for HubSource<'_, H, R> {
    ghost use Rattle.tokio_sessions.specs.Passing.{HasNoNext};
    ghost use Rattle.router_traffic.specs.Giving.{Gives};
    ghost use Rattle.router_traffic.specs.GivingLaws.{gives_later, gives_none};

    ghost gives = { λ a fs b. (b.session ≡ a.session) × Gives a.session a.next.items fs b.next.items };

    ghost is_ended = { λ s. HasNoNext s.next.items };

    ghost gives_nothing = { λ s. (refl, gives_none s.session s.next.items) };

    ghost gives_in_order = { λ a xs b ys c p q.
        gives_later a.session b.session c.session a.next.items xs b.next.items ys c.next.items p q };

    #[inline(always)]
    fn give_run(&mut self, buffer: &mut WriteBuffer, most: usize) -> usize {
        buffer.take_small(&mut self.next, most)
    }

    #[inline(always)]
    fn poll_frame(&mut self, cx: &mut Context<'_>) -> Poll<Option<Frame>> {
        if self.next.is_empty() {
            match self.refill(cx) {
                Poll::Ready(true) => {}
                Poll::Ready(false) => return Poll::Ready(None),
                Poll::Pending => return Poll::Pending,
            }
        }
        Poll::Ready(pop(&mut self.next))
    }
}
