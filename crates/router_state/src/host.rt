//! What the tasks of a router ask of the sessions.
ghost use Rattle.std.specs.Prelude.{◌≡◌, [], ◌∷◌, length, IfErr, IfSome, IsTrue, OnOk, Some};
ghost use Rattle.std.specs.VecDeque.{deque_capacity};

use crate::auditor::Auditor;
use crate::seat::{Rolled, Side};
use crate::shared::Shared;
use hub::{AdminOrder, AdminReply, Batch, DownFigures, HubFault, OrderFault, UpCounts, UpFigures};
use mux_frame::Frame;
use mux_history::{KindCounts, Record, ServerId, SessionId};
use operator_port::DestinationRow;
use route_table::Routing;
use std::alloc::AllocError;
use std::collections::VecDeque;
use std::sync::Wait;
use std::time::Clock;

/// The routes, and what was counted of destinations.
#[derive(Drop)]
pub struct Routed {
    /// Each destination that has servers, with them.
    pub routes: Vec<Routing>,
    /// Each destination whose dispatches are counted, also where it has no servers any more, and then all others
    /// together.
    pub destinations: Vec<DestinationRow>,
}

/// What is asked of a router without a seat, by every task.
pub trait Control {
    ghost use Rattle.hub.specs.Taking.{IsTakenOut};

    /// What its tasks share, the sessions aside.
    fn shared(&self) -> &Shared;

    /// Carries an operator's order out. The caller rings for the sessions.
    fn order<R: Wait>(&self, rt: &R, order: AdminOrder) -> Result<AdminReply, OrderFault>;

    /// The number and the figures of the client whose session is in this place of the hub.
    fn client_at<R: Wait>(&self, rt: &R, place: usize) -> Option<(u64, DownFigures)>;

    /// The figures of the session with the server at this place.
    fn server_figures<R: Wait>(&self, rt: &R, place: ServerId) -> Option<UpFigures>;

    /// Sends a ping to the server of this session's number, if it can be sent one. The caller rings for it.
    fn ping<R: Wait>(&self, rt: &R, server: ServerId, now: u64);

    /// Whether a session can be opened for a further client.
    fn has_place<R: Wait>(&self, rt: &R) -> bool;

    /// All frames to be sent by a session, in their order: how many came. None comes if the deque that is handed in
    /// isn't empty, or has less room than the limit `out`.
    fn next_outs<R: Wait>(&self, rt: &R, session: SessionId, frames: &mut VecDeque<Frame>) -> usize
        ensures { IsTakenOut session frames.old.items (deque_capacity frames.old) frames.new.items result };

    /// The server at this place is asked last up to this reading.
    fn ask_last(&self, place: ServerId, until: u64);

    /// Whether more bytes wait to be sent by a session than should.
    fn is_backlogged(&self, session: SessionId) -> bool;

    /// Whether a session's epoch should end: few of its places are left.
    fn wants_rest(&self, session: SessionId) -> bool;
}

/// What is asked of a router as a whole, by the ticker and for operators.
pub trait Admin {
    /// What looks at the histories that sessions give up.
    fn auditor(&self) -> &Auditor;

    /// Each destination with its servers, and what was counted of destinations. Out of memory is the one error.
    fn routes<R: Wait>(&self, rt: &R) -> Result<Routed, AllocError>;

    /// A copy of a session's records, the first ones, up to so many. Out of memory is the one error.
    fn records_of<R: Wait>(
        &self,
        rt: &R,
        session: SessionId,
        most: usize,
    ) -> Result<Vec<Record>, AllocError>;

    /// How many records all sessions have had of each kind that is counted.
    fn steps<R: Wait>(&self, rt: &R) -> KindCounts;

    /// How many those with the server at this place have had, and how long the dispatches took that it answered.
    fn steps_with<R: Wait>(&self, rt: &R, place: ServerId) -> UpCounts;

    /// Hands the clock's reading to the servers' sessions, looks once more at the sessions of clients that have left,
    /// of which something was under way, and ends the epochs of sessions that have few places left: if memory is
    /// refused, they go on.
    fn tick<R: Wait>(&self, rt: &R, now: u64);
}

/// Who acts for one session.
pub trait Seated {
    /// The session that it acts for.
    fn session(&self) -> SessionId;

    /// Whether the last frame that was taken by it closed its session.
    fn is_closed(&self) -> bool;
}

/// The sessions of a router's connections, as the tasks of one connection see them.
pub trait Host {
    ghost use Rattle.std.specs.Prelude.{ℕ, List};
    ghost use Rattle.mux_frame.specs.Views.{FrameView};
    ghost use Rattle.hub_base.specs.Batching.{handed_back};

    /// Who acts for one session.
    type Seat: Seated + Drop;

    /// At this reading, frames were taken off the front by steps of the seat's own session, and what they led to was
    /// handed on.
    ghost runs: { Self → ℕ → List FrameView → List FrameView → Self.Seat → Self.Seat → Type 0 };

    /// The seat acts for the same session.
    ghost is_same: { Self → Self.Seat → Self.Seat → Type 0 };

    /// No frame was handed in: some of the oldest receipts may be gone, and none has come.
    ghost goes_on: { Self → Self.Seat → Self.Seat → Type 0 };

    /// Opens the session of a connection. The errors are those of the hub's calls that open and renew.
    fn open<R: Wait>(&self, rt: &R, side: Side) -> Result<Self::Seat, HubFault>;

    /// Hands a batch in. With Ok all of it was taken. The first frame that is refused comes back in the fault: those
    /// before it were taken, and those behind it stay in the batch.
    fn frames<R: Wait>(
        &self,
        rt: &R,
        seat: &mut Self::Seat,
        batch: &mut Batch,
        now: u64,
    ) -> Result<(), HubFault>
        ensures event { OnOk result (runs self.now now batch.old.frames batch.new.frames
            seat.old seat.new) }
        ensures stopped { IfErr result (λ e. (f : FrameView) × (handed_back e ≡ Some f)
            × runs self.now now batch.old.frames (f ∷ batch.new.frames) seat.old seat.new) }
        ensures same { is_same self.now seat.old seat.new }
        ensures all { OnOk result (length batch.new.frames ≡ 0) }
        ensures read { IfErr result (λ e. IfSome (handed_back e) (λ f. IsTrue f.as_read)) }
        ensures held { batch.new.errands ≡ [] }
        ensures room { batch.new.room ≡ batch.old.room };

    /// Makes room for as many more receipts as an epoch has records. Out of memory is the one error, and changes
    /// nothing.
    fn grow(&self, seat: &mut Self::Seat) -> Result<(), AllocError>
        ensures { goes_on self.now seat.old seat.new };

    /// Ends the present history of a session. All that is held goes on in the next one.
    fn roll<R: Wait>(&self, rt: &R, seat: &mut Self::Seat) -> Rolled
        ensures { goes_on self.now seat.old seat.new };

    /// Has a session give up its histories that have ended, if they are looked at while the run goes on. The seat's
    /// receipts of their epochs are held against them, and dropped. A fault stops the router.
    fn take_ended<R: Wait>(&self, rt: &R, seat: &mut Self::Seat)
        ensures { goes_on self.now seat.old seat.new };

    /// The end of a session, whose seat comes back. Every task looks again.
    fn lose<R: Wait + Clock>(&self, rt: &R, seat: Self::Seat);
}
