//! Frames, one by one or in batches: their steps under one lock, and what these lead to, one lock a session.
//!
//! The calls of clients and those of servers are twins: one side's clauses are those of `DownSlot`, the other's those
//! of `UpSlot`.
ghost use Rattle.std.specs.Prelude.{◌≡◌, ◌+◌, ◌<◌, ◌≤◌, [], ◌∷◌, ◌++◌, length, None, Some, IfErr, IfOk, IfSome, OnErr, OnOk, IsTrue};
ghost use mathlib.Core.List.{IsPrefix};
ghost use Rattle.mux_frame.specs.Views.{FrameView};
ghost use Rattle.mux_history.specs.declared.session.SessionId.{SessionId};
ghost use Rattle.kept_session.specs.Recorded.{IsRecordOf};
ghost use Rattle.kept_session.specs.RecordedDown.{IsRecordOfDown};
ghost use Rattle.hub_base.specs.Batching.{handed_back};
ghost use Rattle.hub_close.specs.Receipts.{stub_of};
ghost use Rattle.hub_places.specs.Holding.{HasClaims};
ghost use Rattle.hub_delivery.specs.Losing.{FailsAll, RecallsAll};
ghost use Rattle.hub.specs.Batches.{HandsOn, RunsDown, RunsUp, StepsTakenDown, StepsTakenUp, TakesCounted};

use crate::hub::Hub;
use crate::ledger::HubLedger;
use crate::seat::{ClientSeat, Seat, ServerSeat};
use hub_base::{Batch, Gate, HubFault};
use hub_close::Receipt;
use hub_log::Pass;
use mux_frame::Frame;
use mux_history::SessionId;
use published_routes::Publish;
use std::sync::Wait;

impl<G: Gate + Drop, L: HubLedger, B: Publish<L>> Hub<G, L, B> {
    /// A frame that came from the seat's client, as a decoder gives it: a batch of one. It waits for no order.
    ///
    /// The receipt of the frame's own step is kept by the seat. The frame of an error comes back; the
    /// errors are SeatFull, GateShut and Session, in this order. It takes no memory, unless a dispatch
    /// may be sent again.
    pub fn client_frame<R: Wait>(
        &self,
        rt: &R,
        seat: &mut ClientSeat<L>,
        frame: Frame,
        now: u64,
    ) -> Result<Receipt, HubFault>
        requires { IsTrue frame.as_read }
        ensures event { OnOk result (RunsDown now L.sessions L.servers self.now.slots.window seat.old.number
            (frame ∷ []) [] seat.old.receipts seat.new.receipts
            [] seat.old.orders seat.new.orders) }
        ensures receipt { IfOk result (λ r. seat.new.receipts ≡ seat.old.receipts ++ stub_of r ∷ []) }
        ensures amount { IfOk result (λ r. seat.old.amount < seat.new.amount) }
        ensures session { IfOk result (λ r. r.session ≡ SessionId.Client seat.old.number) }
        ensures kept { IfOk result (λ r. IsRecordOfDown frame.frame r.kept) }
        ensures orders { IsPrefix seat.old.orders seat.new.orders }
        ensures err { OnErr result (seat.new ≡ seat.old) }
        ensures back { IfErr result (λ e. handed_back e ≡ Some frame) }
        ensures shut { IfErr result (λ e. e ≡ HubFault.GateShut frame
            → G.may_shut self.now.gate (SessionId.Client seat.old.number)) }
        ensures full { IfErr result (λ e. e ≡ HubFault.SeatFull frame → seat.old.room ≤ length seat.old.receipts) }
    {
        let ClientSeat { seat, one } = seat;
        let Ok(()) = one.push(frame) else {
            unreachable!()
        };
        self.run_client(rt, seat, one, now)?;
        Ok(Receipt::of(SessionId::Client(seat.number()), seat.receipts.last()))
    }

    /// A frame that came from the seat's server: the same as `client_frame` of its side.
    pub fn server_frame<R: Wait>(
        &self,
        rt: &R,
        seat: &mut ServerSeat<L>,
        frame: Frame,
        now: u64,
    ) -> Result<Receipt, HubFault>
        requires { IsTrue frame.as_read }
        ensures event { OnOk result (RunsUp now L.sessions L.servers self.now.slots.server_window seat.old.number
            (frame ∷ []) [] seat.old.receipts seat.new.receipts
            [] seat.old.orders seat.new.orders) }
        ensures receipt { IfOk result (λ r. seat.new.receipts ≡ seat.old.receipts ++ stub_of r ∷ []) }
        ensures amount { IfOk result (λ r. seat.old.amount < seat.new.amount) }
        ensures session { IfOk result (λ r. r.session ≡ SessionId.Server seat.old.number) }
        ensures kept { IfOk result (λ r. IsRecordOf frame.frame r.kept) }
        ensures orders { IsPrefix seat.old.orders seat.new.orders }
        ensures err { OnErr result (seat.new ≡ seat.old) }
        ensures back { IfErr result (λ e. handed_back e ≡ Some frame) }
        ensures shut { IfErr result (λ e. e ≡ HubFault.GateShut frame
            → G.may_shut self.now.gate (SessionId.Server seat.old.number)) }
        ensures full { IfErr result (λ e. e ≡ HubFault.SeatFull frame → seat.old.room ≤ length seat.old.receipts) }
    {
        let ServerSeat { seat, one } = seat;
        let Ok(()) = one.push(frame) else {
            unreachable!()
        };
        self.run_server(rt, seat, one, now)?;
        Ok(Receipt::of(SessionId::Server(seat.number()), seat.receipts.last()))
    }

    /// The frames of a batch, which came from the seat's client: their steps under one lock, one
    /// after another, then what these lead to, one lock for each session, and one count. It takes no memory,
    /// unless a dispatch may be sent again.
    ///
    /// With Ok each frame was taken, and the seat keeps their receipts. The first frame that is
    /// refused comes back in the fault, for the causes of `client_frame`; those before it were taken,
    /// and those behind it stay in the batch.
    pub fn client_frames<R: Wait>(
        &self,
        rt: &R,
        seat: &mut ClientSeat<L>,
        batch: &mut Batch,
        now: u64,
    ) -> Result<(), HubFault>
        ensures event { OnOk result (RunsDown now L.sessions L.servers self.now.slots.window seat.old.number
            batch.old.frames batch.new.frames
            seat.old.receipts seat.new.receipts [] seat.old.orders seat.new.orders) }
        ensures stopped { IfErr result (λ e. (f : FrameView) × (handed_back e ≡ Some f)
            × RunsDown now L.sessions L.servers self.now.slots.window seat.old.number
            batch.old.frames (f ∷ batch.new.frames)
            seat.old.receipts seat.new.receipts [] seat.old.orders seat.new.orders) }
        ensures took { OnOk result (TakesCounted IsRecordOfDown batch.old.frames
            batch.new.frames seat.old seat.new) }
        ensures all { OnOk result (length batch.new.frames ≡ 0) }
        ensures refused { IfErr result (λ e. (f : FrameView) × (handed_back e ≡ Some f)
            × TakesCounted IsRecordOfDown batch.old.frames
            (f ∷ batch.new.frames) seat.old seat.new) }
        ensures read { IfErr result (λ e. IfSome (handed_back e) (λ f. IsTrue f.as_read)) }
        ensures orders { IsPrefix seat.old.orders seat.new.orders }
        ensures held { batch.new.errands ≡ [] }
        ensures shut { IfErr result (λ e. (f : FrameView) → e ≡ HubFault.GateShut f
            → G.may_shut self.now.gate (SessionId.Client seat.old.number)) }
        ensures full { IfErr result (λ e. (f : FrameView) → e ≡ HubFault.SeatFull f
            → seat.old.room ≤ length seat.new.receipts) }
        ensures same { (seat.new.number ≡ seat.old.number) × (batch.new.room ≡ batch.old.room) }
    {
        self.run_client(rt, &mut seat.seat, batch, now)
    }

    /// The frames of a batch, which came from the seat's server: the same as `client_frames` of its
    /// side.
    pub fn server_frames<R: Wait>(
        &self,
        rt: &R,
        seat: &mut ServerSeat<L>,
        batch: &mut Batch,
        now: u64,
    ) -> Result<(), HubFault>
        ensures event { OnOk result (RunsUp now L.sessions L.servers self.now.slots.server_window seat.old.number
            batch.old.frames batch.new.frames
            seat.old.receipts seat.new.receipts [] seat.old.orders seat.new.orders) }
        ensures stopped { IfErr result (λ e. (f : FrameView) × (handed_back e ≡ Some f)
            × RunsUp now L.sessions L.servers self.now.slots.server_window seat.old.number
            batch.old.frames (f ∷ batch.new.frames)
            seat.old.receipts seat.new.receipts [] seat.old.orders seat.new.orders) }
        ensures took { OnOk result (TakesCounted IsRecordOf batch.old.frames
            batch.new.frames seat.old seat.new) }
        ensures all { OnOk result (length batch.new.frames ≡ 0) }
        ensures refused { IfErr result (λ e. (f : FrameView) × (handed_back e ≡ Some f)
            × TakesCounted IsRecordOf batch.old.frames
            (f ∷ batch.new.frames) seat.old seat.new) }
        ensures read { IfErr result (λ e. IfSome (handed_back e) (λ f. IsTrue f.as_read)) }
        ensures orders { IsPrefix seat.old.orders seat.new.orders }
        ensures held { batch.new.errands ≡ [] }
        ensures shut { IfErr result (λ e. (f : FrameView) → e ≡ HubFault.GateShut f
            → G.may_shut self.now.gate (SessionId.Server seat.old.number)) }
        ensures full { IfErr result (λ e. (f : FrameView) → e ≡ HubFault.SeatFull f
            → seat.old.room ≤ length seat.new.receipts) }
        ensures same { (seat.new.number ≡ seat.old.number) × (batch.new.room ≡ batch.old.room) }
    {
        self.run_server(rt, &mut seat.seat, batch, now)
    }

    fn run_client<R: Wait>(
        &self,
        rt: &R,
        seat: &mut Seat<L>,
        batch: &mut Batch,
        now: u64,
    ) -> Result<(), HubFault>
        requires { (0 < seat.old.number) × (0 < L.sessions) }
        ensures event { OnOk result (RunsDown now L.sessions L.servers self.now.slots.window seat.old.number
            batch.old.frames batch.new.frames
            seat.old.receipts seat.new.receipts [] seat.old.orders seat.new.orders) }
        ensures stopped { IfErr result (λ e. (f : FrameView) × (handed_back e ≡ Some f)
            × RunsDown now L.sessions L.servers self.now.slots.window seat.old.number
            batch.old.frames (f ∷ batch.new.frames)
            seat.old.receipts seat.new.receipts [] seat.old.orders seat.new.orders) }
        ensures took { OnOk result (TakesCounted IsRecordOfDown batch.old.frames
            batch.new.frames seat.old seat.new) }
        ensures all { OnOk result (length batch.new.frames ≡ 0) }
        ensures refused { IfErr result (λ e. (f : FrameView) × (handed_back e ≡ Some f)
            × TakesCounted IsRecordOfDown batch.old.frames
            (f ∷ batch.new.frames) seat.old seat.new) }
        ensures read { IfErr result (λ e. IfSome (handed_back e) (λ f. IsTrue f.as_read)) }
        ensures orders { IsPrefix seat.old.orders seat.new.orders }
        ensures held { batch.new.errands ≡ [] }
        ensures shut { IfErr result (λ e. (f : FrameView) → e ≡ HubFault.GateShut f
            → G.may_shut self.now.gate (SessionId.Client seat.old.number)) }
        ensures full { IfErr result (λ e. (f : FrameView) → e ≡ HubFault.SeatFull f
            → seat.old.room ≤ length seat.new.receipts) }
        ensures still { OnErr result ((f : FrameView) → batch.old.frames ≡ f ∷ [] → seat.new ≡ seat.old) }
        ensures same { (seat.new.number ≡ seat.old.number) × (batch.new.room ≡ batch.old.room) }
    {
        let before = seat.receipt_count();
        let (result, claims) = self.start_downs(rt, seat, batch, now);
        if batch.errands.len() == 0 {
            // Nothing was taken.
            return result;
        }
        let made = seat.receipt_count().saturating_sub(before) as u64;
        self.hand_clients_on(rt, seat, batch, claims, now, made);
        result
    }

    /// What the steps of a batch led to, of which these records were made.
    fn hand_clients_on<R: Wait>(
        &self,
        rt: &R,
        seat: &mut Seat<L>,
        batch: &mut Batch,
        claims: Pass<L>,
        now: u64,
        made: u64,
    )
        requires claims { HasClaims claims batch.old.errands }
        ensures handed { HandsOn now L.sessions L.servers None seat.old.orders seat.new.orders batch.old.errands
            (RecallsAll now L.sessions L.servers self.now.slots.window seat.old.number) }
        ensures same { seat.new ≡ record seat.old { amount = seat.new.amount; orders = seat.new.orders } }
        ensures orders { IsPrefix seat.old.orders seat.new.orders }
        ensures more { seat.old.amount + made ≤ seat.new.amount }
        ensures end { batch.new ≡ record batch.old { errands = [] } }
    {
        let client = seat.number();
        let (mut claims, mut made) = (claims, made);
        batch.rings.add(SessionId::Client(client));
        self.slots.carry(
            rt,
            &mut seat.routes,
            batch,
            &mut claims,
            None,
            now,
            &mut made,
        );
        if batch.errands.are_last() {
            batch.rings.add_all();
            self.slots.recall_all(rt, client, now, &mut made);
        }
        batch.end();
        seat.count(&mut *self.count.lock(rt), made);
    }

    fn run_server<R: Wait>(
        &self,
        rt: &R,
        seat: &mut Seat<L>,
        batch: &mut Batch,
        now: u64,
    ) -> Result<(), HubFault>
        requires { 0 < L.servers }
        ensures event { OnOk result (RunsUp now L.sessions L.servers self.now.slots.server_window seat.old.number
            batch.old.frames batch.new.frames
            seat.old.receipts seat.new.receipts [] seat.old.orders seat.new.orders) }
        ensures stopped { IfErr result (λ e. (f : FrameView) × (handed_back e ≡ Some f)
            × RunsUp now L.sessions L.servers self.now.slots.server_window seat.old.number
            batch.old.frames (f ∷ batch.new.frames)
            seat.old.receipts seat.new.receipts [] seat.old.orders seat.new.orders) }
        ensures took { OnOk result (TakesCounted IsRecordOf batch.old.frames
            batch.new.frames seat.old seat.new) }
        ensures all { OnOk result (length batch.new.frames ≡ 0) }
        ensures refused { IfErr result (λ e. (f : FrameView) × (handed_back e ≡ Some f)
            × TakesCounted IsRecordOf batch.old.frames
            (f ∷ batch.new.frames) seat.old seat.new) }
        ensures read { IfErr result (λ e. IfSome (handed_back e) (λ f. IsTrue f.as_read)) }
        ensures orders { IsPrefix seat.old.orders seat.new.orders }
        ensures held { batch.new.errands ≡ [] }
        ensures shut { IfErr result (λ e. (f : FrameView) → e ≡ HubFault.GateShut f
            → G.may_shut self.now.gate (SessionId.Server seat.old.number)) }
        ensures full { IfErr result (λ e. (f : FrameView) → e ≡ HubFault.SeatFull f
            → seat.old.room ≤ length seat.new.receipts) }
        ensures still { OnErr result ((f : FrameView) → batch.old.frames ≡ f ∷ [] → seat.new ≡ seat.old) }
        ensures same { (seat.new.number ≡ seat.old.number) × (batch.new.room ≡ batch.old.room) }
    {
        let before = seat.receipt_count();
        let (result, claims) = self.start_ups(rt, seat, batch, now);
        if batch.errands.len() == 0 {
            // Nothing was taken.
            return result;
        }
        let made = seat.receipt_count().saturating_sub(before) as u64;
        self.hand_servers_on(rt, seat, batch, claims, now, made);
        result
    }

    /// What the steps of a batch led to, of which these records were made.
    fn hand_servers_on<R: Wait>(
        &self,
        rt: &R,
        seat: &mut Seat<L>,
        batch: &mut Batch,
        claims: Pass<L>,
        now: u64,
        made: u64,
    )
        requires claims { HasClaims claims batch.old.errands }
        ensures handed { HandsOn now L.sessions L.servers (Some seat.old.number) seat.old.orders seat.new.orders
            batch.old.errands
            (FailsAll L.sessions L.servers self.now.slots.server_window seat.old.number) }
        ensures same { seat.new ≡ record seat.old { amount = seat.new.amount; orders = seat.new.orders } }
        ensures orders { IsPrefix seat.old.orders seat.new.orders }
        ensures more { seat.old.amount + made ≤ seat.new.amount }
        ensures end { batch.new ≡ record batch.old { errands = [] } }
    {
        let server = seat.number();
        let (mut claims, mut made) = (claims, made);
        batch.rings.add(SessionId::Server(server));
        self.slots.carry(
            rt,
            &mut seat.routes,
            batch,
            &mut claims,
            Some(server),
            now,
            &mut made,
        );
        if batch.errands.are_last() {
            batch.rings.add_all();
            self.slots.fail_all(rt, server, &mut made);
        }
        batch.end();
        seat.count(&mut *self.count.lock(rt), made);
    }

    /// The steps of a batch on the seat's client.
    fn start_downs<R: Wait>(
        &self,
        rt: &R,
        seat: &mut Seat<L>,
        batch: &mut Batch,
        now: u64,
    ) -> (Result<(), HubFault>, Pass<L>)
        requires there { (0 < seat.old.number) × (0 < L.sessions) }
        ensures took { OnOk result.0 (StepsTakenDown now seat.old.number batch.old.frames batch.new.frames
            seat.old.receipts seat.new.receipts [] batch.new.errands) }
        ensures all { OnOk result.0 (length batch.new.frames ≡ 0) }
        ensures refused { IfErr result.0 (λ e. (f : FrameView) × (handed_back e ≡ Some f)
            × StepsTakenDown now seat.old.number batch.old.frames (f ∷ batch.new.frames)
            seat.old.receipts seat.new.receipts [] batch.new.errands) }
        ensures read { IfErr result.0 (λ e. IfSome (handed_back e) (λ f. IsTrue f.as_read)) }
        ensures same { (seat.new ≡ record seat.old { receipts = seat.new.receipts })
            × (batch.new.room ≡ batch.old.room) }
        ensures shut { IfErr result.0 (λ e. (f : FrameView) → e ≡ HubFault.GateShut f
            → G.may_shut self.now.gate (SessionId.Client seat.old.number)) }
        ensures full { IfErr result.0 (λ e. (f : FrameView) → e ≡ HubFault.SeatFull f
            → seat.old.room ≤ length seat.new.receipts) }
        ensures claims { HasClaims result.1 batch.new.errands }
    {
        // Values are in hand within a call alone.
        batch.end();
        let client = seat.number();
        let slot = self.down(client);
        slot.start_all(
            rt,
            &self.slots.book,
            &self.gate,
            client,
            batch,
            &mut seat.receipts,
            now,
        )
    }

    /// The steps of a batch on the seat's server.
    fn start_ups<R: Wait>(
        &self,
        rt: &R,
        seat: &mut Seat<L>,
        batch: &mut Batch,
        now: u64,
    ) -> (Result<(), HubFault>, Pass<L>)
        requires there { 0 < L.servers }
        ensures took { OnOk result.0 (StepsTakenUp now seat.old.number batch.old.frames batch.new.frames
            seat.old.receipts seat.new.receipts [] batch.new.errands) }
        ensures all { OnOk result.0 (length batch.new.frames ≡ 0) }
        ensures refused { IfErr result.0 (λ e. (f : FrameView) × (handed_back e ≡ Some f)
            × StepsTakenUp now seat.old.number batch.old.frames (f ∷ batch.new.frames)
            seat.old.receipts seat.new.receipts [] batch.new.errands) }
        ensures read { IfErr result.0 (λ e. IfSome (handed_back e) (λ f. IsTrue f.as_read)) }
        ensures same { (seat.new ≡ record seat.old { receipts = seat.new.receipts })
            × (batch.new.room ≡ batch.old.room) }
        ensures shut { IfErr result.0 (λ e. (f : FrameView) → e ≡ HubFault.GateShut f
            → G.may_shut self.now.gate (SessionId.Server seat.old.number)) }
        ensures full { IfErr result.0 (λ e. (f : FrameView) → e ≡ HubFault.SeatFull f
            → seat.old.room ≤ length seat.new.receipts) }
        ensures claims { HasClaims result.1 batch.new.errands }
    {
        // Values are in hand within a call alone.
        batch.end();
        let server = seat.number();
        let slot = self.up(server);
        slot.start_all(
            rt,
            &self.slots.book,
            &self.gate,
            server,
            batch,
            &mut seat.receipts,
            now,
        )
    }
}
