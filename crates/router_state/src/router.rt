//! A hub, and what the tasks around it share.
ghost use Rattle.std.specs.Prelude.{◌≡◌, IfOk, IfSome};
ghost use Rattle.router_state.specs.Giving.{IsGivenUp, is_rolling};
ghost use Rattle.router_state.specs.Seats.{GoesOn, IsSame, Runs};

use crate::auditor::Auditor;
use crate::host::{Admin, Control, Host, Routed, Seated};
use crate::kinds::Kinds;
use crate::ports::Ports;
use crate::seat::{AnySeat, Rolled, Side};
use crate::shared::Shared;
use crate::stage::Ending;
use crate::unaudited::Unaudited;
use hub::{
    AdminOrder, AdminReply, Batch, ClientSeat, CloseFault, DownFigures, EpochRefusal, EpochRefused,
    Hub, HubFault, HubLedger, OpenGate, OrderFault, OrderSeat, Seats, ServerSeat, UpCounts,
    UpFigures, server_place,
};
use mux_frame::Frame;
use mux_history::{History, KindCounts, Record, ServerId, SessionId};
use operator_port::DestinationRow;
use published_routes::{Listing, Publish, RouteReader};
use route_table::Config;
use std::alloc::{AllocError, Global};
use std::collections::VecDeque;
use std::sync::{Mutex, Wait};
use std::time::{Clock, Instant};

/// What a router takes memory for. It is made before there is a hub: so nothing that is refused has one in hand.
#[derive(Drop)]
pub struct Fittings<L: HubLedger> {
    shared: Shared,
    kinds: Mutex<Kinds>,
    auditor: Auditor,
    left: VecDeque<ClientSeat<L>>,
    free: Vec<ClientSeat<L>>,
    servers: Vec<ServerSeat<L>>,
}

/// The hub, what the tasks around it share, and the seats of those who are done.
///
/// It can't be dropped, but is taken apart by `into_parts`: so no crate but the one that runs it has to prove what dropping
/// a hub comes to.
pub struct Router<L: HubLedger, B: Publish<L>> {
    pub shared: Shared,
    /// The sessions of all connections.
    pub hub: Hub<OpenGate, L, B>,
    /// Looks at the histories that sessions give up.
    pub auditor: Auditor,
    // It is locked while somebody counts, or a session gives histories up, so that no count falls.
    pub(crate) kinds: Mutex<Kinds>,
    // The seats of clients that have left, and of those among them whose sessions were taken out.
    pub(crate) left: Mutex<VecDeque<ClientSeat<L>>>,
    pub(crate) free: Mutex<Vec<ClientSeat<L>>>,
    // Those of servers whose session is over.
    pub(crate) servers: Mutex<Vec<ServerSeat<L>>>,
    // The seat of all operators, and the ticker's.
    operators: Mutex<OrderSeat<L>>,
    ticker: Mutex<OrderSeat<L>>,
    routes: Mutex<RouteReader<L>>,
}

impl<L: HubLedger> Fittings<L> {
    /// Those of a router with this configuration, whose readings count from `start`. Out of memory is the one error.
    pub fn new(
        alloc: Global,
        config: &Config,
        start: Instant,
        ports: Ports,
    ) -> Result<Fittings<L>, AllocError>
        ensures { IfOk result (λ f. f.auditor.is_rolling ≡ is_rolling config.now.audit) }
    {
        Ok(Fittings {
            shared: Shared::new(alloc, config, start, ports)?,
            kinds: Mutex::new(Kinds::none(alloc, config.servers.len())?),
            auditor: Auditor::new(alloc, config)?,
            left: VecDeque::with_capacity(alloc, config.sessions as usize)?,
            free: Vec::with_capacity(alloc, config.sessions as usize)?,
            servers: Vec::with_capacity(alloc, config.servers.len())?,
        })
    }
}

impl<L: HubLedger, B: Publish<L>> Router<L, B> {
    /// A router around a hub that was opened by the same configuration. Operators give their orders by the one seat,
    /// and are shown the routes by `routes`. The clock's readings are handed in by the other.
    pub fn new(
        hub: Hub<OpenGate, L, B>,
        seats: (OrderSeat<L>, OrderSeat<L>),
        routes: RouteReader<L>,
        fittings: Fittings<L>,
    ) -> Router<L, B>
        ensures hub { result.hub ≡ hub }
        ensures fittings { (result.shared ≡ fittings.shared) × (result.auditor ≡ fittings.auditor) }
    {
        let Fittings {
            shared,
            kinds,
            auditor,
            left,
            free,
            servers,
        } = fittings;
        let (operators, ticker) = seats;
        Router {
            shared,
            hub,
            auditor,
            kinds,
            left: Mutex::new(left),
            free: Mutex::new(free),
            servers: Mutex::new(servers),
            operators: Mutex::new(operators),
            ticker: Mutex::new(ticker),
            routes: Mutex::new(routes),
        }
    }

    // What was counted of these destinations, by their marks, and then of all others together.
    fn destinations(&self, marked: Vec<Vec<u8>>) -> Result<Vec<DestinationRow>, AllocError> {
        let mut rows = Vec::new(self.shared.alloc);
        for (mark, dst) in marked.into_iter().enumerate() {
            rows.push(self.destination(u8::try_from(mark).ok(), Some(dst)))
                .map_err(AllocError::from)?;
        }
        rows.push(self.destination(None, None))
            .map_err(AllocError::from)?;
        Ok(rows)
    }

    fn destination(&self, mark: Option<u8>, dst: Option<Vec<u8>>) -> DestinationRow {
        let count = self.hub.destination_count(mark);
        DestinationRow {
            dst,
            dispatches: count.dispatches,
            nacks: count.nacks,
        }
    }

    /// Has the auditor look at what a session gave up, and at whether the receipts of it stand. A fault stops the
    /// router.
    pub(crate) fn give<R: Wait>(&self, rt: &R, unaudited: Unaudited, settled: Result<(), usize>) {
        if let Err(place) = settled {
            let seat = unaudited.given().session;
            self.auditor
                .fail(rt, CloseFault::ReceiptMismatch { seat, place });
        }
        self.auditor.put(rt, unaudited);
        if self.auditor.has_fault() {
            self.shared.switchboard.end(Ending::Audit);
        }
    }

    // What a session gives up, if there is something, and memory for a list.
    fn take_given<R: Wait>(&self, rt: &R, session: SessionId) -> Option<Unaudited>
        ensures { IfSome result (λ u. IsGivenUp session u.given) }
    {
        let Ok(mut histories) = Vec::with_capacity(self.shared.alloc, 1) else {
            return None;
        };
        let mut kinds = self.kinds.lock(rt);
        let first = self.hub.take_ended(rt, session, &mut histories)?;
        let unaudited = Unaudited::new(session, first, histories);
        kinds.give(unaudited.given());
        Some(unaudited)
    }

    fn count<R: Wait>(&self, rt: &R) -> KindCounts {
        let mut kinds = KindCounts::none();
        for place in 0..self.shared.opened() {
            if let Some(more) = self.hub.client_counts(rt, place) {
                kinds = kinds.plus(more);
            }
        }
        for server in 0..self.shared.names.len() {
            if let Some(more) = self.hub.server_counts(rt, server as u64) {
                kinds = kinds.plus(more.steps);
            }
        }
        kinds
    }

    // Ends the present history of a seat's session.
    fn roll_into<R: Wait>(
        &self,
        rt: &R,
        seat: &mut AnySeat<L>,
        fresh: History,
    ) -> Result<(), EpochRefused>
        ensures { GoesOn seat.old seat.new }
    {
        match seat {
            AnySeat::Client(seat) => self.hub.roll_client(rt, seat, fresh),
            AnySeat::Server(seat) => self.hub.roll_server(rt, seat, fresh),
        }
    }

    /// The auditor, the hub, and the seats that came back, once all tasks are done.
    pub fn into_parts(self) -> (Auditor, Hub<OpenGate, L, B>, Seats<L>)
        ensures { (result.0 ≡ self.auditor) × (result.1 ≡ self.hub) }
    {
        let Router {
            shared: _,
            hub,
            auditor,
            kinds: _,
            left,
            free,
            servers,
            operators,
            ticker,
            routes: _,
        } = self;
        let mut clients = free.into_inner();
        // There is room for each seat.
        for seat in left.into_inner() {
            let _ = clients.push(seat);
        }
        let seats = Seats {
            clients,
            servers: servers.into_inner(),
            orders: [operators.into_inner(), ticker.into_inner()],
        };
        (auditor, hub, seats)
    }
}

impl<L: HubLedger, B: Publish<L>> Control for Router<L, B> {
    #[inline(always)]
    fn shared(&self) -> &Shared {
        &self.shared
    }

    fn order<R: Wait>(&self, rt: &R, order: AdminOrder) -> Result<AdminReply, OrderFault> {
        let mut seat = self.operators.lock(rt);
        self.hub.order(rt, self.shared.alloc, &mut *seat, order)
    }

    fn client_at<R: Wait>(&self, rt: &R, place: usize) -> Option<(u64, DownFigures)> {
        self.hub.client_at(rt, place)
    }

    fn server_figures<R: Wait>(&self, rt: &R, place: ServerId) -> Option<UpFigures> {
        self.hub.server_figures(rt, place)
    }

    fn ping<R: Wait>(&self, rt: &R, server: ServerId, now: u64) {
        let mut seat = self.ticker.lock(rt);
        let _ = self.hub.ping(rt, &mut *seat, server, now);
    }

    fn has_place<R: Wait>(&self, rt: &R) -> bool {
        if self.shows_place(rt) {
            return true;
        }
        // What was under way of a client that has left may have ended since the last tick.
        self.put_left_away(rt);
        self.shows_place(rt)
    }

    fn next_outs<R: Wait>(
        &self,
        rt: &R,
        session: SessionId,
        frames: &mut VecDeque<Frame>,
    ) -> usize {
        self.hub.next_outs(rt, session, frames).came
    }

    fn ask_last(&self, place: ServerId, until: u64) {
        let until = until.max(self.hub.last_until(place));
        self.hub.ask_last(place, until);
        if let Some(upstream) = self.shared.switchboard.upstreams().get(place as usize) {
            upstream.ask_last(until);
        }
    }

    fn is_backlogged(&self, session: SessionId) -> bool {
        self.hub.is_backlogged(session)
    }

    fn wants_rest(&self, session: SessionId) -> bool {
        self.hub.wants_rest(session)
    }
}

impl<L: HubLedger, B: Publish<L>> Admin for Router<L, B> {
    fn auditor(&self) -> &Auditor {
        &self.auditor
    }

    fn routes<R: Wait>(&self, rt: &R) -> Result<Routed, AllocError> {
        let mut reader = self.routes.lock(rt);
        let Listing { routes, marked } = reader.list(rt, self.shared.alloc)?;
        drop(reader);
        let destinations = self.destinations(marked)?;
        Ok(Routed {
            routes,
            destinations,
        })
    }

    fn records_of<R: Wait>(
        &self,
        rt: &R,
        session: SessionId,
        most: usize,
    ) -> Result<Vec<Record>, AllocError> {
        let alloc = self.shared.alloc;
        match session {
            SessionId::Client(client) => self.hub.client_records(rt, alloc, client, most),
            SessionId::Server(server) => self.hub.server_records(rt, alloc, server, most),
        }
    }

    fn steps<R: Wait>(&self, rt: &R) -> KindCounts {
        let kinds = self.kinds.lock(rt);
        kinds.given().plus(self.count(rt))
    }

    fn steps_with<R: Wait>(&self, rt: &R, place: ServerId) -> UpCounts {
        let kinds = self.kinds.lock(rt);
        let given = kinds.given_of(place as usize);
        match self.hub.server_counts(rt, place) {
            Some(present) => present.plus(given),
            None => given,
        }
    }

    fn tick<R: Wait>(&self, rt: &R, now: u64) {
        self.put_left_away(rt);
        let mut seat = self.ticker.lock(rt);
        self.hub.clock(rt, &mut *seat, now);
        let _ = self.hub.seal(rt, self.shared.alloc, &mut *seat);
        let _ = self.hub.roll(rt, self.shared.alloc, &mut *seat);
    }
}

impl<L: HubLedger, B: Publish<L>> Host for Router<L, B> {
    type Seat = AnySeat<L>;

    ghost runs = { λ h now before after s t. Runs now L.sessions L.servers h.hub.slots.window
        h.hub.slots.server_window before after s t };

    ghost is_same = { λ h s t. IsSame s t };

    ghost goes_on = { λ h s t. GoesOn s t };

    fn open<R: Wait>(&self, rt: &R, side: Side) -> Result<AnySeat<L>, HubFault> {
        match side {
            Side::Client { .. } => {
                let seat = self.open_client(rt)?;
                Ok(AnySeat::Client(seat))
            }
            Side::Server(server) => {
                let seat = self.open_server(rt, server)?;
                Ok(AnySeat::Server(seat))
            }
        }
    }

    #[inline(always)]
    fn frames<R: Wait>(
        &self,
        rt: &R,
        seat: &mut AnySeat<L>,
        batch: &mut Batch,
        now: u64,
    ) -> Result<(), HubFault> {
        match seat {
            AnySeat::Client(seat) => self.hub.client_frames(rt, seat, batch, now),
            AnySeat::Server(seat) => self.hub.server_frames(rt, seat, batch, now),
        }
    }

    fn grow(&self, seat: &mut AnySeat<L>) -> Result<(), AllocError> {
        seat.grow()
    }

    #[tactic(auto, using(crate::proofs::Staying::goes_on))]
    fn roll<R: Wait>(&self, rt: &R, seat: &mut AnySeat<L>) -> Rolled {
        let limits = self.shared.limits.of(seat.session());
        let Ok(fresh) = History::with_room(self.shared.alloc, limits.history()) else {
            return Rolled::NoMemory;
        };
        match self.roll_into(rt, seat, fresh) {
            Ok(()) => Rolled::Begun,
            Err(
                EpochRefused {
                    why: EpochRefusal::Memory,
                    ..
                },
            ) => Rolled::NoMemory,
            Err(_) => Rolled::Refused,
        }
    }

    #[tactic(auto, using(crate::proofs::Staying::goes_on))]
    fn take_ended<R: Wait>(&self, rt: &R, seat: &mut AnySeat<L>) {
        let session = seat.session();
        if !self.auditor.is_rolling || !self.hub.has_ended(session) {
            return;
        }
        self.auditor.begin();
        if let Some(unaudited) = self.take_given(rt, session) {
            let given = unaudited.given();
            let settled = seat.settle(given.first, given.histories.as_slice());
            self.give(rt, unaudited, settled);
        }
    }

    fn lose<R: Wait + Clock>(&self, rt: &R, seat: AnySeat<L>) {
        let now = self.shared.now(rt);
        match seat {
            AnySeat::Client(mut seat) => {
                self.hub.lose_client(rt, &mut seat, now);
                self.put_away(rt, seat);
            }
            AnySeat::Server(mut seat) => {
                self.hub.lose_server(rt, &mut seat, now);
                self.put_server(rt, seat);
            }
        }
        self.shared.switchboard.ring_every();
    }
}
