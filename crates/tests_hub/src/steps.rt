//! Calls of a hub, and what they lead to.
//!
//! Calls of clients and those of servers are twins, since their seats are two types.
ghost use Rattle.std.specs.Prelude.{◌≡◌, IsTrue};

use crate::bells::{hand_in, take_two};
use crate::epochs::{List, Trial};
use crate::frames::is_frame;
use bytes::Bytes;
use hub::{
    AdminOrder, AdminReply, Batch, ClientSeat, Hub, HubFault, HubLedger, OpenGate, OrderFault,
    OrderSeat, Receipt, Seats, ServerSeat,
};
use mux_frame::Frame;
use mux_history::{KindCounts, ServerId, SessionId};
use published_routes::Publish;
use std::alloc::{AllocError, Global};
use std::sync::Wait;
use translate_book::StepRefusal;

/// How the frames of `Do::Take` are handed in.
#[derive(Clone, Copy, Debug)]
pub enum Way {
    /// One a call.
    Alone,
    /// As a batch of one.
    Batched,
}

/// A call of the hub. Clients are opened in the order of their numbers, servers likewise.
#[derive(Clone, Copy)]
pub enum Do {
    OpenClient,
    OpenServer(ServerId),
    /// A frame that comes from the other side of a session: its type, tag and body, and the reading.
    Take(SessionId, i8, u16, &'static [u8], u64),
    /// Two frames that come in one batch from the other side of a session: their type, tags and bodies.
    TakeTwo(SessionId, i8, [u16; 2], &'static [u8], &'static [u8]),
    /// The frame that is to be taken out of a session.
    TakeOut(SessionId, i8, u16, &'static [u8]),
    Lose(SessionId, u64),
    /// The servers of `/s/a`, as the seat of this session finds them.
    Find(SessionId),
    Clock(u64),
    Seal,
    Roll,
    /// Whether the epoch of this session should end.
    WantsRest(SessionId),
    /// The seat of this session ends its present history.
    RollOwn(SessionId),
    /// Whether histories of this session have ended that it hasn't given up.
    HasEnded(SessionId),
    /// This session gives those histories up, into this list. Behind this trial the receipts of its seat are held
    /// against them, and an audit takes them.
    GiveUp(SessionId, List, Trial),
    /// This session is taken out. The receipts of its seat are held against all that it had left, and an audit takes
    /// it, and is told that it has ended.
    Finish(SessionId),
    /// The seat of this session acts for the next one of the slot.
    Renew(SessionId),
    Drain(u64),
    Retire(&'static str),
    /// Dispatches to `/s/a` go to this server from now on.
    Route(&'static str),
    /// No server takes dispatches to `/s/a`.
    Unroute,
    Status,
    Quit,
    /// The seat of this client learns the orders of routes.
    Learn(u64),
    /// How many records of all sessions are of each kind that is counted.
    Count,
}

/// What it led to.
#[derive(Clone, Copy, PartialEq, Eq)]
pub enum Told {
    Done,
    Refused(StepRefusal),
    GateShut,
    TooManySessions,
    SeatFull,
    NoReader,
    Memory,
    Failed(OrderFault),
    /// So many sessions were sealed.
    Sealed(u32),
    /// So many sessions were rolled.
    Rolled(u32),
    /// Whether the session's epoch should end.
    Wanted(bool),
    /// The session wasn't rolled: the empty history that came back has so many places.
    CameBack(usize),
    /// Whether histories of the session have ended that it hasn't given up.
    Ended(bool),
    /// The session gave nothing up, and the list has as many histories.
    KeptBack(usize),
    /// The number of the first epoch that was given up; how many records the first two have; the place of the receipt
    /// that the trial found wrong; how many receipts were dropped, and are left.
    GaveUp {
        first: u32,
        lens: [usize; 2],
        wrong: Option<usize>,
        receipts: [usize; 2],
    },
    /// A history or a receipt is at fault.
    AtFault,
    /// The number of the run, and of how many sessions it was told.
    Report(u64, usize),
    Bye,
    /// How often the bell was rung for a client, for the servers 0 and 1, and for all: while more
    /// frames wait, and once no more do.
    Rung([[u32; 4]; 2]),
    /// The first server that was found, if there is a route.
    Found(Option<ServerId>),
    Counted(KindCounts),
    /// A frame of the batch was refused, or left in it.
    NotTaken,
    /// Another frame was queued, or none.
    NotThere,
    /// No such session was opened.
    NoSeat,
    /// Whatever it is. No step is answered so.
    Anything,
}

impl Told {
    /// Whether memory was refused, so that the call may be made again.
    pub fn is_refused_memory(self) -> bool {
        match self {
            Told::NoReader | Told::Memory | Told::Failed(OrderFault::Memory) => true,
            _ => false,
        }
    }
}

pub fn fault(fault: HubFault) -> Told {
    match fault {
        HubFault::Session(refusal, _) => Told::Refused(refusal),
        HubFault::GateShut(_) => Told::GateShut,
        HubFault::TooManySessions => Told::TooManySessions,
        HubFault::Memory => Told::Memory,
        HubFault::SeatFull(_) => Told::SeatFull,
        HubFault::NoReader => Told::NoReader,
    }
}

fn taken(answer: Result<Receipt, HubFault>) -> Told {
    match answer {
        Ok(_) => Told::Done,
        Err(why) => fault(why),
    }
}

/// Opens the next client's session.
fn open_client<L: HubLedger, B: Publish<L>, R: Wait>(
    rt: &R,
    alloc: Global,
    hub: &Hub<OpenGate, L, B>,
    seats: &mut Seats<L>,
) -> Told {
    if seats.clients.reserve(1).is_err() {
        return Told::Memory;
    }
    match hub.open_client(rt, alloc) {
        Ok(seat) => match seats.clients.push(seat) {
            Ok(()) => Told::Done,
            Err(_) => Told::Memory,
        },
        Err(why) => fault(why),
    }
}

fn open_server<L: HubLedger, B: Publish<L>, R: Wait>(
    rt: &R,
    alloc: Global,
    hub: &Hub<OpenGate, L, B>,
    seats: &mut Seats<L>,
    server: ServerId,
) -> Told {
    if seats.servers.reserve(1).is_err() {
        return Told::Memory;
    }
    match hub.open_server(rt, alloc, server) {
        Ok(seat) => match seats.servers.push(seat) {
            Ok(()) => Told::Done,
            Err(_) => Told::Memory,
        },
        Err(why) => fault(why),
    }
}

/// The seat of a client.
pub fn seat_of<L: HubLedger>(
    seats: &mut Vec<ClientSeat<L>>,
    client: u64,
) -> Option<&mut ClientSeat<L>> {
    seats.iter_mut().find(|seat| seat.client() == client)
}

/// The seat of a server's session.
pub fn server_seat_of<L: HubLedger>(
    seats: &mut Vec<ServerSeat<L>>,
    server: ServerId,
) -> Option<&mut ServerSeat<L>> {
    seats.iter_mut().find(|seat| seat.server() == server)
}

fn take_alone<L: HubLedger, B: Publish<L>, R: Wait>(
    rt: &R,
    hub: &Hub<OpenGate, L, B>,
    seats: &mut Seats<L>,
    session: SessionId,
    frame: Frame,
    now: u64,
) -> Told
    requires { IsTrue frame.as_read }
{
    match session {
        SessionId::Client(client) => match seat_of(&mut seats.clients, client) {
            Some(seat) => taken(hub.client_frame(rt, seat, frame, now)),
            None => Told::NoSeat,
        },
        SessionId::Server(server) => match server_seat_of(&mut seats.servers, server) {
            Some(seat) => taken(hub.server_frame(rt, seat, frame, now)),
            None => Told::NoSeat,
        },
    }
}

fn take_batched<L: HubLedger, B: Publish<L>, R: Wait>(
    rt: &R,
    alloc: Global,
    hub: &Hub<OpenGate, L, B>,
    seats: &mut Seats<L>,
    session: SessionId,
    frame: Frame,
    now: u64,
) -> Told
    requires { IsTrue frame.as_read }
{
    let Ok(mut batch) = Batch::new(alloc) else {
        return Told::Memory;
    };
    let _full = batch.push(frame);
    match hand_in(rt, hub, seats, session, &mut batch, now) {
        Some(Ok(())) => Told::Done,
        Some(Err(why)) => fault(why),
        None => Told::NoSeat,
    }
}

fn take_out<L: HubLedger, B: Publish<L>, R: Wait>(
    rt: &R,
    hub: &Hub<OpenGate, L, B>,
    session: SessionId,
    kind: i8,
    tag: u16,
    body: &[u8],
) -> Told {
    match hub.next_out(rt, session) {
        Some(frame) if is_frame(&frame, kind, u32::from(tag), body) => Told::Done,
        _ => Told::NotThere,
    }
}

fn lose<L: HubLedger, B: Publish<L>, R: Wait>(
    rt: &R,
    hub: &Hub<OpenGate, L, B>,
    seats: &mut Seats<L>,
    session: SessionId,
    now: u64,
) -> Told {
    match session {
        SessionId::Client(client) => match seat_of(&mut seats.clients, client) {
            Some(seat) => hub.lose_client(rt, seat, now),
            None => return Told::NoSeat,
        },
        SessionId::Server(server) => match server_seat_of(&mut seats.servers, server) {
            Some(seat) => hub.lose_server(rt, seat, now),
            None => return Told::NoSeat,
        },
    }
    Told::Done
}

fn find<L: HubLedger, B: Publish<L>, R: Wait>(
    rt: &R,
    hub: &Hub<OpenGate, L, B>,
    seats: &mut Seats<L>,
    session: SessionId,
) -> Told {
    let found = match session {
        SessionId::Client(client) => match seat_of(&mut seats.clients, client) {
            Some(seat) => hub.find(rt, seat, b"/s/a"),
            None => return Told::NoSeat,
        },
        SessionId::Server(server) => match server_seat_of(&mut seats.servers, server) {
            Some(seat) => hub.find_server(rt, seat, b"/s/a"),
            None => return Told::NoSeat,
        },
    };
    match found {
        Some(servers) => Told::Found(servers.as_slice().first().copied()),
        None => Told::Found(None),
    }
}

fn clock<L: HubLedger, B: Publish<L>, R: Wait>(
    rt: &R,
    hub: &Hub<OpenGate, L, B>,
    seats: &mut Seats<L>,
    now: u64,
) -> Told {
    hub.clock(rt, &mut seats.orders[0], now);
    Told::Done
}

fn seal<L: HubLedger, B: Publish<L>, R: Wait>(
    rt: &R,
    alloc: Global,
    hub: &Hub<OpenGate, L, B>,
    seats: &mut Seats<L>,
) -> Told {
    match hub.seal(rt, alloc, &mut seats.orders[0]) {
        Ok(sealed) => Told::Sealed(sealed),
        Err(_) => Told::Memory,
    }
}

fn roll<L: HubLedger, B: Publish<L>, R: Wait>(
    rt: &R,
    alloc: Global,
    hub: &Hub<OpenGate, L, B>,
    seats: &mut Seats<L>,
) -> Told {
    match hub.roll(rt, alloc, &mut seats.orders[0]) {
        Ok(rolled) => Told::Rolled(rolled),
        Err(_) => Told::Memory,
    }
}

fn learn<L: HubLedger>(
    clients: &mut Vec<ClientSeat<L>>,
    orders: &mut [OrderSeat<L>; 2],
    client: u64,
) -> Told {
    match seat_of(clients, client) {
        Some(seat) => seat.learn(&mut orders[1]),
        None => return Told::NoSeat,
    }
    Told::Done
}

fn route_to(alloc: Global, name: &str) -> Result<AdminOrder, AllocError> {
    Ok(AdminOrder::Route {
        dst: Vec::from_slice(alloc, b"/s/a")?,
        names: vec![in alloc; String::from_str(alloc, name)?]?,
    })
}

/// The order that a step gives.
fn order_of(alloc: Global, step: Do) -> Result<AdminOrder, AllocError> {
    Ok(match step {
        Do::Drain(client) => AdminOrder::DrainClient(client),
        Do::Retire(name) => AdminOrder::Retire(String::from_str(alloc, name)?),
        Do::Route(name) => route_to(alloc, name)?,
        Do::Unroute => AdminOrder::Unroute(Vec::from_slice(alloc, b"/s/a")?),
        Do::Quit => AdminOrder::Quit,
        _ => AdminOrder::Status,
    })
}

fn replied(reply: AdminReply) -> Told {
    match reply {
        AdminReply::Done => Told::Done,
        AdminReply::Report { boot, rows } => Told::Report(boot, rows.len()),
        AdminReply::Bye => Told::Bye,
        AdminReply::Failed(why) => Told::Failed(why),
    }
}

fn order<L: HubLedger, B: Publish<L>, R: Wait>(
    rt: &R,
    alloc: Global,
    hub: &Hub<OpenGate, L, B>,
    seats: &mut Seats<L>,
    step: Do,
) -> Told {
    let Ok(order) = order_of(alloc, step) else {
        return Told::Memory;
    };
    match hub.order(rt, alloc, &mut seats.orders[1], order) {
        Ok(reply) => replied(reply),
        Err(why) => Told::Failed(why),
    }
}

/// How many records of all sessions are of each kind that is counted.
pub fn counts_of<L: HubLedger, B: Publish<L>, R: Wait>(
    rt: &R,
    hub: &Hub<OpenGate, L, B>,
) -> KindCounts {
    let mut counts = KindCounts::none();
    for place in 0..8 {
        if let Some(more) = hub.client_counts(rt, place as usize) {
            counts = counts.plus(more);
        }
        if let Some(more) = hub.server_counts(rt, place) {
            counts = counts.plus(more.steps);
        }
    }
    counts
}

pub fn does<L: HubLedger, B: Publish<L>, R: Wait>(
    rt: &R,
    alloc: Global,
    hub: &Hub<OpenGate, L, B>,
    seats: &mut Seats<L>,
    way: Way,
    step: Do,
) -> Told {
    match step {
        Do::OpenClient => open_client(rt, alloc, hub, seats),
        Do::OpenServer(server) => open_server(rt, alloc, hub, seats, server),
        Do::Take(session, kind, tag, body, now) => {
            let frame = Frame::read(kind, u32::from(tag), Bytes::from_static(body));
            match way {
                Way::Alone => take_alone(rt, hub, seats, session, frame, now),
                Way::Batched => take_batched(rt, alloc, hub, seats, session, frame, now),
            }
        }
        Do::TakeTwo(session, kind, tags, first, second) => {
            let bodies = [first, second];
            take_two(rt, alloc, hub, seats, session, (kind, tags, bodies))
        }
        Do::TakeOut(session, kind, tag, body) => take_out(rt, hub, session, kind, tag, body),
        Do::Lose(session, now) => lose(rt, hub, seats, session, now),
        Do::Find(session) => find(rt, hub, seats, session),
        Do::Clock(now) => clock(rt, hub, seats, now),
        Do::Seal => seal(rt, alloc, hub, seats),
        Do::Roll => roll(rt, alloc, hub, seats),
        Do::WantsRest(session) => Told::Wanted(hub.wants_rest(session)),
        Do::Learn(client) => learn(&mut seats.clients, &mut seats.orders, client),
        Do::Count => Told::Counted(counts_of(rt, hub)),
        _ => order(rt, alloc, hub, seats, step),
    }
}
