//! The core: one step for one event.

ghost use Rattle.std.specs.Prelude.{◌≡◌, ◌<◌, ◌≤◌, ◌^◌, ◌-◌, map, IfErr, IfOk, option_copied};
ghost use Rattle.std.specs.Option.{option_map};
ghost use Rattle.core_world.specs.Calls.{IsReadClient, IsReadServer};
ghost use Rattle.core_world.specs.Events.{IsReadEvent, event_of};
ghost use Rattle.core_world.specs.Hands.{shown};
ghost use Rattle.mux_model.specs.World.{World};
ghost use Rattle.mux_model.specs.Events.{hand_at};
ghost use Rattle.router_core.specs.Looks.{IsDstOf, kind_at, load_at, records_at};
ghost use Rattle.router_core.specs.Worlds.{IsCoreOf, Steps, begun};

use crate::bag::{Item, find, has_room, keep, put_back, take_out};
use crate::spending::{aim, fits, is_missing, use_grows, use_up};
use crate::{Memory, clients, reads, servers};
use client_session::ClientSession;
use core_world::{
    ClientCall, ClientStep, Event, EventRefusal, Hand, HandKind, Note, ServerCall, ServerStep, Use,
};
use mux_history::{InitMode, Limits, Record, SessionId};
use server_session::ServerSession;
use std::alloc::Global;
use std::marker::Model;

type Answer = Result<Note, (EventRefusal, Event)>;

/// The limits of each session, and the number of this boot: 1 to `u64::MAX - 1`.
#[derive(Clone, Copy)]
pub struct CoreConfig {
    pub limits: Limits,
    pub boot: u64,
}

/// The router on one thread. Contracts see its sessions and the values in hand; to which world it
/// belongs is said by `IsCoreOf`.
#[derive(Drop)]
pub struct Core {
    boot: u64,
    limits: Limits,
    clients: Vec<ServerSession>,
    servers: Vec<ClientSession>,
    // By rising numbers.
    hands: Vec<Item>,
    next_hand: u64,
}

impl Model for Core {
    ghost use Rattle.std.specs.Coded.{codes};
    ghost use Rattle.std.specs.FinMap as finite;
    ghost use Rattle.router_core.specs.Bags.{Rises, hands_of};
    ghost use Rattle.router_core.specs.Worlds.{CoreView};

    ghost Value = { CoreView };

    ghost coded = { Prim.hlevel (codes, finite.code) };

    ghost view = { λ c. record {
      boot = c.boot;
      limits = c.limits;
      clients = c.clients.items;
      servers = c.servers.items;
      hands = hands_of c.hands.items;
      next_hand = c.next_hand;
    } };

    ghost invariant = { λ c. Rises 0 c.hands.items c.next_hand };
}

impl Core {
    /// A core with no session.
    pub fn open(alloc: Global, config: CoreConfig) -> Core
        requires { (1 ≤ config.boot) × (config.boot < 2 ^ 64 - 1) }
        ensures { result ≡ begun config.limits config.boot }
    {
        Core {
            boot: config.boot,
            limits: config.limits,
            clients: Vec::new(alloc),
            servers: Vec::new(alloc),
            hands: Vec::new(alloc),
            next_hand: 1,
        }
    }

    /// One event.
    ///
    /// # Errors
    ///
    /// Why it is refused, and the event; nothing has changed then.
    pub fn step(&mut self, alloc: Global, event: Event) -> Answer
        requires { IsReadEvent event }
        ensures step { Steps self.old self.new (event_of event) result }
        ensures err { IfErr result (λ e. (e.1 ≡ event) × (self.new ≡ self.old)) }
    {
        match event {
            Event::OpenClient => self.open_client(alloc),
            Event::OpenServer(mode) => self.open_server(alloc, mode),
            Event::Client { number, step } => self.client_step(alloc, number, step),
            Event::Server { number, step } => self.server_step(alloc, number, step),
            Event::Spend { hand, by } => self.spend(alloc, hand, by),
            Event::TakeOut(SessionId::Client(number)) => self.client_out(number),
            Event::TakeOut(SessionId::Server(number)) => self.server_out(number),
            Event::Restart => self.restart(),
        }
    }

    /// The number of this boot.
    pub fn boot(&self) -> u64
        ensures { result ≡ self.now.boot }
    {
        self.boot
    }

    /// What the value of this number is.
    pub fn hand(&self, number: u64) -> Option<Hand>
        ensures { result ≡ option_map shown (hand_at number self.now.hands) }
    {
        reads::hand(&self.hands, number)
    }

    /// The values in hand, by rising numbers.
    ///
    /// # Errors
    ///
    /// Out of memory alone.
    pub fn hands(&self, alloc: Global) -> Result<Vec<Hand>, Memory>
        ensures { IfOk result (λ l. l.items ≡ map shown self.now.hands) }
    {
        reads::hands(&self.hands, alloc)
    }

    /// The kind of the value of this number.
    pub fn kind(&self, hand: u64) -> Option<HandKind>
        ensures { result ≡ kind_at hand self.now.hands }
    {
        reads::kind(&self.hands, hand)
    }

    /// The destination of the ticket of this number. None if it is no ticket.
    pub fn dst(&self, hand: u64) -> Option<&[u8]>
        ensures { IsDstOf (hand_at hand self.now.hands) (option_copied result) }
    {
        reads::dst(&self.hands, hand)
    }

    /// How many dispatches a session holds, at most `u32::MAX`. None if there is no such session.
    pub fn load(&self, session: SessionId) -> Option<u32>
        ensures { (w : World) → IsCoreOf self.now w → result ≡ load_at w session }
    {
        match session {
            SessionId::Client(number) => reads::client_load(&self.clients, number),
            SessionId::Server(number) => reads::server_load(&self.servers, number),
        }
    }

    /// The records of a session's present epoch, the oldest first. None if there is no such session.
    pub fn records(&self, session: SessionId) -> Option<&[Record]>
        ensures { option_map (λ r. r.now) result ≡ records_at self.now session }
    {
        match session {
            SessionId::Client(number) => reads::client_records(&self.clients, number),
            SessionId::Server(number) => reads::server_records(&self.servers, number),
        }
    }

    pub(crate) fn clients(&self) -> &[ServerSession]
        ensures { result.now ≡ self.now.clients }
    {
        &self.clients
    }

    pub(crate) fn servers(&self) -> &[ClientSession]
        ensures { result.now ≡ self.now.servers }
    {
        &self.servers
    }

    fn open_client(&mut self, alloc: Global) -> Answer
        ensures step { Steps self.old self.new (event_of Event.OpenClient) result }
        ensures err { IfErr result (λ e. (e.1 ≡ Event.OpenClient) × (self.new ≡ self.old)) }
    {
        let number = self.clients.len() as u64 + 1;
        if self.clients.reserve(1).is_err() {
            return Err((EventRefusal::Memory, Event::OpenClient));
        }
        let Ok(session) = ServerSession::open(alloc, self.boot, number, self.limits) else {
            return Err((EventRefusal::Memory, Event::OpenClient));
        };
        self.clients.push_reserved(session);
        Ok(Note::Opened(SessionId::Client(number)))
    }

    fn open_server(&mut self, alloc: Global, mode: InitMode) -> Answer
        ensures step { Steps self.old self.new (event_of (Event.OpenServer mode)) result }
        ensures err { IfErr result (λ e. (e.1 ≡ Event.OpenServer mode) × (self.new ≡ self.old)) }
    {
        let number = self.servers.len() as u64 + 1;
        if self.servers.reserve(1).is_err() {
            return Err((EventRefusal::Memory, Event::OpenServer(mode)));
        }
        let Ok(session) = ClientSession::open(alloc, number, mode, self.limits) else {
            return Err((EventRefusal::Memory, Event::OpenServer(mode)));
        };
        self.servers.push_reserved(session);
        Ok(Note::Opened(SessionId::Server(number)))
    }

    fn server_step(&mut self, alloc: Global, number: u64, step: ServerStep) -> Answer
        requires { IsReadServer step }
        ensures step { Steps self.old self.new (event_of (Event.Server number step)) result }
        ensures err { IfErr result (λ e. (e.1 ≡ Event.Server number step) × (self.new ≡ self.old)) }
    {
        if !servers::is_there(&self.servers, number) {
            return Err((EventRefusal::NoSuchSession, Event::Server { number, step }));
        }
        if !has_room(&mut self.hands, self.next_hand, servers::grows(&step)) {
            return Err((EventRefusal::Memory, Event::Server { number, step }));
        }
        match servers::call(&mut self.servers, alloc, number, ServerCall::Step(step)) {
            Ok(gave) => Ok(keep(&mut self.hands, &mut self.next_hand, gave)),
            Err((why, call)) => {
                let step = servers::into_step(call);
                Err((why, Event::Server { number, step }))
            }
        }
    }

    fn client_step(&mut self, alloc: Global, number: u64, step: ClientStep) -> Answer
        requires { IsReadClient step }
        ensures step { Steps self.old self.new (event_of (Event.Client number step)) result }
        ensures err { IfErr result (λ e. (e.1 ≡ Event.Client number step) × (self.new ≡ self.old)) }
    {
        if !clients::is_there(&self.clients, number) {
            return Err((EventRefusal::NoSuchSession, Event::Client { number, step }));
        }
        if !has_room(&mut self.hands, self.next_hand, clients::grows(&step)) {
            return Err((EventRefusal::Memory, Event::Client { number, step }));
        }
        match clients::call(&mut self.clients, alloc, number, ClientCall::Step(step)) {
            Ok(gave) => Ok(keep(&mut self.hands, &mut self.next_hand, gave)),
            Err((why, call)) => {
                let step = clients::into_step(call);
                Err((why, Event::Client { number, step }))
            }
        }
    }

    fn spend(&mut self, alloc: Global, hand: u64, by: Use) -> Answer
        ensures step { Steps self.old self.new (event_of (Event.Spend hand by)) result }
        ensures err { IfErr result (λ e. (e.1 ≡ Event.Spend hand by) × (self.new ≡ self.old)) }
    {
        if is_missing(&self.servers, by) {
            return Err((EventRefusal::NoSuchSession, Event::Spend { hand, by }));
        }
        let Some(held) = find(&self.hands, hand) else {
            return Err((EventRefusal::NoSuchHand, Event::Spend { hand, by }));
        };
        if !fits(held, by) {
            return Err((EventRefusal::WrongHand, Event::Spend { hand, by }));
        }
        let room = has_room(&mut self.hands, self.next_hand, use_grows(by));
        let Some((place, held)) = take_out(&mut self.hands, hand) else {
            unreachable!()
        };
        match use_up(
            &mut self.clients,
            &mut self.servers,
            alloc,
            room,
            aim(held, by),
        ) {
            Ok(gave) => Ok(keep(&mut self.hands, &mut self.next_hand, gave)),
            Err((why, held)) => {
                let Some(held) = held else { unreachable!() };
                put_back(&mut self.hands, place, hand, held);
                Err((why, Event::Spend { hand, by }))
            }
        }
    }

    fn restart(&mut self) -> Answer
        ensures step { Steps self.old self.new (event_of Event.Restart) result }
        ensures err { IfErr result (λ e. (e.1 ≡ Event.Restart) × (self.new ≡ self.old)) }
    {
        if self.boot >= u64::MAX - 1 {
            return Err((EventRefusal::Memory, Event::Restart));
        }
        self.boot += 1;
        self.clients.clear();
        self.servers.clear();
        self.hands.clear();
        Ok(Note::Booted(self.boot))
    }

    fn server_out(&mut self, number: u64) -> Answer
        ensures step { Steps self.old self.new (event_of (Event.TakeOut (SessionId.Server number))) result }
        ensures err { IfErr result (λ e. (e.1 ≡ Event.TakeOut (SessionId.Server number)) × (self.new ≡ self.old)) }
    {
        let Some(frame) = servers::take_out(&mut self.servers, number) else {
            return Err((
                EventRefusal::NoSuchSession,
                Event::TakeOut(SessionId::Server(number)),
            ));
        };
        Ok(Note::Out(frame))
    }

    fn client_out(&mut self, number: u64) -> Answer
        ensures step { Steps self.old self.new (event_of (Event.TakeOut (SessionId.Client number))) result }
        ensures err { IfErr result (λ e. (e.1 ≡ Event.TakeOut (SessionId.Client number)) × (self.new ≡ self.old)) }
    {
        let Some(frame) = clients::take_out(&mut self.clients, number) else {
            return Err((
                EventRefusal::NoSuchSession,
                Event::TakeOut(SessionId::Client(number)),
            ));
        };
        Ok(Note::Out(frame))
    }
}
