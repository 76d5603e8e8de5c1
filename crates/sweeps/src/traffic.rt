//! A random run of the core, with the records of its sessions by epochs.

ghost use Rattle.core_world.specs.Events.{IsReadEvent};

use crate::dice::Dice;
use crate::events::{
    ClientSays, Cut, ServerSays, cut_off, from_client, from_server, lose, lose_next, on_client,
    on_server,
};
use mux_agree::{DownHistory, UpHistory};
use mux_history::{History, InitMode, Limits, SessionId};
use router_core::{
    ClientStep, Core, CoreConfig, Event, Hand, HandKind, Note, ServerStep, Told, Use,
};
use std::alloc::{AllocError, Global};

/// A dispatch that was sent to a server on a tag.
#[derive(Clone, Copy)]
struct Sent {
    server: u64,
    tag: u32,
}

/// A run that goes on.
#[derive(Drop)]
pub struct Traffic {
    alloc: Global,
    core: Core,
    dice: Dice,
    downs: Vec<DownHistory>,
    ups: Vec<UpHistory>,
    sent: Vec<Sent>,
    now: u64,
    /// How many dispatches clients began.
    begun: u64,
}

/// Small limits, so that epochs are short.
fn limits(dice: &mut Dice) -> Option<Limits> {
    let window = dice.below(7).saturating_add(1) as usize;
    let history = dice.below(40).saturating_add(24) as usize;
    let retries = dice.below(4) as usize;
    Limits::new(65_536, window, 64, history, retries)
}

impl Traffic {
    pub fn new(alloc: Global, seed: u64) -> Option<Traffic> {
        let mut dice = Dice::new(seed);
        let limits = limits(&mut dice)?;
        Some(Traffic {
            alloc,
            core: Core::open(alloc, CoreConfig { limits, boot: 1 }),
            dice,
            downs: Vec::new(alloc),
            ups: Vec::new(alloc),
            sent: Vec::new(alloc),
            now: 0,
            begun: 0,
        })
    }

    /// Its histories, with the present epochs.
    pub fn into_histories(self) -> Result<(Vec<DownHistory>, Vec<UpHistory>), AllocError> {
        let Traffic {
            alloc,
            core,
            mut downs,
            mut ups,
            ..
        } = self;
        for down in downs.iter_mut() {
            add_present(
                alloc,
                &core,
                SessionId::Client(down.client),
                &mut down.epochs,
            )?;
        }
        for up in ups.iter_mut() {
            add_present(alloc, &core, SessionId::Server(up.server), &mut up.epochs)?;
        }
        Ok((downs, ups))
    }

    fn step(&mut self, event: Event) -> Option<Note>
        requires { IsReadEvent event }
    {
        match self.core.step(self.alloc, event) {
            Ok(note) => Some(note),
            Err((_why, back)) => {
                drop(back);
                None
            }
        }
    }

    /// A place among so many.
    fn pick(&mut self, count: usize) -> usize {
        self.dice.below(count as u64) as usize
    }

    fn some_client(&mut self) -> u64 {
        self.dice.below(self.downs.len() as u64).saturating_add(1)
    }

    fn some_server(&mut self) -> u64 {
        self.dice.below(self.ups.len() as u64).saturating_add(1)
    }

    fn some_session(&mut self) -> SessionId {
        if self.dice.below(2) == 0 {
            SessionId::Client(self.some_client())
        } else {
            SessionId::Server(self.some_server())
        }
    }

    fn open_client(&mut self) -> Result<(), AllocError> {
        if let Some(Note::Opened(SessionId::Client(client))) = self.step(Event::OpenClient) {
            let epochs = Vec::new(self.alloc);
            self.downs.push(DownHistory { client, epochs })?;
        }
        Ok(())
    }

    fn open_server(&mut self) -> Result<(), AllocError> {
        let mode = if self.dice.below(5) == 0 {
            InitMode::Probe
        } else {
            InitMode::Plain
        };
        if let Some(Note::Opened(SessionId::Server(server))) = self.step(Event::OpenServer(mode)) {
            let epochs = Vec::new(self.alloc);
            self.ups.push(UpHistory {
                server,
                mode,
                epochs,
            })?;
        }
        Ok(())
    }

    /// Two clients and two servers.
    pub fn begin(&mut self) -> Result<(), AllocError> {
        self.open_client()?;
        self.open_client()?;
        self.open_server()?;
        self.open_server()
    }

    fn note_sent(&mut self, hand: Hand) -> Result<(), AllocError> {
        if let (HandKind::Placed, Some(server)) = (hand.kind, hand.server) {
            self.sent.push(Sent {
                server,
                tag: hand.tag,
            })?;
        }
        Ok(())
    }

    /// Uses a value up. A ticket that no server takes is nacked.
    fn spend(&mut self, hand: Hand) -> Result<(), AllocError> {
        let now = self.now;
        let by = match hand.kind {
            HandKind::Ticket => match self.dice.below(30) {
                0 => Use::Nack,
                1 => Use::Unroute,
                _ => Use::Offer {
                    server: self.some_server(),
                    now,
                },
            },
            HandKind::Placed => Use::Note,
            HandKind::Settled => Use::Settle,
            HandKind::Recall => Use::Recall { now },
            HandKind::Lost => Use::Fail,
        };
        let number = hand.number;
        match self.step(Event::Spend { hand: number, by }) {
            Some(
                Note::Told {
                    hand: Some(given),
                    ..
                },
            ) => self.note_sent(given),
            Some(_) => Ok(()),
            None => {
                if self.dice.below(4) == 0 {
                    self.step(Event::Spend {
                        hand: number,
                        by: Use::Nack,
                    });
                }
                Ok(())
            }
        }
    }

    fn spend_one(&mut self) -> Result<(), AllocError> {
        let hands = self.core.hands(self.alloc)?;
        if hands.is_empty() {
            return Ok(());
        }
        let place = self.pick(hands.len());
        match hands.get(place) {
            Some(hand) => self.spend(*hand),
            None => Ok(()),
        }
    }

    fn says_client(&mut self) {
        let client = self.some_client();
        let says = match self.dice.below(16) {
            0 | 1 | 2 => ClientSays::Discarded,
            3 => ClientSays::Ping,
            4 => ClientSays::Drained,
            _ => ClientSays::Dispatch,
        };
        let place = match says {
            ClientSays::Dispatch => {
                self.begun = self.begun.saturating_add(1);
                self.begun
            }
            _ => self.dice.below(8),
        };
        let event = from_client(client, says, place, self.now);
        self.step(event);
    }

    fn reply(&mut self, place: usize) {
        if place >= self.sent.len() {
            return;
        }
        let sent = self.sent.swap_remove(place);
        let says = match self.dice.below(6) {
            0 | 1 => ServerSays::Nack,
            2 => ServerSays::Error,
            _ => ServerSays::Reply,
        };
        let event = from_server(sent.server, says, sent.tag, self.now);
        self.step(event);
    }

    fn says_server(&mut self) {
        let server = self.some_server();
        let says = match self.dice.below(40) {
            0 | 1 => ServerSays::Lease,
            2 => ServerSays::Drain,
            3 | 4 | 5 => ServerSays::Ping,
            6 => ServerSays::Error,
            _ => ServerSays::Pong,
        };
        let event = from_server(server, says, 1, self.now);
        self.step(event);
    }

    fn does_server(&mut self) {
        let server = self.some_server();
        let now = self.now;
        let event = match self.dice.below(24) {
            0 => on_server(server, ServerStep::Retire(now)),
            1 | 2 | 3 | 4 => on_server(server, ServerStep::Ping(now)),
            _ => on_server(server, ServerStep::Clock(now)),
        };
        self.step(event);
    }

    /// Ends an epoch of a session, if the session may.
    fn cut(&mut self, session: SessionId, how: Cut) -> Result<(), AllocError> {
        let Some(records) = self.core.records(session) else {
            return Ok(());
        };
        let epoch = History::of(self.alloc, records)?;
        if self.step(cut_off(session, how)).is_some() {
            self.keep(session, epoch)?;
        }
        Ok(())
    }

    /// How many records a session has in its present epoch.
    fn length(&self, session: SessionId) -> usize {
        match self.core.records(session) {
            Some(records) => records.len(),
            None => 0,
        }
    }

    /// Rolls a session, the sooner the longer its epoch is.
    fn roll_some(&mut self) -> Result<(), AllocError> {
        let session = self.some_session();
        if self.length(session) as u64 > self.dice.below(60) {
            self.cut(session, Cut::Roll)?;
        }
        Ok(())
    }

    fn seal(&mut self, session: SessionId) -> Result<(), AllocError> {
        self.take_out(session);
        self.cut(session, Cut::Seal)
    }

    fn seal_all(&mut self) -> Result<(), AllocError> {
        for number in 1..=self.ups.len() as u64 {
            self.seal(SessionId::Server(number))?;
        }
        for number in 1..=self.downs.len() as u64 {
            self.seal(SessionId::Client(number))?;
        }
        Ok(())
    }

    fn keep(&mut self, session: SessionId, epoch: History) -> Result<(), AllocError> {
        match session {
            SessionId::Client(number) => {
                if let Some(down) = self.downs.get_mut(number.saturating_sub(1) as usize) {
                    down.epochs.push(epoch)?;
                }
            }
            SessionId::Server(number) => {
                if let Some(up) = self.ups.get_mut(number.saturating_sub(1) as usize) {
                    up.epochs.push(epoch)?;
                }
            }
        }
        Ok(())
    }

    fn lose(&mut self) {
        let session = self.some_session();
        let event = lose(session, self.now);
        self.step(event);
    }

    /// Tells losses of a session that has ended.
    fn tell_losses(&mut self, session: SessionId) {
        for _ in 0..200u64 {
            match self.step(lose_next(session)) {
                Some(
                    Note::Told {
                        told: Told::NoMore,
                        ..
                    },
                ) => break,
                Some(_) => {}
                None => break,
            }
        }
    }

    fn take_out(&mut self, session: SessionId) {
        for _ in 0..64u64 {
            match self.step(Event::TakeOut(session)) {
                Some(Note::Out(Some(_frame))) => {}
                _ => break,
            }
        }
    }

    /// Something happens.
    pub fn turn(&mut self) -> Result<(), AllocError> {
        self.now = self.now.saturating_add(self.dice.below(3));
        match self.dice.below(100) {
            0 => self.open_client()?,
            1 => self.open_server()?,
            2 => self.lose(),
            3 | 4 => {
                let session = self.some_session();
                self.tell_losses(session);
            }
            5 => {
                let client = self.some_client();
                self.step(on_client(client, ClientStep::Drain));
            }
            6 | 7 | 8 => self.says_server(),
            9 | 10 | 11 => self.does_server(),
            12..=15 => self.roll_some()?,
            16 => self.rest()?,
            17..=29 => {
                let session = self.some_session();
                self.take_out(session);
            }
            30..=49 => self.says_client(),
            50..=64 => {
                let count = self.sent.len();
                let place = self.pick(count);
                self.reply(place);
            }
            _ => self.spend_one()?,
        }
        Ok(())
    }

    fn spend_all(&mut self) -> Result<(), AllocError> {
        let hands = self.core.hands(self.alloc)?;
        for hand in &hands {
            self.spend(*hand)?;
            let session = self.some_session();
            self.take_out(session);
        }
        Ok(())
    }

    fn reply_all(&mut self) {
        for _ in 0..self.sent.len() {
            self.reply(0);
        }
    }

    /// Most of what is under way comes to its end, and sessions are sealed.
    fn rest(&mut self) -> Result<(), AllocError> {
        for _ in 0..5u64 {
            self.spend_all()?;
            self.reply_all();
        }
        self.seal_all()
    }

    /// Lets what is under way come to its end.
    pub fn settle(&mut self) -> Result<(), AllocError> {
        for _ in 0..20u64 {
            for number in 1..=self.ups.len() as u64 {
                self.tell_losses(SessionId::Server(number));
            }
            for number in 1..=self.downs.len() as u64 {
                self.tell_losses(SessionId::Client(number));
            }
            self.rest()?;
        }
        Ok(())
    }

    /// How many values are in hand.
    pub fn hands(&self) -> Result<usize, AllocError> {
        Ok(self.core.hands(self.alloc)?.len())
    }
}

fn add_present(
    alloc: Global,
    core: &Core,
    session: SessionId,
    epochs: &mut Vec<History>,
) -> Result<(), AllocError> {
    if let Some(records) = core.records(session) {
        epochs.push(History::of(alloc, records)?)?;
    }
    Ok(())
}
