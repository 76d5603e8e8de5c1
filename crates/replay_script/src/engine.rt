//! A script's commands, carried out over the core.

ghost use Rattle.core_world.specs.Events.{IsReadEvent};

use crate::command::{Command, Route, Step};
use crate::connections::Connections;
use crate::end::Stop;
use crate::events::{retire_event, step_event};
use crate::judging::Judge;
use crate::placing::{place, spend};
use crate::printer::Printer;
use crate::receiving::{end, lose, receive};
use crate::router::Router;
use crate::stream::Stream;
use core_world::{Event, EventRefusal, Note};
use mux_frame::FrameCodec;
use mux_history::{History, InitMode, Limits, ServerId, SessionId};
use route_table::Routes;
use std::alloc::{AllocError, Global};
use std::io::Write;
use std::mem;

/// The core, the streams in front of it and the routes.
#[derive(Drop)]
pub struct Engine {
    alloc: Global,
    limits: Limits,
    router: Router,
    connections: Connections,
    routes: Routes,
    // A command was carried out.
    begun: bool,
    // The histories, if they are to be held against each other.
    judge: Option<Judge>,
}

impl Engine {
    /// A core with no session, whose sessions have these limits, and no routes. Out of memory is the one error.
    pub fn open(alloc: Global, limits: Limits) -> Result<Engine, AllocError> {
        Ok(Engine {
            alloc,
            limits,
            router: Router::open(alloc, limits)?,
            connections: Connections::new(alloc),
            routes: Routes::new(alloc),
            begun: false,
            judge: None,
        })
    }

    /// One command, with what it prints. Limits that aren't the first command are a bad line.
    pub fn carry_out<W: Write + Drop>(
        &mut self,
        command: Command,
        printer: &mut Printer<W>,
    ) -> Result<(), Stop> {
        if let Command::Nothing = command {
            return Ok(());
        }
        let is_first = !mem::replace(&mut self.begun, true);
        match command {
            Command::Nothing => Ok(()),
            Command::Judge => self.begin_judging(is_first),
            Command::Limits(limits) if is_first => self.limit(limits),
            Command::Limits(_) => Err(Stop::BadLine),
            Command::Now(now) => {
                self.router.now = now;
                Ok(())
            }
            Command::Hold(holding) => self.hold(holding, printer),
            Command::OpenClient => self.open_session(Event::OpenClient, InitMode::Plain, printer),
            Command::OpenServer(mode) => self.open_session(Event::OpenServer(mode), mode, printer),
            Command::In { session, bytes } => self.take_in(session, &bytes, printer),
            Command::End(session) => self.end(session, printer),
            Command::Lose(session) => self.lose(session, printer),
            Command::Step(step) => self.step(step, printer),
            Command::Retire(server) => self.retire(server, printer),
            Command::Spend { hand, by } => spend(&mut self.router, hand, by, printer),
            Command::Route(route) => self.set_route(&route),
            Command::Place(hand) => place(&mut self.router, &self.routes, hand, printer),
            Command::Restart => self.restart(printer),
        }
    }

    // Nothing has happened yet, so no record is missed. Limits may still follow.
    fn begin_judging(&mut self, is_first: bool) -> Result<(), Stop> {
        if !is_first || self.judge.is_some() {
            return Err(Stop::BadLine);
        }
        self.judge = Some(Judge::new(self.alloc));
        self.begun = false;
        Ok(())
    }

    /// The script has ended, or a boot: its histories are held against each other.
    pub fn judge<W: Write + Drop>(&mut self, printer: &mut Printer<W>) -> Result<(), Stop> {
        let Some(judge) = mem::replace(&mut self.judge, None) else {
            return Ok(());
        };
        printer.judged(judge.judge(&self.router)?)?;
        self.judge = Some(Judge::new(self.alloc));
        Ok(())
    }

    fn set_route(&mut self, route: &Route) -> Result<(), Stop> {
        Ok(self.routes.set(self.alloc, &route.dst, &route.servers)?)
    }

    // Nothing has happened yet.
    fn limit(&mut self, limits: Limits) -> Result<(), Stop> {
        self.limits = limits;
        self.router = Router::open(self.alloc, limits)?;
        Ok(())
    }

    fn hold<W: Write + Drop>(
        &mut self,
        holding: bool,
        printer: &mut Printer<W>,
    ) -> Result<(), Stop> {
        self.router.holding = holding;
        self.router.send(printer)
    }

    fn open_session<W: Write + Drop>(
        &mut self,
        event: Event,
        mode: InitMode,
        printer: &mut Printer<W>,
    ) -> Result<(), Stop>
        requires { IsReadEvent event }
    {
        if let Some(Note::Opened(session)) = self.router.happen(event, printer)? {
            if let Some(judge) = &mut self.judge {
                judge.open(session, mode)?;
            }
            let codec = FrameCodec::new(self.limits.max_frame());
            let stream = Stream::new(self.alloc, session, codec);
            self.connections.push(session, stream)?;
        }
        self.router.send(printer)
    }

    fn take_in<W: Write + Drop>(
        &mut self,
        session: SessionId,
        bytes: &[u8],
        printer: &mut Printer<W>,
    ) -> Result<(), Stop> {
        match self.connections.get(session) {
            Some(stream) => receive(&mut self.router, stream, bytes, printer),
            None => printer.refused(EventRefusal::NoSuchSession),
        }
    }

    fn end<W: Write + Drop>(
        &mut self,
        session: SessionId,
        printer: &mut Printer<W>,
    ) -> Result<(), Stop> {
        match self.connections.get(session) {
            Some(stream) => end(&mut self.router, stream, printer),
            None => printer.refused(EventRefusal::NoSuchSession),
        }
    }

    fn lose<W: Write + Drop>(
        &mut self,
        session: SessionId,
        printer: &mut Printer<W>,
    ) -> Result<(), Stop> {
        match self.connections.get(session) {
            Some(stream) => lose(&mut self.router, stream, printer),
            None => printer.refused(EventRefusal::NoSuchSession),
        }
    }

    fn step<W: Write + Drop>(&mut self, step: Step, printer: &mut Printer<W>) -> Result<(), Stop> {
        match step {
            Step::Seal(session) => return self.end_epoch(step, session, printer),
            Step::Roll(session) => return self.end_epoch(step, session, printer),
            _ => {}
        }
        let event = step_event(step, self.router.now);
        self.router.happen(event, printer)?;
        self.router.send(printer)
    }

    // The history that ends is kept, if there is a judge.
    fn end_epoch<W: Write + Drop>(
        &mut self,
        step: Step,
        session: SessionId,
        printer: &mut Printer<W>,
    ) -> Result<(), Stop> {
        let event = step_event(step, self.router.now);
        match &mut self.judge {
            None => {
                self.router.happen(event, printer)?;
            }
            Some(judge) => {
                let ended = History::of(self.alloc, self.router.records(session))?;
                if self.router.happen(event, printer)?.is_some() {
                    judge.keep(session, ended)?;
                }
            }
        }
        self.router.send(printer)
    }

    fn retire<W: Write + Drop>(
        &mut self,
        server: ServerId,
        printer: &mut Printer<W>,
    ) -> Result<(), Stop> {
        let event = retire_event(server, self.router.now);
        if self.router.happen(event, printer)?.is_some() {
            printer.retired(SessionId::Server(server))?;
        }
        self.router.send(printer)
    }

    // Limits, the reading of the clock and a hold stay.
    fn restart<W: Write + Drop>(&mut self, printer: &mut Printer<W>) -> Result<(), Stop> {
        self.judge(printer)?;
        self.router.happen(Event::Restart, printer)?;
        self.connections.clear();
        self.routes = Routes::new(self.alloc);
        Ok(())
    }
}
