//! The core, with what its events print.

ghost use Rattle.std.specs.Prelude.{◌≡◌};
ghost use Rattle.core_world.specs.Events.{IsReadEvent};
ghost use Rattle.replay_script.specs.Judged.{present};

use crate::end::Stop;
use crate::printer::Printer;
use crate::touched::Touched;
use bytes::BytesMut;
use core_world::{Event, EventRefusal, HandKind, Note};
use mux_frame::{Frame, FrameCodec};
use mux_history::{Limits, Record, ServerId, SessionId};
use router_core::{CoreConfig, KeptCore};
use std::alloc::{AllocError, Global};
use std::io::Write;
use tokio_util::codec::Encoder;

/// The core, and which of its sessions may have frames queued.
#[derive(Drop)]
pub struct Router {
    alloc: Global,
    core: KeptCore,
    encoder: FrameCodec,
    // Which may have frames queued.
    touched: Touched,
    /// The reading of the clock, in milliseconds.
    pub now: u64,
    /// Frames stay queued.
    pub holding: bool,
}

impl Router {
    /// A core at boot 1 with no session, whose sessions have these limits. Out of memory is the one error.
    pub fn open(alloc: Global, limits: Limits) -> Result<Router, AllocError> {
        Ok(Router {
            alloc,
            core: KeptCore::open(alloc, CoreConfig { limits, boot: 1 }),
            encoder: FrameCodec::new(limits.max_frame()),
            touched: Touched::new(alloc),
            now: 0,
            holding: false,
        })
    }

    /// One event, with the lines that it prints. None if it was refused.
    pub fn happen<W: Write + Drop>(
        &mut self,
        event: Event,
        printer: &mut Printer<W>,
    ) -> Result<Option<Note>, Stop>
        requires { IsReadEvent event }
    {
        let session = self.core.session_of(&event);
        match self.core.step(self.alloc, event) {
            Ok(note) => {
                self.touch(session, &note)?;
                printer.note(session, &note)?;
                Ok(Some(note))
            }
            Err((EventRefusal::Memory, _)) => Err(Stop::Memory),
            Err((refusal, _)) => {
                printer.refused(refusal)?;
                Ok(None)
            }
        }
    }

    // The session that an event opened or went to. A restart leaves none.
    fn touch(&mut self, session: Option<SessionId>, note: &Note) -> Result<(), AllocError> {
        match note {
            Note::Opened(opened) => self.touched.add(*opened),
            Note::Booted(_) => {
                self.touched.clear();
                Ok(())
            }
            Note::Told { .. } | Note::Out(_) => match session {
                Some(session) => self.touched.add(session),
                None => Ok(()),
            },
        }
    }

    /// The destination of a ticket in hand.
    pub fn dst(&self, hand: u64) -> Option<&[u8]> {
        self.core.dst(hand)
    }

    /// The kind of the value in hand of this number, if there is one.
    pub fn kind(&self, hand: u64) -> Option<HandKind> {
        self.core.kind(hand)
    }

    /// The records of a session's present epoch; none if it isn't there.
    pub fn records(&self, session: SessionId) -> &[Record]
        ensures { result.now ≡ present self.entry.now.core session }
    {
        self.core.records(session).unwrap_or(&[])
    }

    /// How many dispatches a server holds; 0 if it isn't there.
    pub fn load(&self, server: ServerId) -> u32 {
        self.core.load(SessionId::Server(server)).unwrap_or(0)
    }

    /// Takes every frame out, unless they are held back: those of clients first, then those of
    /// servers, each by rising number. Only a session that was touched can have any.
    pub fn send<W: Write + Drop>(&mut self, printer: &mut Printer<W>) -> Result<(), Stop> {
        if self.holding {
            return Ok(());
        }
        for _ in 0..u64::MAX {
            let Some(session) = self.touched.pop() else {
                break;
            };
            self.take_out(session, printer)?;
        }
        Ok(())
    }

    // Every frame that a session has queued.
    fn take_out<W: Write + Drop>(
        &mut self,
        session: SessionId,
        printer: &mut Printer<W>,
    ) -> Result<(), Stop> {
        for _ in 0..u64::MAX {
            let note = self.core.step(self.alloc, Event::TakeOut(session));
            let Ok(Note::Out(Some(frame))) = note else {
                break;
            };
            self.print_frame(session, frame, printer)?;
        }
        Ok(())
    }

    fn print_frame<W: Write + Drop>(
        &mut self,
        session: SessionId,
        frame: Frame,
        printer: &mut Printer<W>,
    ) -> Result<(), Stop> {
        let mut bytes = BytesMut::new(self.alloc);
        if self.encoder.encode(frame, &mut bytes).is_err() {
            return Err(Stop::Memory);
        }
        let digits = hex::encode(self.alloc, bytes.as_slice())?;
        printer.out(session, &digits)
    }
}
