//! What is printed, a whole line at a time.

use crate::end::Stop;
use crate::shown::{ShownHand, ShownName, ShownSession};
use core_world::{EventRefusal, Hand, Note, Told};
use mux_agree::Disagreement;
use mux_frame::FrameFault;
use mux_history::SessionId;
use std::alloc::{AllocError, Global};
use std::io::Write;

/// So many bytes wait at most, and a line.
const MOST_WAITING: usize = 65_536;

/// Lines that wait, in front of a writer.
#[derive(Drop)]
pub struct Printer<W> {
    alloc: Global,
    writer: W,
    waiting: String,
}

impl<W: Write + Drop> Printer<W> {
    /// A writer with no lines that wait.
    pub fn new(alloc: Global, writer: W) -> Printer<W> {
        Printer {
            alloc,
            writer,
            waiting: String::new(alloc),
        }
    }

    /// One line with its line feed. If a growth is refused, nothing of it is printed.
    pub fn line(&mut self, line: &str) -> Result<(), Stop> {
        if self.waiting.len() >= MOST_WAITING {
            self.flush()?;
        }
        self.push(line)?;
        Ok(())
    }

    fn push(&mut self, line: &str) -> Result<(), AllocError> {
        self.waiting.reserve(line.len().saturating_add(1))?;
        self.waiting.push_str(line)?;
        self.waiting.push('\n')
    }

    /// What an event of this session, or of a value, gave.
    pub fn note(&mut self, session: Option<SessionId>, note: &Note) -> Result<(), Stop> {
        match note {
            Note::Told { told, hand } => {
                self.told(session, *told)?;
                self.hand(*hand)
            }
            Note::Booted(boot) => {
                let line = format!(in self.alloc; "boot {boot}")?;
                self.line(&line)
            }
            Note::Opened(_) | Note::Out(_) => Ok(()),
        }
    }

    fn told(&mut self, session: Option<SessionId>, told: Told) -> Result<(), Stop> {
        match told {
            Told::Nothing => Ok(()),
            Told::Noted(name) => self.named("noted", ShownName(name)),
            Told::Answered(name) => self.named("answered", ShownName(name)),
            Told::Late(name) => self.named("late", ShownName(name)),
            Told::Again(name) => self.named("again", ShownName(name)),
            Told::Recalled(name) => self.named("recalled", ShownName(name)),
            Told::Stale(name) => self.named("stale", ShownName(name)),
            _ => match session {
                Some(session) => self.told_of(ShownSession(session), told),
                None => Ok(()),
            },
        }
    }

    fn named(&mut self, what: &str, name: ShownName) -> Result<(), Stop> {
        let line = format!(in self.alloc; "{what} {name}")?;
        self.line(&line)
    }

    fn told_of(&mut self, session: ShownSession, told: Told) -> Result<(), Stop> {
        let line = match told {
            Told::Dropped => format!(in self.alloc; "dropped {session}")?,
            Told::Closing(cause) => format!(in self.alloc; "{session} closed {cause}")?,
            Told::NoMore => format!(in self.alloc; "none {session}")?,
            Told::Sealed(epoch) => format!(in self.alloc; "{session} epoch {epoch}")?,
            Told::Rolled(epoch) => format!(in self.alloc; "{session} epoch {epoch}")?,
            _ => return Ok(()),
        };
        self.line(&line)
    }

    fn hand(&mut self, hand: Option<Hand>) -> Result<(), Stop> {
        let Some(hand) = hand else {
            return Ok(());
        };
        let hand = ShownHand(hand);
        let line = format!(in self.alloc; "{hand}")?;
        self.line(&line)
    }

    /// An event was refused.
    pub fn refused(&mut self, refusal: EventRefusal) -> Result<(), Stop> {
        let line = format!(in self.alloc; "refused {refusal}")?;
        self.line(&line)
    }

    /// The bytes of a connection had a fault.
    pub fn fault(&mut self, session: SessionId, fault: FrameFault) -> Result<(), Stop> {
        let session = ShownSession(session);
        let line = format!(in self.alloc; "{session} fault {fault}")?;
        self.line(&line)
    }

    /// A connection was lost.
    pub fn lost(&mut self, session: SessionId) -> Result<(), Stop> {
        let session = ShownSession(session);
        let line = format!(in self.alloc; "{session} lost")?;
        self.line(&line)
    }

    /// A server is to take no more dispatches.
    pub fn retired(&mut self, session: SessionId) -> Result<(), Stop> {
        let session = ShownSession(session);
        let line = format!(in self.alloc; "{session} retired")?;
        self.line(&line)
    }

    /// A frame goes out, spelled by these digits.
    pub fn out(&mut self, session: SessionId, digits: &str) -> Result<(), Stop> {
        let session = ShownSession(session);
        let line = format!(in self.alloc; "{session} > {digits}")?;
        self.line(&line)
    }

    /// What the histories of a boot say of each other.
    pub fn judged(&mut self, found: Option<Disagreement>) -> Result<(), Stop> {
        let Some(
            Disagreement {
                session,
                place,
                cause,
            },
        ) = found
        else {
            return self.line("agree");
        };
        let session = ShownSession(session);
        let line = format!(in self.alloc; "disagree {session} {place} {cause}")?;
        self.line(&line)
    }

    /// The line of this number isn't a command, or doesn't belong where it stands.
    pub fn bad_line(&mut self, number: u64) -> Result<(), Stop> {
        let line = format!(in self.alloc; "bad line {number}")?;
        self.line(&line)
    }

    /// Writes what waits.
    pub fn flush(&mut self) -> Result<(), Stop> {
        self.writer.write_all(self.waiting.as_bytes())?;
        self.waiting.clear();
        self.writer.flush()?;
        Ok(())
    }

    /// Writes what waits, and then `memory`, for which no memory is taken.
    pub fn end_with_memory(&mut self) -> Result<(), Stop> {
        self.flush()?;
        self.writer.write_all(b"memory\n")?;
        self.writer.flush()?;
        Ok(())
    }
}
