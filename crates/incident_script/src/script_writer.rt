//! The sessions of a boot, each at its next record.

ghost use Rattle.std.specs.Prelude.{◌≤◌};

use crate::command::{Command, Order, Purpose, down_command, up_command, value_of};
use crate::incident::{Conversation, Incident};
use crate::sendings::Sendings;
use crate::text::Text;
use crate::values::{Dispatch, Need, Values, Wanted};
use indexmap::IndexMap;
use mux_frame::read_head;
use mux_history::{Limits, Record, RecordKind, SessionId};
use std::alloc::{AllocError, Global};
use std::cmp::Reverse;
use std::collections::BinaryHeap;

/// A session, with what is left of its records and frames.
#[derive(Drop)]
struct Cursor<'a> {
    id: SessionId,
    records: &'a [Record],
    frames: &'a [u8],
    /// How many offers stand before its next one, over all servers.
    offers: usize,
    /// Who waits for the same value as this session, and came before it.
    behind: Option<usize>,
}

impl<'a> Cursor<'a> {
    fn new(id: SessionId, conversation: Conversation<'a>, offers: usize) -> Cursor<'a> {
        Cursor {
            id,
            records: conversation.records,
            frames: conversation.frames,
            offers,
            behind: None,
        }
    }

    // What was done at its next record.
    fn next_command(&self) -> Option<(Record, Command)> {
        let record = *self.records.first()?;
        let command = match self.id {
            SessionId::Client(_) => down_command(record.kind()),
            SessionId::Server(_) => up_command(record.kind()),
        };
        Some((record, command?))
    }

    fn step_over(&mut self) {
        if let Some((_, rest)) = self.records.split_first() {
            self.records = rest;
        }
    }

    // The next frame, if it is whole.
    fn take_frame(&mut self, max_frame: usize) -> Option<&'a [u8]>
        requires { max_frame ≤ 16777216 }
    {
        let Ok(Some(head)) = read_head(max_frame, self.frames) else {
            return None;
        };
        let (frame, rest) = self.frames.split_at(4 + head.size);
        self.frames = rest;
        Some(frame)
    }
}

/// All sessions, those that can go on, and what was written so far.
#[derive(Drop)]
pub struct ScriptWriter<'a> {
    limits: Limits,
    cursors: Vec<Cursor<'a>>,
    /// Those that may go on, by the reading of their next record.
    ready: BinaryHeap<Reverse<(u64, usize)>>,
    values: Values,
    sendings: Sendings,
    /// How often a dispatch was to be sent again.
    tries: IndexMap<Dispatch, usize>,
    text: Text,
}

impl<'a> ScriptWriter<'a> {
    /// All sessions at their first records.
    pub fn open(alloc: Global, incident: &Incident<'a>) -> Result<ScriptWriter<'a>, AllocError> {
        let sendings = if incident.limits.retries() > 0 {
            Sendings::of(alloc, incident.servers)?
        } else {
            Sendings::single(alloc)
        };
        let mut writer = ScriptWriter {
            limits: incident.limits,
            cursors: Vec::new(alloc),
            ready: BinaryHeap::new(alloc),
            values: Values::new(alloc),
            sendings,
            tries: IndexMap::new(alloc),
            text: Text::begin(alloc, incident)?,
        };
        for (number, client) in (1..).zip(incident.clients) {
            writer.enter(Cursor::new(SessionId::Client(number), *client, 0))?;
        }
        for (place, server) in incident.servers.iter().enumerate() {
            let id = SessionId::Server(place as u64 + 1);
            let offers = writer.sendings.before(place);
            writer.enter(Cursor::new(id, server.conversation, offers))?;
        }
        Ok(writer)
    }

    fn enter(&mut self, cursor: Cursor<'a>) -> Result<(), AllocError> {
        let place = self.cursors.len();
        self.cursors.push(cursor)?;
        self.make_ready(place)
    }

    /// Writes what can be written, and ends the script.
    pub fn play(mut self) -> Result<String, AllocError> {
        for _ in 0..u64::MAX {
            let Some(Reverse((_, place))) = self.ready.pop() else {
                break;
            };
            self.go_on(place)?;
        }
        self.text.end()
    }

    // A session may go on, if it has a further record.
    fn make_ready(&mut self, place: usize) -> Result<(), AllocError> {
        let Some(cursor) = self.cursors.get(place) else {
            return Ok(());
        };
        if let Some(record) = cursor.records.first() {
            self.ready.push(Reverse((record.reading(), place)))?;
        }
        Ok(())
    }

    // Writes the next step of a session, and what it gives is there. If the step has to wait, or
    // can't be written, nothing happens.
    fn go_on(&mut self, place: usize) -> Result<(), AllocError> {
        let Some(cursor) = self.cursors.get(place) else {
            return Ok(());
        };
        let Some((record, command)) = cursor.next_command() else {
            return Ok(());
        };
        if self.perform(place, &record, command)? {
            self.give(&record)?;
            self.step_over(place)?;
        }
        Ok(())
    }

    // Writes a step, and reports whether it could be written.
    fn perform(
        &mut self,
        place: usize,
        record: &Record,
        command: Command,
    ) -> Result<bool, AllocError> {
        match command {
            Command::Frame => self.take_in(place, record),
            Command::Spend(purpose) => self.spend(place, record, purpose),
            Command::Obey(order) => self.obey(place, record, order),
        }
    }

    fn take_in(&mut self, place: usize, record: &Record) -> Result<bool, AllocError> {
        let max_frame = self.limits.max_frame();
        let Some(cursor) = self.cursors.get_mut(place) else {
            return Ok(false);
        };
        let id = cursor.id;
        let Some(frame) = cursor.take_frame(max_frame) else {
            return Ok(false);
        };
        self.text.set_clock(record.reading())?;
        self.text.take_in(id, frame)?;
        Ok(true)
    }

    fn obey(&mut self, place: usize, record: &Record, order: Order) -> Result<bool, AllocError> {
        let Some(cursor) = self.cursors.get(place) else {
            return Ok(false);
        };
        let id = cursor.id;
        if Command::Obey(order).reads_clock() {
            self.text.set_clock(record.reading())?;
        }
        self.text.call(order.word(), id)?;
        Ok(true)
    }

    fn spend(
        &mut self,
        place: usize,
        record: &Record,
        purpose: Purpose,
    ) -> Result<bool, AllocError> {
        let Some(name) = record.name() else {
            return Ok(false);
        };
        let wanted = self.wanted(place, name.into(), purpose);
        let Some(value) = self.values.get(wanted) else {
            self.wait(place, wanted)?;
            return Ok(false);
        };
        let Some(word) = purpose.word(value.kind) else {
            return Ok(false);
        };
        self.values.spend(wanted);
        if Command::Spend(purpose).reads_clock() {
            self.text.set_clock(record.reading())?;
        }
        self.write_use(place, purpose, word, value.number)?;
        Ok(true)
    }

    // An offer names its server, and the next one there is another sending.
    fn write_use(
        &mut self,
        place: usize,
        purpose: Purpose,
        word: &str,
        number: u64,
    ) -> Result<(), AllocError> {
        match self.cursors.get_mut(place) {
            Some(cursor) if purpose == Purpose::Offer => {
                cursor.offers = cursor.offers.saturating_add(1);
                self.text.spend_at(word, number, cursor.id)
            }
            _ => self.text.spend(word, number),
        }
    }

    // What a session needs for a use. A ticket has the turn of the sending that it is for.
    fn wanted(&self, place: usize, dispatch: Dispatch, purpose: Purpose) -> Wanted {
        let turn = match self.cursors.get(place) {
            Some(cursor) if purpose == Purpose::Offer => self.sendings.turn(cursor.offers),
            _ => self.next_turn(dispatch),
        };
        Wanted {
            dispatch,
            need: Need::of_use(purpose, turn),
        }
    }

    // The turn of the sending for which the last ticket of a dispatch is.
    fn next_turn(&self, dispatch: Dispatch) -> usize {
        let tries = self.tries.get(&dispatch).copied().unwrap_or(0);
        self.sendings.turn_of(dispatch, tries)
    }

    // A session waits for a value.
    fn wait(&mut self, place: usize, wanted: Wanted) -> Result<(), AllocError> {
        let behind = self.values.wait(wanted, place)?;
        if let Some(cursor) = self.cursors.get_mut(place) {
            cursor.behind = behind;
        }
        Ok(())
    }

    // The value that a step gave is in hand, and whoever waited for it may go on.
    fn give(&mut self, record: &Record) -> Result<(), AllocError> {
        let (Some(kind), Some(name)) = (value_of(record.kind()), record.name()) else {
            return Ok(());
        };
        let dispatch = name.into();
        if record.kind() == RecordKind::Retried {
            self.count_try(dispatch)?;
        }
        let wanted = Wanted {
            dispatch,
            need: Need::of_value(kind, self.next_turn(dispatch)),
        };
        let waiting = self.values.give(wanted, kind)?;
        self.wake(waiting)
    }

    fn count_try(&mut self, dispatch: Dispatch) -> Result<(), AllocError> {
        let tries = self.tries.get(&dispatch).copied().unwrap_or(0);
        self.tries.insert(dispatch, tries.saturating_add(1))?;
        Ok(())
    }

    // All that wait for a value may go on. The first by its reading takes it, and the others wait again.
    fn wake(&mut self, waiting: Option<usize>) -> Result<(), AllocError> {
        let mut waiting = waiting;
        for _ in 0..self.cursors.len() {
            let Some(place) = waiting else {
                break;
            };
            self.make_ready(place)?;
            waiting = self.call_off(place);
        }
        Ok(())
    }

    // A session waits no more. Who waited for the same before it.
    fn call_off(&mut self, place: usize) -> Option<usize> {
        self.cursors.get_mut(place)?.behind.take()
    }

    // A record was written.
    fn step_over(&mut self, place: usize) -> Result<(), AllocError> {
        if let Some(cursor) = self.cursors.get_mut(place) {
            cursor.step_over();
        }
        self.make_ready(place)
    }
}
