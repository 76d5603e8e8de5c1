//! What the walk keeps of a session: as much as its records behind it must be held against.
ghost use Rattle.std.specs.Prelude.{◌≡◌, ◌&&◌, IfErr, IsOk, IsTrue, false};
ghost use Rattle.mux_history.specs.Lapse.{has_lapsed};
ghost use Rattle.mux_history.specs.Readings.{is_offered};
ghost use Rattle.mux_agree.specs.Outlines.{outline_after};
ghost use Rattle.rolling_audit.specs.Sessions.{goes_on, is_of_one, HasManyPings};
ghost use Rattle.rolling_audit.specs.Faults.{IsAstray, Refuses, StandsElse};
ghost use Rattle.rolling_audit.specs.Stands.{Begins, CanWait, HasSpare, LeadsTo, Stands, StandsSo, StaysSo, StepsOn, WaitsOn};

use crate::dues::Dues;
use crate::fault::RecordFault;
use crate::{sent, tags};
use indexmap::IndexMap;
use mux_agree::Outline;
use mux_history::{InitMode, Name, Record, RecordKind, SessionId, Standing};
use std::alloc::{AllocError, Global};

/// A session, as its records so far tell of it.
#[derive(Drop)]
pub struct Session {
    id: SessionId,
    mode: InitMode,
    /// A record about no dispatch, for the outline.
    about: Record,
    outline: Outline,
    tags: IndexMap<u32, Name>,
    dues: Dues,
    sent: IndexMap<u32, u32>,
}

/// Whether the last lease has lapsed at a reading.
#[inline(always)]
fn has_lapsed(lease: Option<u64>, now: u64) -> bool
    ensures { result ≡ has_lapsed lease now }
{
    match lease {
        Some(lapse) => lapse <= now,
        None => false,
    }
}

/// Whether a record tells of one dispatch, and of its session nothing but the reading.
#[inline(always)]
fn is_of_one(kind: RecordKind) -> bool
    ensures { result ≡ is_of_one kind }
{
    matches!(
        kind,
        RecordKind::Noted { .. }
            | RecordKind::Passed
            | RecordKind::Offered
            | RecordKind::Settled(_)
            | RecordKind::SettledNack
    )
}

/// Whether the outline behind a record differs by its reading alone.
#[inline(always)]
fn goes_on(about: Record, met: &Record) -> bool
    ensures { result ≡ goes_on about met.now }
{
    if !is_of_one(met.kind()) || met.tag() == about.tag() {
        return false;
    }
    about.name().is_none()
}

/// The outline behind a record: whether its counts had room.
#[tactic(auto, using(crate::proofs::Outlined::same_but_reading))]
#[inline(always)]
fn look(outline: &mut Outline, about: Record, met: &Record) -> bool
    ensures yes { IsTrue result → outline.new ≡ outline_after about met.now outline.old }
    ensures no { result ≡ false → HasManyPings outline.old }
{
    // Most records: what follows asks for each part of an outline.
    if goes_on(about, met) {
        outline.reading = met.reading();
        return true;
    }
    if outline.pings_sent >= u64::MAX as u128 || outline.pings_done >= u64::MAX as u128 {
        return false;
    }
    *outline = outline.after(about, met);
    true
}

/// What waits behind a record, by the kind of session.
#[inline(always)]
fn wait(id: SessionId, dues: &mut Dues, sent: &mut IndexMap<u32, u32>, met: &Record)
    requires { CanWait id dues.old sent.old }
    ensures { WaitsOn id dues.old sent.old met.now dues.new sent.new }
{
    match id {
        SessionId::Client(_) => dues.follow(met),
        SessionId::Server(_) => sent::follow(sent, met),
    }
}

impl Session {
    /// Before any record.
    pub fn begin(alloc: Global, id: SessionId, mode: InitMode) -> Session
        ensures { Begins id mode result }
    {
        Session {
            id,
            mode,
            about: Record::new(RecordKind::Clock, 0, None, 0),
            outline: Outline::empty(),
            tags: IndexMap::new(alloc),
            dues: Dues::of(alloc),
            sent: IndexMap::new(alloc),
        }
    }

    /// Makes room for what one record more may keep.
    pub fn make_room(&mut self) -> Result<(), AllocError>
        ensures same { StaysSo self.old self.new }
        ensures room { IsOk result → HasSpare self.new }
    {
        self.tags.reserve(1)?;
        match self.id {
            SessionId::Client(_) => self.dues.due.reserve(1),
            SessionId::Server(_) => self.sent.reserve(1),
        }
    }

    /// Takes a record: which of the causes it has that its session's own records tell. The session is behind it
    /// then, if it has none.
    #[inline(always)]
    pub fn step(&mut self, met: &Record) -> Result<(), RecordFault>
        requires { HasSpare self.old }
        ensures ok { IsOk result → StepsOn self.old met.now self.new }
        ensures err { IfErr result (λ e. Refuses e self.old met.now) }
    {
        if self.is_after_drain(met) {
            return Err(RecordFault::AfterDrain);
        }
        if self.is_on_lapsed(met) {
            return Err(RecordFault::Lapsed);
        }
        if !self.is_led_to(met) {
            return Err(RecordFault::BadEpoch);
        }
        if !tags::follow(&mut self.tags, met) {
            return Err(RecordFault::TagOpen);
        }
        wait(self.id, &mut self.dues, &mut self.sent, met);
        if !look(&mut self.outline, self.about, met) {
            return Err(RecordFault::Uncounted);
        }
        Ok(())
    }

    /// Whether the record is an offer after the drain.
    #[inline(always)]
    fn is_after_drain(&self, met: &Record) -> bool
        ensures { result ≡ (is_offered met.now.kind && self.now.outline.drained) }
    {
        matches!(met.kind(), RecordKind::Offered) && self.outline.drained
    }

    /// Whether the record is an offer on a lapsed lease.
    #[inline(always)]
    fn is_on_lapsed(&self, met: &Record) -> bool
        ensures { result ≡ (is_offered met.now.kind && has_lapsed self.now.outline.lease met.now.reading) }
    {
        matches!(met.kind(), RecordKind::Offered) && has_lapsed(self.outline.lease, met.reading())
    }

    /// Whether an `Epoch` or a `Rolled` is what the records lead to; another record always is.
    #[inline(always)]
    fn is_led_to(&self, met: &Record) -> bool
        ensures yes { IsTrue result → LeadsTo self.now met.now }
        ensures no { result ≡ false → IsAstray self.now met.now }
    {
        match met.kind() {
            RecordKind::Epoch { number, standing } => {
                self.outline.leads_to(number, met.reading()) && self.stands_so(standing)
            }
            RecordKind::Rolled { number } => self.outline.leads_to(number, met.reading()),
            _ => true,
        }
    }

    /// Whether nothing waits, and the session stands so.
    fn stands_so(&self, standing: Standing) -> bool
        ensures yes { IsTrue result → StandsSo self.now standing }
        ensures no { result ≡ false → StandsElse self.now standing }
    {
        match self.id {
            SessionId::Client(_) => self.dues.is_empty() && self.outline.is_down_so(standing),
            SessionId::Server(_) => {
                self.sent.is_empty() && self.outline.is_up_so(self.mode, standing)
            }
        }
    }
}
