//! What a session's records tell, read record by record.
//!
//! `is_up_so` takes a standing apart into the same fields as `Record::is` of mux_history does: the one compares it with
//! what records tell, the other with another record.
ghost use Rattle.std.specs.Prelude.{ℕ, ◌≡◌, ◌+◌, ◌<◌, ◌≤◌, ◌^◌, ◌==◌, ◌||◌, ◌&&◌, not, if◌then◌else◌, length, reverse};
ghost use Rattle.mux_history.specs.Holders.{held_after, of_named};
ghost use Rattle.mux_history.specs.Lapse.{lease_after};
ghost use Rattle.mux_history.specs.Readings.{answer_kind, epoch_after, is_named, note_kind};
ghost use Rattle.mux_agree.specs.Outlines.{due_after, no_outline, outline_after, outline_from};
ghost use Rattle.mux_agree.specs.Outlines.{IsCount, down_by, drain_by, init_of, sent_after, taken_after, up_by};
ghost use Rattle.mux_history.specs.Standings.{same_drain, same_init, same_standing};

use crate::agreement::kinds;
use mux_history::{DrainState, InitMode, InitState, Name, Record, RecordKind, Standing};

/// What records tell of their session, and of the dispatch on a tag and of a name.
#[derive(Clone, Copy)]
pub struct Outline {
    /// The name under which the tag is open.
    pub held: Option<Name>,
    /// A dispatch was sent on the tag, and neither its final reply nor its loss was told.
    pub sent: bool,
    /// A note of the name is due.
    pub note_due: bool,
    /// An answer to the name is due.
    pub answer_due: bool,
    /// The number of the epoch.
    pub number: u32,
    pub has_ended: bool,
    pub reading: u64,
    /// How many dispatches were taken, where a `u64` holds it.
    pub dispatches: Option<u64>,
    pub init_done: bool,
    pub init_asked: bool,
    pub drain_asked: bool,
    pub drain_acked: bool,
    /// The reading from which on the last lease has lapsed.
    pub lease: Option<u64>,
    pub drained: bool,
    pub retired: bool,
    pub pings_sent: u128,
    pub pings_done: u128,
}

/// Under which name a tag is open after a record.
#[inline(always)]
fn held_after(tag: u32, entry: &Record, before: Option<Name>) -> Option<Name>
    ensures { result ≡ held_after tag entry.now entry.now.kind before }
{
    match entry.kind() {
        RecordKind::Epoch { .. } => None,
        RecordKind::Took | RecordKind::Offered if entry.tag() == tag => entry.name(),
        RecordKind::Discarded { .. }
        | RecordKind::Passed
        | RecordKind::Nacked
        | RecordKind::Unrouted
        | RecordKind::Failed
        | RecordKind::Settled(_)
        | RecordKind::SettledNack
            if entry.tag() == tag => { None }
        _ => before,
    }
}

/// Whether a dispatch is out on a tag after a record.
#[inline(always)]
fn sent_after(tag: u32, entry: &Record, before: bool) -> bool
    ensures { result ≡ sent_after tag entry.now entry.now.kind before }
{
    match entry.kind() {
        RecordKind::Epoch { .. } => false,
        RecordKind::Offered => entry.tag() == tag || before,
        RecordKind::Settled(_) | RecordKind::SettledNack | RecordKind::LostOne => {
            entry.tag() != tag && before
        }
        _ => before,
    }
}

/// Whether a record is about the name.
#[inline(always)]
fn is_about(name: Option<Name>, entry: &Record) -> bool
    ensures { result ≡ of_named (λ n. is_named n entry.now.name) name }
{
    name.is_some() && entry.name() == name
}

/// Whether a note of a name is due after a record.
#[inline(always)]
fn note_due_after(name: Option<Name>, entry: &Record, before: bool) -> bool
    ensures { result ≡ due_after note_kind name entry.now before }
{
    match entry.kind() {
        RecordKind::Epoch { .. } => false,
        _ if !is_about(name, entry) => before,
        RecordKind::Took | RecordKind::Retried => true,
        RecordKind::Noted { .. }
        | RecordKind::Nacked
        | RecordKind::Unrouted
        | RecordKind::Late { whole: true } => false,
        _ => before,
    }
}

/// Whether an answer to a name is due after a record.
#[inline(always)]
fn answer_due_after(name: Option<Name>, entry: &Record, before: bool) -> bool
    ensures { result ≡ due_after answer_kind name entry.now before }
{
    match entry.kind() {
        RecordKind::Epoch { .. } => false,
        _ if !is_about(name, entry) => before,
        RecordKind::Took => true,
        RecordKind::Passed
        | RecordKind::Failed
        | RecordKind::Nacked
        | RecordKind::Unrouted
        | RecordKind::Late { .. } => false,
        _ => before,
    }
}

/// How many dispatches were taken after a record.
#[inline(always)]
fn taken_after(kind: RecordKind, before: Option<u64>) -> Option<u64>
    ensures { result ≡ taken_after kind before }
{
    match kind {
        RecordKind::Epoch { standing, .. } => match standing {
            Standing::Down { dispatches, .. } => Some(dispatches),
            Standing::Up { .. } => Some(0),
        },
        RecordKind::Took | RecordKind::TookDrained => match before {
            Some(taken) => taken.checked_add(1),
            None => None,
        },
        _ => before,
    }
}

/// The lapse of the last lease after a record.
#[inline(always)]
fn lease_after(entry: &Record, before: Option<u64>) -> Option<u64>
    ensures { result ≡ lease_after entry.now entry.now.kind before }
{
    match entry.kind() {
        RecordKind::Leased(ms) => Some(entry.reading().saturating_add(ms)),
        RecordKind::Epoch { standing, .. } => match standing {
            Standing::Up {
                leased: true,
                lapse,
                ..
            } => Some(lapse),
            _ => None,
        },
        _ => before,
    }
}

impl Outline {
    /// Of no records.
    pub fn empty() -> Outline
        ensures { result ≡ no_outline }
    {
        Outline {
            held: None,
            sent: false,
            note_due: false,
            answer_due: false,
            number: 0,
            has_ended: false,
            reading: 0,
            dispatches: Some(0),
            init_done: false,
            init_asked: false,
            drain_asked: false,
            drain_acked: false,
            lease: None,
            drained: false,
            retired: false,
            pings_sent: 0,
            pings_done: 0,
        }
    }

    /// Whether a note of the name or an answer to it is due.
    pub fn is_due(&self) -> bool
        ensures { result ≡ (self.now.note_due || self.now.answer_due) }
    {
        self.note_due || self.answer_due
    }

    /// Whether an epoch of this number may begin at this reading.
    pub fn leads_to(&self, number: u32, reading: u64) -> bool
        ensures { result ≡ (number == self.now.number + 1 && not self.now.has_ended && reading == self.now.reading) }
    {
        number as u64 == self.number as u64 + 1 && !self.has_ended && reading == self.reading
    }

    /// Whether a client's session stands so.
    pub fn is_down_so(&self, standing: Standing) -> bool
        ensures { (taken : ℕ) → IsCount self.now.dispatches taken →
            result ≡ same_standing standing (down_by taken self.now) }
    {
        match standing {
            Standing::Down {
                fresh,
                drain,
                dispatches,
            } => {
                let is_fresh = !self.init_done && is_count(self.dispatches, 0);
                is_count(self.dispatches, dispatches)
                    && fresh == is_fresh
                    && same_drain(drain, self.drain())
            }
            Standing::Up { .. } => false,
        }
    }

    /// Whether a server's session stands so.
    pub fn is_up_so(&self, mode: InitMode, standing: Standing) -> bool
        ensures { result ≡ same_standing standing (up_by mode self.now) }
    {
        match standing {
            Standing::Up {
                init,
                drained,
                retired,
                ping,
                leased,
                lapse,
            } => {
                same_init(init, self.init(mode))
                    && leased == self.lease.is_some()
                    && lapse == self.lease.unwrap_or(0)
                    && drained == self.drained
                    && retired == self.retired
                    && ping == (self.pings_done < self.pings_sent)
            }
            Standing::Down { .. } => false,
        }
    }

    /// How far the draining of a client has come.
    fn drain(&self) -> DrainState
        ensures { result ≡ drain_by self.now }
    {
        if self.drain_acked {
            DrainState::Acked
        } else if self.drain_asked {
            DrainState::Asked
        } else {
            DrainState::Running
        }
    }

    /// How far initiation towards a server has come.
    fn init(&self, mode: InitMode) -> InitState
        ensures { result ≡ init_of mode self.now }
    {
        match mode {
            InitMode::Plain => InitState::Open,
            InitMode::Probe if self.init_done => InitState::Open,
            InitMode::Probe if self.init_asked => InitState::Asked,
            InitMode::Probe => InitState::Probing,
        }
    }

    /// With one record more, for the tag and name of a record.
    #[inline(always)]
    pub fn after(self, about: Record, entry: &Record) -> Outline
        requires sent { self.pings_sent + 1 < 2 ^ 128 }
        requires done { self.pings_done + 1 < 2 ^ 128 }
        ensures value { result ≡ outline_after about entry.now self }
        ensures sent { result.pings_sent ≤ self.pings_sent + 1 }
        ensures done { result.pings_done ≤ self.pings_done + 1 }
    {
        let kind = entry.kind();
        let goes_on = !kinds::is_epoch(kind);
        Outline {
            held: held_after(about.tag(), entry, self.held),
            sent: sent_after(about.tag(), entry, self.sent),
            note_due: note_due_after(about.name(), entry, self.note_due),
            answer_due: answer_due_after(about.name(), entry, self.answer_due),
            number: number_after(kind, self.number),
            has_ended: stands(kinds::ends(kind), goes_on, self.has_ended),
            reading: entry.reading(),
            dispatches: taken_after(kind, self.dispatches),
            init_done: stands(kinds::is_init_done(kind), goes_on, self.init_done),
            init_asked: stands(kinds::is_init_asked(kind), goes_on, self.init_asked),
            drain_asked: stands(kinds::is_drain_asked(kind), goes_on, self.drain_asked),
            drain_acked: stands(kinds::is_drain_acked(kind), goes_on, self.drain_acked),
            lease: lease_after(entry, self.lease),
            drained: stands(kinds::is_drained(kind), goes_on, self.drained),
            retired: stands(kinds::is_retired(kind), goes_on, self.retired),
            pings_sent: counted(kinds::is_ping_sent(kind), goes_on, self.pings_sent),
            pings_done: counted(kinds::is_ping_done(kind), goes_on, self.pings_done),
        }
    }

    /// With more records, the oldest first, for the tag and name of a record.
    pub fn after_all(self, about: Record, records: &[Record]) -> Outline
        requires sent { self.pings_sent + length records.now < 2 ^ 128 }
        requires done { self.pings_done + length records.now < 2 ^ 128 }
        ensures value { result ≡ outline_from about self (reverse records.now) }
        ensures sent { result.pings_sent ≤ self.pings_sent + length records.now }
        ensures done { result.pings_done ≤ self.pings_done + length records.now }
    {
        let mut outline = self;
        for entry in records {
            outline = outline.after(about, entry);
        }
        outline
    }
}

/// Whether so many dispatches were taken.
fn is_count(taken: Option<u64>, count: u64) -> bool
    ensures { (n : ℕ) → IsCount taken n → result ≡ (count == n) }
{
    match taken {
        Some(taken) => count == taken,
        None => false,
    }
}

/// Whether draining has come as far.
fn same_drain(one: DrainState, other: DrainState) -> bool
    ensures { result ≡ same_drain one other }
{
    match (one, other) {
        (DrainState::Running, DrainState::Running)
        | (DrainState::Asked, DrainState::Asked)
        | (DrainState::Acked, DrainState::Acked) => true,
        _ => false,
    }
}

/// Whether initiation has come as far.
fn same_init(one: InitState, other: InitState) -> bool
    ensures { result ≡ same_init one other }
{
    match (one, other) {
        (InitState::Probing, InitState::Probing)
        | (InitState::Asked, InitState::Asked)
        | (InitState::Open, InitState::Open) => true,
        _ => false,
    }
}

/// The number of the epoch after a record.
#[inline(always)]
fn number_after(kind: RecordKind, before: u32) -> u32
    ensures { result ≡ epoch_after kind before }
{
    match kind {
        RecordKind::Epoch { number, .. } | RecordKind::Rolled { number } => number,
        _ => before,
    }
}

/// Whether a record shows something, or one before it of the same epoch does.
#[inline(always)]
fn stands(is_shown: bool, goes_on: bool, before: bool) -> bool
    ensures { result ≡ (is_shown || (goes_on && before)) }
{
    is_shown || (goes_on && before)
}

/// A count with one more, or begun anew.
#[inline(always)]
fn counted(is_one: bool, goes_on: bool, before: u128) -> u128
    requires { before + 1 < 2 ^ 128 }
    ensures value { result ≡ (if is_one then 1 else 0) + (if goes_on then before else 0) }
    ensures within { result ≤ before + 1 }
{
    let kept = if goes_on { before } else { 0 };
    if is_one { kept + 1 } else { kept }
}
