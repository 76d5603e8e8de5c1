//! One dispatch in a client's book.

ghost use Rattle.std.specs.Prelude.{◌≡◌, Some, None};
ghost use Rattle.translate_book.specs.Entries.{is_open, is_note_due, is_answer_due, is_held, owes_recall, beginning, applied, reason_given, dues_of};

use crate::recall::Why;
use mux_history::ServerId;

/// Whether the client still waits for an answer.
#[derive(Clone, Copy, Debug, PartialEq, Eq)]
pub enum AnswerState {
    /// The answer is due, on the client's tag.
    Open,
    /// The answer is due, but the client has its tag back: it discarded the dispatch, or is gone.
    Shut,
    /// The answer has come, or can't come.
    Answered,
}

/// A tag of a server's session.
#[derive(Clone, Copy, Debug, PartialEq, Eq)]
pub struct Place {
    pub server: ServerId,
    pub tag: u32,
}

/// Whether it is known where the dispatch was placed.
#[derive(Clone, Copy, Debug, PartialEq, Eq)]
pub enum NoteState {
    Due,
    Noted(Place),
    /// The dispatch was placed nowhere.
    Unplaced,
}

/// What a step does to an entry.
#[derive(Drop)]
pub enum Change {
    Note(Place),
    Shut(Option<Why>),
    Answer,
    Unplace,
    Recall,
    Again,
}

/// What is due of a dispatch.
#[derive(Clone, Copy, Debug, PartialEq, Eq)]
pub struct Dues {
    /// The client's tag is in use.
    pub in_use: bool,
    pub note: bool,
    pub answer: bool,
    pub recalled: bool,
    pub left: u8,
}

/// What a change made of a dispatch.
#[derive(Drop)]
pub struct Effect {
    pub was: Dues,
    pub is: Dues,
    /// The reason, where it gave its recall.
    pub reason: Option<Why>,
}

/// A dispatch, from its Tdispatch until neither its note nor its answer is due.
#[derive(Drop)]
pub struct Entry {
    /// The client's tag.
    pub tag: u32,
    pub answer: AnswerState,
    pub note: NoteState,
    /// Whether it gave its recall.
    pub recalled: bool,
    /// The reason of the client's Tdiscarded, until the recall carries it.
    pub why: Option<Why>,
    /// How many times it may be sent again, where a server nacks it.
    pub left: u8,
}

impl Entry {
    pub(crate) fn new(tag: u32, left: u8) -> Entry
        ensures { result ≡ beginning tag left }
    {
        Entry {
            tag,
            answer: AnswerState::Open,
            note: NoteState::Due,
            recalled: false,
            why: None,
            left,
        }
    }

    /// Whether the answer is due on the client's tag.
    pub fn is_open(&self) -> bool
        ensures { result ≡ is_open self.now }
    {
        matches!(self.answer, AnswerState::Open)
    }

    /// Whether it isn't known yet where the dispatch was placed.
    pub fn is_note_due(&self) -> bool
        ensures { result ≡ is_note_due self.now }
    {
        matches!(self.note, NoteState::Due)
    }

    /// Whether the answer is due, on the client's tag or no longer on it.
    pub fn is_answer_due(&self) -> bool
        ensures { result ≡ is_answer_due self.now }
    {
        !matches!(self.answer, AnswerState::Answered)
    }

    /// Whether it stays in the book.
    pub fn is_held(&self) -> bool
        ensures { result ≡ is_held self.now }
    {
        self.is_note_due() || self.is_answer_due()
    }

    /// Whether it is to give a recall: it isn't open, its place is noted, its answer is due, and
    /// it gave none.
    pub fn owes_recall(&self) -> bool
        ensures { result ≡ owes_recall self.now }
    {
        matches!(self.answer, AnswerState::Shut)
            && matches!(self.note, NoteState::Noted(_))
            && !self.recalled
    }

    #[inline(always)]
    pub(crate) fn dues(&self) -> Dues
        ensures { result ≡ dues_of self.now }
    {
        Dues {
            in_use: self.is_open(),
            note: self.is_note_due(),
            answer: self.is_answer_due(),
            recalled: self.recalled,
            left: self.left,
        }
    }

    /// Changes the entry, and gives the reason where it gives its recall.
    #[inline(always)]
    pub(crate) fn apply(&mut self, change: Change) -> Option<Why>
        ensures reason { result ≡ reason_given change self.old }
        ensures after { self.new ≡ applied change self.old }
    {
        match change {
            Change::Note(place) => self.note = NoteState::Noted(place),
            Change::Shut(why) => {
                if self.is_open() {
                    self.answer = AnswerState::Shut;
                    self.why = why;
                }
            }
            Change::Answer => self.answer = AnswerState::Answered,
            Change::Unplace => {
                self.answer = AnswerState::Answered;
                self.note = NoteState::Unplaced;
            }
            Change::Recall => {
                self.recalled = true;
                return Some(self.why.take().unwrap_or(Why::ClientGone));
            }
            Change::Again => {
                self.note = NoteState::Due;
                self.left = self.left.saturating_sub(1);
            }
        }
        None
    }
}
