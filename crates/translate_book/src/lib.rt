//! Dispatches on their way: the values that carry one from session to session, and the book in
//! which a client's session keeps its own.
//!
//! A value can be neither copied nor made twice from one step: the step that it is handed to uses
//! it up. One that is thrown away has no further effect.
#![tactic(auto)]

mod book;
mod dispatch;
mod entry;
mod hints;
mod near;
mod opens;
mod placed;
mod recall;
mod refusal;
mod sent;
mod shelf;
mod ticket;

pub use book::DownBook;
pub use dispatch::{Dispatch, KeptDispatch};
pub use entry::{AnswerState, Change, Dues, Effect, Entry, NoteState, Place};
pub use placed::Placed;
pub use recall::{Recall, Why};
pub use refusal::{OfferRefusal, RollRefusal, SealRefusal, StepRefusal};
pub use sent::{Lost, Sent, Settled};
pub use ticket::Ticket;
