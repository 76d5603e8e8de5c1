//! One log of all that the sessions of a hub do. Threads share it, and it exists in proofs alone.
//!
//! A *move* is what one session did, in the words of `mux_model`: it was opened; it made a call that
//! was recorded, with its exchange and the values that this gave, or one without a record; or frames
//! were taken out of it. A move may use one value that another gave. It does so by a *claim*: the
//! place of that move in the log, and which of its values it is.
//!
//! A log is a hub's (`IsBag`) if three things hold of each move and those before it:
//!
//! - `given`: the value that its call is handed was given before, and is one for this call and session;
//! - `once`: no move before used that value;
//! - `own`: it is a step of its session, `down` or `up`, after this session's own moves alone.
//!
//! Nothing else is asked: sessions come in any order and have any numbers, and those towards servers
//! have limits of their own. Of each such log hold the laws of `every_frame_stands` and
//! `every_reply_is_its_own`: the headline, in the words of `mux_legal`.
//!
//! # Passes
//! Nobody keeps the log. Whoever acts has a `Pass`, a seat of a table with one word that nobody
//! writes. It has no bytes, and each call is a plain load. What it knows (`View`) is a beginning of the
//! log, with every move of the sessions of its slots, for which it alone adds, and with the claims that
//! it alone may use. The table's rule says that there is a log that is a hub's, of which all this is so.
//!
//! A program begins with `Laid::new`. The function that names it is generic over `Room`, and is called
//! with `Brand`; no type in its signature names that parameter. Which move a call adds is picked in
//! its proof, by a type with a relation (`Asks`); `round` of tests_threads has a dispatch and its reply.
//!
//! # How a hub takes it
//! - Opening cuts the first pass slot by slot (`first`). The lock of a slot keeps its pass beside the
//!   session, by an invariant: the session's past is the connection that the pass knows.
//! - A step under the lock is a move; all of one lock are added by one `reach`, whichever they are: it
//!   asks that some moves, which the pass may add, lead to what is to hold of it then (`May`). That
//!   what the calls under a lock do is such moves is in `hub_places`. A slot's next session begins
//!   with `Opened`.
//! - Values on their way have one pass for a batch. It is taken in where they are used (`join`), and
//!   those that go elsewhere are cut off (`cut`).
//! - Frames go out with a pass whose last move has taken them out: `every_frame_stands` says the rest.
//!
//! # What isn't said
//! How the log goes on beside one's own sessions: only a beginning is known, and a later look tells
//! more. That no value is lost: one that is dropped leaves its claim unused. That anything comes at all.
#![tactic(auto)]

mod book;
mod known;
mod laws;
mod terms;

pub use book::{Asks, AsksAll, Book, Goal, Laid, Pass, Picks, Room};
pub use known::Known;
pub use laws::{every_frame_stands, every_reply_is_its_own, turns_are_added};
pub use terms::Terms;
