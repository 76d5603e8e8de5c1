//! What a session writes down: names, records, the list of records, and the limits of a session.
//!
//! A history is kept until its session is handed back, so that what the router did can be told
//! from the records alone.
#![tactic(auto)]

mod counts;
mod delays;
mod history;
mod kind;
mod limits;
mod name;
mod record;
mod same;
mod session;
mod shape;

pub use counts::KindCounts;
pub use delays::{BOUNDS, Delays, Spans};
pub use history::History;
pub use kind::{Cause, RecordKind, Standing};
pub use limits::Limits;
pub use name::Name;
pub use record::Record;
pub use session::{DrainState, InitMode, InitState, ServerId, SessionId};
