//! What is done with a session that a slot of a hub keeps under its lock.
//!
//! Each function here is lent what one lock keeps. It does one step of the session, or those of a
//! batch, and its contract is the session's own. None may wait, so none can take a lock: who is lent
//! what one lock keeps takes no second one.
#![tactic(auto)]

mod counts;
mod down;
pub mod down_batch;
pub mod down_steps;
mod down_values;
mod figures;
mod records;
mod up;
pub mod up_batch;
pub mod up_steps;
mod up_values;

pub use figures::{DownFigures, UpFigures, down_figures, up_figures};
pub use records::{UpCounts, down_counts, down_records, up_counts, up_records};
