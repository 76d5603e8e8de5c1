//! What a rolling audit answers of the runs of the router. Each function here does nothing: its contract is a theorem.
#![tactic(auto)]

mod laws;

pub use laws::{done_for_good, never_accused};
