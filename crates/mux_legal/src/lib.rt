//! What is proved of every run of the router, and of the histories that its sessions keep. Each
//! function here does nothing: its contract is a theorem on the definitions of `mux_model`.
#![tactic(auto)]

mod headline;
mod histories;
mod laws;

pub use headline::every_reply_is_its_own;
pub use histories::kept_histories_are_legal;
pub use laws::{both_ends_agree, every_run_is_legal};
