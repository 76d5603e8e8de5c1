//! Whether the histories of a run bear each other out, read from their records alone.
#![tactic(auto)]

mod agreement;

pub use agreement::disagreement::{Disagreement, DisagreementCause};
pub use agreement::fact::Fact;
pub use agreement::histories::{DownHistory, Histories, UpHistory};
pub use agreement::outline::Outline;
pub use agreement::{agree, kinds};
