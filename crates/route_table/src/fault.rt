//! What can be wrong with a configuration.
use crate::key::Key;
use std::alloc::{AllocError, AllocFailed};
use std::fmt;
use thiserror::Error;

/// What is wrong with a configuration: the first fault, in the order in which the keys are read.
///
/// It prints as the program's words for it, as `BadValue window`.
#[derive(Drop, Error)]
pub enum ConfigFault {
    /// The text isn't TOML.
    #[error("Toml")]
    Toml,
    /// A key that has no default isn't there.
    #[error("Missing {key}")]
    Missing { key: Key },
    /// The value has another type, or isn't in the key's range.
    #[error("BadValue {key}")]
    BadValue { key: Key },
    /// A route names a server that isn't there.
    #[error("UnknownServer {name}")]
    UnknownServer { name: String },
    /// Two servers have one name.
    #[error("DoubleName {name}")]
    DoubleName { name: String },
    /// Two routes have one destination.
    #[error("DoubleRoute {dst}")]
    DoubleRoute { dst: String },
    /// Out of memory, which says nothing of the text.
    #[error("memory")]
    Memory,
}

/// In the words of `Display`.
impl fmt::Debug for ConfigFault {
    fn fmt<W: fmt::Write>(&self, f: &mut fmt::Formatter<W>) -> fmt::Result {
        fmt::Display::fmt(self, f)
    }
}

impl From<AllocError> for ConfigFault {
    ghost use Rattle.std.specs.Prelude.{◌≡◌};
    ghost use Rattle.route_table.specs.declared.fault.ConfigFault.TheVariants.{Memory};

    ghost from_gives = { λ _ e. e ≡ Memory };

    fn from(_: AllocError) -> ConfigFault {
        ConfigFault::Memory
    }
}

impl<T: Drop> From<AllocFailed<T>> for ConfigFault {
    ghost use Rattle.std.specs.Prelude.{◌≡◌};
    ghost use Rattle.route_table.specs.declared.fault.ConfigFault.TheVariants.{Memory};

    ghost from_gives = { λ _ e. e ≡ Memory };

    fn from(_: AllocFailed<T>) -> ConfigFault {
        ConfigFault::Memory
    }
}
