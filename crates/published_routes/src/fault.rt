//! Why a route stays.
use std::alloc::AllocError;
use thiserror::Error;

/// Why a route was not taken away.
#[derive(Clone, Copy, Debug, PartialEq, Eq, Error)]
pub enum RouteFault {
    /// The destination has no servers.
    #[error("NoRoute")]
    NoRoute,
    /// Out of memory.
    #[error("Memory")]
    Memory,
}

impl From<AllocError> for RouteFault {
    ghost use Rattle.std.specs.Prelude.{◌≡◌};
    ghost use Rattle.published_routes.specs.declared.fault.RouteFault.TheVariants.{Memory};

    ghost from_gives = { λ _ e. e ≡ Memory };

    fn from(_: AllocError) -> RouteFault {
        RouteFault::Memory
    }
}
