//! Why there is no pool, or no tag.

use thiserror::Error;

/// No further tag may be taken: as many are held as the pool has room for.
#[derive(Clone, Copy, Debug, Error, PartialEq, Eq)]
#[error("Full")]
pub struct Full;

/// Why no pool was made.
#[derive(Clone, Copy, Debug, Error, PartialEq, Eq)]
pub enum PoolFault {
    /// More entries were asked for than there are tags.
    #[error("TooMany")]
    TooMany,
    /// Memory was refused, or more of it was given than there are tags.
    #[error("Memory")]
    Memory,
}
