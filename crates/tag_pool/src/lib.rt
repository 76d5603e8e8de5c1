//! The tags that a session towards a server has in use, each with its entry.
//!
//! A tag names one outstanding request. Tag 0 is the marker tag and tag 1 that of pings and of
//! initiation, so requests have the tags from 2 to 8,388,607, the greatest of 23 bits. All room is
//! made when a pool is made: nothing that is done with it takes memory.
#![tactic(auto)]

mod fault;
mod pool;

pub use fault::{Full, PoolFault};
pub use pool::TagPool;
