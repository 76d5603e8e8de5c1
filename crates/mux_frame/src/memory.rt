//! Out of memory.

use std::alloc::AllocError;

/// Out of memory: the one error of a call that can fail only because a growth was refused.
pub type Memory = AllocError;
