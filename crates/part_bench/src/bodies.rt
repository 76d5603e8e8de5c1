//! The bodies of the frames that are timed.

use std::alloc::{AllocError, Global};

// Destination `/s/a`, no contexts, no dtab, body `hi`.
const DISPATCH: &[u8] = b"\x00\x00\x00\x04/s/a\x00\x00hi";

// Status 0, no contexts, body `yo`.
const REPLY: &[u8] = b"\x00\x00\x00yo";

/// They lie in memory that is filled as the program runs, so that no compiler reads them beforehand.
#[derive(Clone, Copy)]
pub struct Bodies {
    pub dispatch: &'static [u8],
    pub reply: &'static [u8],
}

impl Bodies {
    /// The memory is never given back.
    pub fn new(alloc: Global) -> Result<Bodies, AllocError> {
        let dispatch = Vec::from_slice(alloc, DISPATCH)?;
        let reply = Vec::from_slice(alloc, REPLY)?;
        Ok(Bodies {
            dispatch: dispatch.leak(),
            reply: reply.leak(),
        })
    }
}
