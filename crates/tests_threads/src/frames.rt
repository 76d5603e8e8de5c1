//! Dispatches that each have a body of their own, and their replies.
ghost use Rattle.std.specs.Prelude.{IsTrue, IfOk, IfSome};

use bytes::Bytes;
use mux_frame::Frame;
use std::alloc::{AllocError, Global};

/// Clients' numbers are small here.
fn byte_of(client: u64) -> u8 {
    u8::try_from(client).unwrap_or(0)
}

/// A dispatch to `/s/a`, which carries the client's number and the tag.
pub fn dispatch(alloc: Global, client: u64, tag: u8) -> Result<Frame, AllocError>
    ensures { IfOk result (λ f. IsTrue f.as_read) }
{
    let body = [
        0,
        0,
        0,
        4,
        b'/',
        b's',
        b'/',
        b'a',
        0,
        0,
        byte_of(client),
        tag,
    ];
    let body = Bytes::copy_from_slice(alloc, body.as_slice())?;
    Ok(Frame::read(2, u32::from(tag), body))
}

/// The reply to a dispatch, which carries what came. None if this isn't such a dispatch.
pub fn reply(alloc: Global, frame: &Frame) -> Result<Option<Frame>, AllocError>
    ensures { IfOk result (λ o. IfSome o (λ f. IsTrue f.as_read)) }
{
    if frame.kind() != 2 || frame.body_len() != 12 {
        return Ok(None);
    }
    let body = [0, 0, 0, frame.body_byte(10), frame.body_byte(11)];
    let body = Bytes::copy_from_slice(alloc, body.as_slice())?;
    Ok(Some(Frame::read(-2, frame.tag(), body)))
}

/// The tag of the dispatch that this is the reply to. None if it is no reply to one of this client.
pub fn answered(client: u64, frame: &Frame) -> Option<u8> {
    if frame.kind() != -2 || frame.body_len() != 5 {
        return None;
    }
    let tag = frame.body_byte(4);
    let is_reply = frame.body_byte(0) == 0
        && frame.body_byte(1) == 0
        && frame.body_byte(2) == 0
        && frame.body_byte(3) == byte_of(client)
        && frame.tag() == u32::from(tag);
    if is_reply { Some(tag) } else { None }
}
