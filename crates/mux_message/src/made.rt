//! The messages that the router makes of its own, in the type bytes that are written.
//!
//! Each body is short enough for the frame itself, so making one takes no memory. Tags are below 2^24.
//!
//! The makers are alike: each is one line of code under a contract of its own.

ghost use Rattle.std.specs.Prelude.{◌≡◌, ◌≤◌, ◌^◌, ◌<◌, length, codes};
ghost use Rattle.mux_message.specs.Made.{frame_of, nack_on, rerr_on, rdiscarded_on, rping_on, rdrain_on, rinit_on, tdrain_on, tping_on, tinit_on, tdiscarded_for, probe_as};

use bytes::Bytes;
use mux_frame::{Frame, Lead};

/// The text by which an end asks whether its peer knows of initiation.
pub const PROBE_TEXT: &[u8] = b"tinit check";

fn short(kind: i8, tag: u32, body: &[u8]) -> Frame
    requires tag { tag < 2 ^ 24 }
    requires body { length body.now ≤ Lead.CAPACITY }
    ensures { result.frame ≡ frame_of kind tag body.now }
{
    Frame::new(kind, tag, Lead::from_slice(body), Bytes::new(), 0)
}

/// An Rdispatch with status 2, no contexts and an empty body: the dispatch was not processed.
pub fn nack(tag: u32) -> Frame
    requires { tag < 2 ^ 24 }
    ensures { result.frame ≡ nack_on tag }
{
    short(-2, tag, &[2, 0, 0])
}

/// No server is known for a dispatch's destination.
pub fn no_route(tag: u32) -> Frame
    requires { tag < 2 ^ 24 }
    ensures { result.frame ≡ rerr_on tag (codes "no route") }
{
    short(-128, tag, b"no route")
}

/// The session that a dispatch was sent on ended before its reply came.
pub fn upstream_lost(tag: u32) -> Frame
    requires { tag < 2 ^ 24 }
    ensures { result.frame ≡ rerr_on tag (codes "upstream lost") }
{
    short(-128, tag, b"upstream lost")
}

/// The router doesn't serve this message.
pub fn unsupported(tag: u32) -> Frame
    requires { tag < 2 ^ 24 }
    ensures { result.frame ≡ rerr_on tag (codes "unsupported") }
{
    short(-128, tag, b"unsupported")
}

/// A Tinit came once initiation had ended.
pub fn out_of_place(tag: u32) -> Frame
    requires { tag < 2 ^ 24 }
    ensures { result.frame ≡ rerr_on tag (codes "tinit out of place") }
{
    short(-128, tag, b"tinit out of place")
}

/// A Tdiscarded was heard: an Rdiscarded on the tag of its dispatch, with an empty body.
pub fn rdiscarded(tag: u32) -> Frame
    requires { tag < 2 ^ 24 }
    ensures { result.frame ≡ rdiscarded_on tag }
{
    short(-66, tag, b"")
}

/// The answer to a Tping, with an empty body.
pub fn rping(tag: u32) -> Frame
    requires { tag < 2 ^ 24 }
    ensures { result.frame ≡ rping_on tag }
{
    short(-65, tag, b"")
}

/// The answer to a Tdrain, with an empty body.
pub fn rdrain(tag: u32) -> Frame
    requires { tag < 2 ^ 24 }
    ensures { result.frame ≡ rdrain_on tag }
{
    short(-64, tag, b"")
}

/// Version 1, no headers.
pub fn rinit(tag: u32) -> Frame
    requires { tag < 2 ^ 24 }
    ensures { result.frame ≡ rinit_on tag }
{
    short(-68, tag, &[0, 1])
}

/// On tag 1.
pub fn tdrain() -> Frame
    ensures { result.frame ≡ tdrain_on 1 }
{
    short(64, 1, b"")
}

/// On tag 1, which no dispatch has.
pub fn tping() -> Frame
    ensures { result.frame ≡ tping_on 1 }
{
    short(65, 1, b"")
}

/// On tag 1: version 1, no headers.
pub fn tinit() -> Frame
    ensures { result.frame ≡ tinit_on 1 }
{
    short(68, 1, &[0, 1])
}

/// A Tdiscarded of a tag for a reason. It is a marker: it goes on tag 0, and its body names the tag.
pub fn tdiscarded(tag: u32, why: Bytes) -> Frame
    requires { tag < 2 ^ 24 }
    ensures { result.frame ≡ tdiscarded_for tag why }
{
    let [_, high, middle, low] = tag.to_be_bytes();
    Frame::new(66, 0, Lead::from_slice(&[high, middle, low]), why, 0)
}

/// The probe, with -128 or 127, the type bytes of an Rerr. The router writes -128 in a probe of its own.
pub fn probe(kind: i8) -> Frame
    ensures { result.frame ≡ probe_as kind }
{
    short(kind, 1, PROBE_TEXT)
}
