//! Bodies: what `parse` finds, and which type bytes are written.

mod parsing;
mod table;

use bytes::Bytes;
use mux_frame::Frame;
use mux_message::{Message, parse};
use std::test::Fail;

/// A message that each of these type bytes may have.
fn message(kind: i8) -> Result<Message, Fail> {
    let body = Bytes::from_static(&[0, 0, 5, b'x', 0, 0, 0, 0, 0]);
    match parse(Frame::read(kind, 0, body)) {
        Ok(message) => Ok(message),
        Err((fault, _frame)) => Err(Fail::from(fault)),
    }
}

/// The type byte with which a message of this one is written, as it came and in its normal spelling.
fn spelled(kind: i8) -> Result<(i8, i8), Fail> {
    let same = message(kind)?.into_frame();
    let normal = message(kind)?.into_normal_frame();
    Ok((same.kind(), normal.kind()))
}

// Each type byte, and the one that is written in its place.
const SPELLINGS: &[(i8, i8)] = &[(-62, 66), (66, 66), (127, -128), (-128, -128), (67, 67)];

#[test]
fn normal_spelling(rt: HostRuntime) -> Result<(), Fail> {
    for (kind, normal) in SPELLINGS {
        assert!(rt; spelled(*kind)? == (*kind, *normal), "{kind}");
    }
    Ok(())
}
