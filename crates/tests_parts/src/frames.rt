//! The codec: when frames and faults come, and what is written.

use bytes::{Bytes, BytesMut};
use mux_frame::{Frame, FrameCodec, FrameFault, Lead, retag};
use std::alloc::Global;
use std::io;
use std::test::Fail;
use tokio_util::codec::{Decoder, Encoder};

const PING: &[u8] = &[0, 0, 0, 4, 65, 0, 0, 1];

/// A step of a codec over a buffer.
#[derive(Clone, Copy)]
enum Do {
    /// These bytes come.
    Feed(&'static [u8]),
    Decode,
    End,
    Left,
}

/// What it led to.
#[derive(Clone, Copy, PartialEq, Eq)]
enum Told {
    Done,
    Nothing,
    /// Of this type and tag, with so long a body.
    Frame(i8, u32, usize),
    Fault(FrameFault),
    Count(usize),
}

fn decoded(found: Result<Option<Frame>, FrameFault>) -> Told {
    match found {
        Ok(Some(frame)) => Told::Frame(frame.kind(), frame.tag(), frame.body_len()),
        Ok(None) => Told::Nothing,
        Err(fault) => Told::Fault(fault),
    }
}

fn does(codec: &mut FrameCodec, src: &mut BytesMut, step: Do) -> Result<Told, Fail> {
    Ok(match step {
        Do::Feed(bytes) => {
            src.extend_from_slice(bytes)?;
            Told::Done
        }
        Do::Decode => decoded(codec.decode(src)),
        Do::End => decoded(codec.decode_eof(src)),
        Do::Left => Told::Count(src.len()),
    })
}

/// Plays the steps with the least limit. The first that leads to something else is the fault.
fn check(alloc: Global, steps: &[(Do, Told)]) -> Result<(), Fail> {
    let mut codec = FrameCodec::new(32);
    let mut src = BytesMut::new(alloc);
    for (place, (step, told)) in steps.iter().enumerate() {
        if does(&mut codec, &mut src, *step)? != *told {
            return Err(Fail::from(place));
        }
    }
    Ok(())
}

/// A stream at fault: nothing comes after it, and no byte goes.
fn check_fault(alloc: Global, bytes: &'static [u8], fault: FrameFault) -> Result<(), Fail> {
    let steps = [
        (Do::Feed(bytes), Told::Done),
        (Do::Decode, Told::Fault(fault)),
        (Do::Feed(PING), Told::Done),
        (Do::Decode, Told::Nothing),
        (Do::End, Told::Nothing),
        (Do::Left, Told::Count(bytes.len() + PING.len())),
    ];
    check(alloc, &steps)
}

// Each stream, and the fault that a codec with the least limit reports.
const FAULTS: &[(&[u8], FrameFault)] = &[
    (&[0, 0, 0, 3, 0x41, 0, 0], FrameFault::TooShort),
    (&[0, 0, 0, 0], FrameFault::TooShort),
    (&[0, 0, 0, 33], FrameFault::TooLarge),
    (&[0xff, 0xff, 0xff, 0xff], FrameFault::TooLarge),
    (&[0, 0, 1, 0, 0, 0, 0, 4], FrameFault::TooLarge),
    (&[0, 0, 0, 1, 0, 0, 1, 0], FrameFault::TooShort),
];

#[test]
fn sizes(rt: HostRuntime) -> Result<(), Fail> {
    for (bytes, fault) in FAULTS {
        check_fault(rt.alloc(), *bytes, *fault)?;
    }
    Ok(())
}

const GREATEST: &[u8] = &[
    0, 0, 0, 32, 7, 7, 7, 7, 7, 7, 7, 7, 7, 7, 7, 7, 7, 7, 7, 7, 7, 7, 7, 7, 7, 7, 7, 7, 7, 7, 7,
    7, 7, 7, 7, 7,
];

const GREATEST_SIZE: &[(Do, Told)] = &[
    (Do::Feed(GREATEST), Told::Done),
    (Do::Decode, Told::Frame(7, 0x070707, 28)),
    (Do::Decode, Told::Nothing),
    (Do::End, Told::Nothing),
];

#[test]
fn greatest_size(rt: HostRuntime) -> Result<(), Fail> {
    check(rt.alloc(), GREATEST_SIZE)?;
    assert_eq!(rt; copied(rt.alloc(), &[GREATEST])?.as_slice(), GREATEST);
    Ok(())
}

/// The frames that come of these pieces, written again.
fn copied(alloc: Global, pieces: &[&[u8]]) -> Result<BytesMut, Fail> {
    let mut codec = FrameCodec::new(32);
    let mut src = BytesMut::new(alloc);
    let mut dst = BytesMut::new(alloc);
    for piece in pieces {
        src.extend_from_slice(*piece)?;
        if let Some(frame) = codec.decode(&mut src)? {
            codec.encode(frame, &mut dst)?;
        }
    }
    Ok(dst)
}

#[test]
fn ping_in_every_cut(rt: HostRuntime) -> Result<(), Fail> {
    for cut in 0..PING.len() {
        let (front, end) = PING.split_at(cut);
        let steps = [
            (Do::Feed(front), Told::Done),
            (Do::Decode, Told::Nothing),
            (Do::Feed(end), Told::Done),
            (Do::Decode, Told::Frame(65, 1, 0)),
            (Do::Left, Told::Count(0)),
        ];
        check(rt.alloc(), &steps)?;
        assert_eq!(rt; copied(rt.alloc(), &[front, end])?.as_slice(), PING);
    }
    Ok(())
}

#[test]
fn ping_in_single_bytes(rt: HostRuntime) -> Result<(), Fail> {
    let pieces: [&[u8]; 8] = [&[0], &[0], &[0], &[4], &[65], &[0], &[0], &[1]];
    assert_eq!(rt; copied(rt.alloc(), &pieces)?.as_slice(), PING);
    Ok(())
}

// The size alone gives TooLarge, but TooShort waits for the bytes that the size counts.
const LARGE_AT_ONCE: &[(Do, Told)] = &[
    (Do::Feed(&[0, 0, 0]), Told::Done),
    (Do::Decode, Told::Nothing),
    (Do::Feed(&[33]), Told::Done),
    (Do::Decode, Told::Fault(FrameFault::TooLarge)),
];

const SHORT_LATER: &[(Do, Told)] = &[
    (Do::Feed(&[0, 0, 0, 3, 0x41, 0]), Told::Done),
    (Do::Decode, Told::Nothing),
    (Do::Feed(&[0]), Told::Done),
    (Do::Decode, Told::Fault(FrameFault::TooShort)),
];

#[test]
fn when_a_fault_is_told(rt: HostRuntime) -> Result<(), Fail> {
    check(rt.alloc(), LARGE_AT_ONCE)?;
    check(rt.alloc(), SHORT_LATER)
}

#[test]
fn end_inside_a_frame(rt: HostRuntime) -> Result<(), Fail> {
    for cut in 1..PING.len() {
        let steps = [
            (Do::Feed(PING.split_at(cut).0), Told::Done),
            (Do::End, Told::Fault(FrameFault::Truncated)),
            (Do::End, Told::Nothing),
        ];
        check(rt.alloc(), &steps)?;
    }
    Ok(())
}

#[test]
fn faults_of_a_reader(rt: HostRuntime) {
    let refused = io::Error::from(io::ErrorKind::OutOfMemory);
    assert!(rt; FrameFault::from(refused) == FrameFault::Memory);
    let reset = io::Error::from(io::ErrorKind::ConnectionReset);
    assert!(rt; FrameFault::from(reset) == FrameFault::Read);
}

/// A frame whose body is a lead and a rest.
fn made() -> Frame {
    let rest = Bytes::from_static(b"a route");
    Frame::new(-128, 5, Lead::from_slice(b"no "), rest, 2)
}

const MADE: &[u8] = &[
    0, 0, 0, 12, 128, 0, 0, 5, b'n', b'o', b' ', b'r', b'o', b'u', b't', b'e',
];

/// The first frame of these bytes.
fn first(alloc: Global, bytes: &[u8]) -> Result<Frame, Fail> {
    let mut src = BytesMut::copy_from_slice(alloc, bytes)?;
    Ok(FrameCodec::new(32).decode(&mut src)?.ok_or("a frame")?)
}

fn written(alloc: Global, frame: Frame) -> Result<BytesMut, Fail> {
    let mut dst = BytesMut::new(alloc);
    FrameCodec::new(32).encode(frame, &mut dst)?;
    Ok(dst)
}

#[test]
fn lead_and_rest(rt: HostRuntime) -> Result<(), Fail> {
    let read = first(rt.alloc(), &[0, 0, 0, 6, 1, 0, 0, 9, 0x61, 0x62])?;
    let copy = retag(read.try_copy()?, 3);
    assert!(rt; read.as_read() && copy.tag() == 3);
    assert_eq!(rt; copy.body(), b"ab".as_slice());
    let made = made();
    assert!(rt; !made.as_read() && made.body_len() == 8 && made.body_byte(3) == b'r');
    assert_eq!(rt; written(rt.alloc(), made)?.as_slice(), MADE);
    Ok(())
}
