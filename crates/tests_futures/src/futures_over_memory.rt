//! The futures that read and write frames, over memory.

mod ends;
mod refused;

use bytes::{Bytes, BytesMut};
use ends::{Endless, Narrow, Pauses, Picky, Several, Trickle, Wide};
use futures::Future;
use futures::task::Poll;
use futures::test::MockTask;
use mux_frame::{Frame, FrameCodec, FrameFault};
use std::alloc::Global;
use std::collections::VecDeque;
use std::test::Fail;
use tokio_sessions::{
    FrameSink, FrameSource, Offered, ReadEnd, ReadSession, WriteEnd, WriteSession,
};
use tokio_util::codec::{Decoder, Encoder};

const MAX: usize = 32;

const PING: &[u8] = b"\x00\x00\x00\x04\x41\x00\x00\x01";

// A dispatch, its discard and another dispatch on its tag.
const DISCARDED: &[u8] = b"\x00\x00\x00\x10\x02\x00\x00\x05\x00\x00\x00\x04/s/a\x00\x00hi\
\x00\x00\x00\x08\x42\x00\x00\x00\x00\x00\x05x\
\x00\x00\x00\x10\x02\x00\x00\x05\x00\x00\x00\x04/s/a\x00\x00hi";

// An initiation's check, and a body of the greatest size.
const GREATEST: &[u8] = b"\x00\x00\x00\x0f\x7f\x00\x00\x01tinit check\
\x00\x00\x00\x20\x80\xff\xff\xff0123456789012345678901234567";

// Each stream, and where its frames end.
const STREAMS: [(&[u8], &[usize]); 3] = [
    (PING, &[8]),
    (DISCARDED, &[20, 32, 52]),
    (GREATEST, &[19, 55]),
];

// Polls up to the end.
fn run<F: Future>(task: &MockTask, future: &mut F) -> Option<F::Output>
    requires { (f : F) → F.can_poll f }
{
    for _ in 0..100_000 {
        if let Poll::Ready(end) = task.poll(future) {
            return Some(end);
        }
    }
    None
}

fn frames_of(alloc: Global, bytes: &[u8]) -> Result<VecDeque<Frame>, Fail> {
    let mut codec = FrameCodec::new(16_777_216);
    let mut src = BytesMut::copy_from_slice(alloc, bytes)?;
    let mut frames = VecDeque::new(alloc);
    for _ in 0..bytes.len() {
        if let Some(frame) = codec.decode(&mut src)? {
            frames.push_back(frame)?;
        }
    }
    Ok(frames)
}

fn bytes_of(alloc: Global, frames: Vec<Frame>) -> Result<BytesMut, Fail> {
    let mut codec = FrameCodec::new(16_777_216);
    let mut dst = BytesMut::new(alloc);
    for frame in frames {
        codec.encode(frame, &mut dst)?;
    }
    Ok(dst)
}

fn picky(alloc: Global, delays: u8, most: usize, at_once: usize) -> Picky {
    Picky {
        frames: Vec::new(alloc),
        delays,
        left: delays,
        most,
        at_once,
        is_stopped: false,
        flushes: Vec::new(alloc),
    }
}

// The last place up to `count` where a frame ends.
fn boundary(ends: &[usize], count: usize) -> usize {
    ends.iter()
        .copied()
        .filter(|end| *end <= count)
        .last()
        .unwrap_or(0)
}

/// The answers to the pings of a stream.
fn answers(rt: &HostRuntime, stream: &'static [u8]) -> Result<VecDeque<Frame>, Fail> {
    let task = MockTask::new(rt)?;
    let mut reader = ReadSession::new(rt.alloc(), stream, Vec::new(rt.alloc()), MAX, 16)?;
    if run(&task, &mut reader) != Some(ReadEnd::End) {
        return Err(Fail::from("another end"));
    }
    let (_, taken) = reader.into_parts();
    let mut answers = VecDeque::new(rt.alloc());
    for ping in taken {
        if ping.kind() != 65 {
            return Err(Fail::from("no ping"));
        }
        answers.push_back(ping.with_kind(-65))?;
    }
    Ok(answers)
}

#[test]
fn future_row_1(rt: HostRuntime) -> Result<(), Fail> {
    let task = MockTask::new(&rt)?;
    let answers = answers(&rt, PING)?;
    let mut writer = WriteSession::new(rt.alloc(), Vec::new(rt.alloc()), answers, 64)?;
    assert!(rt; run(&task, &mut writer) == Some(WriteEnd::Done));
    let (written, _) = writer.into_parts();
    assert_eq!(rt;
        written.as_slice(),
        b"\x00\x00\x00\x04\xbf\x00\x00\x01".as_slice()
    );
    Ok(())
}

/// The end that a reader comes to, which stays, and the bytes of the frames that its sink took.
fn read(rt: &HostRuntime, reader: Trickle, sink: Picky) -> Result<(ReadEnd, BytesMut), Fail> {
    let task = MockTask::new(rt)?;
    let mut session = ReadSession::new(rt.alloc(), reader, sink, MAX, 16)?;
    let end = run(&task, &mut session).ok_or("no end")?;
    if run(&task, &mut session) != Some(end) {
        return Err(Fail::from("another end"));
    }
    let (_, sink) = session.into_parts();
    Ok((end, bytes_of(rt.alloc(), sink.frames)?))
}

/// The end of a stream that ends or fails behind `count` bytes, where its last frame ends at `whole`.
fn end_of(count: usize, whole: usize, fails: bool) -> ReadEnd {
    if fails {
        ReadEnd::Fault(FrameFault::Read)
    } else if whole == count {
        ReadEnd::End
    } else {
        ReadEnd::Fault(FrameFault::Truncated)
    }
}

/// Whether the reader fails, whether it waits before each byte, and how often the sink puts off.
const READERS: &[(bool, bool, u8)] = &[
    (false, false, 0),
    (false, true, 3),
    (true, false, 3),
    (true, true, 0),
];

/// Reads the first bytes of a stream by each reader.
fn check_reads(
    rt: &HostRuntime,
    stream: &'static [u8],
    ends: &[usize],
    count: usize,
) -> Result<(), Fail> {
    let whole = boundary(ends, count);
    let rest = stream.get(..count).ok_or("a cut")?;
    for (fails, waits, delays) in READERS {
        let reader = Trickle {
            rest,
            pauses: Pauses::new(*waits),
            fails: *fails,
        };
        let (end, taken) = read(rt, reader, picky(rt.alloc(), *delays, 10, 10))?;
        if end != end_of(count, whole, *fails) || Some(taken.as_slice()) != stream.get(..whole) {
            return Err(Fail::from(count));
        }
    }
    Ok(())
}

// An end or a failure at each byte, behind a pause for each byte or none, at a sink that puts off or not.
#[test]
fn reads_every_cut(rt: HostRuntime) -> Result<(), Fail> {
    for (stream, ends) in STREAMS {
        for count in 0..stream.len() + 1 {
            check_reads(&rt, stream, ends, count)?;
        }
    }
    Ok(())
}

/// The end that a writer comes to, which stays, and what was written.
fn write(
    rt: &HostRuntime,
    writer: Narrow,
    frames: VecDeque<Frame>,
    gather: usize,
) -> Result<(WriteEnd, Vec<u8>), Fail> {
    let task = MockTask::new(rt)?;
    let mut session = WriteSession::new(rt.alloc(), writer, frames, gather)?;
    let end = run(&task, &mut session).ok_or("no end")?;
    if run(&task, &mut session) != Some(end) {
        return Err(Fail::from("another end"));
    }
    let (writer, _) = session.into_parts();
    Ok((end, writer.bytes))
}

/// Whether the writer waits before each byte, and how much is gathered.
const WRITERS: &[(bool, usize)] = &[(false, 0), (true, 64), (false, 64), (true, 0)];

/// Writes a stream by each writer up to `room` bytes.
fn check_writes(rt: &HostRuntime, stream: &'static [u8], room: usize) -> Result<(), Fail> {
    let wanted = if room < stream.len() {
        WriteEnd::Fault
    } else {
        WriteEnd::Done
    };
    for (waits, gather) in WRITERS {
        let writer = Narrow {
            bytes: Vec::new(rt.alloc()),
            room,
            pauses: Pauses::new(*waits),
        };
        let (end, bytes) = write(rt, writer, frames_of(rt.alloc(), stream)?, *gather)?;
        if end != wanted || Some(bytes.as_slice()) != stream.get(..room) {
            return Err(Fail::from(room));
        }
    }
    Ok(())
}

// One byte at a time, behind a pause or none, and a failure at each byte.
#[test]
fn writes_every_cut(rt: HostRuntime) -> Result<(), Fail> {
    for (stream, _) in STREAMS {
        for room in 0..stream.len() + 1 {
            check_writes(&rt, stream, room)?;
        }
    }
    Ok(())
}

// Each stream, the frames that are taken, and the end.
const SIZES: &[(&[u8], usize, ReadEnd)] = &[
    (PING, 1, ReadEnd::End),
    (GREATEST, 2, ReadEnd::End),
    (b"\x00\x00\x00\x21", 0, ReadEnd::Fault(FrameFault::TooLarge)),
    (
        b"\x00\x00\x00\x03\x41\x00\x00",
        0,
        ReadEnd::Fault(FrameFault::TooShort),
    ),
    (
        b"\x00\x00\x00\x03\x41\x00",
        0,
        ReadEnd::Fault(FrameFault::Truncated),
    ),
];

/// How many frames come of a stream, and its end.
fn read_all(rt: &HostRuntime, stream: &'static [u8]) -> Result<(usize, Option<ReadEnd>), Fail> {
    let task = MockTask::new(rt)?;
    let mut session = ReadSession::new(rt.alloc(), stream, Vec::new(rt.alloc()), MAX, 16)?;
    let end = run(&task, &mut session);
    let (_, frames) = session.into_parts();
    Ok((frames.len(), end))
}

#[test]
fn sizes(rt: HostRuntime) -> Result<(), Fail> {
    for (stream, count, end) in SIZES {
        let (taken, ended) = read_all(&rt, *stream)?;
        assert!(rt; taken == *count && ended == Some(*end), "{stream:?}");
    }
    Ok(())
}

/// How many frames a sink took, where the stream was stopped.
fn stopped(rt: &HostRuntime, sink: Picky) -> Result<usize, Fail> {
    let task = MockTask::new(rt)?;
    let mut session = ReadSession::new(rt.alloc(), DISCARDED, sink, MAX, 16)?;
    for _ in 0..2 {
        if run(&task, &mut session) != Some(ReadEnd::Stopped) {
            return Err(Fail::from("another end"));
        }
    }
    let (_, sink) = session.into_parts();
    Ok(sink.frames.len())
}

#[test]
fn sink_stops(rt: HostRuntime) -> Result<(), Fail> {
    for (most, is_stopped, count) in [(1, false, 1), (0, false, 0), (3, true, 0)] {
        for at_once in [0, 10] {
            let mut sink = picky(rt.alloc(), 0, most, at_once);
            sink.is_stopped = is_stopped;
            assert_eq!(rt; stopped(&rt, sink)?, count);
        }
    }
    Ok(())
}

// Their tags differ.
fn many_pings(alloc: Global) -> Result<BytesMut, Fail> {
    let mut stream = BytesMut::new(alloc);
    for tag in 0..100u8 {
        stream.extend_from_slice(b"\x00\x00\x00\x04\x41\x00\x00")?;
        stream.extend_from_slice(&[tag])?;
    }
    Ok(stream)
}

/// What a sink that takes so many frames together was told at the end of each poll. It took all frames.
fn flushes(rt: &HostRuntime, stream: &[u8], at_once: usize) -> Result<Vec<bool>, Fail> {
    let task = MockTask::new(rt)?;
    let sink = picky(rt.alloc(), 0, 200, at_once);
    let mut reader = ReadSession::new(rt.alloc(), stream, sink, MAX, 1024)?;
    if run(&task, &mut reader) != Some(ReadEnd::End) {
        return Err(Fail::from("another end"));
    }
    let (_, sink) = reader.into_parts();
    if bytes_of(rt.alloc(), sink.frames)?.as_slice() != stream {
        return Err(Fail::from("other frames"));
    }
    Ok(sink.flushes)
}

/// What is written of these frames in two polls.
fn written_in_two(rt: &HostRuntime, frames: VecDeque<Frame>) -> Result<Wide, Fail> {
    let task = MockTask::new(rt)?;
    let wide = Wide {
        bytes: Vec::new(rt.alloc()),
        calls: 0,
    };
    let mut writer = WriteSession::new(rt.alloc(), wide, frames, 65536)?;
    for poll in [Poll::Pending, Poll::Ready(WriteEnd::Done)] {
        if task.poll(&mut writer) != poll {
            return Err(Fail::from("another poll"));
        }
    }
    let (wide, _) = writer.into_parts();
    Ok(wide)
}

// A hundred pings: 64 in the first poll, behind which more wait, and no write before the second.
#[test]
fn budget(rt: HostRuntime) -> Result<(), Fail> {
    let stream = many_pings(rt.alloc())?;
    for at_once in [0, 1, 10, 63, 100] {
        let flushes = flushes(&rt, stream.as_slice(), at_once)?;
        assert_eq!(rt; flushes.as_slice(), [true, false].as_slice());
    }
    let wide = written_in_two(&rt, frames_of(rt.alloc(), stream.as_slice())?)?;
    assert_eq!(rt; wide.calls, 1);
    assert_eq!(rt; wide.bytes.as_slice(), stream.as_slice());
    Ok(())
}

/// Small frames, one whose body has this size, and a ping.
fn with_body(alloc: Global, size: usize) -> Result<VecDeque<Frame>, Fail> {
    let body = Bytes::from_vec(vec![in alloc; 7; size]?)?;
    let mut frames = frames_of(alloc, DISCARDED)?;
    frames.push_back(Frame::read(2, 5, body))?;
    frames.push_back(Frame::read(65, 1, Bytes::new()))?;
    Ok(frames)
}

/// What is written of these frames, behind which the source waits without end.
fn written(rt: &HostRuntime, frames: VecDeque<Frame>) -> Result<Vec<u8>, Fail> {
    let task = MockTask::new(rt)?;
    let writer = Narrow {
        bytes: Vec::new(rt.alloc()),
        room: 200_000,
        pauses: Pauses::new(false),
    };
    let source = Endless {
        frames,
        pauses: Pauses::new(true),
    };
    let mut session = WriteSession::new(rt.alloc(), writer, source, 64)?;
    if run(&task, &mut session).is_some() {
        return Err(Fail::from("an end"));
    }
    let (writer, _) = session.into_parts();
    Ok(writer.bytes)
}

// Bodies on both sides of the size from which they are shared, between small frames.
#[test]
fn shared_bodies(rt: HostRuntime) -> Result<(), Fail> {
    for (size, length) in [(16_383, 16_451), (16_384, 16_452), (100_000, 100_068)] {
        let bytes = written(&rt, with_body(rt.alloc(), size)?)?;
        assert_eq!(rt; frames_of(rt.alloc(), bytes.as_slice())?.len(), 5);
        assert_eq!(rt; bytes.len(), length);
        assert!(rt; bytes.ends_with(PING));
    }
    Ok(())
}

// Dispatches whose bodies are shared: their tags, which fill their bodies, and their bodies' sizes.
const LARGE: [(u8, usize); 5] = [
    (1, 20_000),
    (2, 16_384),
    (3, 30_000),
    (4, 16_385),
    (5, 17_000),
];

/// The large dispatches, and a ping behind the first and the last.
fn large_frames(alloc: Global) -> Result<Vec<Frame>, Fail> {
    let mut frames = Vec::new(alloc);
    for (tag, size) in LARGE {
        let body = Bytes::from_vec(vec![in alloc; tag; size]?)?;
        frames.push(Frame::read(2, u32::from(tag), body))?;
        if tag % 4 == 1 {
            frames.push(Frame::read(65, u32::from(tag), Bytes::new()))?;
        }
    }
    Ok(frames)
}

// How much each of the first writes takes, and how many writes there are. The first four dispatches begin
// at 0, 20,016, 36,408 and 66,416, the ping at 20,008, and they go together: 82,809 bytes. A head has 8.
const CUTS: &[(&[usize], usize)] = &[
    (&[], 2),
    (&[3], 3),
    (&[8], 3),
    (&[5_000], 3),
    (&[20_008], 3),
    (&[20_011], 3),
    (&[20_016], 3),
    (&[20_024], 3),
    (&[20_025], 3),
    (&[66_418], 3),
    (&[82_808], 3),
    (&[82_809], 2),
    (&[8, 20_000, 8, 8, 16_384, 8], 8),
    (&[1, 7, 1, 19_999, 7, 2, 7, 46_392, 1], 11),
    (&[82_808, 1, 7, 17_000, 9], 5),
];

/// The frames of a source, written with these limits.
fn written_with(rt: &HostRuntime, limits: &'static [usize]) -> Result<(Vec<u8>, usize), Fail> {
    let task = MockTask::new(rt)?;
    let several = Several {
        bytes: Vec::new(rt.alloc()),
        limits,
        calls: 0,
    };
    let mut frames = VecDeque::new(rt.alloc());
    for frame in large_frames(rt.alloc())? {
        frames.push_back(frame)?;
    }
    let mut session = WriteSession::new(rt.alloc(), several, frames, 64)?;
    if run(&task, &mut session) != Some(WriteEnd::Done) {
        return Err(Fail::from("another end"));
    }
    let (several, _) = session.into_parts();
    Ok((several.bytes, several.calls))
}

// Four shared bodies go out in one write, and a write may end at any place of them.
#[test]
fn several_bodies(rt: HostRuntime) -> Result<(), Fail> {
    let wanted = bytes_of(rt.alloc(), large_frames(rt.alloc())?)?;
    for (limits, calls) in CUTS {
        let (bytes, made) = written_with(&rt, *limits)?;
        assert!(rt;
            bytes.as_slice() == wanted.as_slice() && made == *calls,
            "{limits:?}"
        );
    }
    Ok(())
}
