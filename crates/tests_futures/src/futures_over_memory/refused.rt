//! Memory that is refused to the futures. With each allocation failing in turn, a run ends as it does
//! with none failing, or reports that memory was refused.

use super::{bytes_of, frames_of, run};
use bytes::Bytes;
use futures::test::MockTask;
use mux_frame::{Frame, FrameFault};
use std::alloc::Global;
use std::collections::VecDeque;
use std::test::Fail;
use tokio_sessions::{ReadEnd, ReadSession, WriteEnd, WriteSession};

// A ping, a dispatch and its discard: more than one block of the reader.
const STREAM: &[u8] = b"\x00\x00\x00\x04\x41\x00\x00\x01\
\x00\x00\x00\x10\x02\x00\x00\x05\x00\x00\x00\x04/s/a\x00\x00hi\
\x00\x00\x00\x08\x42\x00\x00\x00\x00\x00\x05x\
\x00\x00\x00\x20\x80\xff\xff\xff0123456789012345678901234567";

#[test]
fn refused_reader(rt: HostRuntime) -> Result<(), Fail> {
    let task = MockTask::new(&rt)?;
    let taken = Vec::with_capacity(rt.alloc(), 4)?;
    let mut session = ReadSession::new(rt.alloc(), STREAM, taken, 32, 16)?;
    let end = run(&task, &mut session);
    let again = run(&task, &mut session);
    assert_eq!(rt; again, end);
    let (_, taken) = session.into_parts();
    let bytes = bytes_of(rt.alloc(), taken)?;
    assert!(rt; STREAM.starts_with(bytes.as_slice()));
    if end == Some(ReadEnd::Fault(FrameFault::Memory)) {
        return Err(Fail::from("memory was refused"));
    }
    assert_eq!(rt; end, Some(ReadEnd::End));
    assert_eq!(rt; bytes.as_slice(), STREAM);
    Ok(())
}

fn frames(alloc: Global) -> Result<VecDeque<Frame>, Fail> {
    let mut frames = frames_of(alloc, STREAM)?;
    frames.push_back(Frame::read(2, 5, Bytes::from_vec(vec![in alloc; 7; 20_000]?)?))?;
    Ok(frames)
}

#[test]
fn refused_writer(rt: HostRuntime) -> Result<(), Fail> {
    let task = MockTask::new(&rt)?;
    let frames = frames(rt.alloc())?;
    let written = Vec::with_capacity(rt.alloc(), 20_100)?;
    let mut session = WriteSession::new(rt.alloc(), written, frames, 64)?;
    let end = run(&task, &mut session);
    assert_eq!(rt; end, Some(WriteEnd::Done));
    let (written, _) = session.into_parts();
    assert_eq!(rt; written.len(), STREAM.len() + 8 + 20_000);
    assert!(rt; written.starts_with(STREAM));
    Ok(())
}
