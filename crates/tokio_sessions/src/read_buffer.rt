//! The bytes that were read and not yet decoded, and the blocks that they lie in.

ghost use Rattle.std.specs.Prelude.{◌≡◌, ◌<◌, ◌≤◌, ◌==◌, ◌↔◌, max, min, Ok, Some, true, [], ◌++◌, length, slice_index, IfOk, IfSome, IfNone, IsTrue};
ghost use Rattle.futures.specs.Task.{Covers, Keeps};
ghost use Rattle.futures.specs.Poll.{OnPending};
ghost use Rattle.tokio.specs.Io.Moved.{count_moved, AppendsRead, IfReadyErr, OrOutOfMemory};
ghost use Rattle.mux_frame.specs.Decoding.{BeginsWithFrame};
ghost use Rattle.tokio_sessions.specs.Finding.{FindsNext};
ghost use Rattle.tokio_sessions.specs.Lacking.{has_begun_by, lacking};

use bytes::{Bytes, BytesMut};
use futures::task::{Context, Poll};
use mux_frame::{Frame, FrameCodec, FrameFault, Memory, read_head};
use std::alloc::Global;
use std::collections::VecDeque;
use std::marker::Model;
use std::{io, mem};
use tokio::io::{AsyncRead, poll_read_buf};
use tokio_util::codec::Decoder;

// Blocks that frames still lie in, besides the one that is read into.
const SPENT: usize = 6;

// What reads are offered once one has filled its room, and was as large as this.
const LARGE_ROOM: usize = 512 * 1024;

const LARGE_READ: usize = 16 * 1024;

// So much room a begun frame is given before its bytes come.
const EARLY_ROOM: usize = 64 * 1024;

// As many bytes are moved within a block before a read.
const SMALL_REST: usize = 4 * 1024;

// As many frames are cut off the block together.
const RUN: usize = 64;

/// Bytes in the order in which they were read.
///
/// Frames share the block that they were read into, so it can't be written again while they are queued.
/// The blocks are taken in turn: the oldest is used again once no frame lies in it, and no new one is
/// made and filled with zeros for each read. A block is cut once for a run of frames, and these are cut
/// off one another, which takes far less time. Small frames are not counted before the cut: what is left
/// behind them is less than one, and is put back into the block.
#[derive(Drop)]
pub struct ReadBuffer {
    // Frames, before the bytes of the block.
    run: Bytes,
    block: BytesMut,
    // The size of the block, of which frames may hold the front.
    size: usize,
    spent: VecDeque<BytesMut>,
    room: usize,
    alloc: Global,
}

impl Model for ReadBuffer {
    ghost use Rattle.std.specs.Prelude.{ℕ, List, ◌++◌};

    ghost Value = { List ℕ };

    ghost view = { λ b. b.run ++ b.block.items };
}

impl ReadBuffer {
    /// No bytes. A read is offered `room` bytes or more.
    pub(crate) fn new(alloc: Global, room: usize) -> Result<ReadBuffer, Memory>
        ensures { IfOk result (λ b. b ≡ []) }
    {
        let block = BytesMut::with_capacity(alloc, room)?;
        Ok(ReadBuffer {
            run: Bytes::new(),
            size: block.capacity(),
            block,
            spent: VecDeque::with_capacity(alloc, SPENT)?,
            room,
            alloc,
        })
    }

    /// Whether every byte was decoded.
    pub(crate) fn is_empty(&self) -> bool
        ensures { result ≡ (length self.now == 0) }
    {
        self.run.is_empty() && self.block.is_empty()
    }

    /// Takes the frame at the front, if it stands in a run of whole frames. `None` says nothing of what
    /// stands there.
    #[inline(always)]
    pub fn cut_frame(&mut self, max_frame: usize) -> Option<Frame>
        requires { max_frame ≤ 16777216 }
        ensures cut { IfSome result (λ f. (f.as_read ≡ true) × BeginsWithFrame max_frame self.old f.frame self.new) }
        ensures same { IfNone result (self.new ≡ self.old) }
    {
        if self.run.is_empty() && !self.block.is_empty() {
            begin_run(&mut self.run, &mut self.block);
        }
        take_front(max_frame, &mut self.run)
    }

    /// Takes the frame at the front.
    pub(crate) fn next_frame(&mut self, max_frame: usize) -> Result<Option<Frame>, FrameFault>
        requires { (32 ≤ max_frame) × (max_frame ≤ 16777216) }
        ensures { FindsNext max_frame self.old result self.new }
    {
        if self.block.is_empty() && self.run.len() <= self.block.capacity() {
            self.block.extend_reserved(self.run.as_slice());
            self.run = Bytes::new();
        }
        if self.run.is_empty() {
            return FrameCodec::new(max_frame).decode(&mut self.block);
        }
        let mut block = self.joined()?;
        let found = FrameCodec::new(max_frame).decode(&mut block);
        self.size = block.capacity();
        self.block = block;
        self.run = Bytes::new();
        found
    }

    // All the bytes in one block.
    fn joined(&self) -> Result<BytesMut, Memory>
        ensures { IfOk result (λ block. block.items ≡ self.now) }
    {
        let mut block = BytesMut::with_capacity(self.alloc, self.room)?;
        block.extend_from_slice(self.run.as_slice())?;
        block.extend_from_slice(self.block.as_slice())?;
        Ok(block)
    }

    /// Whether as many bytes are there as the size at the front counts.
    pub(crate) fn has_frame(&self) -> bool
        ensures { IsTrue result ↔ (lacking self.now ≡ Some 0) }
    {
        self.missing() == Some(0)
    }

    /// Whether a frame has begun of which more is to be read.
    pub(crate) fn has_begun(&self) -> bool
        ensures { result ≡ has_begun_by (lacking self.now) (length self.now) }
    {
        match self.missing() {
            Some(missing) => missing > 0,
            None => self.len() > 0,
        }
    }

    /// One read, whose bytes come behind those that are there.
    pub(crate) fn poll_read<R: AsyncRead>(
        &mut self,
        reader: &mut R,
        cx: &mut Context<'_>,
    ) -> Poll<io::Result<usize>>
        ensures bytes { AppendsRead R.reads reader.old reader.new self.old self.new (count_moved result) }
        ensures end { result ≡ Poll.Ready (Ok 0) → R.is_at_end reader.new }
        ensures failed { IfReadyErr result (OrOutOfMemory (R.fails reader.new)) }
        ensures registered { OnPending result (Covers cx.new (R.needs reader.new)) }
        ensures kept { Keeps cx.old cx.new }
    {
        if let Err(e) = self.make_room() {
            return Poll::Ready(Err(io::Error::from(e)));
        }
        let spare = self.spare();
        let polled = poll_read_buf(reader, cx, &mut self.block);
        if let Poll::Ready(Ok(count)) = &polled {
            self.grow(spare, *count);
        }
        polled
    }

    fn spare(&self) -> usize {
        self.block.capacity() - self.block.len()
    }

    fn len(&self) -> usize
        ensures { result ≡ length self.now }
    {
        self.run.len() + self.block.len()
    }

    fn byte(&self, i: usize) -> u8
        requires { i < length self.now }
        ensures { result ≡ slice_index self.now i }
    {
        let run = self.run.as_slice();
        if i < run.len() {
            run[i]
        } else {
            self.block.as_slice()[i - run.len()]
        }
    }

    // How many bytes the frame at the front lacks, once its size is there.
    fn missing(&self) -> Option<usize>
        ensures { result ≡ lacking self.now }
    {
        let rest = self.len().checked_sub(4)?;
        let size = [self.byte(0), self.byte(1), self.byte(2), self.byte(3)];
        let size = u32::from_be_bytes(size) as usize;
        Some(size.saturating_sub(rest))
    }

    // A read that filled its room is one of many bytes: more room from now on.
    fn grow(&mut self, offered: usize, count: usize)
        ensures { self.new ≡ self.old }
    {
        if count >= offered && count >= LARGE_READ && self.room < LARGE_ROOM {
            self.room = LARGE_ROOM;
            self.spent.clear();
        }
    }

    fn make_room(&mut self) -> Result<(), Memory>
        ensures { self.new ≡ self.old }
    {
        let missing = room_for(self.missing().unwrap_or(0), self.len());
        self.begin_again();
        let spare = self.spare();
        if spare >= missing && spare >= self.room / 4 {
            return Ok(());
        }
        let room = missing.max(self.room);
        if self.block.try_reclaim(room) {
            return Ok(());
        }
        match self.next_block(room)? {
            Some(block) => self.move_to(block),
            None => self.block.reserve(room),
        }
    }

    // Reads go on at the front of the block once no frame lies in it, where the cache has its bytes. That costs as much as
    // a small read, so the first bytes are used up before.
    fn begin_again(&mut self)
        ensures { self.new ≡ self.old }
    {
        let len = self.block.len();
        let used = self.size.saturating_sub(self.block.capacity());
        if len <= SMALL_REST && used >= SMALL_REST {
            let _is_whole = self.block.try_reclaim(self.size.saturating_sub(len));
        }
    }

    // The oldest block when no frame lies in it any more, or a new one while there are few.
    fn next_block(&mut self, room: usize) -> Result<Option<BytesMut>, Memory>
        ensures same { self.new ≡ self.old }
        ensures empty { IfOk result (λ o. IfSome o (λ block. block.items ≡ [])) }
    {
        if let Some(mut block) = self.spent.pop_front() {
            block.clear();
            if block.try_reclaim(room) {
                return Ok(Some(block));
            }
            // One that lies under a frame for long isn't in the way of the others.
            let _ = self.spent.push_back(block);
        }
        if self.spent.len() >= SPENT {
            return Ok(None);
        }
        Ok(Some(BytesMut::with_capacity(self.alloc, room)?))
    }

    // Reads go on in this empty block. The one that was read into is kept unless it is too small.
    fn move_to(&mut self, mut block: BytesMut) -> Result<(), Memory>
        requires { block.items ≡ [] }
        ensures { self.new ≡ self.old }
    {
        let size = block.capacity();
        block.extend_from_slice(self.block.as_slice())?;
        let mut spent = mem::replace(&mut self.block, block);
        let spent_size = mem::replace(&mut self.size, size);
        if spent_size >= self.room {
            spent.clear();
            let _ = self.spent.push_back(spent);
        }
        Ok(())
    }
}

// For how many bytes more there is to be room where the frame at the front lacks so many, and so many came: as many as came,
// once that is more than a little. So a peer that announces a large frame takes memory only for what it sends.
fn room_for(missing: usize, came: usize) -> usize
    ensures { result ≡ min missing (max came 65536) }
{
    missing.min(came.max(EARLY_ROOM))
}

// How many bytes the first frames are, of those that are whole.
fn run_len(bytes: &[u8]) -> usize
    ensures { result ≤ length bytes.now }
{
    let mut rest = bytes;
    for _ in 0..RUN {
        let [a, b, c, d, more @ ..] = rest else {
            break;
        };
        let size = u32::from_be_bytes([*a, *b, *c, *d]) as usize;
        let Some(behind) = more.get(size..) else {
            break;
        };
        rest = behind;
    }
    bytes.len().saturating_sub(rest.len())
}

// Whether the frame at the front is small.
fn begins_small(bytes: &[u8]) -> bool {
    let [a, b, c, d, ..] = bytes else {
        return false;
    };
    u32::from_be_bytes([*a, *b, *c, *d]) as usize <= SMALL_REST
}

// The next run is cut off the block. The place of what is cut is cleared at each call, so it is kept out of the way.
#[cold]
#[inline(never)]
fn begin_run(run: &mut Bytes, block: &mut BytesMut)
    ensures { run.new ++ block.new.items ≡ block.old.items }
{
    *run = cut_run(block);
}

// Cuts frames off the block: all its bytes if they can be put back, or as many frames as are whole.
fn cut_run(block: &mut BytesMut) -> Bytes
    ensures { result ++ block.new.items ≡ block.old.items }
{
    let bytes = block.as_slice();
    let can_put_back = bytes.len() <= block.capacity() - bytes.len();
    let len = if can_put_back && begins_small(bytes) {
        bytes.len()
    } else {
        run_len(bytes)
    };
    block.freeze_to(len).unwrap_or(Bytes::new())
}

// Takes the frame at the front of bytes that are shared.
#[inline(always)]
fn take_front(max_frame: usize, bytes: &mut Bytes) -> Option<Frame>
    requires { max_frame ≤ 16777216 }
    ensures cut { IfSome result (λ f. (f.as_read ≡ true) × BeginsWithFrame max_frame bytes.old f.frame bytes.new) }
    ensures same { IfNone result (bytes.new ≡ bytes.old) }
{
    let Ok(Some(head)) = read_head(max_frame, bytes.as_slice()) else {
        return None;
    };
    let mut body = bytes.split_to(4 + head.size).ok()?;
    body.advance(8);
    Some(Frame::read(head.kind, head.tag, body))
}
