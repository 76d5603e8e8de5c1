//! A batch of frames that come in together.
ghost use Rattle.std.specs.Prelude.{◌≡◌, ◌==◌, ◌+◌, ◌-◌, ◌<◌, ◌≤◌, [], ◌∷◌, ◌++◌, length, IfOk, IfErr, IfNone, IfSome, IsTrue, OnOk, OnErr};
ghost use Rattle.hub_base.specs.Batching.{Batched, empty};

use crate::bell::{Bell, Rings, SESSIONS_TOLD_APART};
use crate::errands::{Errand, Errands};
use mux_frame::Frame;
use std::alloc::{AllocError, Global};
use std::collections::VecDeque;
use std::marker::Model;

/// Frames that come in together, with the room for what their steps give. So the calls that it is handed
/// to take no memory for it.
///
/// Contracts see the frames that were not taken yet, and the values in hand: none between two calls.
#[derive(Drop)]
pub struct Batch {
    frames: VecDeque<Frame>,
    pub errands: Errands,
    pub rings: Rings,
}

impl Model for Batch {
    ghost use Rattle.std.specs.Prelude.{◌+◌, ◌≤◌, All, IsTrue, length};
    ghost use Rattle.std.specs.VecDeque.{deque_capacity};
    ghost use Rattle.hub_base.specs.Batching.{Batched};

    ghost Value = { Batched };

    ghost view = { λ b. record { frames = b.frames.items; errands = b.errands.items; room = b.errands.room } };

    ghost invariant = { λ b. (length b.frames.items + length b.errands.items ≤ b.errands.room)
        × (b.errands.room ≤ deque_capacity b.frames) × All (λ f. IsTrue f.as_read) b.frames.items };
}

impl Batch {
    /// An empty one with room for 64. Out of memory is the one error.
    pub fn new(alloc: Global) -> Result<Batch, AllocError>
        ensures { IfOk result (λ b. b ≡ empty 64) }
    {
        Ok(Batch {
            frames: VecDeque::with_capacity(alloc, 64)?,
            errands: Errands::with_room(alloc, 64)?,
            rings: Rings::with_room(alloc, SESSIONS_TOLD_APART)?,
        })
    }

    /// An empty one with room for one frame, which tells no sessions apart when it rings. Out of memory is the
    /// one error.
    pub fn of_one(alloc: Global) -> Result<Batch, AllocError>
        ensures { IfOk result (λ b. b ≡ empty 1) }
    {
        Ok(Batch {
            frames: VecDeque::with_capacity(alloc, 1)?,
            errands: Errands::with_room(alloc, 1)?,
            rings: Rings::with_room(alloc, 0)?,
        })
    }

    /// Puts a frame, as a decoder gives it, behind the others. If there is no room it comes back.
    pub fn push(&mut self, frame: Frame) -> Result<(), Frame>
        requires { IsTrue frame.as_read }
        ensures ok { OnOk result (self.new ≡ record self.old { frames = self.old.frames ++ frame ∷ [] }) }
        ensures err { IfErr result (λ f. (f ≡ frame) × (self.new ≡ self.old)) }
        ensures full { OnErr result (self.old.room ≤ length self.old.frames + length self.old.errands) }
    {
        if self.free() == 0 {
            return Err(frame);
        }
        self.frames.push_back_reserved(frame);
        Ok(())
    }

    /// Puts a frame that was refused in front of the others again. If there is no room it comes back.
    pub fn put_back(&mut self, frame: Frame) -> Result<(), Frame>
        requires { IsTrue frame.as_read }
        ensures ok { OnOk result (self.new ≡ record self.old { frames = frame ∷ self.old.frames }) }
        ensures err { IfErr result (λ f. (f ≡ frame) × (self.new ≡ self.old)) }
        ensures full { OnErr result (self.old.room ≤ length self.old.frames + length self.old.errands) }
    {
        if self.free() == 0 {
            return Err(frame);
        }
        self.frames.push_front_reserved(frame);
        Ok(())
    }

    /// For how many frames more there is room.
    #[inline(always)]
    pub fn free(&self) -> usize
        ensures { result ≡ self.now.room - (length self.now.frames + length self.now.errands) }
    {
        self.errands
            .room()
            .saturating_sub(self.frames.len() + self.errands.len())
    }

    /// How many frames were not taken yet.
    #[inline(always)]
    pub fn len(&self) -> usize
        ensures { result ≡ length self.now.frames }
    {
        self.frames.len()
    }

    /// Whether no frame is left that wasn't taken.
    pub fn is_empty(&self) -> bool
        ensures { result ≡ (length self.now.frames == 0) }
    {
        self.frames.is_empty()
    }

    /// Throws the frames away.
    pub fn clear(&mut self)
        ensures { self.new ≡ record self.old { frames = [] } }
    {
        self.frames.clear();
    }

    /// Rings for each session on which the calls with this batch made a step since the last time,
    /// once, unless more frames wait to be handed in.
    pub fn ring<K: Bell>(&mut self, bell: &K, more: bool)
        ensures { self.new ≡ self.old }
    {
        if !more {
            self.rings.ring(bell);
        }
    }

    /// The next frame.
    #[inline(always)]
    pub fn pop(&mut self) -> Option<Frame>
        ensures some { IfSome result (λ f. (self.old.frames ≡ f ∷ self.new.frames) × IsTrue f.as_read
            × (length self.new.frames + length self.new.errands < self.new.room)) }
        ensures none { IfNone result ((self.old.frames ≡ []) × (self.new.frames ≡ [])) }
        ensures held { (self.new.errands ≡ self.old.errands) × (self.new.room ≡ self.old.room) }
    {
        self.frames.pop_front()
    }

    /// Holds what a step gave.
    #[inline(always)]
    pub fn hold(&mut self, errand: Errand)
        requires { length self.old.frames + length self.old.errands < self.old.room }
        ensures { self.new ≡ record self.old { errands = self.old.errands ++ errand ∷ [] } }
    {
        self.errands.push(errand);
    }

    /// Throws away what is in hand: nothing, once each value was handed on.
    pub fn end(&mut self)
        ensures { self.new ≡ record self.old { errands = [] } }
    {
        self.errands.clear();
    }
}
