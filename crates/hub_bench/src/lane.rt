//! What one thread does.

use crate::frames::{dispatch, reply};
use crate::job::Job;
use hub::{Batch, ClientSeat, Hub, HubLedger, OpenGate, ServerSeat};
use mux_frame::Frame;
use mux_history::SessionId;
use published_routes::Publish;
use std::alloc::{AllocError, Global};
use std::collections::VecDeque;
use std::sync::Wait;
use std::sync::atomic::{AtomicU64, Ordering};
use std::thread;

/// How many dispatches of a client are unanswered at most.
const AHEAD: usize = 256;

/// How many frames a session queues, if the configuration doesn't say.
const OUT: usize = 2_048;

/// What a lane takes memory for. It is made before there are seats: so no proof of what may fail carries one.
#[derive(Drop)]
pub struct Room {
    tags: Vec<u32>,
    batch: Batch,
    outs: VecDeque<Frame>,
}

impl Room {
    pub fn new(alloc: Global) -> Result<Room, AllocError> {
        let mut tags = Vec::with_capacity(alloc, AHEAD)?;
        for tag in 1..=AHEAD as u32 {
            tags.push(tag)?;
        }
        Ok(Room {
            tags,
            batch: Batch::new(alloc)?,
            outs: VecDeque::with_capacity(alloc, OUT)?,
        })
    }
}

/// A client and a server.
#[derive(Drop)]
pub struct Lane<L: HubLedger> {
    job: Job,
    client: ClientSeat<L>,
    server: ServerSeat<L>,
    // The tags on which the client has no dispatch.
    tags: Vec<u32>,
    batch: Batch,
    outs: VecDeque<Frame>,
    // How many frames were handed in and taken out.
    moved: u64,
}

impl<L: HubLedger> Lane<L> {
    /// The seats of its client and its server.
    pub fn into_seats(self) -> (ClientSeat<L>, ServerSeat<L>) {
        let Lane { client, server, .. } = self;
        (client, server)
    }

    pub fn new(job: Job, client: ClientSeat<L>, server: ServerSeat<L>, room: Room) -> Lane<L> {
        let Room { tags, batch, outs } = room;
        Lane {
            job,
            client,
            server,
            tags,
            batch,
            outs,
            moved: 0,
        }
    }

    fn moves(&mut self, frames: u64) {
        self.moved = self.moved.saturating_add(frames);
    }

    /// Sends a dispatch.
    fn send<B: Publish<L>, R: Wait>(&mut self, rt: &R, hub: &Hub<OpenGate, L, B>, server: u64) {
        if let Some(tag) = self.tags.pop() {
            let _ = hub.client_frame(rt, &mut self.client, dispatch(server, tag), 0);
            self.moves(1);
        }
    }

    /// Answers the next dispatch that came to the server.
    fn answer<B: Publish<L>, R: Wait>(&mut self, rt: &R, hub: &Hub<OpenGate, L, B>) {
        let session = SessionId::Server(self.server.server());
        if let Some(frame) = hub.next_out(rt, session) {
            let _ = hub.server_frame(rt, &mut self.server, reply(frame.tag()), 0);
            self.moves(2);
        }
    }

    /// Takes the client's next frame out.
    fn take<B: Publish<L>, R: Wait>(&mut self, rt: &R, hub: &Hub<OpenGate, L, B>) {
        let session = SessionId::Client(self.client.client());
        if let Some(frame) = hub.next_out(rt, session) {
            let _ = self.tags.push(frame.tag());
            self.moves(1);
        }
    }

    /// Sends so many dispatches by one call.
    fn send_batch<B: Publish<L>, R: Wait>(
        &mut self,
        rt: &R,
        hub: &Hub<OpenGate, L, B>,
        server: u64,
        size: u64,
    ) {
        for _ in 0..size {
            if let Some(tag) = self.tags.pop() {
                let _ = self.batch.push(dispatch(server, tag));
            }
        }
        let _ = hub.client_frames(rt, &mut self.client, &mut self.batch, 0);
        self.moves(size);
    }

    /// Answers what came to the server, so many in a call.
    fn answer_batches<B: Publish<L>, R: Wait>(
        &mut self,
        rt: &R,
        hub: &Hub<OpenGate, L, B>,
        size: u64,
    ) {
        let session = SessionId::Server(self.server.server());
        let came = hub.next_outs(rt, session, &mut self.outs).came;
        for _ in 0..came {
            let Some(frame) = self.outs.pop_front() else {
                break;
            };
            let _ = self.batch.push(reply(frame.tag()));
            if self.batch.len() as u64 >= size || self.outs.is_empty() {
                let _ = hub.server_frames(rt, &mut self.server, &mut self.batch, 0);
            }
            self.moves(2);
        }
    }

    /// Takes the client's frames out by one call.
    fn take_all<B: Publish<L>, R: Wait>(&mut self, rt: &R, hub: &Hub<OpenGate, L, B>) {
        let session = SessionId::Client(self.client.client());
        let came = hub.next_outs(rt, session, &mut self.outs).came;
        for _ in 0..came {
            let Some(frame) = self.outs.pop_front() else {
                break;
            };
            let _ = self.tags.push(frame.tag());
            self.moves(1);
        }
    }

    /// Sends to a server, if it is given, answers, and takes out.
    fn turn<B: Publish<L>, R: Wait>(
        &mut self,
        rt: &R,
        hub: &Hub<OpenGate, L, B>,
        server: Option<u64>,
        batch: u64,
    ) {
        if batch == 1 {
            if let Some(server) = server {
                self.send(rt, hub, server);
            }
            self.answer(rt, hub);
            self.take(rt, hub);
        } else {
            if let Some(server) = server {
                self.send_batch(rt, hub, server, batch);
            }
            self.answer_batches(rt, hub, batch);
            self.take_all(rt, hub);
        }
    }
}

/// Sends the client's dispatches, and answers what comes to the server, until all lanes have their
/// answers: how many frames were handed in and taken out.
pub fn work<L: HubLedger, B: Publish<L>, R: Wait>(
    rt: &R,
    hub: &Hub<OpenGate, L, B>,
    lane: &mut Lane<L>,
    done: &AtomicU64,
) -> u64 {
    let job = lane.job;
    let mut server = lane.server.server();
    let mut left = job.dispatches;
    let mut is_done = false;
    for _ in rt.forever() {
        if done.load(Ordering::SeqCst) >= job.threads {
            return lane.moved;
        }
        let before = lane.moved;
        let sends = left > 0 && lane.tags.len() as u64 >= job.batch;
        if sends {
            server = job.next(server);
            left = left.saturating_sub(job.batch);
        }
        lane.turn(rt, hub, sends.then_some(server), job.batch);
        if !is_done && left == 0 && lane.tags.len() == AHEAD {
            is_done = true;
            done.fetch_add(1, Ordering::SeqCst);
        }
        if lane.moved == before {
            thread::yield_now();
        }
    }
    unreachable!()
}
