//! Sends the frames of one connection back, through a reader and a writer.
//!
//! The line on standard input is the port of 127.0.0.1 at which it takes its one connection. With no
//! port it ends at once.
#![tactic(auto)]

mod bell;
mod queue;

use futures::Future;
use futures::future::ready;
use futures::task::{Context, Poll};
use queue::{FromQueue, IntoQueue, Queue};
use std::alloc::AllocGlobal;
use std::collections::VecDeque;
use std::io;
use std::net::{Ipv4Addr, Net, SocketAddr, TcpListener, TcpStream as StdStream};
use std::random::RandomSource;
use std::sync::Wait;
use std::time::Clock;
use tokio::net::{OwnedReadHalf, OwnedWriteHalf, TcpStream};
use tokio::runtime::LocalRuntime;
use tokio_sessions::{ReadSession, WriteSession};

const MAX_FRAME: usize = 1024 * 1024;

const ROOM: usize = 16 * 1024;

const GATHER: usize = 64 * 1024;

#[derive(Drop)]
struct ReadTask<'a> {
    session: ReadSession<OwnedReadHalf, IntoQueue<'a>>,
    queue: &'a Queue,
}

#[derive(Drop)]
enum Task<'a> {
    Read(ReadTask<'a>),
    Write(WriteSession<OwnedWriteHalf, FromQueue<'a>>),
}

impl Future for ReadTask<'_> {
    type Output = ();

    fn poll(&mut self, cx: &mut Context<'_>) -> Poll<()> {
        match self.session.poll(cx) {
            Poll::Ready(_) => {
                self.queue.end();
                Poll::Ready(())
            }
            Poll::Pending => Poll::Pending,
        }
    }
}

impl Future for Task<'_> {
    type Output = ();

    fn poll(&mut self, cx: &mut Context<'_>) -> Poll<()> {
        match self {
            Task::Read(task) => task.poll(cx),
            Task::Write(session) => match session.poll(cx) {
                Poll::Ready(_) => Poll::Ready(()),
                Poll::Pending => Poll::Pending,
            },
        }
    }
}

fn relay<R>(rt: &R, port: u16) -> io::Result<()>
where
    R: Wait + Clock + RandomSource + AllocGlobal + Net<Listener = TcpListener, Stream = StdStream>,
{
    let listener = TcpListener::bind(rt, SocketAddr::from((Ipv4Addr::LOCALHOST, port)))?;
    let (socket, _) = listener.accept()?;
    let mut runtime = LocalRuntime::new(rt)?;
    let stream = TcpStream::from_std(socket, runtime.handle().reactor())?;
    stream.set_nodelay(true)?;
    let (input, output) = stream.into_split()?;
    let queue = Queue::new(rt.alloc());
    run(rt, &mut runtime, &queue, input, output)
}

fn run<R>(
    rt: &R,
    runtime: &mut LocalRuntime,
    queue: &Queue,
    input: OwnedReadHalf,
    output: OwnedWriteHalf,
) -> io::Result<()>
where
    R: Wait + Clock + RandomSource + AllocGlobal,
{
    let sink = IntoQueue {
        queue,
        batch: VecDeque::new(rt.alloc()),
    };
    let source = FromQueue {
        queue,
        next: VecDeque::new(rt.alloc()),
    };
    let session = ReadSession::new(rt.alloc(), input, sink, MAX_FRAME, ROOM)?;
    let writer = WriteSession::new(rt.alloc(), output, source, GATHER)?;
    let tasks = runtime.task_set(rt)?;
    tasks.spawn(Task::Read(ReadTask { session, queue }))?;
    tasks.spawn(Task::Write(writer))?;
    runtime.block_on_with(rt, &tasks, ready(()))
}

fn main(rt: HostRuntime) -> io::Result<()> {
    let mut line = String::new(rt.alloc());
    rt.read_line(&mut line)?;
    match line.as_str().trim_end().parse::<u16>() {
        Ok(port) => relay(&rt, port),
        Err(_) => Ok(()),
    }
}
