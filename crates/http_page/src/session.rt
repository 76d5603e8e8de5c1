//! One request, its response, and the end.
//!
//! `shut_down` and `drain` are those of line_session's turns, over stages of its own.
ghost use Rattle.std.specs.Prelude.{◌≡◌, ◌≢◌};
ghost use Rattle.futures.specs.Task.{Covers, Keeps};

use crate::choice::chosen;
use crate::pages::{Page, Pages};
use crate::step::{Stage, Step};
use bytes::{Buf, BytesMut};
use futures::Future;
use futures::task::{Context, Poll};
use http1::{BodySize, Event, Header, Limits, Server, WriteError};
use httparse::spans::EMPTY_HEADER_SPAN;
use std::alloc::Global;
use std::io;
use std::io::ErrorKind;
use tokio::io::{AsyncRead, AsyncWrite, poll_read_buf};

// Turns of one poll. Each reads once or writes once.
const BUDGET: usize = 16;

// The greatest length of a request's head, in bytes.
const MAX_HEAD: usize = 8 * 1_024;

// How many fields the head of a request may have.
const MAX_FIELDS: usize = 64;

// As many bytes are read and thrown away behind the head.
const MAX_DRAINED: usize = 64 * 1_024;

/// Why a connection ended.
#[derive(Clone, Copy, Debug, PartialEq, Eq)]
pub enum HttpEnd {
    /// The response was written.
    Answered,
    /// The other side ended before its request was whole.
    Ended,
    /// A read or a write failed, or memory was refused.
    Failed,
}

/// Reads one request, writes the response, shuts the write half down, and throws away what still comes, up to its end
/// or 64 KiB, so that the response arrives.
///
/// A head that is no HTTP/1.x request, or is longer than 8 KiB or has more than 64 fields, gets the status that `http1`
/// has for it. A body is not read. A poll takes at most 16 turns, and then yields. A poll after the end gives the same
/// end.
#[derive(Drop)]
pub struct HttpSession<R, W, P> {
    alloc: Global,
    reader: R,
    writer: W,
    pages: P,
    server: Server,
    input: BytesMut,
    output: BytesMut,
    stage: Stage,
    end: Option<HttpEnd>,
}

impl<R: AsyncRead, W: AsyncWrite, P: Pages> HttpSession<R, W, P> {
    ghost use Rattle.http_page.specs.Waiting.{OnWait, is_behind_response, waits_for};

    /// A session that has read nothing. It takes no memory.
    pub fn new(alloc: Global, reader: R, writer: W, pages: P) -> HttpSession<R, W, P> {
        HttpSession {
            alloc,
            reader,
            writer,
            pages,
            server: Server::new(Limits {
                max_head_len: MAX_HEAD,
                max_extensions_len: MAX_HEAD,
                max_trailers_len: MAX_HEAD,
            }),
            input: BytesMut::new(alloc),
            output: BytesMut::new(alloc),
            stage: Stage::Reading,
            end: None,
        }
    }

    /// The reader and the writer.
    pub fn into_parts(self) -> (R, W)
        ensures { (result.0 ≡ self.reader) × (result.1 ≡ self.writer) }
    {
        (self.reader, self.writer)
    }

    /// Whether the response was written.
    pub fn is_answered(&self) -> bool
        ensures { result ≡ is_behind_response self.now.stage }
    {
        match self.stage {
            Stage::Reading => false,
            Stage::Writing => false,
            Stage::Closing => true,
            Stage::Draining(_) => true,
        }
    }

    fn turn(&mut self, cx: &mut Context<'_>) -> Step
        ensures registered { OnWait result (Covers cx.new (waits_for R.needs W.needs self.new)) }
        ensures kept { Keeps cx.old cx.new }
    {
        match self.stage {
            Stage::Reading => self.read(cx),
            Stage::Writing => self.write(cx),
            Stage::Closing => self.shut_down(cx),
            Stage::Draining(left) => self.drain(cx, left),
        }
    }

    // Reads once, and looks whether the head is whole.
    fn read(&mut self, cx: &mut Context<'_>) -> Step
        requires { self.old.stage ≡ Stage.Reading }
        ensures registered { OnWait result (Covers cx.new (waits_for R.needs W.needs self.new)) }
        ensures kept { Keeps cx.old cx.new }
    {
        match poll_read_buf(&mut self.reader, cx, &mut self.input) {
            Poll::Pending => Step::Wait,
            Poll::Ready(Ok(0)) => Step::Over(HttpEnd::Ended),
            Poll::Ready(Ok(_)) => self.look(),
            Poll::Ready(Err(e)) => failed(&e),
        }
    }

    // Has a whole head answered, and a bad one refused.
    fn look(&mut self) -> Step
        ensures { result ≢ Step.Wait }
    {
        let mut fields = [EMPTY_HEADER_SPAN; MAX_FIELDS];
        match self.server.read(self.input.as_slice(), &mut fields) {
            Ok(progress) => match progress.event {
                Event::NeedMore => {
                    self.input.advance(progress.consumed);
                    Step::Again
                }
                Event::Head(head) => {
                    let method = head.method.of(self.input.as_slice());
                    let has_body = method != b"HEAD".as_slice();
                    let choice = chosen(method, head.path.of(self.input.as_slice()));
                    let page = self.pages.page(choice);
                    self.respond(has_body, &page)
                }
                _ => self.refuse(400),
            },
            Err(e) => self.refuse(e.status()),
        }
    }

    fn refuse(&mut self, status: u16) -> Step
        ensures { result ≢ Step.Wait }
    {
        let page = Page {
            status,
            body: Vec::new(self.alloc),
        };
        self.respond(true, &page)
    }

    fn respond(&mut self, has_body: bool, page: &Page) -> Step
        ensures { result ≢ Step.Wait }
    {
        match encode(&mut self.server, &mut self.output, has_body, page) {
            Ok(()) => {
                self.stage = Stage::Writing;
                Step::Again
            }
            Err(_) => Step::Over(HttpEnd::Failed),
        }
    }

    // Writes once.
    fn write(&mut self, cx: &mut Context<'_>) -> Step
        requires { self.old.stage ≡ Stage.Writing }
        ensures registered { OnWait result (Covers cx.new (waits_for R.needs W.needs self.new)) }
        ensures kept { Keeps cx.old cx.new }
    {
        if self.output.is_empty() {
            self.stage = Stage::Closing;
            return Step::Again;
        }
        match self.writer.poll_write(cx, self.output.as_slice()) {
            Poll::Pending => Step::Wait,
            Poll::Ready(Ok(0)) => Step::Over(HttpEnd::Failed),
            Poll::Ready(Ok(count)) => {
                self.output.advance(count);
                Step::Again
            }
            Poll::Ready(Err(e)) => failed(&e),
        }
    }

    // Shuts the write half down, behind the response.
    fn shut_down(&mut self, cx: &mut Context<'_>) -> Step
        requires { self.old.stage ≡ Stage.Closing }
        ensures registered { OnWait result (Covers cx.new (waits_for R.needs W.needs self.new)) }
        ensures kept { Keeps cx.old cx.new }
    {
        match self.writer.poll_shutdown(cx) {
            Poll::Pending => Step::Wait,
            Poll::Ready(Ok(())) => {
                self.stage = Stage::Draining(MAX_DRAINED);
                Step::Again
            }
            Poll::Ready(Err(e)) => answered(&e),
        }
    }

    // Reads once, and throws the bytes away.
    fn drain(&mut self, cx: &mut Context<'_>, left: usize) -> Step
        requires { self.old.stage ≡ Stage.Draining left }
        ensures registered { OnWait result (Covers cx.new (waits_for R.needs W.needs self.new)) }
        ensures kept { Keeps cx.old cx.new }
    {
        self.input.clear();
        match poll_read_buf(&mut self.reader, cx, &mut self.input) {
            Poll::Pending => Step::Wait,
            Poll::Ready(Ok(0)) => Step::Over(HttpEnd::Answered),
            Poll::Ready(Ok(count)) => match left.checked_sub(count) {
                Some(left) => {
                    self.stage = Stage::Draining(left);
                    Step::Again
                }
                None => Step::Over(HttpEnd::Answered),
            },
            Poll::Ready(Err(e)) => answered(&e),
        }
    }
}

// What a failed read or write leads to.
fn failed(e: &io::Error) -> Step
    ensures { result ≢ Step.Wait }
{
    if e.kind() == ErrorKind::Interrupted {
        Step::Again
    } else {
        Step::Over(HttpEnd::Failed)
    }
}

// The same, behind the response.
fn answered(e: &io::Error) -> Step
    ensures { result ≢ Step.Wait }
{
    if e.kind() == ErrorKind::Interrupted {
        Step::Again
    } else {
        Step::Over(HttpEnd::Answered)
    }
}

// Writes a whole response.
fn encode(
    server: &mut Server,
    output: &mut BytesMut,
    has_body: bool,
    page: &Page,
) -> Result<(), WriteError> {
    let fields = [
        Header {
            name: b"content-type",
            value: b"text/plain; version=0.0.4; charset=utf-8",
        },
        Header {
            name: b"allow",
            value: b"GET, HEAD",
        },
        Header {
            name: b"connection",
            value: b"close",
        },
    ];
    let size = BodySize::Known(page.body.len() as u64);
    server.write_response(output, page.status, reason(page.status), &fields, size)?;
    if has_body && !page.body.is_empty() {
        server.write_data(output, page.body.as_slice())?;
    }
    server.write_end(output, &[])
}

// The words for a status.
fn reason(status: u16) -> &'static [u8] {
    match status {
        200 => b"OK",
        404 => b"Not Found",
        405 => b"Method Not Allowed",
        414 => b"URI Too Long",
        431 => b"Request Header Fields Too Large",
        500 => b"Internal Server Error",
        503 => b"Service Unavailable",
        _ => b"Bad Request",
    }
}

impl<R: AsyncRead, W: AsyncWrite, P: Pages> Future for HttpSession<R, W, P> {
    type Output = HttpEnd;

    ghost use Rattle.http_page.specs.Waiting.{waits_for};

    ghost needs = { waits_for R.needs W.needs };

    fn poll(&mut self, cx: &mut Context<'_>) -> Poll<HttpEnd> {
        if let Some(end) = self.end {
            return Poll::Ready(end);
        }
        for _ in 0..BUDGET {
            match self.turn(cx) {
                Step::Again => {}
                Step::Wait => return Poll::Pending,
                Step::Over(end) => {
                    self.end = Some(end);
                    return Poll::Ready(end);
                }
            }
        }
        cx.yield_now()
    }
}
