//! Requests and their responses.

use futures::task::Poll;
use futures::test::MockTask;
use http_page::{Choice, HttpEnd, HttpSession, Page, Pages, chosen};
use std::alloc::Global;
use std::test::Fail;

#[derive(Drop)]
struct Two {
    alloc: Global,
}

impl Pages for Two {
    fn page(&mut self, choice: Choice) -> Page {
        let (status, text) = match choice {
            Choice::Metrics => (200, "a 1\n"),
            Choice::Health => (503, "error NoServer\n"),
            Choice::Alive => (200, "ok\n"),
            Choice::NotFound => (404, ""),
            Choice::NotAllowed => (405, ""),
        };
        match Vec::from_slice(self.alloc, text.as_bytes()) {
            Ok(body) => Page { status, body },
            Err(_) => Page {
                status: 503,
                body: Vec::new(self.alloc),
            },
        }
    }
}

const CHOICES: &[(&str, &str, Choice)] = &[
    ("GET", "/metrics", Choice::Metrics),
    ("HEAD", "/metrics?a=b?c", Choice::Metrics),
    ("GET", "/health?", Choice::Health),
    ("GET", "/alive", Choice::Alive),
    ("GET", "/alive/", Choice::NotFound),
    ("GET", "/metrics/", Choice::NotFound),
    ("GET", "/", Choice::NotFound),
    ("GET", "?/metrics", Choice::NotFound),
    ("POST", "/metrics", Choice::NotAllowed),
    ("get", "/health", Choice::NotAllowed),
];

#[test]
fn choices(_rt: HostRuntime) -> Result<(), Fail> {
    for (place, (method, target, choice)) in CHOICES.iter().enumerate() {
        if chosen(method.as_bytes(), target.as_bytes()) != *choice {
            return Err(Fail::from(place));
        }
    }
    Ok(())
}

/// A request, the line and the end of its response, and how the connection ends.
const REQUESTS: &[(&str, &str, &str, HttpEnd)] = &[
    (
        "GET /metrics HTTP/1.1\r\nHost: a\r\n\r\n",
        "HTTP/1.1 200 OK\r\n",
        "content-length: 4\r\n\r\na 1\n",
        HttpEnd::Answered,
    ),
    (
        "HEAD /metrics HTTP/1.1\r\nHost: a\r\n\r\n",
        "HTTP/1.1 200 OK\r\n",
        "content-length: 4\r\n\r\n",
        HttpEnd::Answered,
    ),
    (
        "GET /health HTTP/1.1\r\nHost: a\r\n\r\nGET /metrics HTTP/1.1\r\nHost: a\r\n\r\n",
        "HTTP/1.1 503 Service Unavailable\r\n",
        "\r\n\r\nerror NoServer\n",
        HttpEnd::Answered,
    ),
    (
        "PUT /metrics HTTP/1.1\r\nHost: a\r\nContent-Length: 5\r\n\r\n",
        "HTTP/1.1 405 Method Not Allowed\r\n",
        "content-length: 0\r\n\r\n",
        HttpEnd::Answered,
    ),
    (
        "GET /x HTTP/1.1\r\nHost: a\r\n\r\n",
        "HTTP/1.1 404 Not Found\r\n",
        "content-length: 0\r\n\r\n",
        HttpEnd::Answered,
    ),
    (
        "GET /metrics HTTP/1.1\r\n\r\n",
        "HTTP/1.1 400 Bad Request\r\n",
        "content-length: 0\r\n\r\n",
        HttpEnd::Answered,
    ),
    (
        "nothing\n",
        "HTTP/1.1 400 Bad Request\r\n",
        "\r\n\r\n",
        HttpEnd::Answered,
    ),
    ("GET /metrics HTTP/1.1\r\nHost", "", "", HttpEnd::Ended),
    ("", "", "", HttpEnd::Ended),
];

fn goes(rt: &HostRuntime, request: &(&str, &str, &str, HttpEnd)) -> Result<bool, Fail> {
    let (input, begins, ends, wanted) = request;
    let alloc = rt.alloc();
    let task = MockTask::new(rt)?;
    let mut session = HttpSession::new(alloc, input.as_bytes(), Vec::new(alloc), Two { alloc });
    for _ in 0..1_000 {
        if let Poll::Ready(end) = task.poll(&mut session) {
            let (_, written) = session.into_parts();
            return Ok(
                end == *wanted
                    && written.as_slice().starts_with(begins.as_bytes())
                    && written.as_slice().ends_with(ends.as_bytes()),
            );
        }
    }
    Ok(false)
}

#[test]
fn requests(rt: HostRuntime) -> Result<(), Fail> {
    for (place, request) in REQUESTS.iter().enumerate() {
        if !goes(&rt, request)? {
            return Err(Fail::from(place));
        }
    }
    Ok(())
}
