//! The one type of task.
ghost use Rattle.std.specs.Prelude.{◌≡◌};

use crate::admin::AdminTask;
use crate::ask::AskTask;
use crate::ticker::Ticker;
use futures::Future;
use futures::task::{Context, Poll};
use router_state::{Admin, Control, Host};
use router_traffic::{AcceptTask, ReadTask, WriteTask};
use std::net::Net;
use std::sync::Wait;
use std::time::Clock;

/// A task of a router, which connections' tasks know as a `Host`, and the others as an `Admin`. It ends once the
/// router is stopped.
#[derive(Drop)]
pub enum Task<'a, H: Host + Control, A: Control + Admin, R: Wait + Clock> {
    Accept(AcceptTask<'a, H, R>),
    Read(ReadTask<'a, H, R>),
    Write(WriteTask<'a, H, R>),
    Admin(AdminTask<'a, A, R>),
    Ask(AskTask<'a, A, R>),
    Tick(Ticker<'a, A, R>),
}

// Counts the end of a task that carries frames.
fn carried<H: Control>(router: &H, polled: Poll<()>) -> Poll<()>
    ensures { result ≡ polled }
{
    if polled.is_ready() {
        router.shared().switchboard.end_carrying();
    }
    polled
}

impl<H, A, R> Future for Task<'_, H, A, R>
where
    H: Host + Control,
    A: Control + Admin,
    R: Wait + Clock + Net,
{
    type Output = ();

    fn poll(&mut self, cx: &mut Context<'_>) -> Poll<()> {
        match self {
            Task::Accept(task) => task.poll(cx),
            Task::Read(task) => carried(task.router, task.poll(cx)),
            Task::Write(task) => carried(task.router, task.poll(cx)),
            Task::Admin(task) => task.poll(cx),
            Task::Ask(task) => task.poll(cx),
            Task::Tick(task) => task.poll(cx),
        }
    }
}
