//! The tasks of a router, on one thread or several.

use crate::boxed::Boxed;
use crate::end::{Failure, outcome_of};
use futures::Future;
use futures::future::ready;
use hub::HubLedger;
use published_routes::Publish;
use router_state::{Admin, Control, Host, Router, add};
use router_tasks::{AdminTask, AskTask, Drains, Speech, Task, Ticker};
use router_traffic::{AcceptTask, ReadTask, WriteTask};
use std::alloc::{AllocError, AllocGlobal};
use std::net::{Net, TcpListener as StdListener, TcpStream as StdStream};
use std::random::RandomSource;
use std::sync::Wait;
use std::thread;
use std::thread::Threads;
use std::time::{Clock, Duration};
use tokio::reactor::Handle;
use tokio::runtime;
use tokio::runtime::LocalRuntime;
use tokio::time::{MissedTickBehavior, Sleep};

/// As many connections at once has each port where figures are asked for.
const ASKERS: usize = 8;

/// Runs all tasks of a router until it ends. Each thread but this one lasts as long as the call. If the system refuses
/// one, the ticker ends the router.
pub fn run_tasks<L: HubLedger + Send + Sync, B: Publish<L> + Send + Sync, R>(
    rt: &R,
    threads: &mut [LocalRuntime],
    router: &Router<L, B>,
) -> Result<(), Failure>
where
    R: Threads
        + Wait
        + Sync
        + Clock
        + RandomSource
        + AllocGlobal
        + Net<Listener = StdListener, Stream = StdStream>,
{
    let run = Run {
        rt,
        router,
        first: if router.auditor.is_rolling { 1 } else { 0 },
        last: threads.len().saturating_sub(1),
    };
    let count = threads.len().max(1);
    thread::for_each_mut(
        rt,
        threads,
        count,
        &|place: usize, runtime: &mut LocalRuntime| { run.on(place, runtime) },
    );
    outcome_of(router.shared.switchboard.ending())
}

/// What the threads of a run share.
#[derive(Drop)]
struct Run<'a, L: HubLedger, B: Publish<L>, R> {
    rt: &'a R,
    router: &'a Router<L, B>,
    /// The place of the first thread with tasks. One that looks at histories stands before it, if there is one.
    first: usize,
    /// The place of this thread: the one part that isn't put off if the system refuses a thread.
    last: usize,
}

impl<L: HubLedger, B: Publish<L>, R> Run<'_, L, B, R>
where
    R: Wait + Clock + RandomSource + AllocGlobal + Net<Listener = StdListener, Stream = StdStream>,
{
    // Runs the tasks of the thread at this place. One that fails takes its tasks with it, so the others end too.
    fn on(&self, place: usize, runtime: &mut LocalRuntime) {
        let router = self.router;
        let Some(worker) = place.checked_sub(self.first) else {
            // It looks at histories until the tasks of the last thread have ended.
            router.auditor.run(self.rt, &router.shared.switchboard);
            return;
        };
        let part = Part {
            rt: self.rt,
            admin: router,
            worker,
            is_last: place == self.last,
        };
        if let Err(failure) = part.run(runtime, router) {
            router.shared.switchboard.abandon(failure.ending());
        }
        if part.is_last {
            router.auditor.end(self.rt);
        }
    }
}

/// What is run for the sessions of a router. What its connections' tasks ask of it, and what the others ask, are
/// bounds of two calls: all of them are more than the check of one call takes.
trait HostRunner {
    fn run<H: Host + Control>(&self, runtime: &mut LocalRuntime, router: &H) -> Result<(), Failure>;
}

/// The tasks of one thread.
#[derive(Drop)]
struct Part<'a, A, R> {
    rt: &'a R,
    admin: &'a A,
    worker: usize,
    is_last: bool,
}

impl<L: HubLedger, B: Publish<L>, R> HostRunner for Part<'_, Router<L, B>, R>
where
    R: Wait + Clock + RandomSource + AllocGlobal + Net<Listener = StdListener, Stream = StdStream>,
{
    fn run<H: Host + Control>(
        &self,
        runtime: &mut LocalRuntime,
        router: &H,
    ) -> Result<(), Failure> {
        run_part(self, runtime, router)
    }
}

// The tasks of the connections that a thread carries, and if it is the last one those of operators.
fn run_part<H: Host + Control, A: Control + Admin, R>(
    part: &Part<'_, A, R>,
    runtime: &mut LocalRuntime,
    router: &H,
) -> Result<(), Failure>
where
    R: Wait + Clock + RandomSource + AllocGlobal + Net<Listener = StdListener, Stream = StdStream>,
{
    let (rt, admin) = (part.rt, part.admin);
    let drains = Drains::new();
    let mut tasks: Vec<Task<'_, H, A, R>> = Vec::new(router.shared().alloc);
    let reactor = runtime.handle().reactor();
    add_servers(rt, reactor, router, part.worker, &mut tasks)?;
    add_clients(rt, router, part.worker, &mut tasks)?;
    if part.is_last {
        add_common(rt, runtime.handle(), admin, &drains, &mut tasks)?;
        add_asked(rt, runtime.handle(), admin, &drains, &mut tasks)?;
    }
    run_set(rt, runtime, tasks)
}

// Runs tasks until all have ended.
fn run_set<F, R>(rt: &R, runtime: &mut LocalRuntime, tasks: Vec<F>) -> Result<(), Failure>
where
    F: Future<Output = ()>,
    R: Wait + Clock + RandomSource + AllocGlobal,
    requires { (task : F) → F.can_poll task }
{
    let set = runtime.task_set(rt)?;
    for task in tasks {
        if set.spawn(Boxed::new(rt.alloc(), task)?).is_err() {
            return Err(Failure::Memory);
        }
    }
    runtime.block_on_with(rt, &set, ready(()))?;
    Ok(())
}

// A reader and a writer for each server of a thread.
fn add_servers<'a, H: Host + Control, A: Control + Admin, R: Wait + Clock>(
    rt: &'a R,
    reactor: &Handle,
    router: &'a H,
    worker: usize,
    tasks: &mut Vec<Task<'a, H, A, R>>,
) -> Result<(), Failure> {
    let slots = router.shared().switchboard.servers();
    for (place, slot) in slots.iter().enumerate() {
        if slot.worker() != worker {
            continue;
        }
        let id = place as u64;
        let reactor = reactor.clone()?;
        add(
            tasks,
            Task::Read(ReadTask::of_server(rt, router, slot, id, reactor)),
        )?;
        add(
            tasks,
            Task::Write(WriteTask::of_server(rt, router, slot, id)),
        )?;
    }
    Ok(())
}

// The task that accepts the clients of a thread, and a reader and a writer for each of their slots.
fn add_clients<'a, H: Host + Control, A: Control + Admin, R: Wait + Clock>(
    rt: &'a R,
    router: &'a H,
    worker: usize,
    tasks: &mut Vec<Task<'a, H, A, R>>,
) -> Result<(), AllocError> {
    let accept = AcceptTask {
        rt,
        router,
        place: worker,
    };
    add(tasks, Task::Accept(accept))?;
    for (place, slot) in router.shared().switchboard.clients().iter().enumerate() {
        if slot.worker() == worker {
            add(
                tasks,
                Task::Read(ReadTask::of_client(rt, router, slot, place)),
            )?;
            add(
                tasks,
                Task::Write(WriteTask::of_client(rt, router, slot, place)),
            )?;
        }
    }
    Ok(())
}

// The tasks that take an operator's orders, and that look at the clock.
fn add_common<'a, H: Host + Control, A: Control + Admin, R: Wait + Clock>(
    rt: &'a R,
    handle: &runtime::Handle,
    router: &'a A,
    drains: &'a Drains,
    tasks: &mut Vec<Task<'a, H, A, R>>,
) -> Result<(), Failure> {
    let silence = handle.time().sleep(rt, router.shared().timing.admin_idle)?;
    add(tasks, Task::Admin(AdminTask::new(rt, router, silence)))?;
    let period = Duration::from_millis(router.shared().timing.tick_ms.max(1));
    let Some(first) = router.shared().timing.start.checked_add(period) else {
        return Err(Failure::Memory);
    };
    let mut interval = handle.time().interval_at(first, period)?;
    interval.set_missed_tick_behavior(MissedTickBehavior::Skip);
    let pause = handle.time().sleep(rt, period)?;
    let ticker = Ticker::new(rt, router, drains, interval, pause);
    add(tasks, Task::Tick(ticker))?;
    Ok(())
}

// The tasks of the ports where figures are asked for, if there are any.
fn add_asked<'a, H: Host + Control, A: Control + Admin, R: Wait + Clock>(
    rt: &'a R,
    handle: &runtime::Handle,
    router: &'a A,
    drains: &'a Drains,
    tasks: &mut Vec<Task<'a, H, A, R>>,
) -> Result<(), Failure> {
    if let Some(port) = &router.shared().ports.operator {
        let silences = silences(rt, handle, router)?;
        let ask = AskTask::new(rt, router, drains, port, Speech::Lines, silences)?;
        add(tasks, Task::Ask(ask))?;
    }
    if let Some(port) = &router.shared().ports.metrics_http {
        let silences = silences(rt, handle, router)?;
        let ask = AskTask::new(rt, router, drains, port, Speech::Http, silences)?;
        add(tasks, Task::Ask(ask))?;
    }
    Ok(())
}

// A timer for each connection of a port where figures are asked for.
fn silences<A: Control, R: Wait + Clock>(
    rt: &R,
    handle: &runtime::Handle,
    router: &A,
) -> Result<Vec<Sleep>, Failure> {
    let mut silences = Vec::with_capacity(router.shared().alloc, ASKERS)?;
    for _ in 0..ASKERS {
        silences.push(handle.time().sleep(rt, router.shared().timing.admin_idle)?)?;
    }
    Ok(silences)
}
