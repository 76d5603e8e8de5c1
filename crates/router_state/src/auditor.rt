//! Looks at the histories that sessions give up.
ghost use Rattle.std.specs.Prelude.{◌≡◌, IfOk, true};
ghost use Rattle.router_state.specs.Giving.{is_rolling};

use crate::stage::Ending;
use crate::switchboard::Switchboard;
use crate::unaudited::{AuditQueue, AuditStop, Unaudited};
use hub::CloseFault;
use mux_history::InitMode;
use rolling_audit::{RunAudit, RunFault};
use route_table::{AuditMode, Config};
use std::alloc::{AllocError, Global};
use std::sync::atomic::{AtomicBool, Ordering};
use std::sync::{Condvar, Mutex, Wait};

/// If so many wait to be looked at, whoever hands more in looks at some first.
const MOST: usize = 16;

/// As many threads may hand something in at once.
const THREADS: usize = 16;

/// The audit of what sessions give up. It is looked at while the run goes on, by a thread of its own, and where that
/// falls behind, by those who hand histories in: so what waits can't grow, while memory is there. Or with `audit =
/// "close"` it waits until the run closes: then only servers' sessions give something up, when they are taken out.
#[derive(Drop)]
pub struct Auditor {
    /// Whether histories are looked at while the run goes on.
    pub is_rolling: bool,
    // Whoever has it takes what waits in its order.
    audit: Mutex<RunAudit>,
    queue: Mutex<AuditQueue>,
    changed: Condvar,
    // The first fault.
    fault: Mutex<Option<CloseFault>>,
    has_fault: AtomicBool,
    // Whether a session may have given something up.
    has_begun: AtomicBool,
}

fn is_rolling(mode: AuditMode) -> bool
    ensures { result ≡ is_rolling mode }
{
    matches!(mode, AuditMode::Rolling)
}

// How the session of each server begins.
fn modes_of(alloc: Global, config: &Config) -> Result<Vec<InitMode>, AllocError> {
    let mut modes = Vec::with_capacity(alloc, config.servers.len())?;
    for server in &config.servers {
        modes.push(server.init)?;
    }
    Ok(modes)
}

impl Auditor {
    /// Before any record. Out of memory is the one error.
    pub(crate) fn new(alloc: Global, config: &Config) -> Result<Auditor, AllocError>
        ensures { IfOk result (λ a. a.is_rolling ≡ is_rolling config.now.audit) }
    {
        let modes = modes_of(alloc, config)?;
        let audit = RunAudit::new(alloc, config.boot, config.sessions, modes.as_slice())?;
        Ok(Auditor {
            is_rolling: is_rolling(config.audit),
            audit: Mutex::new(audit),
            queue: Mutex::new(AuditQueue::with_room(alloc, MOST + THREADS)?),
            changed: Condvar::new(),
            fault: Mutex::new(None),
            has_fault: AtomicBool::new(false),
            has_begun: AtomicBool::new(false),
        })
    }

    /// Whether a fault was found.
    pub fn has_fault(&self) -> bool {
        self.has_fault.load(Ordering::Relaxed)
    }

    /// A session is about to give something up.
    pub(crate) fn begin(&self) {
        self.has_begun.store(true, Ordering::SeqCst);
    }

    /// Whether it has to look at something, before what sessions have left is judged.
    pub fn is_needed(&self) -> bool
        ensures { self.now.is_rolling ≡ true → result ≡ true }
    {
        self.is_rolling || self.has_begun()
    }

    /// Whether a session may have given something up.
    pub fn has_begun(&self) -> bool {
        self.has_begun.load(Ordering::SeqCst)
    }

    /// A fault was found. The first one stays.
    pub(crate) fn fail<R: Wait>(&self, rt: &R, fault: CloseFault) {
        if !self.has_fault.swap(true, Ordering::SeqCst) {
            *self.fault.lock(rt) = Some(fault);
        }
    }

    /// Whether there is room for one more session's histories, or one that was made.
    pub(crate) fn has_room<R: Wait>(&self, rt: &R) -> bool {
        self.queue.lock(rt).has_room()
    }

    /// Takes what a session gave up. If much waits that is looked at while the run goes on, some of it is first.
    pub(crate) fn put<R: Wait>(&self, rt: &R, unaudited: Unaudited) {
        if self.is_rolling {
            self.catch_up(rt);
        }
        let pushed = self.queue.lock(rt).push(unaudited);
        self.see_room(rt, pushed);
        self.changed.notify_all();
    }

    // Whether there was room to wait in. If not, the run is at fault.
    fn see_room<R: Wait>(&self, rt: &R, pushed: Result<(), Unaudited>) {
        match pushed {
            Ok(()) => {}
            Err(unaudited) => self.fail(rt, CloseFault::Run(unaudited.refuse())),
        }
    }

    fn catch_up<R: Wait>(&self, rt: &R) {
        for _ in 0..MOST {
            let waiting = self.queue.lock(rt).len();
            if waiting < MOST || !self.look_at_first(rt) {
                return;
            }
        }
    }

    // Looks at what waits first: whether something waited, and memory was there.
    fn look_at_first<R: Wait>(&self, rt: &R) -> bool {
        let mut audit = self.audit.lock(rt);
        if self.has_fault() {
            self.queue.lock(rt).clear();
            return false;
        }
        let first = self.queue.lock(rt).pop();
        let Some(unaudited) = first else {
            return false;
        };
        match unaudited.look(&mut *audit) {
            Ok(()) => true,
            Err(AuditStop::Memory(unaudited)) => {
                let pushed = self.queue.lock(rt).put_back(unaudited);
                self.see_room(rt, pushed);
                false
            }
            Err(AuditStop::Fault(fault)) => {
                self.fail(rt, CloseFault::Run(fault));
                true
            }
        }
    }

    /// Looks at what is handed in until `end`, and then at what waits. A fault stops the router.
    pub fn run<R: Wait>(&self, rt: &R, switchboard: &Switchboard) {
        for _ in rt.forever() {
            let queue = self.queue.lock(rt);
            let queue = self.changed.wait_while(rt, queue, |queue| queue.rests());
            let has_ended = queue.has_ended();
            drop(queue);
            let has_looked = self.look_at_first(rt);
            if self.has_fault() {
                switchboard.end(Ending::Audit);
            }
            if has_ended && !has_looked {
                return;
            }
        }
    }

    /// The thread that looks ends once nothing waits.
    pub fn end<R: Wait>(&self, rt: &R) {
        self.queue.lock(rt).end();
        self.changed.notify_all();
    }

    /// The audit, once all was looked at, or the first fault. Memory may be refused.
    pub fn close<R: Wait>(self, rt: &R) -> Result<RunAudit, CloseFault> {
        for _ in rt.forever() {
            if !self.look_at_first(rt) {
                break;
            }
        }
        let Auditor {
            audit,
            queue,
            fault,
            ..
        } = self;
        if let Some(fault) = fault.into_inner() {
            return Err(fault);
        }
        if queue.into_inner().len() > 0 {
            return Err(CloseFault::Run(RunFault::Memory));
        }
        Ok(audit.into_inner())
    }
}
