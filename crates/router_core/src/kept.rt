//! A core with the fact that events have led to it.

ghost use Rattle.std.specs.Prelude.{◌≡◌, ◌<◌, ◌≤◌, ◌^◌, ◌-◌, IfErr, Some, option_copied};
ghost use Rattle.std.specs.Option.{option_map};
ghost use Rattle.core_world.specs.Events.{IsReadEvent, call_in, event_of};
ghost use Rattle.mux_model.specs.Steps.{Call};
ghost use Rattle.mux_model.specs.World.{World};
ghost use Rattle.mux_model.specs.Events.{hand_at};
ghost use Rattle.router_core.specs.Looks.{IsDstOf, kind_at, load_at, records_at};
ghost use Rattle.router_core.specs.Promises.{IsPromised};
ghost use Rattle.router_core.specs.Worlds.{IsCoreOf, IsKept, IsLegalCore, Steps, begun};

use crate::meeting;
use crate::router::{Core, CoreConfig};
use core_world::{Event, EventRefusal, HandKind, Note};
use mux_history::{Record, SessionId};
use std::alloc::Global;
use std::marker::Model;

/// Contracts see it as the core that it holds, to whose world events have led.
#[derive(Drop)]
pub struct KeptCore {
    core: Core,
}

impl Model for KeptCore {
    ghost use Rattle.std.specs.Coded.{codes};
    ghost use Rattle.std.specs.FinMap as finite;
    ghost use Rattle.router_core.specs.Worlds.{CoreView, IsKept};

    ghost Value = { CoreView };

    ghost coded = { Prim.hlevel (codes, finite.code) };

    ghost view = { λ k. k.core };

    ghost invariant = { λ k. IsKept k.core };
}

impl KeptCore {
    /// A core with no session.
    pub fn open(alloc: Global, config: CoreConfig) -> KeptCore
        requires { (1 ≤ config.boot) × (config.boot < 2 ^ 64 - 1) }
        ensures { result ≡ begun config.limits config.boot }
    {
        KeptCore {
            core: Core::open(alloc, config),
        }
    }

    /// One event, as `Core::step` says. Whatever it answers, events have led to the core after it, and
    /// in every world that it is of the lists are a legal run and keep what is promised to clients.
    pub fn step(&mut self, alloc: Global, event: Event) -> Result<Note, (EventRefusal, Event)>
        requires { IsReadEvent event }
        ensures step { Steps self.old self.new (event_of event) result }
        ensures err { IfErr result (λ e. (e.1 ≡ event) × (self.new ≡ self.old)) }
        ensures led { IsKept self.new }
        ensures legal { IsLegalCore self.new }
        ensures promises { IsPromised self.new }
    {
        self.core.step(alloc, event)
    }

    /// The session that an event goes to. None if it goes to none, or its value isn't in hand.
    pub fn session_of(&self, event: &Event) -> Option<SessionId>
        ensures { (a : SessionId × Call) → call_in self.now.hands (event_of event.now) ≡ Some a → result ≡ Some a.0 }
    {
        meeting::session_of(&self.core, event)
    }

    /// The kind of the value of this number.
    pub fn kind(&self, hand: u64) -> Option<HandKind>
        ensures { result ≡ kind_at hand self.now.hands }
    {
        self.core.kind(hand)
    }

    /// The destination of the ticket of this number. None if it is no ticket.
    pub fn dst(&self, hand: u64) -> Option<&[u8]>
        ensures { IsDstOf (hand_at hand self.now.hands) (option_copied result) }
    {
        self.core.dst(hand)
    }

    /// How many dispatches a session holds, at most `u32::MAX`. None if there is no such session.
    pub fn load(&self, session: SessionId) -> Option<u32>
        ensures { (w : World) → IsCoreOf self.now w → result ≡ load_at w session }
    {
        self.core.load(session)
    }

    /// The records of a session's present epoch, the oldest first. None if there is no such session.
    pub fn records(&self, session: SessionId) -> Option<&[Record]>
        ensures { option_map (λ r. r.now) result ≡ records_at self.now session }
    {
        self.core.records(session)
    }

    /// Events have led to this core, and in every world that it is of the lists so far, of all boots,
    /// are a legal run and keep what is promised to clients.
    pub fn is_legal(&self)
        ensures led { IsKept self.now }
        ensures legal { IsLegalCore self.now }
        ensures promises { IsPromised self.now }
    {
        let _core = &self.core;
    }
}
