//! A whole run, for whoever wants its lists.

ghost use Rattle.std.specs.Prelude.{◌≡◌, ◌<◌, ◌≤◌, ◌^◌, ◌-◌, map, IfOk};
ghost use Rattle.core_world.specs.Events.{IsReadEvent, event_of, is_memory};
ghost use Rattle.mux_model.specs.Entries.{said_by};
ghost use Rattle.router_core.specs.Runs.{AllRead, FindsEntry, IsRunOf, Plays, RecordsIn, ShowsAfter};

use crate::Memory;
use crate::entering::{closes, first_sent, has_grown, taken_in, was_sent};
use crate::meeting::{Met, last_out, look, meet};
use crate::router::{Core, CoreConfig};
use crate::sides::{Run, Side, enter, open_side};
use core_world::{Event, EventRefusal, Note};
use mux_frame::Frame;
use mux_model::Exchange;
use std::alloc::{AllocError, Global};

/// Plays events on a new core, one after another. A refused event changes nothing but the list of
/// refused places.
///
/// # Errors
///
/// Out of memory, or an event that would pass the last number.
pub fn run(alloc: Global, config: CoreConfig, events: &[Event]) -> Result<Run, Memory>
    requires boot { (1 ≤ config.boot) × (config.boot < 2 ^ 64 - 1) }
    requires read { AllRead events.now }
    ensures { IfOk result (λ r. IsRunOf config.limits config.boot (map event_of events.now) r) }
{
    let mut core = Core::open(alloc, config);
    let mut sides = Vec::new(alloc);
    let mut refused = Vec::new(alloc);
    for (place, event) in events.iter().enumerate() {
        if play(alloc, &mut core, &mut sides, event)? {
            refused.push(place)?;
        }
    }
    let hands = core.hands(alloc)?;
    Ok(Run {
        sides,
        hands,
        refused,
    })
}

// Whether the event is refused.
fn play(
    alloc: Global,
    core: &mut Core,
    sides: &mut Vec<Side>,
    event: &Event,
) -> Result<bool, Memory>
    requires { IsReadEvent event.now }
    ensures { IfOk result (λ no. Plays core.old core.new sides.old.items sides.new.items (event_of event.now) no) }
{
    let met = meet(core, event);
    let taken = taken_in(event)?;
    match core.step(alloc, event.try_copy()?) {
        Ok(note) => {
            accept(alloc, core, sides, event, met, taken, note)?;
            Ok(false)
        }
        Err((why, back)) => {
            drop(back);
            if is_memory(why) {
                return Err(AllocError);
            }
            Ok(true)
        }
    }
}

fn is_memory(why: EventRefusal) -> bool
    ensures { result ≡ is_memory why }
{
    matches!(why, EventRefusal::Memory)
}

// The lists after an event that was accepted.
fn accept(
    alloc: Global,
    core: &Core,
    sides: &mut Vec<Side>,
    event: &Event,
    met: Option<Met>,
    taken: Option<Frame>,
    note: Note,
) -> Result<(), Memory>
    ensures { ShowsAfter core.now sides.old.items sides.new.items (event_of event.now) note met (said_by taken) result }
{
    match note {
        Note::Opened(session) => {
            open_side(alloc, sides, core.boot(), session, first_sent(event))
        }
        Note::Told { .. } => record(core, sides, met, taken),
        Note::Out(_) => Ok(()),
        Note::Booted(_) => Ok(()),
    }
}

fn record(
    core: &Core,
    sides: &mut Vec<Side>,
    met: Option<Met>,
    taken: Option<Frame>,
) -> Result<(), Memory>
    ensures { RecordsIn core.now met (said_by taken) sides.old.items sides.new.items result }
{
    let Some(met) = met else {
        return Ok(());
    };
    let Some(entry) = new_entry(core, &met, taken)? else {
        return Ok(());
    };
    enter(sides, core.boot(), met.session, entry)
}

// What the step left in its session's list, if it was recorded.
fn new_entry(core: &Core, met: &Met, taken: Option<Frame>) -> Result<Option<Exchange>, Memory>
    ensures { FindsEntry core.now met.now (said_by taken) result }
{
    let Some(after) = look(core, met.session) else {
        return Ok(None);
    };
    if !has_grown(&met.look, &after) {
        return Ok(None);
    }
    let mut sent = None;
    if was_sent(&met.look, &after) {
        sent = last_out(core, met.session)?;
    }
    let mut handed = taken;
    if closes(&after.last) {
        handed = None;
    }
    Ok(Some(Exchange {
        rec: after.last,
        taken: handed,
        sent,
    }))
}
