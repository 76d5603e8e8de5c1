//! Worked rows, played on a core. An event that finds no memory is handed in again.

ghost use Rattle.core_world.specs.Events.{IsReadEvent};

use crate::rows::{ROWS, Row, event, limits};
use crate::shown::{show, show_frame, show_hands, show_records};
use mux_history::{Limits, SessionId};
use router_core::{ClientStep, Core, CoreConfig, Event, EventRefusal, Note};
use std::io;

/// No row has more events.
const MOST_EVENTS: usize = 40;

/// No row opens more sessions.
const SESSIONS: [SessionId; 4] = [
    SessionId::Client(1),
    SessionId::Client(2),
    SessionId::Server(1),
    SessionId::Server(2),
];

// What an event gave; one that finds no memory is handed in again.
fn step(rt: &HostRuntime, core: &mut Core, event: Event) -> Result<Note, EventRefusal>
    requires { IsReadEvent event }
{
    match core.step(rt.alloc(), event) {
        Ok(note) => Ok(note),
        Err((EventRefusal::Memory, back)) => core.step(rt.alloc(), back).map_err(why),
        Err(refused) => Err(why(refused)),
    }
}

fn why(refused: (EventRefusal, Event)) -> EventRefusal {
    let (why, back) = refused;
    drop(back);
    why
}

fn ends_records(event: &Event) -> bool {
    matches!(
        event,
        Event::Restart
            | Event::Client {
                step: ClientStep::Seal,
                ..
            }
    )
}

fn take_out(rt: &HostRuntime, core: &mut Core, session: SessionId) {
    for _ in 0..MOST_EVENTS {
        let Ok(Note::Out(Some(frame))) = step(rt, core, Event::TakeOut(session)) else {
            break;
        };
        show_frame(rt, session, &frame);
    }
}

fn play(rt: &HostRuntime, row: Row, limits: Limits) {
    let mut core = Core::open(rt.alloc(), CoreConfig { limits, boot: 1 });
    for place in 0..MOST_EVENTS {
        let Some(event) = event(row, place) else {
            break;
        };
        if ends_records(&event) {
            show_records(rt, &core, &SESSIONS);
        }
        let answer = step(rt, &mut core, event);
        show(rt, place, &answer);
        for session in SESSIONS {
            take_out(rt, &mut core, session);
        }
    }
    show_records(rt, &core, &SESSIONS);
    show_hands(rt, &core);
}

/// Prints what is played of each row.
pub fn print_rows(rt: &HostRuntime) -> io::Result<()> {
    for row in ROWS {
        let Some(limits) = limits(row) else {
            return println!(rt; "limits");
        };
        println!(rt; "{row:?}")?;
        play(rt, row, limits);
    }
    Ok(())
}
