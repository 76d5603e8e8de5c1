//! What is printed. A line takes no memory.

use mux_frame::Frame;
use mux_history::SessionId;
use router_core::{Core, EventRefusal, Note};

/// What the event at this place gave, or why it was refused.
pub fn show(rt: &HostRuntime, place: usize, answer: &Result<Note, EventRefusal>) {
    let _ = match answer {
        Err(why) => println!(rt; "{place} refused {why}"),
        Ok(Note::Opened(session)) => println!(rt; "{place} opened {session:?}"),
        Ok(Note::Told { hand: None, .. }) => println!(rt; "{place} told"),
        Ok(
            Note::Told {
                hand: Some(hand),
                ..
            },
        ) => println!(rt; "{place} {hand:?}"),
        Ok(Note::Out(_)) => println!(rt; "{place} out"),
        Ok(Note::Booted(boot)) => println!(rt; "{place} boot {boot}"),
    };
}

/// A frame that went out: its type, its tag and the bytes of its body.
pub fn show_frame(rt: &HostRuntime, session: SessionId, frame: &Frame) {
    let _ = print!(rt; "{session:?} > {} {}", frame.kind(), frame.tag());
    for place in 0..frame.body_len() {
        let _ = print!(rt; " {}", frame.body_byte(place));
    }
    let _ = println!(rt; "");
}

/// The records of each session's present epoch.
pub fn show_records(rt: &HostRuntime, core: &Core, sessions: &[SessionId]) {
    for session in sessions {
        let Some(records) = core.records(*session) else {
            continue;
        };
        for record in records {
            let kind = record.kind();
            let name = record.name();
            let _ = println!(rt;
                "{session:?} has {kind:?} {} {name:?} {}",
                record.tag(),
                record.reading()
            );
        }
    }
}

/// The values in hand. A second list is made where the first found no memory.
pub fn show_hands(rt: &HostRuntime, core: &Core) {
    let mut listed = core.hands(rt.alloc());
    if listed.is_err() {
        listed = core.hands(rt.alloc());
    }
    let Ok(hands) = listed else {
        return;
    };
    for hand in &hands {
        let _ = println!(rt; "{hand:?}");
    }
}
