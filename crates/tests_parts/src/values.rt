//! Values in hand, and a client's book.

use bytes::Bytes;
use mux_frame::Frame;
use mux_history::Name;
use mux_message::{MessageKind, parse};
use std::alloc::Global;
use std::test::Fail;
use translate_book::{Dispatch, DownBook, Entry, KeptDispatch, Placed, Recall, Sent, Ticket, Why};

const NAME: Name = Name {
    boot: 1,
    client: 1,
    seq: 1,
};

/// A step of a book. Entries are told by their number.
#[derive(Clone, Copy)]
enum Do {
    /// With a tag.
    Add(u64, u32),
    /// On server 3, on tag 2.
    Note(u64),
    /// With the reason `x`, or with none.
    Shut(u64, bool),
    Recall(u64),
    Answered(u64),
    Unplaced(u64),
    Again(u64),
    Get(u64),
    AtTag(u32),
    /// What the map of open tags holds.
    OpenTag(u32),
    OpenTags,
    FirstDue,
    Len,
}

/// What it led to.
#[derive(Clone, Copy, PartialEq, Eq)]
enum Told {
    Done,
    Nothing,
    Seq(u64),
    Count(usize),
    X,
    ClientGone,
    /// The entry is open, its note is due, and so many tries are left.
    Entry(bool, bool, u8),
}

/// Adds an entry where the conditions hold.
fn add(book: &mut DownBook, seq: u64, tag: u32) -> Told {
    let is_fit = book.len() < book.room() && book.last() < seq;
    if !is_fit || book.at_tag(tag).is_some() {
        return Told::Nothing;
    }
    book.add(seq, tag, 1);
    Told::Done
}

fn shut(book: &mut DownBook, seq: u64, gives_reason: bool) {
    if gives_reason {
        book.shut(seq, Some(Why::Reason(Bytes::from_static(b"x"))));
    } else {
        book.shut(seq, None);
    }
}

fn named(reason: &[u8]) -> Told {
    match reason {
        b"x" => Told::X,
        b"client gone" => Told::ClientGone,
        _ => Told::Done,
    }
}

fn reason(why: Option<Why>) -> Told {
    match why {
        Some(why) => named(why.as_slice()),
        None => Told::Nothing,
    }
}

fn entry(found: Option<&Entry>) -> Told {
    match found {
        Some(entry) => Told::Entry(entry.is_open(), entry.is_note_due(), entry.left),
        None => Told::Nothing,
    }
}

fn seq(found: Option<u64>) -> Told {
    match found {
        Some(seq) => Told::Seq(seq),
        None => Told::Nothing,
    }
}

fn changes(book: &mut DownBook, step: Do) {
    match step {
        Do::Note(seq) => book.note(seq, 3, 2),
        Do::Shut(seq, gives_reason) => shut(book, seq, gives_reason),
        Do::Answered(seq) => book.answered(seq),
        Do::Unplaced(seq) => book.unplaced(seq),
        Do::Again(seq) => book.again(seq),
        _ => {}
    }
}

fn does(book: &mut DownBook, step: Do) -> Told {
    match step {
        Do::Add(seq, tag) => add(book, seq, tag),
        Do::Recall(seq) => reason(book.recall(seq)),
        Do::Get(seq) => entry(book.get(seq)),
        Do::AtTag(tag) => seq(book.at_tag(tag)),
        Do::OpenTag(tag) => seq(book.open_tags().get(&tag).copied()),
        Do::OpenTags => Told::Count(book.open_tags().len()),
        Do::FirstDue => seq(book.first_due()),
        Do::Len => Told::Count(book.len()),
        step => {
            changes(book, step);
            Told::Done
        }
    }
}

/// Plays the steps. The first that leads to something else is the fault.
fn plays(book: &mut DownBook, steps: &[(Do, Told)]) -> Result<(), Fail> {
    for (place, (step, told)) in steps.iter().enumerate() {
        if does(book, *step) != *told {
            return Err(Fail::from(place));
        }
    }
    Ok(())
}

/// Plays the steps in a book with this room.
fn check(alloc: Global, room: usize, steps: &[(Do, Told)]) -> Result<(), Fail> {
    let mut book = DownBook::with_room(alloc, room)?;
    plays(&mut book, steps)
}

const ROOM_ONE: &[(Do, Told)] = &[
    (Do::Len, Told::Count(0)),
    (Do::Add(1, 5), Told::Done),
    (Do::Len, Told::Count(1)),
    (Do::AtTag(5), Told::Seq(1)),
    (Do::Note(1), Told::Done),
    (Do::Answered(1), Told::Done),
    (Do::Len, Told::Count(0)),
    (Do::Add(2, 5), Told::Done),
    (Do::AtTag(5), Told::Seq(2)),
    (Do::Unplaced(2), Told::Done),
    (Do::AtTag(5), Told::Nothing),
    (Do::Add(3, 6), Told::Done),
    (Do::Len, Told::Count(1)),
];

#[test]
fn room_one(rt: HostRuntime) -> Result<(), Fail> {
    check(rt.alloc(), 1, ROOM_ONE)
}

const RECALL_ONCE: &[(Do, Told)] = &[
    (Do::Add(1, 5), Told::Done),
    (Do::Add(2, 6), Told::Done),
    (Do::Shut(1, true), Told::Done),
    (Do::Recall(1), Told::Nothing),
    (Do::Get(1), Told::Entry(false, true, 1)),
    (Do::Get(2), Told::Entry(true, true, 1)),
    (Do::Note(1), Told::Done),
    (Do::Recall(1), Told::X),
    (Do::Recall(1), Told::Nothing),
    (Do::Answered(1), Told::Done),
    (Do::Get(1), Told::Nothing),
    (Do::Len, Told::Count(1)),
];

#[test]
fn recall_once(rt: HostRuntime) -> Result<(), Fail> {
    check(rt.alloc(), 4, RECALL_ONCE)
}

const LEAST_NUMBER_FIRST: &[(Do, Told)] = &[
    (Do::Add(1, 5), Told::Done),
    (Do::Add(2, 6), Told::Done),
    (Do::Add(3, 7), Told::Done),
    (Do::Add(4, 8), Told::Done),
    (Do::Unplaced(1), Told::Done),
    (Do::Note(2), Told::Done),
    (Do::Shut(2, false), Told::Done),
    (Do::Note(3), Told::Done),
    (Do::Shut(3, false), Told::Done),
    (Do::Note(4), Told::Done),
    (Do::Shut(4, false), Told::Done),
    (Do::FirstDue, Told::Seq(2)),
    (Do::Recall(2), Told::ClientGone),
    (Do::FirstDue, Told::Seq(3)),
    (Do::Answered(3), Told::Done),
    (Do::FirstDue, Told::Seq(4)),
    (Do::OpenTags, Told::Count(0)),
];

#[test]
fn least_number_first(rt: HostRuntime) -> Result<(), Fail> {
    check(rt.alloc(), 4, LEAST_NUMBER_FIRST)
}

const TAGS_IN_USE: &[(Do, Told)] = &[
    (Do::Add(1, 5), Told::Done),
    (Do::Add(2, 6), Told::Done),
    (Do::Add(3, 7), Told::Done),
    (Do::Shut(2, false), Told::Done),
    (Do::OpenTags, Told::Count(2)),
    (Do::OpenTag(5), Told::Seq(1)),
    (Do::OpenTag(6), Told::Nothing),
    (Do::OpenTag(7), Told::Seq(3)),
];

#[test]
fn tags_in_use(rt: HostRuntime) -> Result<(), Fail> {
    check(rt.alloc(), 3, TAGS_IN_USE)
}

const OLDEST_STAYS: &[(Do, Told)] = &[
    (Do::AtTag(1), Told::Seq(1)),
    (Do::Len, Told::Count(4)),
    (Do::OpenTags, Told::Count(4)),
];

/// The entry on this tag goes.
fn goes(book: &mut DownBook, tag: u32) -> bool {
    let Some(earlier) = book.at_tag(tag) else {
        return true;
    };
    book.note(earlier, 3, 2);
    book.shut(earlier, None);
    let is_due = book.first_due() == Some(earlier);
    book.answered(earlier);
    is_due && book.get(earlier).is_none()
}

/// Another entry takes this tag, and the oldest stays on its own.
fn comes(book: &mut DownBook, seq: u64, tag: u32) -> bool {
    let is_added = add(book, seq, tag) == Told::Done;
    is_added && book.at_tag(1) == Some(1) && book.at_tag(tag) == Some(seq)
}

#[test]
fn many_come_and_go(rt: HostRuntime) -> Result<(), Fail> {
    let mut book = DownBook::with_room(rt.alloc(), 4)?;
    plays(&mut book, &[(Do::Add(1, 1), Told::Done)])?;
    for seq in 2..1_000 {
        let tag = 2 + (seq % 3) as u32;
        assert!(rt; goes(&mut book, tag), "{seq}");
        assert!(rt; comes(&mut book, seq, tag), "{seq}");
    }
    plays(&mut book, OLDEST_STAYS)
}

const SENT_AGAIN: &[(Do, Told)] = &[
    (Do::Add(1, 5), Told::Done),
    (Do::Note(1), Told::Done),
    (Do::Again(1), Told::Done),
    (Do::Get(1), Told::Entry(true, true, 0)),
    (Do::Note(1), Told::Done),
    (Do::Again(1), Told::Done),
    (Do::Get(1), Told::Entry(true, true, 0)),
    (Do::Shut(1, false), Told::Done),
    (Do::Recall(1), Told::Nothing),
];

#[test]
fn sent_again(rt: HostRuntime) -> Result<(), Fail> {
    check(rt.alloc(), 1, SENT_AGAIN)
}

/// A dispatch to `/s/a` that carries `hi`, with one try left.
fn ticket() -> Result<Ticket, Fail> {
    let body = b"\0\0\0\x04/s/a\0\0hi";
    let message = parse(Frame::read(2, 5, Bytes::from_static(body))).map_err(|(fault, _)| fault)?;
    match message.kind() {
        MessageKind::Tdispatch => Ok(Ticket::new(NAME, Dispatch::new(message), 1)),
        _ => Err(Fail::from("another message")),
    }
}

fn is_fresh(ticket: &Ticket) -> bool {
    ticket.dst() == b"/s/a".as_slice() && ticket.frame().tag() == 5 && ticket.left() == 1
}

fn is_kept(kept: Option<KeptDispatch>) -> bool {
    match kept {
        Some(kept) => kept.dispatch().dst() == b"/s/a".as_slice(),
        None => false,
    }
}

/// Whether a reply settles the sending under its name, and with the dispatch's copy.
fn settles(sent: Sent) -> bool {
    let reply = Frame::read(-2, 2, Bytes::from_static(b"\0\0\0yo"));
    let (name, reply, again) = sent.settled(reply).into_parts();
    name == NAME && reply.tag() == 2 && is_kept(again)
}

#[test]
fn ticket_is_sent_and_settled(rt: HostRuntime) -> Result<(), Fail> {
    let ticket = ticket()?;
    assert!(rt; is_fresh(&ticket));
    let (sent, frame) = ticket.into_sent(rt.alloc()).map_err(|refused| refused.0)?;
    assert_eq!(rt; frame.tag(), 5);
    assert!(rt; sent.name() == NAME);
    assert!(rt; settles(sent));
    Ok(())
}

#[test]
fn values_of_a_dispatch(rt: HostRuntime) {
    let recall = Recall::new(NAME, 3, 2, Why::ClientGone);
    assert_eq!(rt; recall.why().as_slice(), b"client gone".as_slice());
    let placed = Placed::new(NAME, 3, 2);
    assert!(rt; placed.server() == 3 && placed.tag() == 2);
}
