//! Frames by their names, and dispatches by their numbers.

ghost use Rattle.std.specs.Prelude.{◌≡◌, true, IfOk};

use bytes::Bytes;
use mux_frame::Frame;
use mux_history::{Name, Record};
use mux_message::{MessageKind, parse};
use std::alloc::Global;
use std::collections::VecDeque;
use std::fmt::{Debug, Write};
use std::test::Fail;
use translate_book::{Dispatch, Ticket};

/// The body of a Tdispatch to `/s/a` that carries `hi`.
pub const HI: &[u8] = b"\0\0\0\x04/s/a\0\0hi";

/// The first word of a text, and what is behind it.
pub fn head(text: &str) -> (&str, &str) {
    text.split_once(' ').unwrap_or((text, ""))
}

/// The dispatch of the first client with this number.
pub fn named(seq: &str) -> Result<Name, Fail> {
    let seq = seq.parse()?;
    Ok(Name {
        boot: 1,
        client: 1,
        seq,
    })
}

/// The type and the body of a frame with this name. `why` is the text of an Rerr.
fn parts<'a>(name: &str, why: &'a str) -> Option<(i8, &'a [u8])> {
    Some(match name {
        "Treq" => (1, b""),
        "Tdispatch" => (2, HI),
        "Rdispatch" => (-2, b"\0\0\0yo"),
        "Nack" => (-2, b"\x02\0\0"),
        "Failure" => (-2, b"\x01\0\0"),
        "Empty" => (-2, b"\0\0\0"),
        "Broken" => (-2, b""),
        "Tdrain" => (64, b""),
        "Rdrain" => (-64, b""),
        "Tping" => (65, b""),
        "Rping" => (-65, b""),
        "Rdiscarded" => (-66, b""),
        // Of ten seconds, and of none.
        "Tlease" => (67, b"\0\0\0\0\0\0\0\x27\x10"),
        "NoLease" => (67, b"\0\0\0\0\0\0\0\0\0"),
        "Tinit" => (68, b"\0\x01"),
        "Rinit" => (-68, b"\0\x01"),
        "OldRerr" => (127, why.as_bytes()),
        "Rerr" => (-128, why.as_bytes()),
        _ => return None,
    })
}

/// The frame of these words: its name and tag. Behind an Rerr stands its text. A Tdiscarded has tag 0, the tag that it
/// discards, and the reason `x`.
pub fn frame(alloc: Global, words: &str) -> Result<Frame, Fail>
    ensures { IfOk result (λ f. f.as_read ≡ true) }
{
    let (name, rest) = head(words);
    let (tag, why) = head(rest);
    if name == "Tdiscarded" {
        let body = [0, 0, tag.parse::<u8>()?, b'x'];
        return Ok(Frame::read(66, 0, Bytes::copy_from_slice(alloc, body.as_slice())?));
    }
    let tag = tag.parse::<u32>()?;
    let (kind, body) = parts(name, why).ok_or("a frame's name")?;
    if tag >= 1 << 24 {
        return Err("a tag".into());
    }
    Ok(Frame::read(kind, tag, Bytes::copy_from_slice(alloc, body)?))
}

/// It came on tag 5.
pub fn ticket(alloc: Global, name: Name, left: u8) -> Result<Ticket, Fail> {
    let Ok(message) = parse(frame(alloc, "Tdispatch 5")?) else {
        return Err("a message".into());
    };
    match message.kind() {
        MessageKind::Tdispatch => Ok(Ticket::new(name, Dispatch::new(message), left)),
        _ => Err("a Tdispatch".into()),
    }
}

fn has_body(frame: &Frame, body: &[u8]) -> bool {
    if frame.body_len() != body.len() {
        return false;
    }
    for (i, byte) in body.iter().enumerate() {
        if frame.body_byte(i) != *byte {
            return false;
        }
    }
    true
}

/// Whether a frame is there, and is the other, which was read.
pub fn is_same(frame: Option<&Frame>, other: &Frame) -> bool {
    let Some(frame) = frame else {
        return false;
    };
    frame.kind() == other.kind()
        && frame.tag() == other.tag()
        && other.as_read()
        && has_body(frame, other.body())
}

/// Tells a word, and numbers.
pub fn tell(told: &mut String, word: &str, numbers: &[u64]) -> Result<(), Fail> {
    told.push_str(word)?;
    for number in numbers {
        write!(told, " {number}")?;
    }
    Ok(())
}

pub fn tell_count(told: &mut String, count: usize) -> Result<(), Fail> {
    Ok(write!(told, "{count}")?)
}

/// Tells why a call was refused, say.
pub fn tell_debug<D: Debug + Drop>(told: &mut String, why: D) -> Result<(), Fail> {
    Ok(write!(told, "{why:?}")?)
}

/// Tells of a call that it was refused, and why.
pub fn tell_done<E: Debug + Drop>(told: &mut String, done: Result<(), E>) -> Result<(), Fail> {
    match done {
        Ok(()) => Ok(told.push_str("done")?),
        Err(refusal) => tell_debug(told, refusal),
    }
}

/// Tells whether a frame is there that these words name.
pub fn tell_frame(
    alloc: Global,
    frame: Option<&Frame>,
    words: &str,
    told: &mut String,
) -> Result<(), Fail> {
    let is_there = is_same(frame, &self::frame(alloc, words)?);
    Ok(told.push_str(if is_there { "done" } else { "none" })?)
}

/// Tells how many frames there are, of which the first are those that these words name.
pub fn tell_frames(
    alloc: Global,
    frames: &VecDeque<Frame>,
    words: &str,
    told: &mut String,
) -> Result<(), Fail> {
    for (place, word) in words.split(", ").enumerate() {
        if !word.is_empty() && !is_same(frames.get(place), &frame(alloc, word)?) {
            return Err("another frame".into());
        }
    }
    tell_count(told, frames.len())
}

/// Tells a record: its kind and its tag.
pub fn tell_record(told: &mut String, record: Record) -> Result<(), Fail> {
    tell_debug(told, record.kind())?;
    tell(told, "", &[u64::from(record.tag())])
}

/// Tells what records are there, or of the one at a place its kind with its tag, or its reading.
pub fn tell_records(
    records: &[Record],
    verb: &str,
    words: &str,
    told: &mut String,
) -> Result<(), Fail> {
    if verb == "records" {
        return tell_count(told, records.len());
    }
    let record = records.get(words.parse::<usize>()?).ok_or("no record")?;
    match verb {
        "record" => tell_record(told, *record),
        "reading" => tell_count(told, record.reading() as usize),
        _ => Err("a step".into()),
    }
}
