//! What `parse` finds in each frame of a table, and in each variant of a body.

ghost use Rattle.std.specs.Prelude.{◌≡◌, true, IfOk};

use super::table;
use bytes::BytesMut;
use mux_frame::{Frame, FrameCodec};
use mux_message::{Message, MessageFault, MessageKind, parse};
use std::alloc::Global;
use std::fmt::Write;
use std::test::Fail;
use tokio_util::codec::Decoder;

fn name(kind: MessageKind) -> &'static str {
    match kind {
        MessageKind::Treq => "Treq",
        MessageKind::Rreq => "Rreq",
        MessageKind::Tdispatch => "Tdispatch",
        MessageKind::Rdispatch => "Rdispatch",
        MessageKind::Tdrain => "Tdrain",
        MessageKind::Rdrain => "Rdrain",
        MessageKind::Tping => "Tping",
        MessageKind::Rping => "Rping",
        MessageKind::Tdiscarded => "Tdiscarded",
        MessageKind::Rdiscarded => "Rdiscarded",
        MessageKind::Tlease => "Tlease",
        MessageKind::Tinit => "Tinit",
        MessageKind::Rinit => "Rinit",
        MessageKind::Rerr => "Rerr",
        MessageKind::Other(kind) if kind > 0 => "OtherT",
        MessageKind::Other(_) => "OtherR",
    }
}

fn put_digits(text: &mut String, bytes: &[u8]) -> Result<(), Fail> {
    let digits = hex::encode(*text.allocator(), bytes)?;
    text.push_str(digits.as_str())?;
    Ok(())
}

/// Adds ` NAME=DIGITS`.
fn put_field(text: &mut String, name: &str, bytes: &[u8]) -> Result<(), Fail> {
    write!(text, " {name}=")?;
    put_digits(text, bytes)
}

/// Adds ` NAME=DIGITS` for each field.
fn put(text: &mut String, fields: &[(&str, &[u8])]) -> Result<(), Fail> {
    for (name, bytes) in fields {
        put_field(text, name, bytes)?;
    }
    Ok(())
}

/// Adds ` NAME=NUMBER`.
fn put_number(text: &mut String, name: &str, number: u64) -> Result<(), Fail> {
    write!(text, " {name}={number}")?;
    Ok(())
}

fn put_lease(text: &mut String, (unit, howmuch): (u8, i64)) -> Result<(), Fail> {
    write!(text, " unit={unit} howmuch={howmuch}")?;
    Ok(())
}

/// Adds the parts of a message, each with its name.
fn put_parts(text: &mut String, message: &Message) -> Result<(), Fail> {
    match message.kind() {
        MessageKind::Tdispatch => {
            let contexts = ("contexts", message.contexts());
            let dst = ("dst", message.dst());
            let dtab = ("dtab", message.dtab());
            let body = ("body", message.body());
            put(text, &[contexts, dst, dtab, body])
        }
        MessageKind::Rdispatch => {
            put_number(text, "status", u64::from(message.status()))?;
            let contexts = ("contexts", message.contexts());
            put(text, &[contexts, ("body", message.body())])
        }
        MessageKind::Tdiscarded => {
            put_number(text, "discard_tag", u64::from(message.discard_tag()))?;
            put_field(text, "why", message.why())
        }
        MessageKind::Tlease => put_lease(text, message.lease()),
        MessageKind::Tinit | MessageKind::Rinit => {
            put_number(text, "version", u64::from(message.version()))?;
            put_field(text, "headers", message.headers())
        }
        MessageKind::Rerr => put_field(text, "why", message.why()),
        MessageKind::Treq | MessageKind::Rreq | MessageKind::Other(_) => {
            put_field(text, "body", message.body())
        }
        _ => put_field(text, "body", &[]),
    }
}

/// The frame in these hex digits.
fn frame(alloc: Global, digits: &str) -> Result<Frame, Fail>
    ensures { IfOk result (λ f. f.as_read ≡ true) }
{
    let bytes = hex::decode(alloc, digits.as_bytes())?;
    let mut src = BytesMut::copy_from_slice(alloc, bytes.as_slice())?;
    Ok(FrameCodec::new(65_536).decode(&mut src)?.ok_or("a frame")?)
}

/// Adds a word for the kind of a message, and its tag.
fn put_kind(text: &mut String, name: &str, tag: u32) -> Result<(), Fail> {
    write!(text, "{name} {tag}")?;
    Ok(())
}

fn put_fault(text: &mut String, fault: MessageFault) -> Result<(), Fail> {
    match fault {
        MessageFault::Fragment => text.push_str(" Fragment")?,
        MessageFault::BadBody { place } => write!(text, " BadBody {place}")?,
    }
    Ok(())
}

/// What a line of the table says of the frame in these hex digits.
fn told(alloc: Global, digits: &str) -> Result<String, Fail> {
    let mut text = String::new(alloc);
    match parse(frame(alloc, digits)?) {
        Ok(message) => {
            put_kind(&mut text, name(message.kind()), message.tag())?;
            put_parts(&mut text, &message)?;
        }
        Err((fault, frame)) => {
            put_kind(&mut text, name(MessageKind::of(frame.kind())), frame.tag())?;
            put_fault(&mut text, fault)?;
        }
    }
    Ok(text)
}

/// What `parse` is to find in the variants of a body.
#[derive(Clone, Copy)]
struct Block {
    name: &'static str,
    kind: &'static str,
    fields: &'static str,
}

fn number(bytes: &[u8]) -> u64 {
    let mut number = 0_u64;
    for byte in bytes {
        number = number.wrapping_mul(256).wrapping_add(u64::from(*byte));
    }
    number
}

/// Adds the fields of a body.
fn put_fields(text: &mut String, fields: &str, body: &[u8]) -> Result<(), Fail> {
    for field in fields.split(' ') {
        let (name, place) = field.split_once('=').ok_or("a field")?;
        let (from, to) = place.split_once("..").ok_or("a place")?;
        let from = from.parse::<usize>()?;
        let bytes = match to {
            "" => body.get(from..),
            _ => body.get(from..to.parse::<usize>()?),
        };
        let bytes = bytes.ok_or("a short body")?;
        match name.strip_prefix('#') {
            Some(name) => put_number(text, name, number(bytes))?,
            None => put_field(text, name, bytes)?,
        }
    }
    Ok(())
}

/// Looks at the frame with this tag and this body.
fn check_one(
    alloc: Global,
    block: Block,
    tag: u32,
    body: &[u8],
    verdict: &str,
) -> Result<(), Fail> {
    let size = body.len().saturating_add(4);
    let mut digits = format!(in alloc; "{size:08x}{}{tag:06x}", block.kind)?;
    put_digits(&mut digits, body)?;
    let mut want = String::new(alloc);
    put_kind(&mut want, block.name, tag)?;
    match verdict {
        "." => put_fields(&mut want, block.fields, body)?,
        "-" => return Ok(()),
        "Fragment" => want.push_str(" Fragment")?,
        place => {
            want.push_str(" BadBody ")?;
            want.push_str(place)?;
        }
    }
    let found = told(alloc, digits.as_str())?;
    if found.as_str() != want.as_str() {
        return Err(Fail::new(format_args!("{digits}: {found}")));
    }
    Ok(())
}

const TAGS: [(u32, &str); 5] = [
    (0, "."),
    (1, "."),
    (8_388_607, "."),
    (8_388_608, "Fragment"),
    (16_777_215, "Fragment"),
];

/// Looks at a body on each tag, at its parts, and at those that differ in one byte.
fn check_block(
    alloc: Global,
    block: Block,
    body: &str,
    sizes: &str,
    changed: &str,
) -> Result<(), Fail> {
    let body = hex::decode(alloc, body.as_bytes())?;
    for (tag, verdict) in TAGS {
        check_one(alloc, block, tag, &body, verdict)?;
    }
    let mut longer = Vec::from_slice(alloc, &body)?;
    longer.push(0)?;
    for (size, verdict) in sizes.split(' ').enumerate() {
        let first = longer.as_slice().get(..size).ok_or("sizes")?;
        check_one(alloc, block, 5, first, verdict)?;
    }
    for (place, verdict) in changed.split_whitespace().enumerate() {
        let mut other = Vec::from_slice(alloc, &body)?;
        let byte = other.get_mut(place).ok_or("bytes")?;
        *byte = byte.wrapping_add(1);
        check_one(alloc, block, 5, &other, verdict)?;
    }
    let are_all = sizes.split(' ').count() == longer.len().saturating_add(1)
        && changed.split_whitespace().count() == body.len();
    if are_all {
        Ok(())
    } else {
        Err("too few".into())
    }
}

#[test]
fn parse_table(rt: HostRuntime) -> Result<(), Fail> {
    let mut lines = table::blocks();
    for _ in 0..22 {
        let head = lines.next().ok_or("a head")?;
        let (name, rest) = head.split_once(' ').ok_or("a name")?;
        let (kind, fields) = rest.split_once(' ').ok_or("fields")?;
        let body = lines.next().ok_or("a body")?;
        let sizes = lines.next().ok_or("sizes")?;
        let changed = lines.next().ok_or("bytes")?;
        check_block(
            rt.alloc(),
            Block { name, kind, fields },
            body,
            sizes,
            changed,
        )?;
    }
    assert_eq!(rt; lines.next(), None);
    assert_eq!(rt; table::rows().count(), 13);
    for line in table::rows() {
        let (digits, want) = line.split_once(' ').ok_or("no space")?;
        let found = told(rt.alloc(), digits)?;
        assert_eq!(rt; found.as_str(), want, "{digits}");
    }
    Ok(())
}
