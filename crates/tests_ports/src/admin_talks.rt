//! Whole talks with the admin port, cut in several ways. Each poll that moves bytes shows as progress.

use crate::ends::{Book, Narrow, Pauses, Trickle, end_of};
use admin_port::AdminLines;
use futures::task::Poll;
use futures::test::MockTask;
use line_session::{LineEnd, LineSession};
use std::alloc::Global;
use std::io::ErrorKind;
use std::test::Fail;

/// What is left of a session at its end.
#[derive(Drop)]
struct Talk<'a> {
    end: LineEnd,
    reader: Trickle<'a>,
    writer: Narrow,
    orders: usize,
}

fn lines(alloc: Global) -> AdminLines<Book> {
    AdminLines {
        alloc,
        orders: Book { alloc, orders: 0 },
    }
}

fn reader(rest: &[u8], size: usize, waits: bool) -> Trickle<'_> {
    Trickle {
        rest,
        size,
        pauses: Pauses::new(waits),
        fails: None,
    }
}

fn play<'a>(rt: &HostRuntime, reader: Trickle<'a>, writer: Narrow) -> Result<Talk<'a>, Fail> {
    let task = MockTask::new(rt)?;
    let lines = lines(rt.alloc());
    let given = reader.rest.len();
    let mut session = match LineSession::new(rt.alloc(), reader, writer, lines) {
        Ok(session) => session,
        Err((_, lines)) if lines.orders.orders == 0 => {
            return Err(Fail::from("memory was refused"));
        }
        Err(_) => return Err(Fail::from("other orders")),
    };
    let end = end_of(&task, &mut session).ok_or("no end, or another one")?;
    let progress = session.progress();
    let (reader, writer, lines) = session.into_parts();
    let read = given.saturating_sub(reader.rest.len());
    if progress != (read as u64).saturating_add(writer.bytes.len() as u64) {
        return Err(Fail::from("another progress"));
    }
    Ok(Talk {
        end,
        reader,
        writer,
        orders: lines.orders.orders,
    })
}

// What comes in, what is written, the end, and how many orders are carried out.
const TALKS: &[(&[u8], &[u8], LineEnd, usize)] = &[
    (b"", b"", LineEnd::Ended, 0),
    (
        b"status\n",
        b"boot 1\nclient 1 open entries 0 records 1\nserver a open load 0 records 0\nend\n",
        LineEnd::Ended,
        1,
    ),
    (
        b"drain client 1\nunroute x\n",
        b"ok\nerror NoRoute\n",
        LineEnd::Ended,
        2,
    ),
    (b"quit\nstatus\n", b"bye\n", LineEnd::Quit, 1),
    (b"quit", b"", LineEnd::Ended, 0),
    (b"drain client 1\nqui", b"ok\n", LineEnd::Ended, 1),
    (
        b"drain client 2\ndrain client 3\ndrain client +1\nretire b\nroute /s/a a,b\nunroute \n",
        b"error AlreadyDraining\nerror NoSuchSession\nerror BadCommand\nerror UnknownServer\nok\nerror NoRoute\n",
        LineEnd::Ended,
        5,
    ),
    (
        b"\nSTATUS\nroute /s/a a,a\nquit\n",
        b"error BadCommand\nerror BadCommand\nerror BadCommand\nbye\n",
        LineEnd::Quit,
        1,
    ),
    (
        b"drain client 1\nquit\xff\nstatus\n",
        b"ok\nerror BadCommand\n",
        LineEnd::Refused,
        1,
    ),
    (b"quit\r\n", b"bye\n", LineEnd::Quit, 1),
    (
        b"POST / HTTP/1.1\r\n\r\nquit\r\n",
        b"error BadCommand\n",
        LineEnd::Quit,
        0,
    ),
    (
        b"retire HTTP/1.1\nquit\n",
        b"error BadCommand\n",
        LineEnd::Quit,
        0,
    ),
    (b"quit\r", b"", LineEnd::Ended, 0),
];

/// Whether a talk goes as wanted, read by `size` bytes and written by `width`.
fn goes(
    rt: &HostRuntime,
    wanted: &(&[u8], &[u8], LineEnd, usize),
    size: usize,
    width: usize,
) -> Result<bool, Fail> {
    let (input, output, end, orders) = wanted;
    let waits = size < 4096;
    let writer = Narrow::new(rt.alloc(), width, waits);
    let talk = play(rt, reader(input, size, waits), writer)?;
    let shut_at = (talk.end == LineEnd::Refused).then_some(output.len());
    Ok(
        talk.writer.bytes.as_slice() == *output
            && talk.end == *end
            && talk.orders == *orders
            && talk.writer.shut_at == shut_at,
    )
}

// By 1, 3 and 4,096 bytes; by small ones with a pause before each read and each write.
#[test]
fn talks(rt: HostRuntime) -> Result<(), Fail> {
    for (place, wanted) in TALKS.iter().enumerate() {
        for (size, width) in [(1, 1), (3, 2), (4096, 4096)] {
            if !goes(&rt, wanted, size, width)? {
                return Err(Fail::from(place));
            }
        }
    }
    Ok(())
}

/// What is told to as many bytes with a line feed behind them, and to bytes without end.
const LENGTHS: &[(usize, &[u8], LineEnd)] = &[
    (1_024, b"error BadCommand\n", LineEnd::Ended),
    (1_025, b"error TooLong\n", LineEnd::Refused),
    (3_000, b"error TooLong\n", LineEnd::Refused),
];

#[test]
fn longest_line(rt: HostRuntime) -> Result<(), Fail> {
    for (length, output, end) in LENGTHS {
        let mut line = vec![in rt.alloc(); b'x'; *length]?;
        line.push(b'\n')?;
        for size in [1, 4096] {
            let wanted = (line.as_slice(), *output, *end, 0);
            if !goes(&rt, &wanted, size, 4096)? {
                return Err(Fail::from(*length));
            }
        }
    }
    Ok(())
}

// Behind a refused line at most 64 KiB are read, and one read more.
#[test]
fn drained(rt: HostRuntime) -> Result<(), Fail> {
    for (length, least) in [(60_000, 60_000), (200_000, 65_536)] {
        let line = vec![in rt.alloc(); b'x'; length]?;
        let writer = Narrow::new(rt.alloc(), 4096, false);
        let talk = play(&rt, reader(line.as_slice(), 4096, false), writer)?;
        let read = length.saturating_sub(talk.reader.rest.len());
        assert!(rt; talk.end == LineEnd::Refused && talk.writer.shut_at == Some(14));
        assert!(rt; least <= read && read <= 75_000, "{read}");
    }
    Ok(())
}

/// What comes in, the reader's fault, the writer's room and fault, and the end.
const FAULTS: &[(&[u8], Option<ErrorKind>, usize, Option<ErrorKind>, LineEnd)] = &[
    (
        b"sta",
        Some(ErrorKind::ConnectionReset),
        100,
        None,
        LineEnd::Failed,
    ),
    (
        b"status\n",
        None,
        5,
        Some(ErrorKind::BrokenPipe),
        LineEnd::Failed,
    ),
    (b"status\n", None, 5, None, LineEnd::Failed),
    (
        b"quit\n",
        None,
        2,
        Some(ErrorKind::BrokenPipe),
        LineEnd::Quit,
    ),
    (b"quit\n", None, 2, None, LineEnd::Quit),
    (
        b"\xff\n",
        None,
        2,
        Some(ErrorKind::BrokenPipe),
        LineEnd::Failed,
    ),
    (
        b"\xff\n",
        Some(ErrorKind::ConnectionReset),
        100,
        None,
        LineEnd::Refused,
    ),
    (
        b"sta",
        Some(ErrorKind::OutOfMemory),
        100,
        None,
        LineEnd::Refused,
    ),
];

#[test]
fn faults(rt: HostRuntime) -> Result<(), Fail> {
    for (place, (input, reads, room, writes, end)) in FAULTS.iter().enumerate() {
        let mut reader = reader(input, 1, true);
        reader.fails = *reads;
        let mut writer = Narrow::new(rt.alloc(), 1, true);
        writer.room = *room;
        writer.fails = *writes;
        let talk = play(&rt, reader, writer)?;
        if talk.end != *end || talk.writer.bytes.len() > *room {
            return Err(Fail::from(place));
        }
    }
    Ok(())
}

// A hundred orders in one read: a poll takes at most 64 turns, of which every other one writes.
#[test]
fn budget(rt: HostRuntime) -> Result<(), Fail> {
    let mut input = Vec::new(rt.alloc());
    for _ in 0..100 {
        input.extend_from_slice(b"unroute x\n")?;
    }
    let task = MockTask::new(&rt)?;
    let writer = Narrow::new(rt.alloc(), 4096, false);
    let reader = reader(input.as_slice(), 4096, false);
    let Ok(mut session) = LineSession::new(rt.alloc(), reader, writer, lines(rt.alloc())) else {
        return Err(Fail::from("memory was refused"));
    };
    let polled = task.poll(&mut session);
    let (_, writer, lines) = session.into_parts();
    let orders = lines.orders.orders;
    assert!(rt; polled == Poll::Pending && orders <= 64 && orders >= 30);
    assert!(rt; writer.bytes.len() <= orders.saturating_mul(14));
    Ok(())
}
