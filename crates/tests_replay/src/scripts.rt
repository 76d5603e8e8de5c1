//! Scripts: the worked rows, the manual's examples, refusals, unreadable lines, and failing readers and writers.
//! Tables are written in the notation of docs/ROWS.md: `== ` and a name, a script, `gives`, and what it prints.

mod edge_table;
mod manual_table;
mod random_table;
mod roll_table;
mod row_notation;
mod row_table;
mod session_table;

use edge_table::EDGES;
use manual_table::EXAMPLES;
use random_table::MADE;
use replay_script::{Counted, ReplayEnd, replay};
use roll_table::ROLLS;
use row_notation::lines_of;
use row_table::ROWS;
use session_table::SESSIONS;
use std::alloc::AllocGlobal;
use std::io;
use std::process::Abort;
use std::test::Fail;

// A ping, in every cut.
const CUTS: [(&str, &str); 7] = [
    ("00", "00000441000001"),
    ("0000", "000441000001"),
    ("000000", "0441000001"),
    ("00000004", "41000001"),
    ("0000000441", "000001"),
    ("000000044100", "0001"),
    ("00000004410000", "01"),
];

// What a script prints, where it ends so.
fn printed(rt: &(impl Abort + AllocGlobal), script: &str, want: ReplayEnd) -> Result<String, Fail> {
    let mut out = Vec::new(rt.alloc());
    let end = replay(rt.alloc(), script.as_bytes(), &mut out);
    assert_eq!(rt; end, want, "{script}");
    let text = str::from_utf8(&out).map_err(|_| "text")?;
    Ok(String::from_str(rt.alloc(), text)?)
}

fn check(rt: &(impl Abort + AllocGlobal), script: &str, want: &str) -> Result<(), Fail> {
    let end = if want.contains("bad line") {
        ReplayEnd::BadLine
    } else {
        ReplayEnd::Done
    };
    let out = printed(rt, script, end)?;
    assert_eq!(rt; out.as_str(), want, "{script}");
    Ok(())
}

// How many rows a table has; each script prints what stands behind it.
fn check_table(rt: &(impl Abort + AllocGlobal), table: &str) -> Result<u32, Fail> {
    let mut count = 0_u32;
    for row in table.split("== ") {
        let Some((_name, text)) = row.split_once('\n') else {
            continue;
        };
        let (script, want) = text.split_once("gives\n").ok_or("a row")?;
        let script = lines_of(rt.alloc(), script, ";")?;
        let want = lines_of(rt.alloc(), want, " /")?;
        check(rt, script.as_str(), want.as_str())?;
        count = count.saturating_add(1);
    }
    Ok(count)
}

// The worked rows, with malformed frames, strays and the spent server.
#[test]
fn rows(rt: HostRuntime) -> Result<(), Fail> {
    let count = check_table(&rt, ROWS)?;
    assert_eq!(rt; count, 53);
    Ok(())
}

#[test]
fn manual(rt: HostRuntime) -> Result<(), Fail> {
    let count = check_table(&rt, EXAMPLES)?;
    assert_eq!(rt; count, 33);
    Ok(())
}

// Refusals in their order, limits at their ends, seals, leases, streams whose session has closed.
#[test]
fn edges(rt: HostRuntime) -> Result<(), Fail> {
    let count = check_table(&rt, EDGES)?;
    assert_eq!(rt; count, 50);
    let count = check_table(&rt, SESSIONS)?;
    assert_eq!(rt; count, 21);
    Ok(())
}

// Sessions that are rolled. The histories are judged.
#[test]
fn rolls(rt: HostRuntime) -> Result<(), Fail> {
    let count = check_table(&rt, ROLLS)?;
    assert_eq!(rt; count, 26);
    Ok(())
}

#[test]
fn made_at_random(rt: HostRuntime) -> Result<(), Fail> {
    let count = check_table(&rt, MADE)?;
    assert_eq!(rt; count, 5);
    Ok(())
}

#[test]
fn statuses(rt: HostRuntime) {
    assert_eq!(rt; ReplayEnd::Done.status(), 0);
    assert_eq!(rt; ReplayEnd::BadLine.status(), 2);
    assert_eq!(rt; ReplayEnd::Memory.status(), 3);
    assert_eq!(rt; ReplayEnd::Failed.status(), 4);
}

#[test]
fn row_2(rt: HostRuntime) -> Result<(), Fail> {
    for (front, back) in CUTS {
        let script = format!(in rt.alloc(); "client\nin c1 {front}\nin c1 {back}\n")?;
        check(&rt, &script, "c1 > 00000004bf000001\n")?;
    }
    Ok(())
}

const STREAMS: &str = "\
== nothing is open
in c1 00; end c1; lose c1 gives
refused NoSuchSession (3 times)
== others are open
client; in c2 00; in s1 00; end c0; lose s1 gives
refused NoSuchSession (4 times)
== a server's stream has ended
server plain; end s1 (2 times); lose s1; in s1 00 gives
s1 lost / refused Closed
== a client's stream has ended
client; end c1 (2 times); lose c1; in c1 00 gives
c1 lost / refused Closed
== a client is lost
client; lose c1 (2 times); in c1 P gives
c1 lost / refused Closed
== a stream ends inside a frame
client; in c1 0000000441800001; in c1 000000; end c1 gives
c1 closed Fragment / c1 fault Truncated
== two frames in one line
client; in c1 00000004410000010000000441000002 gives
c1 > Q / c1 > 00000004bf000002
== frames that were held back: clients first, each by its number
hold on; server probe; client (2 times); in c2 0000000441000002; in c1 P; hold off (2 times) gives
c1 > Q / c2 > 00000004bf000002 / s1 > 0000000f8000000174696e697420636865636b
== a restart drops what was held back
hold on; server probe; restart; server plain; hold off gives
boot 2
";

#[test]
fn streams(rt: HostRuntime) -> Result<(), Fail> {
    let count = check_table(&rt, STREAMS)?;
    assert_eq!(rt; count, 9);
    check(&rt, "\n# a comment\nclient", "")
}

const REFUSALS: &str = "\
== no session
drain c1; clock s1; ping s1; retire s1; next c1; seal s1; roll c1; roll s1 gives
refused NoSuchSession (8 times)
== no session after a restart
offer h1 s1; restart; offer h1 s0 gives
refused NoSuchSession / boot 2 / refused NoSuchSession
== no value in hand
server plain; offer h1 s1; note h1; place h1; recall h0 gives
refused NoSuchHand (4 times)
== another value in hand
client; server plain; in c1 T5; offer h1 s1; place h2 gives
h1 ticket 1.1.1 / h2 placed 1.1.1 s1 2 / s1 > T2 / refused WrongHand
";

#[test]
fn refusals(rt: HostRuntime) -> Result<(), Fail> {
    let count = check_table(&rt, REFUSALS)?;
    assert_eq!(rt; count, 4);
    Ok(())
}

// `place` tries the least loaded server first, passes over those that refuse, and one that isn't there.
const PLACES: &str = "\
== two servers refuse
client; server plain (2 times); route /s/a s3 s1 s2; retire s1; in c1 T5; place h1 gives
s1 retired / h1 ticket 1.1.1 / refused NoSuchSession / refused Retired / h2 placed 1.1.1 s2 2 / s2 > T2 / noted
1.1.1
== no route
client; in c1 T5; place h1 gives
h1 ticket 1.1.1 / answered 1.1.1 / c1 > 0000000c800000056e6f20726f757465
";

#[test]
fn places(rt: HostRuntime) -> Result<(), Fail> {
    let count = check_table(&rt, PLACES)?;
    assert_eq!(rt; count, 2);
    Ok(())
}

#[test]
fn bad_lines(rt: HostRuntime) -> Result<(), Fail> {
    for line in [
        "frog",
        " client",
        "client ",
        "in c1",
        "in c1 ",
        "in c1 0",
        "in c1 0g",
        "in c+1 00",
        "in c 00",
        "in h1 00",
        "limits 65536 1 5 64",
        "judge",
        "server",
        "server open",
        "now",
        "now -1",
        "hold",
        "drain s1",
        "clock c1",
        "retire c1",
        "seal h1",
        "roll h1",
        "roll",
        "offer h1",
        "offer s1 h1",
        "note c1",
        "restart now",
        "route /s/a",
        "route /s/a s1 s01",
        "route  s1",
        "place c1",
        "end",
        "lose c1 ",
        "in c18446744073709551616 00",
        "client\r",
    ] {
        let script = format!(in rt.alloc(); "client\n\n{line}\nin c1 0000000441000001\n")?;
        let out = printed(&rt, &script, ReplayEnd::BadLine)?;
        assert_eq!(rt; out.as_str(), "bad line 3\n", "{line}");
    }
    Ok(())
}

// A line that isn't text, a comment too.
#[test]
fn not_text(rt: HostRuntime) -> Result<(), Fail> {
    let mut out = Vec::new(rt.alloc());
    let script: &[u8] = b"client\n# \xff\n";
    let end = replay(rt.alloc(), script, &mut out);
    assert_eq!(rt; end, ReplayEnd::BadLine);
    assert_eq!(rt; out.as_slice(), b"bad line 2\n".as_slice());
    Ok(())
}

/// A script whose second read fails.
#[derive(Drop)]
struct Breaking {
    given: bool,
    error: io::ErrorKind,
}

impl io::Read for Breaking {
    fn read(&mut self, buf: &mut [u8]) -> io::Result<usize> {
        if self.given || buf.len() < 7 {
            return Err(io::Error::from(self.error));
        }
        self.given = true;
        buf[..7].copy_from_slice(b"client\n");
        Ok(7)
    }
}

/// A script of which every second read is interrupted.
#[derive(Drop)]
struct Stuttering {
    script: &'static [u8],
    interrupts: bool,
}

impl io::Read for Stuttering {
    fn read(&mut self, buf: &mut [u8]) -> io::Result<usize> {
        self.interrupts = !self.interrupts;
        if self.interrupts {
            return Err(io::Error::from(io::ErrorKind::Interrupted));
        }
        self.script.read(buf)
    }
}

/// A writer that takes nothing.
#[derive(Drop)]
struct Full {}

impl io::Write for Full {
    fn write(&mut self, _buf: &[u8]) -> io::Result<usize> {
        Err(io::Error::from(io::ErrorKind::BrokenPipe))
    }

    fn flush(&mut self) -> io::Result<()> {
        Ok(())
    }
}

#[test]
fn failing_ends(rt: HostRuntime) -> Result<(), Fail> {
    let mut out = Vec::new(rt.alloc());
    for error in [io::ErrorKind::BrokenPipe, io::ErrorKind::OutOfMemory] {
        let reader = Breaking {
            given: false,
            error,
        };
        assert_eq!(rt; replay(rt.alloc(), reader, &mut out), ReplayEnd::Failed);
        assert!(rt; out.is_empty());
    }
    let script: &[u8] = b"client\nin c1 0000000441000001\n";
    assert_eq!(rt; replay(rt.alloc(), script, Full {}), ReplayEnd::Failed);
    Ok(())
}

#[test]
fn interrupted_reads(rt: HostRuntime) -> Result<(), Fail> {
    let mut out = Vec::new(rt.alloc());
    let reader = Stuttering {
        script: b"client\nin c1 0000000441000001\n",
        interrupts: false,
    };
    assert_eq!(rt; replay(rt.alloc(), reader, &mut out), ReplayEnd::Done);
    assert_eq!(rt; out.as_slice(), b"c1 > 00000004bf000001\n".as_slice());
    Ok(())
}

#[test]
fn reads_are_counted(rt: HostRuntime) -> Result<(), Fail> {
    let script: &[u8] = b"client";
    let mut reader = Counted::new(script, 2);
    let mut out = [0; 2];
    for read in [2, 2, 0] {
        assert_eq!(rt; io::Read::read(&mut reader, &mut out)?, read);
    }
    Ok(())
}
