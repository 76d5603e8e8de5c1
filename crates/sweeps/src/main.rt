//! A sweep makes many cases, and counts or prints what it finds of them. This reads three lines, each of which asks for
//! one.
//!
//! At a line `compare N` it makes N small random histories, whole and broken, each from the number of its own, and counts
//! those on which `audit` and `agree` answer alike, those that bear each other out, and the causes that were found in the
//! others; and it audits the histories of 102,400 dispatches.
//!
//! At a line `runs N` it makes N random runs of the core, with losses, discards, drains, dispatches that are sent
//! again, seals and rolls; lets every second one come to rest; and hands the records of each to a rolling audit,
//! epoch by epoch or in parts, in a random order of sessions. Then it spoils a record of each, and does so again.
//!
//! At a line `rows` it plays worked rows on a core, each on one of its own, and prints what each event gave, each frame
//! that went out by its bytes, and at the end of each epoch and boot the records of its sessions. What finds no memory is
//! done again, so that the same is printed whichever allocation is refused.
//!
//! At a line `time DISPATCHES ROUNDS` it makes the histories of 4 clients with so many dispatches each and
//! of 4 servers, in which an epoch ends each so many rounds of 64 dispatches (0: never), and prints the
//! nanoseconds that the audit of all took.
#![tactic(auto)]

mod compare;
mod dice;
mod epochs;
mod events;
mod feeding;
mod play;
mod rolls;
mod rows;
mod runs;
mod shown;
mod soup;
mod spoiling;
mod traffic;

use crate::compare::{print_alike, print_time};
use crate::play::print_rows;
use crate::rolls::print_runs;
use std::io;

/// No line is longer.
const LINE: usize = 64;

/// Does what a line asks for.
fn sweep(rt: &HostRuntime, line: &str) -> io::Result<()> {
    let mut words = line.split_whitespace();
    let what = words.next();
    let count = number(words.next());
    match what {
        Some("compare") => print_alike(rt, count),
        Some("runs") => print_runs(rt, count),
        Some("rows") => print_rows(rt),
        Some("time") => print_time(rt, count, number(words.next())),
        _ => Ok(()),
    }
}

fn number(word: Option<&str>) -> u64 {
    match word {
        Some(word) => word.parse().unwrap_or(0),
        None => 0,
    }
}

/// A line of the input, for which memory is asked twice.
fn next_line(rt: &HostRuntime) -> io::Result<String> {
    let mut line = match String::with_capacity(rt.alloc(), LINE) {
        Ok(line) => line,
        Err(_) => String::with_capacity(rt.alloc(), LINE)?,
    };
    rt.read_line(&mut line)?;
    Ok(line)
}

fn main(rt: HostRuntime) -> io::Result<()> {
    for _ in 0..3u64 {
        let line = next_line(&rt)?;
        sweep(&rt, line.as_str())?;
    }
    Ok(())
}
