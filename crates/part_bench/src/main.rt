//! Times the parts of sessions, each full: the tag pool, the book of a client, a whole session
//! towards a server, in use and as it is lost, and both kinds of session with a dispatch there and back.
//!
//! With the line `time` on standard input it runs long and prints nanoseconds; else it runs
//! briefly and prints check sums alone, which are the same on every machine.
#![tactic(auto)]

mod bodies;
mod book;
mod both;
mod loss;
mod pool;
mod rounds;
mod session;

use crate::bodies::Bodies;
use crate::rounds::Rounds;
use std::io;

fn main(rt: HostRuntime) -> io::Result<()> {
    let mut asked = String::new(rt.alloc());
    rt.read_line(&mut asked)?;
    let rounds = if asked.as_str().trim_end() == "time" {
        Rounds::long()
    } else {
        Rounds::brief()
    };
    let Ok(bodies) = Bodies::new(rt.alloc()) else {
        return println!(rt; "bodies: memory");
    };
    pool::run(&rt, rounds)?;
    book::run(&rt, rounds)?;
    for window in [1, 1_024, 65_536] {
        session::run(&rt, rounds, bodies, window)?;
    }
    loss::run(&rt, rounds, bodies)?;
    for window in [1, 1_024, 65_536] {
        both::run(&rt, rounds, bodies, window, false)?;
        both::run(&rt, rounds, bodies, window, true)?;
    }
    Ok(())
}
