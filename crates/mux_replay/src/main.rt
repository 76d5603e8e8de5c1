//! Scripts in, what the router's core made of them out.
//!
//! Reads a script on standard input, prints what each event gave, and ends with status 0, 2 after
//! `bad line N`, 3 after `memory`, or 4 if a read or a write failed.
#![tactic(auto)]

use replay_script::replay;
use std::io;
use std::process::ExitCode;

fn main(rt: HostRuntime) -> ExitCode {
    let end = replay(rt.alloc(), rt.stdin(), io::writer(&rt));
    ExitCode::from(end.status())
}
