//! A router of Mux over sockets.
//!
//! Reads its configuration from standard input up to the end, prints `listening ADDRESS`, and carries dispatches
//! until an operator's `quit`. It ends with status 0 after `closed ok`, 1 after `config: FAULT`, 2 after
//! `listen: ADDRESS`, 3 after `memory`, 4 after `disagree: CAUSE`, or 5 after `system: WHAT`.
#![tactic(auto)]

use router_serve::serve_input;
use std::io;
use std::process::ExitCode;

fn main(rt: HostRuntime) -> ExitCode {
    let end = serve_input(rt, &mut rt.stdin(), &mut io::writer(&rt));
    ExitCode::from(end.status())
}
