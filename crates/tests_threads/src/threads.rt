//! Runs of a hub under threads.

use crate::jobs::Script;
use crate::run::{Fault, check};
use std::alloc::Global;
use std::sync::Wait;
use std::test::Fail;
use std::thread::Threads;

/// Two clients and a plain server.
const TWO_CLIENTS: &str = "listen = \"127.0.0.1:0\"
admin = \"127.0.0.1:0\"
sessions = 2
window = 8
out = 16
history = 32

[[server]]
name = \"a\"
address = \"127.0.0.1:1\"
init = \"plain\"

[[route]]
dst = \"/s/a\"
servers = [\"a\"]
";

/// Eight clients and two plain servers.
const EIGHT_CLIENTS: &str = "listen = \"127.0.0.1:0\"
admin = \"127.0.0.1:0\"
sessions = 8
window = 1024
out = 2048
history = 4096

[[server]]
name = \"a\"
address = \"127.0.0.1:1\"
init = \"plain\"

[[server]]
name = \"b\"
address = \"127.0.0.1:2\"
init = \"plain\"

[[route]]
dst = \"/s/a\"
servers = [\"a\", \"b\"]
";

/// From 1 to 100.
const HUNDRED: &[u8] = &[
    1, 2, 3, 4, 5, 6, 7, 8, 9, 10, 11, 12, 13, 14, 15, 16, 17, 18, 19, 20, 21, 22, 23, 24, 25, 26,
    27, 28, 29, 30, 31, 32, 33, 34, 35, 36, 37, 38, 39, 40, 41, 42, 43, 44, 45, 46, 47, 48, 49, 50,
    51, 52, 53, 54, 55, 56, 57, 58, 59, 60, 61, 62, 63, 64, 65, 66, 67, 68, 69, 70, 71, 72, 73, 74,
    75, 76, 77, 78, 79, 80, 81, 82, 83, 84, 85, 86, 87, 88, 89, 90, 91, 92, 93, 94, 95, 96, 97, 98,
    99, 100,
];

/// The first client's step waits, under its lock, until a frame of the second one has returned.
#[test]
fn gate_two_clients(rt: HostRuntime) -> Result<(), Fail> {
    let script = Script {
        tags: &[1],
        ahead: 1,
        is_batched: false,
        epoch: 0,
        grown: 0,
    };
    Ok(check(rt, rt.alloc(), TWO_CLIENTS, false, script, Some([10, 2, 2]))?)
}

/// Each client gets the body of each of its dispatches, under that tag. So many are sent before their
/// replies are taken, by one call if they are batched.
fn echo<R: Threads + Wait + Sync + Copy + Send + Drop>(
    rt: R,
    alloc: Global,
    ahead: usize,
    is_batched: bool,
) -> Result<(), Fault> {
    let script = Script {
        tags: HUNDRED,
        ahead,
        is_batched,
        epoch: 0,
        grown: 0,
    };
    check(
        rt,
        alloc,
        EIGHT_CLIENTS,
        true,
        script,
        Some([4_000, 800, 800]),
    )
}

#[test]
fn hub_echo(rt: HostRuntime) -> Result<(), Fail> {
    Ok(echo(rt, rt.alloc(), 1, false)?)
}

#[test]
fn hub_echo_64_ahead(rt: HostRuntime) -> Result<(), Fail> {
    Ok(echo(rt, rt.alloc(), 64, false)?)
}

#[test]
fn hub_echo_batches_of_1(rt: HostRuntime) -> Result<(), Fail> {
    Ok(echo(rt, rt.alloc(), 1, true)?)
}

#[test]
fn hub_echo_batches_of_4(rt: HostRuntime) -> Result<(), Fail> {
    Ok(echo(rt, rt.alloc(), 4, true)?)
}

#[test]
fn hub_echo_batches_of_64(rt: HostRuntime) -> Result<(), Fail> {
    Ok(echo(rt, rt.alloc(), 64, true)?)
}

/// Each client's session has three epochs, and each seat grows.
#[test]
fn epochs_under_threads(rt: HostRuntime) -> Result<(), Fail> {
    let script = Script {
        tags: HUNDRED,
        ahead: 1,
        is_batched: false,
        epoch: 2,
        grown: 1,
    };
    Ok(check(rt, rt.alloc(), TWO_CLIENTS, true, script, None)?)
}
