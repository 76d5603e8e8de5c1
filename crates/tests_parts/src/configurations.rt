//! Configurations that are read, and routes that change.

use mux_history::{InitMode, Limits, ServerId};
use route_table::{AuditMode, Config, ConfigFault, Routes, Server, is_server_list};
use std::alloc::{AllocError, Global};
use std::test::Fail;

const ADDRESSES: &str = "listen = \"127.0.0.1:0\"\nadmin = \"127.0.0.1:0\"\n";

const SERVER_A: &str = "[[server]]\nname = \"a\"\naddress = \"127.0.0.1:1\"\n";

/// The words of what is wrong with a text, and none where nothing is.
fn words(alloc: Global, text: &str) -> Result<String, Fail> {
    match Config::read(alloc, text) {
        Ok(_) => Ok(String::new(alloc)),
        Err(fault) => Ok(fault.to_string(alloc)?),
    }
}

/// Each line has a key, values that are read behind the two addresses, ` |`, and values that aren't its own.
const VALUES: &str = r#"
boot: 1, 1000000000 | 0, 1000000001, "1", -1, 1.0, 9223372036854775807
max_frame: 32, 16777216 | 31, 16777217, []
window: 1, 2044 | 0, 65537, true
out: 1028, 1048576 | 1027, 1048577, "many"
history: 16, 16777216 | 15, 16777217, 1979-05-27
server_window: 1, 65536 | 0, 65537, "all"
server_out: 1028, 1048576 | 1027, 1048577, []
server_history: 16, 16777216 | 15, 16777217, true
out_bytes: 1048576, 4294967296 | 1048575, 4294967297, "64 MiB"
clients: 1, 1024 | 0, 1025, {}
sessions: 1, 65536 | 0, 65537, "1"
retries: 0, 3 | 4, -1, false
tick_ms: 10, 60000 | 9, 60001, "1s"
admin_idle_ms: 100, 3600000 | 99, 3600001, "1m"
client_idle_ms: 100, 86400000 | 99, 0, 86400001, "1h"
frame_ms: 100, 3600000 | 99, 3600001, {}
server_silent_ms: 100, 86400000 | 99, 0, 86400001, false
operator: | "localhost:1", 1
metrics_http: | "127.0.0.1", []
reconnect_ms: 10, 3600000 | 9, 0, 3600001, -10, "1s"
eject_after: 1, 1000 | 0, 1001
eject_ms: 100, 3600000 | 99, 3600001
turnover: -1 |
threads: 1, 16 | 0, 17, "2"
record: 0, 10000 | 10001, -1
audit: "close", "rolling" | "other", "Rolling", "", 1, ["close"]
colour: "red" |
server: [] | {}, [1], "a"
route: [] | 7, [[]]
"#;

/// Each line has a text that is read behind the two addresses, ` | ` and the words for its fault.
const KEYS: &str = r#"
 | 
boot = 99999999999999999999 | Toml
window = 65536\nout = 65540 | 
window = 2045 | BadValue out
window = 2045\nout = 2049 | 
server_window = 2045\nserver_out = 2049 | 
server_window = 2045\nserver_out = 2048 | BadValue server_out
server_window = 1\nserver_out = 5 | 
operator = "127.0.0.1:0"\nmetrics_http = "[::1]:65535" | 
sessions = 0\nclients = 0 | BadValue clients
tick_ms = 0\nretries = 4 | BadValue retries
admin_idle_ms = 0\ntick_ms = 0 | BadValue tick_ms
server = 1\nadmin_idle_ms = 0 | BadValue admin_idle_ms
operator = 1\nadmin_idle_ms = 0 | BadValue admin_idle_ms
server_window = 0\nhistory = 15 | BadValue history
server_out = 0\nserver_window = 0 | BadValue server_window
server_history = 15\nserver_out = 0 | BadValue server_out
out_bytes = 0\nserver_history = 15 | BadValue server_history
clients = 0\nout_bytes = 0 | BadValue out_bytes
client_idle_ms = 0\nadmin_idle_ms = 0 | BadValue admin_idle_ms
frame_ms = 0\nclient_idle_ms = 0 | BadValue client_idle_ms
server_silent_ms = 0\nframe_ms = 0 | BadValue frame_ms
operator = 1\nserver_silent_ms = 0 | BadValue server_silent_ms
metrics_http = 1\noperator = 1 | BadValue operator
server = 1\nmetrics_http = 1 | BadValue metrics_http
reconnect_ms = 0\nadmin_idle_ms = 0 | BadValue admin_idle_ms
reconnect_ms = 0\nmetrics_http = 1 | BadValue metrics_http
server = 1\nreconnect_ms = 0 | BadValue reconnect_ms
eject_after = 0\nreconnect_ms = 0 | BadValue reconnect_ms
eject_ms = 0\neject_after = 0 | BadValue eject_after
threads = 0\neject_ms = 0 | BadValue eject_ms
record = -1\nthreads = 0 | BadValue threads
audit = 1\nrecord = -1 | BadValue record
server = 1\nrecord = -1 | BadValue record
server = 1\naudit = 1 | BadValue audit
retries = 4\nsessions = 0 | BadValue sessions
window = 0\nserver = 1 | BadValue window
server = 1\nroute = 1 | BadValue server
boot 1 | Toml
= | Toml
boot = 1\nboot = 1 | Toml
"#;

/// Each line has the keys of a second server, behind a server `a`.
const SERVERS: &str = r#"
 | Missing server.name
address = "127.0.0.1:1" | Missing server.name
name = "b" | Missing server.address
name = "b"\naddress = "127.0.0.1:1" | 
name = "b"\naddress = "127.0.0.1:1"\ninit = "probe" | 
name = "b"\naddress = "127.0.0.1:1"\ninit = "plain" | 
name = "b"\naddress = "127.0.0.1:1"\ninit = "none" | BadValue server.init
name = "b"\naddress = "127.0.0.1:1"\ninit = 1 | BadValue server.init
name = "b"\naddress = "[::1]:8080" | 
name = "b"\naddress = "none" | 
name = "b"\naddress = "none"\ninit = "plain" | 
name = "b"\naddress = "None" | BadValue server.address
name = "b"\naddress = "" | BadValue server.address
name = "a"\naddress = "none" | DoubleName a
name = "b"\naddress = "localhost:80" | BadValue server.address
name = "b"\naddress = "127.0.0.1" | BadValue server.address
name = "b"\naddress = "127.0.0.1:65536" | BadValue server.address
name = "b"\naddress = 80 | BadValue server.address
name = "" | BadValue server.name
name = "B" | BadValue server.name
name = "b_c" | BadValue server.name
name = 1 | BadValue server.name
name = "z-09" | Missing server.address
name = "a"\naddress = "127.0.0.1:1" | DoubleName a
name = "a"\naddress = "here" | BadValue server.address
name = "aaaaaaaaaaaaaaaaaaaaaaaaaaaaaaaaaaaaaaaaaaaaaaaaaaaaaaaaaaaaaaaa" | Missing server.address
name = "aaaaaaaaaaaaaaaaaaaaaaaaaaaaaaaaaaaaaaaaaaaaaaaaaaaaaaaaaaaaaaaaa" | BadValue server.name
name = "b"\naddress = "127.0.0.1:1"\nport = 1 | 
"#;

/// Each line has the keys of a second route, behind a server `a` and a route to `/a`.
const ROUTES: &str = r#"
 | Missing route.dst
servers = ["a"] | Missing route.dst
dst = "/b" | Missing route.servers
dst = 1 | BadValue route.dst
dst = "/b"\nservers = ["a"] | 
dst = ""\nservers = ["a"] | 
dst = "/b"\nservers = [] | BadValue route.servers
dst = "/b"\nservers = "a" | BadValue route.servers
dst = "/b"\nservers = [1] | BadValue route.servers
dst = "/b"\nservers = ["a", "a"] | BadValue route.servers
dst = "/b"\nservers = ["b"] | UnknownServer b
dst = "/b"\nservers = ["a", "b", "c"] | UnknownServer b
dst = "/b"\nservers = ["B!"] | UnknownServer B!
dst = "/b"\nservers = ["b", "b"] | BadValue route.servers
dst = "/a"\nservers = ["a"] | DoubleRoute /a
dst = "/a"\nservers = ["b"] | UnknownServer b
"#;

/// A head, and the keys behind it. `\n` parts the keys.
fn text_of(alloc: Global, head: &[&str], keys: &str) -> Result<String, Fail> {
    let mut text = String::new(alloc);
    for part in head {
        text.push_str(*part)?;
    }
    for key in keys.split("\\n") {
        text.push_str(key)?;
        text.push('\n')?;
    }
    Ok(text)
}

/// Reads each text of a table behind a head. It reports the first line whose fault is another.
fn first_wrong<'t>(alloc: Global, head: &[&str], table: &'t str) -> Result<Option<&'t str>, Fail> {
    for line in table.lines().skip(1) {
        let Some((keys, fault)) = line.split_once(" | ") else {
            return Ok(Some(line));
        };
        let text = text_of(alloc, head, keys)?;
        if words(alloc, text.as_str())?.as_str() != fault {
            return Ok(Some(line));
        }
    }
    Ok(None)
}

#[test]
fn config_rows(rt: HostRuntime) -> Result<(), Fail> {
    for (parts, fault) in [
        (["", "", ""], "Missing listen"),
        (["listen = \"127.0.0.1:0\"", "", ""], "Missing admin"),
        (["admin = \"127.0.0.1:0\"", "", ""], "Missing listen"),
        (["listen = \"here\"", "", ""], "BadValue listen"),
        (
            ["listen = \"127.0.0.1:0\"\nadmin = 1", "", ""],
            "BadValue admin",
        ),
        ([ADDRESSES, "", ""], ""),
        ([ADDRESSES, "window = 0\n", ""], "BadValue window"),
        ([ADDRESSES, SERVER_A, SERVER_A], "DoubleName a"),
        (
            [
                ADDRESSES,
                SERVER_A,
                "[[route]]\ndst = \"/\"\nservers = [\"b\"]\n",
            ],
            "UnknownServer b",
        ),
        (["listen =", "", ""], "Toml"),
    ] {
        let mut text = String::new(rt.alloc());
        for part in parts {
            text.push_str(part)?;
        }
        assert_eq!(rt; words(rt.alloc(), text.as_str())?.as_str(), fault);
    }
    Ok(())
}

/// Reads a key with each of these values. It reports the first whose fault is another.
fn misread<'t>(
    alloc: Global,
    key: &str,
    values: &'t str,
    fault: &str,
) -> Result<Option<&'t str>, Fail> {
    for value in values.trim().split(", ").filter(|value| !value.is_empty()) {
        let keys = format!(in alloc; "{key} = {value}")?;
        let text = text_of(alloc, &[ADDRESSES], keys.as_str())?;
        if words(alloc, text.as_str())?.as_str() != fault {
            return Ok(Some(value));
        }
    }
    Ok(None)
}

#[test]
fn keys_outside_arrays(rt: HostRuntime) -> Result<(), Fail> {
    for line in VALUES.lines().skip(1) {
        let (key, values) = line.split_once(':').ok_or("a key")?;
        let (good, bad) = values.split_once('|').ok_or("values")?;
        let fault = format!(in rt.alloc(); "BadValue {key}")?;
        assert_eq!(rt; misread(rt.alloc(), key, good, "")?, None, "{key}");
        assert_eq!(rt;
            misread(rt.alloc(), key, bad, fault.as_str())?,
            None,
            "{key}"
        );
    }
    assert_eq!(rt; first_wrong(rt.alloc(), &[ADDRESSES], KEYS)?, None);
    Ok(())
}

#[test]
fn keys_of_servers(rt: HostRuntime) -> Result<(), Fail> {
    let head = [ADDRESSES, SERVER_A, "[[server]]\n"];
    assert_eq!(rt; first_wrong(rt.alloc(), &head, SERVERS)?, None);
    Ok(())
}

#[test]
fn keys_of_routes(rt: HostRuntime) -> Result<(), Fail> {
    let route_a = "[[route]]\ndst = \"/a\"\nservers = [\"a\"]\n";
    let head = [ADDRESSES, SERVER_A, route_a, "[[route]]\n"];
    assert_eq!(rt; first_wrong(rt.alloc(), &head, ROUTES)?, None);
    Ok(())
}

fn has_default_limits(limits: &Limits) -> bool {
    limits.max_frame() == 1_048_576
        && limits.window() == 1_024
        && limits.out() == 2_048
        && limits.history() == 65_536
}

fn has_default_counts(config: &Config) -> bool {
    config.boot == 1
        && config.out_bytes == 67_108_864
        && config.clients == 64
        && config.sessions == 1_024
        && config.retries == 0
        && config.tick_ms == 1_000
        && config.admin_idle_ms == 60_000
        && config.client_idle_ms.is_none()
        && config.frame_ms == 30_000
        && config.server_silent_ms.is_none()
        && config.reconnect_ms.is_none()
        && config.eject_after.is_none()
        && config.eject_ms == 10_000
        && config.threads == 1
        && config.recorded == 0
}

#[test]
fn defaults(rt: HostRuntime) -> Result<(), Fail> {
    let config = Config::read(rt.alloc(), ADDRESSES)?;
    assert!(rt; has_default_limits(&config.limits()));
    assert!(rt; has_default_limits(&config.server_limits()));
    assert!(rt; has_default_counts(&config));
    assert!(rt; config.servers.is_empty() && config.routes.is_empty());
    assert!(rt; config.operator.is_none() && config.metrics_http.is_none());
    Ok(())
}

/// Keys, and what a server's session then has as window, queue and history.
const OF_SERVERS: [(&str, [usize; 3]); 7] = [
    ("window = 16\\nout = 20\\nhistory = 256", [16, 20, 256]),
    ("server_window = 2044", [2_044, 2_048, 65_536]),
    ("server_window = 2045", [2_045, 2_049, 65_536]),
    ("server_window = 65536", [65_536, 65_540, 65_536]),
    ("server_window = 8\\nserver_out = 12", [8, 12, 65_536]),
    ("history = 256\\nserver_history = 512", [1_024, 2_048, 512]),
    ("out = 1048576\\nserver_window = 2", [2, 1_048_576, 65_536]),
];

#[test]
fn limits_of_servers(rt: HostRuntime) -> Result<(), Fail> {
    for (keys, [window, out, history]) in OF_SERVERS {
        let text = text_of(rt.alloc(), &[ADDRESSES], keys)?;
        let limits = Config::read(rt.alloc(), text.as_str())?.server_limits();
        assert_eq!(rt; limits.window(), window);
        assert_eq!(rt; limits.out(), out);
        assert_eq!(rt; limits.history(), history);
    }
    Ok(())
}

fn audit_of(alloc: Global, keys: &str) -> Result<AuditMode, Fail> {
    let text = text_of(alloc, &[ADDRESSES], keys)?;
    Ok(Config::read(alloc, text.as_str())?.audit)
}

#[test]
fn modes_of_audits(rt: HostRuntime) -> Result<(), Fail> {
    for (keys, audit) in [
        ("", AuditMode::Close),
        ("audit = \"close\"", AuditMode::Close),
        ("audit = \"rolling\"", AuditMode::Rolling),
        ("audit = \"rolling\"\\nhistory = 16", AuditMode::Rolling),
    ] {
        assert_eq!(rt; audit_of(rt.alloc(), keys)?, audit);
    }
    Ok(())
}

/// An array of so many empty tables.
fn empty_tables(alloc: Global, key: &str, count: usize) -> Result<String, Fail> {
    let mut text = String::from_str(alloc, ADDRESSES)?;
    text.push_str(key)?;
    text.push_str(" = [")?;
    for _ in 0..count {
        text.push_str("{},")?;
    }
    text.push_str("]\n")?;
    Ok(text)
}

#[test]
fn how_many(rt: HostRuntime) -> Result<(), Fail> {
    for (key, count, fault) in [
        ("server", 256, "Missing server.name"),
        ("server", 257, "BadValue server"),
        ("route", 4_096, "Missing route.dst"),
        ("route", 4_097, "BadValue route"),
    ] {
        let text = empty_tables(rt.alloc(), key, count)?;
        assert_eq!(rt; words(rt.alloc(), text.as_str())?.as_str(), fault);
    }
    Ok(())
}

const WHOLE: &str = r#"
listen = "127.0.0.1:4100"
admin = "127.0.0.1:4101"
retries = 2

[[server]]
name = "a"
address = "127.0.0.1:4200"

[[server]]
name = "b"
address = "127.0.0.1:4201"
init = "plain"

[[route]]
dst = "/s/a"
servers = ["b", "a"]
"#;

fn has_addresses(config: &Config) -> bool {
    config.listen.port() == 4100 && config.admin.port() == 4101 && config.retries == 2
}

fn is_server(server: &Server, name: &str, port: u16, init: InitMode) -> bool {
    server.name.as_str() == name
        && server.address.is_some_and(|address| address.port() == port)
        && server.init == init
}

fn has_servers(config: &Config) -> bool {
    match config.servers.as_slice() {
        [a, b] => {
            is_server(a, "a", 4200, InitMode::Probe) && is_server(b, "b", 4201, InitMode::Plain)
        }
        _ => false,
    }
}

fn has_route(config: &Config) -> bool {
    match config.routes.as_slice() {
        [route] => { route.dst.as_str() == "/s/a" && route.servers.as_slice() == [1, 0].as_slice() }
        _ => false,
    }
}

#[test]
fn whole_or_out_of_memory(rt: HostRuntime) {
    match Config::read(rt.alloc(), WHOLE) {
        Ok(config) => {
            assert!(rt; has_addresses(&config));
            assert!(rt; has_servers(&config));
            assert!(rt; has_route(&config));
        }
        Err(fault) => assert!(rt; matches!(fault, ConfigFault::Memory)),
    }
}

/// A step of routes, and what it leads to.
#[derive(Clone, Copy)]
enum Do {
    Set(&'static [u8], &'static [ServerId]),
    /// Whether there were any servers.
    Remove(&'static [u8], bool),
    Finds(&'static [u8], &'static [ServerId]),
    FindsNone(&'static [u8]),
}

fn set(
    alloc: Global,
    routes: &mut Routes,
    dst: &[u8],
    servers: &[ServerId],
) -> Result<bool, AllocError> {
    if !is_server_list(servers) {
        return Ok(false);
    }
    routes.set(alloc, dst, servers)?;
    Ok(true)
}

fn does(alloc: Global, routes: &mut Routes, step: Do) -> Result<bool, AllocError> {
    match step {
        Do::Set(dst, servers) => set(alloc, routes, dst, servers),
        Do::Remove(dst, found) => Ok(routes.remove(dst) == found),
        Do::Finds(dst, servers) => Ok(routes.find(dst) == Some(servers)),
        Do::FindsNone(dst) => Ok(routes.find(dst).is_none()),
    }
}

const STEPS: &[Do] = &[
    Do::FindsNone(b"/s/a"),
    Do::Set(b"/s/a", &[1, 2]),
    Do::Finds(b"/s/a", &[1, 2]),
    Do::Set(b"/s/a", &[2, 3]),
    Do::Finds(b"/s/a", &[2, 3]),
    Do::Set(b"", &[7]),
    Do::Finds(b"", &[7]),
    Do::Remove(b"/s/a", true),
    Do::Remove(b"/s/a", false),
    Do::FindsNone(b"/s/a"),
    Do::Finds(b"", &[7]),
];

#[test]
fn routes_change(rt: HostRuntime) -> Result<(), Fail> {
    let mut routes = Routes::new(rt.alloc());
    for (place, step) in STEPS.iter().enumerate() {
        assert!(rt; does(rt.alloc(), &mut routes, *step)?, "step {place}");
    }
    Ok(())
}

#[test]
fn lists_of_servers(rt: HostRuntime) {
    assert!(rt; !is_server_list(&[]));
    assert!(rt; is_server_list(&[5]));
    assert!(rt; !is_server_list(&[5, 6, 5]));
    let mut most = [0; 64];
    for (i, server) in most.iter_mut().enumerate() {
        *server = i as u64;
    }
    assert!(rt; is_server_list(&most));
    let mut too_many = [0; 65];
    for (i, server) in too_many.iter_mut().enumerate() {
        *server = i as u64;
    }
    assert!(rt; !is_server_list(&too_many));
}
