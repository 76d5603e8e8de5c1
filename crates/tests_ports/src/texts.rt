//! Lines and the texts of replies.

use mux_history::{InitMode, SessionId};
use operator_port::{
    AddressRow, End, EventRow, Lack, Question, Reply, RouteRow, fixed_reply, health_of,
    parse_question, print_reply,
};
use std::alloc::{AllocError, Global};
use std::net::{Ipv4Addr, Ipv6Addr, SocketAddr};
use std::test::Fail;

const QUESTIONS: &[(&str, Option<Question<'_>>)] = &[
    ("help", Some(Question::Help)),
    ("health", Some(Question::Health)),
    ("routes", Some(Question::Routes)),
    ("servers", Some(Question::Servers)),
    ("forget a", Some(Question::Forget("a"))),
    ("drain all", Some(Question::DrainAll)),
    ("rejoin a", Some(Question::Rejoin("a"))),
    ("rejoin rejoin", Some(Question::Rejoin("rejoin"))),
    ("cut a", Some(Question::Cut("a"))),
    ("cut rejoin", Some(Question::Cut("rejoin"))),
    ("rejoin cut", Some(Question::Rejoin("cut"))),
    ("stop", Some(Question::Stop(30))),
    ("stop 0", Some(Question::Stop(0))),
    ("stop 1", Some(Question::Stop(1))),
    ("stop 007", Some(Question::Stop(7))),
    ("stop 3600", Some(Question::Stop(3_600))),
    ("events", Some(Question::Events)),
    ("status full", Some(Question::Full)),
    ("config", Some(Question::Config)),
    ("metrics", Some(Question::Metrics)),
    ("record", Some(Question::Record)),
    ("", None),
    ("HELP", None),
    ("status", None),
    ("drain all ", None),
    ("rejoin", None),
    ("rejoin ", None),
    ("rejoin  a", None),
    ("rejoin a b", None),
    ("rejoin a,b", None),
    ("rejoin\ta", None),
    ("cut", None),
    ("cut ", None),
    ("cut  a", None),
    ("cut a b", None),
    ("cut a,b", None),
    ("cuta", None),
    ("servers ", None),
    ("server", None),
    ("server a", None),
    ("server a ", None),
    ("server  127.0.0.1:80", None),
    ("server a localhost:80", None),
    ("server a none", None),
    ("server a 127.0.0.1:80 ", None),
    ("server a  127.0.0.1:80", None),
    ("server a 127.0.0.1:80  plain", None),
    ("server a 127.0.0.1:80 plain ", None),
    ("server a 127.0.0.1:80 probe", None),
    ("server a,b 127.0.0.1:80", None),
    ("server a 127.0.0.1:65536", None),
    ("forget", None),
    ("forget ", None),
    ("forget a b", None),
    ("events ", None),
    ("event", None),
    ("config ", None),
    ("stop ", None),
    ("stop 3601", None),
    ("stop 18446744073709551616", None),
    ("stop +1", None),
    ("stop -1", None),
    ("stop  1", None),
    ("stop 1 ", None),
    ("stop 1s", None),
    ("stop1", None),
    ("quit", None),
];

#[test]
fn questions(_rt: HostRuntime) -> Result<(), Fail> {
    for (place, (line, question)) in QUESTIONS.iter().enumerate() {
        if parse_question(line) != *question {
            return Err(Fail::from(place));
        }
    }
    Ok(())
}

/// The line, the name, the port, and how the session begins.
const PLACES: &[(&str, &str, u16, InitMode)] = &[
    ("server a 127.0.0.1:80", "a", 80, InitMode::Probe),
    ("server a 127.0.0.1:80 plain", "a", 80, InitMode::Plain),
    ("server plain [::1]:65535", "plain", 65_535, InitMode::Probe),
    (
        "server plain [fe80::1%2]:0 plain",
        "plain",
        0,
        InitMode::Plain,
    ),
];

#[test]
fn places(_rt: HostRuntime) -> Result<(), Fail> {
    for (place, (line, name, port, init)) in PLACES.iter().enumerate() {
        let Some(
            Question::Server {
                name: named,
                address,
                init: begins,
            },
        ) = parse_question(line)
        else {
            return Err(Fail::from(place));
        };
        if named != *name || address.port() != *port || begins != *init {
            return Err(Fail::from(place));
        }
    }
    Ok(())
}

/// Whether a reply has this text.
pub fn prints(alloc: Global, reply: &Reply, text: &str) -> Result<bool, Fail> {
    Ok(print_reply(alloc, reply)?.as_slice() == text.as_bytes())
}

fn route(alloc: Global, dst: &[u8], names: &[&str]) -> Result<RouteRow, Fail> {
    let mut row = RouteRow {
        dst: Vec::from_slice(alloc, dst)?,
        names: Vec::new(alloc),
    };
    for name in names {
        row.names.push(String::from_str(alloc, name)?)?;
    }
    Ok(row)
}

#[test]
fn routes(rt: HostRuntime) -> Result<(), Fail> {
    let alloc = rt.alloc();
    let long = vec![in alloc; b'x'; 1_016]?;
    let mut rows = Vec::new(alloc);
    rows.push(route(alloc, b"/s/a", &["a", "b"])?)?;
    rows.push(route(alloc, b"/s/ b", &["a"])?)?;
    rows.push(route(alloc, b"\n", &["b", "a"])?)?;
    rows.push(route(alloc, b"", &["a"])?)?;
    rows.push(route(alloc, long.as_slice(), &["aa"])?)?;
    let text = "route /s/a a,b\nunwritable a\nunwritable b,a\nroute  a\nunwritable aa\nend\n";
    assert!(rt; prints(alloc, &Reply::Routes(rows), text)?);
    Ok(())
}

fn address(
    alloc: Global,
    name: &str,
    address: SocketAddr,
    init: InitMode,
) -> Result<AddressRow, AllocError> {
    Ok(AddressRow {
        name: String::from_str(alloc, name)?,
        address,
        init,
    })
}

#[test]
fn servers(rt: HostRuntime) -> Result<(), Fail> {
    let alloc = rt.alloc();
    let here = SocketAddr::from((Ipv4Addr::new(127, 0, 0, 1), 80));
    let there = SocketAddr::from((Ipv6Addr::new(0x2001, 0xdb8, 0, 0, 0, 0, 0, 1), 65_535));
    let mut rows = Vec::new(alloc);
    rows.push(address(alloc, "a", here, InitMode::Probe)?)?;
    rows.push(address(alloc, "b-2", there, InitMode::Plain)?)?;
    let text = "server a 127.0.0.1:80\nserver b-2 [2001:db8::1]:65535 plain\nend\n";
    assert!(rt; prints(alloc, &Reply::Servers(rows), text)?);
    Ok(())
}

fn is_fixed(alloc: Global, reply: &Reply, text: &str) -> Result<bool, Fail> {
    Ok(fixed_reply(reply) == Some(text) && prints(alloc, reply, text)?)
}

#[test]
fn short(rt: HostRuntime) -> Result<(), Fail> {
    let alloc = rt.alloc();
    let help =
        "help\nhealth\nroutes\nservers\nserver NAME ADDRESS [plain]\nforget NAME\ndrain all\nrejoin NAME\ncut NAME\nstop N\nevents\nstatus full\nconfig\nmetrics\nrecord\nend\n";
    assert!(rt; is_fixed(alloc, &Reply::Help, help)?);
    assert!(rt; is_fixed(alloc, &health_of(true, true), "ok\n")?);
    assert!(rt; is_fixed(alloc, &health_of(false, false), "error NoServer\n")?);
    assert!(rt; is_fixed(alloc, &health_of(true, false), "error NoSession\n")?);
    assert!(rt;
        is_fixed(
            alloc,
            &Reply::Failed(Lack::BadCommand),
            "error BadCommand\n"
        )?
    );
    assert!(rt; is_fixed(alloc, &Reply::Failed(Lack::Memory), "error Memory\n")?);
    let not_recorded = Reply::Failed(Lack::NotRecorded);
    assert!(rt; is_fixed(alloc, &not_recorded, "error NotRecorded\n")?);
    Ok(())
}

#[test]
fn rejoined(rt: HostRuntime) -> Result<(), Fail> {
    let alloc = rt.alloc();
    assert!(rt; is_fixed(alloc, &Reply::Done, "ok\n")?);
    let unknown = Reply::Failed(Lack::UnknownServer);
    assert!(rt; is_fixed(alloc, &unknown, "error UnknownServer\n")?);
    assert!(rt; is_fixed(alloc, &Reply::Failed(Lack::Open), "error Open\n")?);
    let closed = Reply::Failed(Lack::Closed);
    assert!(rt; is_fixed(alloc, &closed, "error Closed\n")?);
    let unplaced = Reply::Failed(Lack::NoAddress);
    assert!(rt; is_fixed(alloc, &unplaced, "error NoAddress\n")?);
    let other = Reply::Failed(Lack::OtherInit);
    assert!(rt; is_fixed(alloc, &other, "error OtherInit\n")?);
    Ok(())
}

#[test]
fn script(rt: HostRuntime) -> Result<(), Fail> {
    let alloc = rt.alloc();
    let script = Reply::Text(Vec::from_slice(alloc, b"client\n# end\n")?);
    assert!(rt; prints(alloc, &script, "client\n# end\n")?);
    assert!(rt; fixed_reply(&script).is_none());
    Ok(())
}

#[test]
fn drained(rt: HostRuntime) -> Result<(), Fail> {
    let drained = Reply::Drained {
        drained: 12,
        left: 3,
    };
    assert!(rt; prints(rt.alloc(), &drained, "drained 12 left 3\n")?);
    assert!(rt; fixed_reply(&drained).is_none());
    Ok(())
}

#[test]
fn events(rt: HostRuntime) -> Result<(), Fail> {
    let alloc = rt.alloc();
    let none = Reply::Events(Vec::new(alloc));
    assert!(rt; prints(alloc, &none, "end\n")? && fixed_reply(&none).is_none());
    let mut rows = Vec::new(alloc);
    rows.push(EventRow {
        elapsed: 0,
        session: SessionId::Client(1_027),
        peer: Some(SocketAddr::from((Ipv4Addr::new(10, 0, 0, 7), 51_334))),
        end: End::Closed,
        open: 2,
    })?;
    rows.push(EventRow {
        elapsed: u64::MAX,
        session: SessionId::Server(3),
        peer: Some(SocketAddr::from((Ipv6Addr::LOCALHOST, 0))),
        end: End::Cut,
        open: usize::MAX,
    })?;
    rows.push(EventRow {
        elapsed: 34_316,
        session: SessionId::Client(1),
        peer: None,
        end: End::Quit,
        open: 0,
    })?;
    let text = "0 client 1027 10.0.0.7:51334 closed open 2
18446744073709551615 server 3 [::1]:0 cut open 18446744073709551615
34316 client 1 unknown quit open 0
end
";
    assert!(rt; prints(alloc, &Reply::Events(rows), text)?);
    Ok(())
}

#[test]
fn stopping(rt: HostRuntime) -> Result<(), Fail> {
    for (count, text) in [(0, "stopping 0 open\n"), (1_024, "stopping 1024 open\n")] {
        let stopping = Reply::Stopping { count };
        assert!(rt; prints(rt.alloc(), &stopping, text)?);
        assert!(rt; fixed_reply(&stopping).is_none());
    }
    Ok(())
}
