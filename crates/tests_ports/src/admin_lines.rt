//! The lines of orders at the admin port, and of their replies.

use crate::ends::report;
use admin_port::{parse_order, print_reply, short_reply};
use hub::{AdminOrder, AdminReply, OrderFault, OrderRefusal};
use server_session::DrainRefusal;
use std::test::Fail;
use translate_book::StepRefusal;

/// What a line spells.
enum Spelled {
    Status,
    DrainClient(u64),
    Retire(&'static str),
    Route(&'static [u8], &'static [&'static str]),
    Unroute(&'static [u8]),
    Quit,
    Nothing,
}

const LINES: &[(&str, Spelled)] = &[
    ("status", Spelled::Status),
    ("quit", Spelled::Quit),
    ("drain client 1", Spelled::DrainClient(1)),
    ("drain client 007", Spelled::DrainClient(7)),
    (
        "drain client 18446744073709551615",
        Spelled::DrainClient(18_446_744_073_709_551_615),
    ),
    ("drain client 18446744073709551616", Spelled::Nothing),
    ("drain client +1", Spelled::Nothing),
    ("drain client -1", Spelled::Nothing),
    ("drain client ", Spelled::Nothing),
    ("drain client", Spelled::Nothing),
    ("drain client 1 ", Spelled::Nothing),
    ("drain server 1", Spelled::Nothing),
    ("drain", Spelled::Nothing),
    ("retire a", Spelled::Retire("a")),
    ("retire é/b=1", Spelled::Retire("é/b=1")),
    ("retire ", Spelled::Nothing),
    ("retire", Spelled::Nothing),
    ("retire a,b", Spelled::Nothing),
    ("retire a b", Spelled::Nothing),
    ("route /s/a a", Spelled::Route(b"/s/a", &["a"])),
    (
        "route /s/a b,a,ab",
        Spelled::Route(b"/s/a", &["b", "a", "ab"]),
    ),
    ("route  a", Spelled::Route(b"", &["a"])),
    ("route a,b a", Spelled::Route(b"a,b", &["a"])),
    ("route /s/a", Spelled::Nothing),
    ("route /s/a ", Spelled::Nothing),
    ("route /s/a a,", Spelled::Nothing),
    ("route /s/a ,a", Spelled::Nothing),
    ("route /s/a a,b,a", Spelled::Nothing),
    ("route /s/a a b", Spelled::Nothing),
    ("route", Spelled::Nothing),
    ("unroute /s/a", Spelled::Unroute(b"/s/a")),
    ("unroute ", Spelled::Unroute(b"")),
    ("unroute a\tb", Spelled::Unroute(b"a\tb")),
    ("unroute a b", Spelled::Nothing),
    ("unroute", Spelled::Nothing),
    ("", Spelled::Nothing),
    (" ", Spelled::Nothing),
    ("status ", Spelled::Nothing),
    (" status", Spelled::Nothing),
    ("status\r", Spelled::Nothing),
    ("Status", Spelled::Nothing),
    ("stop", Spelled::Nothing),
];

fn is_named(names: &[String], wanted: &[&str]) -> bool {
    names.len() == wanted.len()
        && names
            .iter()
            .zip(wanted)
            .all(|(name, word)| name.as_str() == *word)
}

fn is_spelled(order: &AdminOrder, wanted: &Spelled) -> bool {
    match (order, wanted) {
        (AdminOrder::Status, Spelled::Status) | (AdminOrder::Quit, Spelled::Quit) => true,
        (AdminOrder::DrainClient(number), Spelled::DrainClient(n)) => number == n,
        (AdminOrder::Retire(name), Spelled::Retire(word)) => name.as_str() == *word,
        (AdminOrder::Route { dst, names }, Spelled::Route(place, words)) => {
            dst.as_slice() == *place && is_named(names.as_slice(), words)
        }
        (AdminOrder::Unroute(dst), Spelled::Unroute(place)) => dst.as_slice() == *place,
        _ => false,
    }
}

#[test]
fn lines(rt: HostRuntime) -> Result<(), Fail> {
    for (place, (line, wanted)) in LINES.iter().enumerate() {
        let is_right = match parse_order(rt.alloc(), line) {
            Ok(order) => is_spelled(&order, wanted),
            Err(OrderFault::Memory) => return Err(Fail::from("memory was refused")),
            Err(fault) => fault == OrderFault::BadCommand && matches!(wanted, Spelled::Nothing),
        };
        if !is_right {
            return Err(Fail::from(place));
        }
    }
    Ok(())
}

// 64 names serve, and 65 do not. With one name twice, none of them do.
#[test]
fn most_names(rt: HostRuntime) -> Result<(), Fail> {
    for (count, last, serves) in [(63, "x", true), (64, "x", false), (63, "s62", false)] {
        let mut line = String::from_str(rt.alloc(), "route /s/a ")?;
        for number in 0..count {
            line.push_str(format!(in rt.alloc(); "s{number},")?.as_str())?;
        }
        line.push_str(last)?;
        let parsed = parse_order(rt.alloc(), line.as_str());
        match &parsed {
            Ok(AdminOrder::Route { names, .. }) => assert!(rt; serves && names.len() == 64),
            Err(OrderFault::Memory) => return Err(Fail::from("memory was refused")),
            _ => assert!(rt; !serves),
        }
    }
    Ok(())
}

const FAULTS: &[(OrderFault, &str)] = &[
    (OrderFault::BadCommand, "error BadCommand\n"),
    (OrderFault::NoSuchSession, "error NoSuchSession\n"),
    (OrderFault::UnknownServer, "error UnknownServer\n"),
    (OrderFault::NoRoute, "error NoRoute\n"),
    (OrderFault::Memory, "error Memory\n"),
    (
        OrderFault::Refused(OrderRefusal::Drain(DrainRefusal::Closed)),
        "error Closed\n",
    ),
    (
        OrderFault::Refused(OrderRefusal::Drain(DrainRefusal::AlreadyDraining)),
        "error AlreadyDraining\n",
    ),
    (
        OrderFault::Refused(OrderRefusal::Drain(DrainRefusal::Busy)),
        "error Busy\n",
    ),
    (
        OrderFault::Refused(OrderRefusal::Drain(DrainRefusal::Spent)),
        "error Spent\n",
    ),
    (
        OrderFault::Refused(OrderRefusal::Retire(StepRefusal::Closed)),
        "error Closed\n",
    ),
    (
        OrderFault::Refused(OrderRefusal::Retire(StepRefusal::Busy)),
        "error Busy\n",
    ),
    (
        OrderFault::Refused(OrderRefusal::Retire(StepRefusal::Spent)),
        "error Spent\n",
    ),
];

/// Whether both printers write this.
fn is_printed(rt: &HostRuntime, reply: &AdminReply, text: &str) -> Result<bool, Fail> {
    Ok(print_reply(rt.alloc(), reply)?.as_str() == text && short_reply(reply) == Some(text))
}

#[test]
fn replies(rt: HostRuntime) -> Result<(), Fail> {
    assert!(rt; is_printed(&rt, &AdminReply::Done, "ok\n")?);
    assert!(rt; is_printed(&rt, &AdminReply::Bye, "bye\n")?);
    for (fault, text) in FAULTS {
        assert!(rt;
            is_printed(&rt, &AdminReply::Failed(*fault), text)?,
            "{text}"
        );
    }
    Ok(())
}

#[test]
fn status_row(rt: HostRuntime) -> Result<(), Fail> {
    let report = report(rt.alloc())?;
    assert!(rt; short_reply(&report).is_none());
    let text = print_reply(rt.alloc(), &report)?;
    assert_eq!(rt;
        text.as_str(),
        "boot 1\nclient 1 open entries 0 records 1\nserver a open load 0 records 0\nend\n"
    );
    Ok(())
}
