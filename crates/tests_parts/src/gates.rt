//! Leases at the reading on which they lapse, and drains in their steps.

use gate::{DrainIn, DrainOut, Lease, granted};

const MOST: u64 = u64::MAX;

/// Each lease with the reading of its grant and the reading from which on it has lapsed.
#[test]
fn leases_lapse(rt: HostRuntime) {
    let leases = [
        (0, 0, 0),
        (0, MOST, MOST),
        (-1, 0, 0),
        (-1, 1_000, 1_000),
        (i64::MIN, 7, 7),
        (10_000, 1_000, 11_000),
        (i64::MAX, 0, 9_223_372_036_854_775_807),
        (i64::MAX, MOST, MOST),
        (1, MOST - 1, MOST),
        (2, MOST - 1, MOST),
    ];
    for (howmuch, at, lapse) in leases {
        let lease = Lease::none().grant(0, howmuch, at);
        assert!(rt; !lease.allows(lapse), "{howmuch} at {at}");
        assert!(rt; !lease.allows(MOST), "{howmuch} at {at}");
        if lapse > 0 {
            assert!(rt; lease.allows(lapse - 1), "{howmuch} at {at}");
        }
    }
}

#[test]
fn other_units_grant_nothing(rt: HostRuntime) {
    let lease = Lease::none().grant(0, 50, 100);
    for unit in [1, 2, 255] {
        assert_eq!(rt; granted(unit, 1_000), None);
        assert!(rt; Lease::none().grant(unit, 0, 100).allows(MOST));
        assert!(rt; lease.grant(unit, 1_000, 100).allows(149));
        assert!(rt; !lease.grant(unit, 1_000, 100).allows(150));
    }
    assert!(rt; lease.grant(0, 60, 100).allows(150));
    assert!(rt; !lease.grant(0, 0, 100).allows(100));
}

#[test]
fn drain_steps(rt: HostRuntime) {
    let mut server = DrainIn::Running;
    assert!(rt; !server.is_drained());
    server.drain();
    assert!(rt; server.is_drained());
    server.drain();
    assert!(rt; server.is_drained());

    let mut client = DrainOut::Running;
    assert!(rt; client.is_running());
    assert!(rt; !client.ack(1));
    client.ask(1);
    assert!(rt; !client.is_running());
    assert!(rt; !client.ack(2));
    assert_eq!(rt; client, DrainOut::Asked(1));
    assert!(rt; client.acks(1));
    assert!(rt; client.ack(1));
    assert!(rt; client.is_acked());
    assert!(rt; !client.ack(1));
    assert_eq!(rt; client, DrainOut::Acked);
}
