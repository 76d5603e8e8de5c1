//! Published routes: orders and looks beside each other, and orders that find no memory and are given again.
ghost use Rattle.std.specs.Prelude.{◌≡◌};

use published_routes::{Board, Naming, Opened, Publish, RouteFault, RouteOrders, RouteReader};
use route_table::Route;
use std::alloc::Global;
use std::marker::Brand;
use std::sync::Wait;
use std::test::Fail;
use std::thread;
use std::thread::Threads;

const DST: &[u8] = b"/s/a";

/// Whether the reader finds just this server, or no route.
fn finds<J: Naming, R: Wait>(rt: &R, reader: &mut RouteReader<J>, server: Option<u64>) -> bool {
    match (reader.find(rt, DST), server) {
        (Some(servers), Some(server)) => servers.as_slice() == [server].as_slice(),
        (None, None) => true,
        _ => false,
    }
}

/// Looks until the route is gone.
fn watch<J: Naming, R: Wait>(rt: &R, reader: RouteReader<J>) -> RouteReader<J> {
    let mut reader = reader;
    for _ in rt.forever() {
        if finds(rt, &mut reader, None) {
            return reader;
        }
        thread::yield_now();
    }
    unreachable!()
}

/// How many of a hundred orders, each used by a client's reader and a server's reader that were told
/// of it, were not found at once, beside a thread that looks.
fn fresh<J: Naming + Send + Sync, R: Threads + Wait + Sync + Copy + Send + Drop>(
    rt: R,
    alloc: Global,
    opened: Opened,
) -> Result<u64, Fail>
    requires { opened.seen.book ≡ J.book }
{
    let routes = vec![in alloc;
        Route {
            dst: String::from_str(alloc, "/s/a")?,
            servers: vec![in alloc; 100u64]?
        },
    ]?;
    let board = Board::<J, R>::open(alloc, rt, opened, routes.as_slice(), 4)?;
    let looking = board.reader()?;
    let mut client = board.reader()?;
    let mut server = board.reader()?;
    let mut orders = board.orders();
    let mut missed = 0u64;
    if !finds(&rt, &mut client, Some(100)) {
        missed += 1;
    }
    let shared = &board;
    let (_looked, missed) = thread::join(
        &rt,
        move || watch(&rt, looking),
        move || {
            let mut missed = missed;
            for n in 0..100u64 {
                if shared
                    .route(&rt, alloc, &mut orders, DST, [n].as_slice())
                    .is_err()
                {
                    missed = missed.saturating_add(1);
                }
                client.learn(&orders);
                server.learn(&orders);
                if !finds(&rt, &mut client, Some(n)) || !finds(&rt, &mut server, Some(n)) {
                    missed = missed.saturating_add(1);
                }
            }
            missed.saturating_add(ends(&rt, shared, alloc, &mut orders, &mut client))
        },
    );
    Ok(missed)
}

/// How many of the two orders that take the route away were answered wrongly.
fn ends<J: Naming, B: Publish<J>, W: Wait>(
    rt: &W,
    board: &B,
    alloc: Global,
    orders: &mut RouteOrders<J>,
    client: &mut RouteReader<J>,
) -> u64 {
    let mut missed = 0u64;
    if board.unroute(rt, alloc, orders, DST).is_err() {
        missed += 1;
    }
    client.learn(orders);
    if !finds(rt, client, None) {
        missed += 1;
    }
    if board.unroute(rt, alloc, orders, DST) != Err(RouteFault::NoRoute) {
        missed += 1;
    }
    missed
}

#[test]
fn route_fresh(rt: HostRuntime) -> Result<(), Fail> {
    let missed = fresh::<Brand, _>(rt, rt.alloc(), Opened::new())?;
    assert_eq!(rt; missed, 0);
    Ok(())
}

/// How many answers were wrong: while an order is refused the reader finds what was there before, and
/// once it is answered it finds the order's server. Memory is refused by `rt try --fail-alloc`.
fn wrong_answers<J: Naming, R: Wait + Copy + Drop>(
    rt: R,
    alloc: Global,
    opened: Opened,
) -> Result<u64, Fail>
    requires { opened.seen.book ≡ J.book }
{
    let board = Board::<J, R>::open(alloc, rt, opened, &[], 2)?;
    let mut reader = board.reader()?;
    let mut orders = board.orders();
    let mut wrong = 0u64;
    let mut before = None;
    for n in 0..8u64 {
        if board
            .route(&rt, alloc, &mut orders, DST, [n].as_slice())
            .is_err()
        {
            reader.learn(&orders);
            if !finds(&rt, &mut reader, before) {
                wrong = wrong.saturating_add(1);
            }
            if board
                .route(&rt, alloc, &mut orders, DST, [n].as_slice())
                .is_err()
            {
                wrong = wrong.saturating_add(1);
            }
        }
        reader.learn(&orders);
        before = Some(n);
        if !finds(&rt, &mut reader, before) {
            wrong = wrong.saturating_add(1);
        }
    }
    // An order that was refused at its own publish stays pending: the next one publishes it.
    let mut gone = board.unroute(&rt, alloc, &mut orders, DST);
    if gone == Err(RouteFault::Memory) {
        gone = board.unroute(&rt, alloc, &mut orders, DST);
        if gone == Err(RouteFault::NoRoute) {
            gone = Ok(());
        }
    }
    reader.learn(&orders);
    if gone.is_err() || !finds(&rt, &mut reader, None) {
        wrong = wrong.saturating_add(1);
    }
    Ok(wrong)
}

#[test]
fn orders_refused(rt: HostRuntime) -> Result<(), Fail> {
    let wrong = wrong_answers::<Brand, _>(rt, rt.alloc(), Opened::new())?;
    assert_eq!(rt; wrong, 0);
    Ok(())
}
