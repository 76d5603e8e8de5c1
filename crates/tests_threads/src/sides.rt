//! The log: the client's side on one thread, and the server's on another.
ghost use Rattle.std.specs.Prelude.{◌≡◌, [], ◌∷◌};
ghost use Rattle.mux_history.specs.declared.session.SessionId.TheVariants.{Client, Server};
ghost use Rattle.tests_threads.specs.Rounds.{Carries, Knows, client_opens, example, server_opens, takes};

use crate::round::{begin, open_server, serve, settle};
use hub_log::{Book, Laid, Pass, Room, Terms};
use mux_history::{Limits, Name};
use std::marker::Brand;
use std::process::Abort;
use std::sync::Wait;
use std::test::*;
use std::thread::{Threads, join};

#[test]
fn round_on_two_threads(rt: HostRuntime) -> Result<(), Fail> {
    let terms = terms(&rt);
    let laid = Laid::new(rt.alloc(), &terms)?;
    by_two::<Brand, _>(&rt, laid);
    Ok(())
}

fn terms<R: Abort>(rt: &R) -> Terms
    ensures { result ≡ example }
{
    let limits = Limits::new(1024, 4, 8, 64, 0).expect(rt, "limits in range");
    Terms {
        boot: 1,
        limits,
        server_limits: limits,
        clients: 1,
        servers: 1,
    }
}

fn by_two<B: Room + Send + Sync, R: Threads + Wait + Abort + Sync>(rt: &R, laid: Laid)
    requires table { laid.table.shared.table_id ≡ B.table }
    requires key { laid.table.shared.key ≡ B.terms }
    requires terms { B.terms ≡ example }
{
    let (book, mut all) = laid.named::<B>();
    let client = all.first(&book);
    let server = all.first(&book);
    let book = &book;
    let (one, mut server) = join(
        rt,
        move || client_side(book, client),
        move || server_side(book, server),
    );
    let (mut client, ticket) = one;
    let reply = serve(book, &mut server, ticket);
    let name = Name {
        boot: 1,
        client: 1,
        seq: 1,
    };
    settle(book, &mut client, reply, name);
}

fn client_side<B: Room>(book: &Book<B>, mut client: Pass<B>) -> (Pass<B>, Pass<B>)
    requires terms { B.terms ≡ example }
    requires fresh { Knows client (Client 1) [] [] }
    ensures took { Knows result.0 (Client 1) (takes ∷ client_opens ∷ []) [] }
    ensures ticket { Carries result.1 takes }
{
    let ticket = begin(book, &mut client);
    (client, ticket)
}

fn server_side<B: Room>(book: &Book<B>, mut server: Pass<B>) -> Pass<B>
    requires terms { B.terms ≡ example }
    requires fresh { Knows server (Server 0) [] [] }
    ensures { Knows result (Server 0) (server_opens ∷ []) [] }
{
    open_server(book, &mut server);
    server
}
