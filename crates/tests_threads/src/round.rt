//! One dispatch and its reply, as the two sides of a hub log them.
ghost use Rattle.std.specs.Prelude.{◌≡◌, [], ◌∷◌};
ghost use Rattle.mux_history.specs.declared.session.SessionId.TheVariants.{Client, Server};
ghost use Rattle.tests_threads.specs.Rounds.{Carries, Ends, Knows, client_opens, example, first_name, goes_out, replies, server_opens, takes};

use hub_log::{Asks, AsksAll, Book, Pass, Picks, Room};
use mux_history::Name;

/// The client's session is opened, and takes a dispatch.
struct Begins;

impl AsksAll<()> for Begins {
    ghost use Rattle.std.specs.Prelude.{◌≡◌, [], ◌∷◌};
    ghost use Rattle.tests_threads.specs.Rounds.{client_opens, takes};

    ghost ask = { λ v x ms. ms ≡ client_opens ∷ takes ∷ [] };
}

/// The server's session is opened.
struct Joins;

impl Asks<()> for Joins {
    ghost use Rattle.std.specs.Prelude.{◌≡◌};
    ghost use Rattle.tests_threads.specs.Rounds.{server_opens};

    ghost ask = { λ v x m. m ≡ server_opens };
}

/// The server's session takes the dispatch that is in hand, and its reply comes.
struct Serves;

impl AsksAll<()> for Serves {
    ghost use Rattle.std.specs.Prelude.{◌≡◌, [], ◌∷◌};
    ghost use Rattle.hub_log.specs.Moves.{Claim};
    ghost use Rattle.tests_threads.specs.Rounds.{offers, replies};

    ghost ask = { λ v x ms. (c : Claim) × (v.hands ≡ c ∷ []) × (ms ≡ offers c ∷ replies ∷ []) };
}

/// What the last move gave.
struct OfLast;

impl Picks<()> for OfLast {
    ghost use Rattle.std.specs.Prelude.{◌-◌, ◌==◌, length};

    ghost picks = { λ v x c. c.place == length v.seen - 1 };
}

/// The client's session passes on the reply that is in hand, to this name.
struct Settles;

impl Asks<Name> for Settles {
    ghost use Rattle.std.specs.Prelude.{◌≡◌, [], ◌∷◌};
    ghost use Rattle.hub_log.specs.Moves.{Claim};
    ghost use Rattle.tests_threads.specs.Rounds.{settles};

    ghost ask = { λ v name m. (c : Claim) × (v.hands ≡ c ∷ []) × (m ≡ settles name c) };
}

/// The reply is taken out.
struct Sends;

impl Asks<()> for Sends {
    ghost use Rattle.std.specs.Prelude.{◌≡◌};
    ghost use Rattle.tests_threads.specs.Rounds.{goes_out};

    ghost ask = { λ v x m. m ≡ goes_out };
}

/// The client's side, up to the ticket of its dispatch.
pub fn begin<B: Room>(book: &Book<B>, client: &mut Pass<B>) -> Pass<B>
    requires terms { B.terms ≡ example }
    requires fresh { Knows client.old (Client 1) [] [] }
    ensures took { Knows client.new (Client 1) (takes ∷ client_opens ∷ []) [] }
    ensures ticket { Carries result takes }
{
    client.add_all::<(), Begins>(book, &());
    client.value(book)
}

/// The server's side, until it has a dispatch.
pub fn open_server<B: Room>(book: &Book<B>, server: &mut Pass<B>)
    requires terms { B.terms ≡ example }
    requires fresh { Knows server.old (Server 0) [] [] }
    ensures { Knows server.new (Server 0) (server_opens ∷ []) [] }
{
    server.add::<(), Joins>(book, &());
}

/// The server's side with the ticket, up to its reply.
pub fn serve<B: Room>(book: &Book<B>, server: &mut Pass<B>, ticket: Pass<B>) -> Pass<B>
    requires terms { B.terms ≡ example }
    requires opened { Knows server.old (Server 0) (server_opens ∷ []) [] }
    requires ticket { Carries ticket takes }
    ensures { Carries result replies }
{
    server.join(book, ticket);
    server.add_all::<(), Serves>(book, &());
    server.cut::<(), OfLast>(book, &())
}

/// The client's side with the reply: the reply goes out to the client.
pub fn settle<B: Room>(book: &Book<B>, client: &mut Pass<B>, reply: Pass<B>, name: Name) -> Pass<B>
    requires terms { B.terms ≡ example }
    requires took { Knows client.old (Client 1) (takes ∷ client_opens ∷ []) [] }
    requires reply { Carries reply replies }
    requires name { name ≡ first_name }
    ensures { Ends result goes_out }
{
    client.join(book, reply);
    client.add::<Name, Settles>(book, &name);
    client.add::<(), Sends>(book, &());
    client.note(book)
}
