//! How what the steps of a batch gave is handed on: one lock for each session that it goes to.
//!
//! The functions have one shape: what each may do to the batch is said at each.
ghost use Rattle.std.specs.Prelude.{◌≡◌, ◌<◌, ◌≤◌, ℕ, List, None, Some, option_map, slice_set, true, vec_len};
ghost use Rattle.std.specs.List.{list_all};
ghost use mathlib.Core.List.{IsPrefix};
ghost use Rattle.translate_book.specs.Values.{TicketView};
ghost use Rattle.hub_base.specs.Errands.{client_of, done, errand_at, is_nothing, server_of, ticket_at};
ghost use Rattle.hub_log.specs.Views.{View};
ghost use Rattle.hub_delivery.specs.Carrying.{Aimed, Aims, Answered, AreAimed, Carries, Retried, RetriesBy, Served, place_if};
ghost use Rattle.hub_delivery.specs.Leaving.{HasClient, HasServer, KeepsBatch, LessThan, NoMore, NoneAt, NoneRefused, offer_of, refused_of, reply_of, server_place};
ghost use Rattle.hub_base.specs.declared.errands.Errand.{Errand};
ghost use Rattle.server_session.specs.Steps.{ticket_of};
ghost use Rattle.hub_steps.specs.Batches.{ServesUp};
ghost use Rattle.hub_places.specs.Holding.{GoesTo, HasClaims, Holds, beside, held_of};
ghost use Rattle.hub_base.specs.declared.errands.Value.TheVariants as value;

use crate::counts::Run;
use crate::slots::Slots;
use hub_base::{Back, Batch, Errand, Errands, Value};
use hub_log::{Pass, Room};
use hub_slots::{UpSlot, choose};
use hub_steps::up_batch::refuse_all;
use mux_history::{ServerId, SessionId};
use published_routes::{Found, Naming, RouteReader};
use std::sync::Wait;
use translate_book::Ticket;

impl<L: Naming + Room> Slots<L> {
    /// Hands all values of a batch on: replies to their clients; each dispatch to the server of its
    /// route that has the least load, but not to that of this session, or to another one if that refuses it; then
    /// places, nacks and dispatches with no route to their clients, and recalls to their servers.
    pub fn carry<R: Wait>(
        &self,
        rt: &R,
        routes: &mut RouteReader<L>,
        batch: &mut Batch,
        claims: &mut Pass<L>,
        but: Option<ServerId>,
        now: u64,
        made: &mut u64,
    )
        requires claims { HasClaims claims.old batch.old.errands }
        ensures claims { HasClaims claims.new batch.new.errands }
        ensures later { IsPrefix routes.old routes.new }
        ensures batch { KeepsBatch batch.old batch.new }
        ensures carried { Carries now (vec_len self.now.ups) (place_if (vec_len self.now.ups) but) routes.old
            batch.old.errands routes.new batch.new.errands }
        ensures clients { (i : ℕ) → NoneAt client_of (HasClient (vec_len self.now.downs)) batch.new.errands i }
        ensures servers { (i : ℕ) → NoneAt server_of (HasServer (vec_len self.now.ups)) batch.new.errands i }
        ensures refused { (i : ℕ) → NoneRefused batch.new.errands i }
        ensures more { made.old ≤ made.new }
    {
        let but = match but {
            Some(server) => self.place_of(server),
            None => None,
        };
        // Replies lead to nothing more, as a rule.
        if self.to_clients(rt, batch, claims, made) {
            return;
        }
        self.plan(rt, routes, batch, but, now);
        self.to_servers(rt, batch, claims, now, made);
        self.try_others(rt, routes, batch, claims, but, now, made);
        // Nor do places.
        if self.to_clients(rt, batch, claims, made) {
            return;
        }
        self.to_servers(rt, batch, claims, now, made);
    }

    /// Hands on what goes to clients, under one lock for each. True tells that nothing is left to be done.
    fn to_clients<R: Wait>(
        &self,
        rt: &R,
        batch: &mut Batch,
        claims: &mut Pass<L>,
        made: &mut u64,
    ) -> bool
        requires claims { HasClaims claims.old batch.old.errands }
        ensures done { result ≡ true → list_all (λ e. is_nothing e.value) batch.new.errands ≡ true }
        ensures claims { HasClaims claims.new batch.new.errands }
        ensures batch { KeepsBatch batch.old batch.new }
        ensures answered { Answered batch.old.errands batch.new.errands }
        ensures gone { (i : ℕ) → NoneAt client_of (HasClient (vec_len self.now.downs)) batch.new.errands i }
        ensures replies { NoMore reply_of batch.old.errands batch.new.errands }
        ensures refused { NoMore refused_of batch.old.errands batch.new.errands }
        ensures offers { ((i : ℕ) → NoneAt reply_of (HasClient (vec_len self.now.downs)) batch.old.errands i)
            → NoMore offer_of batch.old.errands batch.new.errands }
        ensures more { made.old ≤ made.new }
    {
        for at in 0..batch.errands.len() {
            if self.to_client(rt, batch, claims, at, made) {
                return true;
            }
        }
        false
    }

    /// Hands on all that goes to the client to whom the value at this place goes. True as of `to_clients`.
    #[inline(always)]
    fn to_client<R: Wait>(
        &self,
        rt: &R,
        batch: &mut Batch,
        claims: &mut Pass<L>,
        at: usize,
        made: &mut u64,
    ) -> bool
        requires claims { HasClaims claims.old batch.old.errands }
        ensures done { result ≡ true → list_all (λ e. is_nothing e.value) batch.new.errands ≡ true }
        ensures claims { HasClaims claims.new batch.new.errands }
        ensures batch { KeepsBatch batch.old batch.new }
        ensures answered { (xs : List Errand) → Answered xs batch.old.errands → Answered xs batch.new.errands }
        ensures gone { NoneAt client_of (HasClient (vec_len self.now.downs)) batch.new.errands at }
        ensures fewer { NoMore client_of batch.old.errands batch.new.errands }
        ensures replies { NoMore reply_of batch.old.errands batch.new.errands }
        ensures refused { NoMore refused_of batch.old.errands batch.new.errands }
        ensures offers { ((i : ℕ) → NoneAt reply_of (HasClient (vec_len self.now.downs)) batch.old.errands i)
            → NoMore offer_of batch.old.errands batch.new.errands }
        ensures more { made.old ≤ made.new }
    {
        let Some(client) = batch.errands.client(at) else {
            return false;
        };
        if let Some(slot) = self.find_down(client) {
            batch.rings.add(SessionId::Client(client));
            slot.answer_all(rt, &self.book, client, &mut batch.errands, claims, made);
            return batch.errands.are_done();
        }
        false
    }

    /// Hands on what goes to servers, under one lock for each.
    fn to_servers<R: Wait>(
        &self,
        rt: &R,
        batch: &mut Batch,
        claims: &mut Pass<L>,
        now: u64,
        made: &mut u64,
    )
        requires claims { HasClaims claims.old batch.old.errands }
        ensures claims { HasClaims claims.new batch.new.errands }
        ensures batch { KeepsBatch batch.old batch.new }
        ensures served { Served now batch.old.errands batch.new.errands }
        ensures gone { (i : ℕ) → NoneAt server_of (HasServer (vec_len self.now.ups)) batch.new.errands i }
        ensures replies { NoMore reply_of batch.old.errands batch.new.errands }
        ensures offers { NoMore offer_of batch.old.errands batch.new.errands }
        ensures clients { ((i : ℕ) → NoneAt offer_of (HasServer (vec_len self.now.ups)) batch.old.errands i)
            → NoMore client_of batch.old.errands batch.new.errands }
        ensures refused { ((i : ℕ) → NoneAt offer_of (HasServer (vec_len self.now.ups)) batch.old.errands i)
            → NoMore refused_of batch.old.errands batch.new.errands }
        ensures more { made.old ≤ made.new }
    {
        for at in 0..batch.errands.len() {
            self.to_server(rt, batch, claims, at, now, made);
        }
    }

    /// Hands on all that goes to the server to which the value at this place goes.
    #[inline(always)]
    fn to_server<R: Wait>(
        &self,
        rt: &R,
        batch: &mut Batch,
        claims: &mut Pass<L>,
        at: usize,
        now: u64,
        made: &mut u64,
    )
        requires claims { HasClaims claims.old batch.old.errands }
        ensures claims { HasClaims claims.new batch.new.errands }
        ensures batch { KeepsBatch batch.old batch.new }
        ensures served { (xs : List Errand) → Served now xs batch.old.errands → Served now xs batch.new.errands }
        ensures gone { NoneAt server_of (HasServer (vec_len self.now.ups)) batch.new.errands at }
        ensures fewer { NoMore server_of batch.old.errands batch.new.errands }
        ensures replies { NoMore reply_of batch.old.errands batch.new.errands }
        ensures offers { NoMore offer_of batch.old.errands batch.new.errands }
        ensures clients { ((i : ℕ) → NoneAt offer_of (HasServer (vec_len self.now.ups)) batch.old.errands i)
            → NoMore client_of batch.old.errands batch.new.errands }
        ensures refused { ((i : ℕ) → NoneAt offer_of (HasServer (vec_len self.now.ups)) batch.old.errands i)
            → NoMore refused_of batch.old.errands batch.new.errands }
        ensures more { made.old ≤ made.new }
    {
        let Some(server) = batch.errands.server(at) else {
            return;
        };
        if let Some(slot) = self.find_up(server) {
            refuse_backlogged(slot, server, batch, now);
            batch.rings.add(SessionId::Server(server));
            slot.serve_all(
                rt,
                &self.book,
                server,
                &mut batch.errands,
                claims,
                now,
                made,
            );
        }
    }

    /// Chooses a server for each dispatch. One without a route, or without a server, goes back to its
    /// client. Dispatches to one destination that stand in a row share a look-up.
    fn plan<R: Wait>(
        &self,
        rt: &R,
        routes: &mut RouteReader<L>,
        batch: &mut Batch,
        but: Option<ServerId>,
        now: u64,
    )
        ensures claims { (v : View) → HasClaims v batch.old.errands → HasClaims v batch.new.errands }
        ensures later { IsPrefix routes.old routes.new }
        ensures batch { KeepsBatch batch.old batch.new }
        ensures aimed { Aimed (vec_len self.now.ups) but routes.old batch.old.errands
            routes.new batch.new.errands }
        ensures chosen { AreAimed (vec_len self.now.ups) but routes.old routes.new batch.new.errands }
        ensures replies { NoMore reply_of batch.old.errands batch.new.errands }
    {
        let mut found = Found::new();
        let mut run = Run::new(None);
        let mut last = None;
        for at in 0..batch.errands.len() {
            let Some(ticket) = batch.errands.ticket(at) else {
                continue;
            };
            if !batch.errands.goes_with(at, last) {
                self.counts.add(run);
                run = Run::new(routes.find_into(rt, ticket.dst(), &mut found));
            }
            last = Some(at);
            self.aim(batch, at, found.servers(), &mut run, but, now);
        }
        self.counts.add(run);
    }

    /// Chooses the server with the least load, which counts this dispatch from then on. It goes to the session that is
    /// there now: another one would refuse it. It is one of a run, if it has a route.
    fn aim(
        &self,
        batch: &mut Batch,
        at: usize,
        servers: Option<&[ServerId]>,
        run: &mut Run,
        but: Option<ServerId>,
        now: u64,
    )
        ensures claims { (ticket : TicketView) → ticket_at batch.old.errands at ≡ Some ticket
            → (v : View) → HasClaims v batch.old.errands → HasClaims v batch.new.errands }
        ensures batch { KeepsBatch batch.old batch.new }
        ensures aims { Aims (vec_len self.now.ups) but (option_map (λ s. s.now) servers.entry) at
            batch.old.errands batch.new.errands }
        ensures replies { (ticket : TicketView) → ticket_at batch.old.errands at ≡ Some ticket
            → NoMore reply_of batch.old.errands batch.new.errands }
    {
        let Some(servers) = servers else {
            batch.errands.give_back(at, Back::Unrouted);
            return;
        };
        run.add(but);
        match choose(&self.ups, servers, but, now) {
            Some(place) => batch.errands.send(at, self.number_at(place)),
            None => {
                self.counts.add_nack(run.mark);
                batch.errands.give_back(at, Back::Unplaced)
            }
        }
    }

    /// Offers each dispatch that was refused to the other servers of its route.
    fn try_others<R: Wait>(
        &self,
        rt: &R,
        routes: &mut RouteReader<L>,
        batch: &mut Batch,
        claims: &mut Pass<L>,
        but: Option<ServerId>,
        now: u64,
        made: &mut u64,
    )
        requires claims { HasClaims claims.old batch.old.errands }
        ensures claims { HasClaims claims.new batch.new.errands }
        ensures later { IsPrefix routes.old routes.new }
        ensures batch { KeepsBatch batch.old batch.new }
        ensures retried { Retried now (vec_len self.now.ups) but routes.old batch.old.errands
            routes.new batch.new.errands }
        ensures refused { (i : ℕ) → NoneRefused batch.new.errands i }
        ensures replies { NoMore reply_of batch.old.errands batch.new.errands }
        ensures offers { NoMore offer_of batch.old.errands batch.new.errands }
        ensures more { made.old ≤ made.new }
    {
        for at in 0..batch.errands.len() {
            if batch.errands.is_refused(at) {
                let errand = take_at(batch, at);
                let left = self.try_other(
                    rt,
                    routes,
                    errand,
                    &batch.errands,
                    claims,
                    but,
                    now,
                    made,
                );
                put_at(batch, at, left);
            }
        }
    }

    #[cold]
    #[inline(never)]
    fn try_other<R: Wait>(
        &self,
        rt: &R,
        routes: &mut RouteReader<L>,
        errand: Errand,
        others: &Errands,
        claims: &mut Pass<L>,
        but: Option<ServerId>,
        now: u64,
        made: &mut u64,
    ) -> Errand
        requires claims { Holds claims.old (beside (held_of errand.value) others.now.items) }
        ensures claims { Holds claims.new (beside (held_of result.value) others.now.items) }
        ensures goes { GoesTo errand.to errand.value → GoesTo result.to result.value }
        ensures later { IsPrefix routes.old routes.new }
        ensures retried { (by : ℕ) (ticket : TicketView) → errand.value ≡ value.Refused by ticket
            → RetriesBy now (vec_len self.now.ups) but (server_place (vec_len self.now.ups) by) routes.new
            ticket result }
        ensures less { LessThan errand result }
        ensures more { made.old ≤ made.new }
    {
        let Errand { to, value } = errand;
        match value {
            Value::Refused(by, ticket) => {
                let by = self.place_of(by);
                self.place_again(rt, routes, ticket, others, claims, but, by, now, made)
            }
            other => Errand { to, value: other },
        }
    }

    /// Offers a dispatch to the servers of its route, but not to these.
    fn place_again<R: Wait>(
        &self,
        rt: &R,
        routes: &mut RouteReader<L>,
        ticket: Ticket,
        others: &Errands,
        claims: &mut Pass<L>,
        but: Option<ServerId>,
        by: Option<ServerId>,
        now: u64,
        made: &mut u64,
    ) -> Errand
        requires claims { Holds claims.old (beside (Some (ticket_of ticket)) others.now.items) }
        ensures claims { Holds claims.new (beside (held_of result.value) others.now.items) }
        ensures goes { GoesTo result.to result.value }
        ensures later { IsPrefix routes.old routes.new }
        ensures retried { RetriesBy now (vec_len self.now.ups) but by routes.new ticket result }
        ensures less { (reply_of result.to result.value ≡ None) × (offer_of result.to result.value ≡ None) }
        ensures more { made.old ≤ made.new }
    {
        let mut found = Found::new();
        let mark = routes.find_into(rt, ticket.dst(), &mut found);
        let Some(servers) = found.servers() else {
            return Errand::back(ticket, Back::Unrouted);
        };
        match self.offer(rt, ticket, servers, others, claims, but, by, now, made) {
            Ok(placed) => Errand::placed(placed),
            Err(ticket) => {
                self.counts.add_nack(mark);
                Errand::back(ticket, Back::Unplaced)
            }
        }
    }
}

/// Refuses the dispatches that go to a session to which too many bytes wait to be sent.
#[inline(always)]
fn refuse_backlogged<L: Room>(slot: &UpSlot<L>, server: ServerId, batch: &mut Batch, now: u64)
    ensures event { ServesUp now server None batch.old.errands None batch.new.errands }
    ensures claims { (v : View) → HasClaims v batch.old.errands → HasClaims v batch.new.errands }
    ensures batch { KeepsBatch batch.old batch.new }
{
    if slot.is_backlogged() {
        refuse_all(server, &mut batch.errands, now);
    }
}

fn take_at(batch: &mut Batch, at: usize) -> Errand
    ensures batch { KeepsBatch batch.old batch.new }
    ensures value { result ≡ errand_at batch.old.errands at }
    ensures left { batch.new.errands ≡ slice_set batch.old.errands at done }
{
    batch.errands.take(at)
}

/// Puts back what came of a dispatch that was refused.
fn put_at(batch: &mut Batch, at: usize, errand: Errand)
    ensures batch { KeepsBatch batch.old batch.new }
    ensures put { batch.new.errands ≡ slice_set batch.old.errands at errand }
{
    if let Value::Placed(placed) = &errand.value {
        batch.rings.add(SessionId::Server(placed.server()));
    }
    batch.errands.put(at, errand);
}
