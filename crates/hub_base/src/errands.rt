//! What the steps of a batch gave, until the sessions that it is for have it.
ghost use Rattle.std.specs.Prelude.{◌≡◌, ◌-◌, ◌<◌, [], ◌∷◌, ◌++◌, length, slice_set, IfNone, IfOk, IsSome};
ghost use Rattle.std.specs.List.{list_all};
ghost use Rattle.std.specs.Option.{option_copied};
ghost use Rattle.hub_base.specs.Errands.{done, unsent, back, placing, refused, recalling, of_down, of_up, errand_at, client_at, server_at, ticket_at, placed_at, reply_at};
ghost use Rattle.hub_base.specs.Errands.{body_len, goes_with, send_at, give_back, is_refused, is_closing, is_nothing};

use client_session::UpStep;
use mux_history::ServerId;
use server_session::DownStep;
use std::alloc::{AllocError, Global};
use std::marker::Model;
use std::mem;
use translate_book::{Placed, Recall, Settled, Ticket};

/// A value that a step gave.
#[derive(Drop)]
pub enum Value {
    /// None, or it was handed on.
    Nothing,
    /// A dispatch that is to be offered to a server.
    Ticket(Ticket),
    /// A dispatch that this server refused.
    Refused(ServerId, Ticket),
    /// A dispatch that no server takes now.
    Unplaced(Ticket),
    /// A dispatch with no route.
    Unrouted(Ticket),
    /// A place that is to be noted.
    Placed(Placed),
    /// A final reply to a dispatch.
    Reply(Settled),
    /// A dispatch that a server is asked to discard.
    Recall(Recall),
    /// The session has ended, and what it held goes to others.
    Closing,
}

/// A value with the number of the session that it goes to: a client's from 1, a server's from 0.
#[derive(Drop)]
pub struct Errand {
    pub to: u64,
    pub value: Value,
}

impl Errand {
    /// Nothing is to be done.
    #[inline(always)]
    pub fn done() -> Errand
        ensures { result ≡ done }
    {
        Errand {
            to: 0,
            value: Value::Nothing,
        }
    }

    /// A dispatch goes back to its client, with this word of it.
    #[cold]
    #[inline(never)]
    pub fn back(ticket: Ticket, word: Back) -> Errand
        ensures { result ≡ back ticket word }
    {
        let to = ticket.name().client;
        let value = match word {
            Back::Unplaced => Value::Unplaced(ticket),
            Back::Unrouted => Value::Unrouted(ticket),
        };
        Errand { to, value }
    }

    /// A place goes to the client of its dispatch.
    #[inline(always)]
    pub fn placed(placed: Placed) -> Errand
        ensures { result ≡ placing placed }
    {
        Errand {
            to: placed.name().client,
            value: Value::Placed(placed),
        }
    }

    /// A dispatch was refused by this server.
    #[inline(always)]
    pub fn refused(by: ServerId, ticket: Ticket) -> Errand
        ensures { result ≡ refused by ticket }
    {
        Errand {
            to: by,
            value: Value::Refused(by, ticket),
        }
    }

    /// A recall goes to the server that has its dispatch.
    #[inline(always)]
    pub fn recall(recall: Recall) -> Errand
        ensures { result ≡ recalling recall }
    {
        Errand {
            to: recall.server(),
            value: Value::Recall(recall),
        }
    }

    /// A dispatch for which no server is chosen yet.
    #[inline(always)]
    pub fn ticket(ticket: Ticket) -> Errand
        ensures { result ≡ unsent ticket }
    {
        Errand {
            to: 0,
            value: Value::Ticket(ticket),
        }
    }

    /// What the step of a client's frame gave.
    #[inline(always)]
    pub fn of_down(step: DownStep) -> Errand
        ensures { result ≡ of_down step }
    {
        match step {
            DownStep::Nothing => Errand::done(),
            DownStep::Take(ticket) => Errand::ticket(ticket),
            DownStep::Recall(recall) => Errand::recall(recall),
            DownStep::Closing(_) => Errand {
                to: 0,
                value: Value::Closing,
            },
        }
    }

    /// What the step of a server's frame gave.
    #[inline(always)]
    pub fn of_up(step: UpStep) -> Errand
        ensures { result ≡ of_up step }
    {
        match step {
            UpStep::Nothing | UpStep::Dropped => Errand::done(),
            UpStep::Settled(settled) => Errand {
                to: settled.name().client,
                value: Value::Reply(settled),
            },
            UpStep::Closing(_) => Errand {
                to: 0,
                value: Value::Closing,
            },
        }
    }
}

/// How many bytes the body of a dispatch or of a reply has; 0 of any other value.
#[inline(always)]
fn body_len(value: &Value) -> usize
    ensures { result ≡ body_len value.now }
{
    match value {
        Value::Ticket(ticket) => ticket.frame().body_len(),
        Value::Reply(settled) => settled.reply().body_len(),
        _ => 0,
    }
}

/// Why a dispatch goes back to its client.
#[derive(Clone, Copy, Debug, PartialEq, Eq)]
pub enum Back {
    /// No server takes it now.
    Unplaced,
    /// It has no route.
    Unrouted,
}

/// The errands of a batch, in room that is made before they come.
///
/// Contracts see them in the order of their places, and for how many there is room. Each place is looked at by its
/// number; at a number past the end there is nothing to be done.
#[derive(Drop)]
pub struct Errands {
    list: Vec<Errand>,
    room: usize,
    // How many bytes the bodies have of all that was taken.
    taken: usize,
}

impl Model for Errands {
    ghost use Rattle.std.specs.Prelude.{◌≤◌, vec_capacity};
    ghost use Rattle.hub_base.specs.Batching.{Held};

    ghost Value = { Held };

    ghost view = { λ e. record { items = e.list.items; room = e.room } };

    ghost invariant = { λ e. e.room ≤ vec_capacity e.list };
}

impl Errands {
    /// Room for so many. Out of memory is the one error.
    pub(crate) fn with_room(alloc: Global, room: usize) -> Result<Errands, AllocError>
        ensures { IfOk result (λ e. e ≡ record { items = []; room = room }) }
    {
        let list = Vec::with_capacity(alloc, room)?;
        Ok(Errands {
            list,
            room,
            taken: 0,
        })
    }

    /// For how many there is room.
    pub(crate) fn room(&self) -> usize
        ensures { result ≡ self.now.room }
    {
        self.room
    }

    #[inline(always)]
    pub(crate) fn push(&mut self, errand: Errand)
        requires { length self.old.items < self.old.room }
        ensures { self.new ≡ record self.old { items = self.old.items ++ errand ∷ [] } }
    {
        self.list.push_reserved(errand);
    }

    /// Throws all of them away.
    pub(crate) fn clear(&mut self)
        ensures { self.new ≡ record self.old { items = [] } }
    {
        self.list.clear();
    }

    /// How many bytes the bodies of the dispatches and replies have that were taken from here, all together.
    #[inline(always)]
    pub fn taken(&self) -> usize {
        self.taken
    }

    // This value was taken.
    #[inline(always)]
    fn count(&mut self, len: usize)
        ensures { self.new ≡ self.old }
    {
        self.taken = self.taken.wrapping_add(len);
    }

    /// How many errands there are, with those of which nothing is left to be done.
    pub fn len(&self) -> usize
        ensures { result ≡ length self.now.items }
    {
        self.list.len()
    }

    /// The client to whom this one goes.
    #[inline(always)]
    pub fn client(&self, at: usize) -> Option<u64>
        ensures { result ≡ client_at self.now.items at }
    {
        let errand = self.list.get(at)?;
        match &errand.value {
            Value::Unplaced(_) | Value::Unrouted(_) | Value::Placed(_) | Value::Reply(_) => {
                Some(errand.to)
            }
            _ => None,
        }
    }

    /// The server to which this one goes.
    #[inline(always)]
    pub fn server(&self, at: usize) -> Option<ServerId>
        ensures { result ≡ server_at self.now.items at }
    {
        let errand = self.list.get(at)?;
        match &errand.value {
            Value::Ticket(_) | Value::Recall(_) => Some(errand.to),
            _ => None,
        }
    }

    /// The dispatch that is here to be offered.
    #[inline(always)]
    pub fn ticket(&self, at: usize) -> Option<&Ticket>
        ensures { option_copied result ≡ ticket_at self.now.items at }
    {
        match &self.list.get(at)?.value {
            Value::Ticket(ticket) => Some(ticket),
            _ => None,
        }
    }

    /// The place to be noted that is here.
    #[inline(always)]
    pub fn placed(&self, at: usize) -> Option<&Placed>
        ensures { option_copied result ≡ placed_at self.now.items at }
    {
        match &self.list.get(at)?.value {
            Value::Placed(placed) => Some(placed),
            _ => None,
        }
    }

    /// The final reply to a dispatch that is here.
    #[inline(always)]
    pub fn reply(&self, at: usize) -> Option<&Settled>
        ensures { option_copied result ≡ reply_at self.now.items at }
    {
        match &self.list.get(at)?.value {
            Value::Reply(settled) => Some(settled),
            _ => None,
        }
    }

    /// Whether the dispatches that are to be offered here and at the other place, if it is given, have
    /// one destination.
    pub fn goes_with(&self, at: usize, other: Option<usize>) -> bool
        ensures { result ≡ goes_with self.now.items at other }
    {
        let Some(other) = other else {
            return false;
        };
        match (self.ticket(at), self.ticket(other)) {
            (Some(ticket), Some(other)) => ticket.dst() == other.dst(),
            _ => false,
        }
    }

    /// Whether a server refused the dispatch that is here.
    pub fn is_refused(&self, at: usize) -> bool
        ensures { result ≡ is_refused (errand_at self.now.items at).value }
    {
        match self.list.get(at) {
            Some(errand) => matches!(errand.value, Value::Refused(..)),
            None => false,
        }
    }

    /// Whether nothing is left to be done.
    pub fn are_done(&self) -> bool
        ensures { result ≡ list_all (λ e. is_nothing e.value) self.now.items }
    {
        self.list
            .iter()
            .all(|errand| matches!(errand.value, Value::Nothing))
    }

    /// Whether the session has ended.
    pub fn are_last(&self) -> bool
        ensures { result ≡ is_closing (errand_at self.now.items (length self.now.items - 1)).value }
    {
        match self.list.last() {
            Some(errand) => matches!(errand.value, Value::Closing),
            None => false,
        }
    }

    /// This one goes to another session.
    #[inline(always)]
    pub fn send(&mut self, at: usize, to: u64)
        ensures value { self.new.items ≡ send_at self.old.items at to }
        ensures same { (length self.new.items ≡ length self.old.items) × (self.new.room ≡ self.old.room) }
    {
        if at < self.list.len() {
            self.list[at].to = to;
        }
    }

    /// Takes this one, and leaves nothing to be done here.
    #[inline(always)]
    pub fn take(&mut self, at: usize) -> Errand
        ensures value { result ≡ errand_at self.old.items at }
        ensures left { self.new.items ≡ slice_set self.old.items at done }
        ensures room { self.new.room ≡ self.old.room }
    {
        if at < self.list.len() {
            let errand = mem::replace(&mut self.list[at], Errand::done());
            self.count(body_len(&errand.value));
            errand
        } else {
            Errand::done()
        }
    }

    /// Takes the place to be noted that is here, and leaves nothing to be done. If another value is here, it stays. Where
    /// the value was looked at before, only its parts that are used are moved, as by `take_reply` and `take_ticket`.
    #[inline(always)]
    pub fn take_placed(&mut self, at: usize) -> Option<Placed>
        ensures value { result ≡ placed_at self.old.items at }
        ensures left { IsSome result → self.new.items ≡ slice_set self.old.items at done }
        ensures none { IfNone result (self.new.items ≡ self.old.items) }
        ensures room { self.new.room ≡ self.old.room }
    {
        if !matches!(self.list.get(at)?.value, Value::Placed(_)) {
            return None;
        }
        let errand = mem::replace(&mut self.list[at], Errand::done());
        match errand.value {
            Value::Placed(placed) => Some(placed),
            _ => unreachable!(),
        }
    }

    /// Takes the final reply that is here, as `take_placed` a place.
    #[inline(always)]
    pub fn take_reply(&mut self, at: usize) -> Option<Settled>
        ensures value { result ≡ reply_at self.old.items at }
        ensures left { IsSome result → self.new.items ≡ slice_set self.old.items at done }
        ensures none { IfNone result (self.new.items ≡ self.old.items) }
        ensures room { self.new.room ≡ self.old.room }
    {
        let Value::Reply(held) = &self.list.get(at)?.value else {
            return None;
        };
        let len = held.reply().body_len();
        let errand = mem::replace(&mut self.list[at], Errand::done());
        self.count(len);
        match errand.value {
            Value::Reply(value) => Some(value),
            _ => unreachable!(),
        }
    }

    /// Takes the dispatch that is here to be offered, as `take_placed` a place.
    #[inline(always)]
    pub fn take_ticket(&mut self, at: usize) -> Option<Ticket>
        ensures value { result ≡ ticket_at self.old.items at }
        ensures left { IsSome result → self.new.items ≡ slice_set self.old.items at done }
        ensures none { IfNone result (self.new.items ≡ self.old.items) }
        ensures room { self.new.room ≡ self.old.room }
    {
        let Value::Ticket(held) = &self.list.get(at)?.value else {
            return None;
        };
        let len = held.frame().body_len();
        let errand = mem::replace(&mut self.list[at], Errand::done());
        self.count(len);
        match errand.value {
            Value::Ticket(value) => Some(value),
            _ => unreachable!(),
        }
    }

    /// Puts one here, where nothing is to be done: none is thrown away, which `put` has to look for.
    #[inline(always)]
    pub fn fill(&mut self, at: usize, errand: Errand)
        requires { errand_at self.old.items at ≡ done }
        ensures there { self.new.items ≡ slice_set self.old.items at errand }
        ensures room { self.new.room ≡ self.old.room }
    {
        if at < self.list.len() {
            let was = mem::replace(&mut self.list[at], errand);
            match was.value {
                Value::Nothing => {}
                _ => unreachable!(),
            }
        }
    }

    /// Puts one here, in the place of the one that was taken.
    #[inline(always)]
    pub fn put(&mut self, at: usize, errand: Errand)
        ensures there { self.new.items ≡ slice_set self.old.items at errand }
        ensures room { self.new.room ≡ self.old.room }
    {
        if at < self.list.len() {
            self.list[at] = errand;
        }
    }

    /// The dispatch that is to be offered here goes back to its client.
    #[cold]
    #[inline(never)]
    pub fn give_back(&mut self, at: usize, word: Back)
        ensures back { self.new.items ≡ slice_set self.old.items at (give_back word (errand_at self.old.items at)) }
        ensures room { self.new.room ≡ self.old.room }
    {
        let Errand { to, value } = self.take(at);
        match value {
            Value::Ticket(ticket) => self.put(at, Errand::back(ticket, word)),
            other => self.put(at, Errand { to, value: other }),
        }
    }
}
