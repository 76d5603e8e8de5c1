//! What a session that is over leaves to others, each under the lock of its own session.
ghost use Rattle.std.specs.Prelude.{◌≤◌, Some, vec_len};
ghost use Rattle.mux_model.specs.Steps.{LostOf};
ghost use Rattle.server_session.specs.Steps.{recall_of};
ghost use Rattle.hub_places.specs.Holding.{Holds, alone};
ghost use Rattle.hub_delivery.specs.Leaving.{HasClient, HasServer};
ghost use Rattle.hub_delivery.specs.Losing.{FailsAll, RecallsAll, TakesLost, TakesRecall};

use crate::slots::Slots;
use hub_log::{Pass, Room};
use mux_history::ServerId;
use std::sync::Wait;
use translate_book::{Lost, Recall};

impl<L: Room> Slots<L> {
    /// Recalls each dispatch that a client which is gone has at a server. A session holds no more
    /// dispatches than its window.
    pub fn recall_all<R: Wait>(&self, rt: &R, client: u64, now: u64, made: &mut u64)
        ensures all { RecallsAll now (vec_len self.now.downs) (vec_len self.now.ups) self.now.window client }
        ensures more { made.old ≤ made.new }
    {
        let Some(slot) = self.find_down(client) else {
            return;
        };
        for _ in 0..self.window {
            let (given, claim) = slot.lose_next(rt, &self.book, client, made);
            let Some(recall) = given else {
                return;
            };
            self.recall(rt, recall, claim, now, made);
        }
    }

    /// Asks a server to discard a dispatch.
    fn recall<R: Wait>(&self, rt: &R, recall: Recall, claim: Pass<L>, now: u64, made: &mut u64)
        requires claim { Holds claim (alone (Some (recall_of recall))) }
        ensures taken { HasServer (vec_len self.now.ups) recall.server → TakesRecall now recall }
        ensures more { made.old ≤ made.new }
    {
        let Some(slot) = self.find_up(recall.server()) else {
            return;
        };
        let _recalled = slot.recall(rt, &self.book, recall, claim, now, made);
    }

    /// Fails each dispatch that a server which is gone has. A session holds no more dispatches than
    /// its window.
    pub fn fail_all<R: Wait>(&self, rt: &R, server: ServerId, made: &mut u64)
        ensures all { FailsAll (vec_len self.now.downs) (vec_len self.now.ups) self.now.server_window server }
        ensures more { made.old ≤ made.new }
    {
        let Some(slot) = self.find_up(server) else {
            return;
        };
        for _ in 0..self.server_window {
            let (given, claim) = slot.lose_next(rt, &self.book, server, made);
            let Some(lost) = given else {
                return;
            };
            self.fail(rt, lost, claim, made);
        }
    }

    /// Tells a client's session that its dispatch is lost.
    fn fail<R: Wait>(&self, rt: &R, lost: Lost, claim: Pass<L>, made: &mut u64)
        requires claim { Holds claim (alone (Some (LostOf lost.name))) }
        ensures taken { HasClient (vec_len self.now.downs) lost.name.client → TakesLost lost }
        ensures more { made.old ≤ made.new }
    {
        let Some(slot) = self.find_down(lost.name().client) else {
            return;
        };
        let _answer = slot.fail(rt, &self.book, lost, claim, made);
    }
}
