//! Histories handed to a rolling audit, in a random order of sessions.

use crate::dice::Dice;
use mux_agree::{DownHistory, UpHistory};
use mux_history::{History, InitMode, Record, SessionId};
use rolling_audit::{RollingAudit, RollingFault};
use std::alloc::{AllocError, Global};

/// Histories of one boot.
#[derive(Clone, Copy)]
struct Histories<'a> {
    downs: &'a [DownHistory],
    ups: &'a [UpHistory],
}

/// What a rolling audit made of histories.
#[derive(Clone, Copy)]
pub struct Verdict {
    pub fault: Option<RollingFault>,
    /// How many dispatches were left in the end, and how many were kept at once at most.
    pub left: usize,
    pub most: usize,
}

/// How far the records of a session were handed over.
#[derive(Clone, Copy)]
struct Feed {
    session: SessionId,
    place: usize,
    epoch: usize,
    from: usize,
    ended: bool,
}

/// A rolling audit that is fed.
#[derive(Drop)]
struct Feeding {
    audit: RollingAudit,
    feeds: Vec<Feed>,
    most: usize,
}

impl<'a> Histories<'a> {
    fn epochs(self, feed: Feed) -> Option<&'a [History]> {
        match feed.session {
            SessionId::Client(_) => Some(&self.downs.get(feed.place)?.epochs),
            SessionId::Server(_) => Some(&self.ups.get(feed.place)?.epochs),
        }
    }

    /// What is left of the epoch that is handed over.
    fn rest(self, feed: Feed) -> Option<&'a [Record]> {
        let records = self.epochs(feed)?.get(feed.epoch)?.records();
        records.get(feed.from.min(records.len())..)
    }
}

impl Feeding {
    fn open(&mut self, session: SessionId, mode: InitMode, place: usize) -> Result<(), AllocError> {
        if self.audit.open(session, mode).is_err() {
            return Err(AllocError);
        }
        self.feeds.push(Feed {
            session,
            place,
            epoch: 0,
            from: 0,
            ended: false,
        })?;
        Ok(())
    }

    fn open_all(&mut self, all: Histories<'_>) -> Result<(), AllocError> {
        for (place, down) in all.downs.iter().enumerate() {
            self.open(SessionId::Client(down.client), InitMode::Plain, place)?;
        }
        for (place, up) in all.ups.iter().enumerate() {
            self.open(SessionId::Server(up.server), up.mode, place)?;
        }
        Ok(())
    }

    /// Hands the next records of a session over: an epoch, or a part of one. What finds no memory is handed
    /// over again.
    fn feed(
        &mut self,
        all: Histories<'_>,
        dice: &mut Dice,
        place: usize,
    ) -> Result<(), RollingFault> {
        if place >= self.feeds.len() {
            return Ok(());
        }
        let mut feed = self.feeds[place];
        let Some(rest) = all.rest(feed) else {
            if !feed.ended && dice.below(2) == 0 {
                self.audit.end(feed.session);
            }
            feed.ended = true;
            self.feeds[place] = feed;
            return Ok(());
        };
        let count = if dice.below(3) == 0 {
            dice.below(rest.len() as u64) as usize
        } else {
            rest.len()
        };
        let count = count.min(rest.len());
        let taken = match self.audit.take(feed.session, &rest[..count]) {
            Ok(()) => count,
            Err(RollingFault::Memory { taken }) => taken,
            Err(fault) => return Err(fault),
        };
        self.most = self.most.max(self.audit.len());
        if taken == rest.len() {
            feed.epoch = feed.epoch.saturating_add(1);
            feed.from = 0;
        } else {
            feed.from = feed.from.saturating_add(taken);
        }
        self.feeds[place] = feed;
        Ok(())
    }

    fn is_done(&self) -> bool {
        !self.feeds.iter().any(|feed| !feed.ended)
    }

    fn feed_all(&mut self, all: Histories<'_>, dice: &mut Dice) -> Result<(), RollingFault> {
        for _ in 0..1_000_000u64 {
            if self.is_done() {
                break;
            }
            let place = dice.below(self.feeds.len() as u64) as usize;
            self.feed(all, dice, place)?;
        }
        self.audit.close()
    }
}

/// Hands histories over.
pub fn roll(
    alloc: Global,
    dice: &mut Dice,
    downs: &[DownHistory],
    ups: &[UpHistory],
) -> Result<Verdict, AllocError> {
    let all = Histories { downs, ups };
    let mut feeding = Feeding {
        audit: RollingAudit::new(alloc, 1, downs.len())?,
        feeds: Vec::new(alloc),
        most: 0,
    };
    feeding.open_all(all)?;
    let fault = feeding.feed_all(all, dice).err();
    Ok(Verdict {
        fault,
        left: feeding.audit.len(),
        most: feeding.most,
    })
}
