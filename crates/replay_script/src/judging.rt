//! The histories of a boot, held against each other.
//!
//! The loops over clients and servers are twins: their histories are two types with two definitions.
ghost use Rattle.std.specs.Prelude.{◌≡◌, ◌-◌, [], ◌∷◌, ◌++◌, map, IfOk, OnOk};
ghost use Rattle.mux_history.specs.declared.session.SessionId.TheVariants.{Client, Server};
ghost use Rattle.mux_history.specs.declared.session.InitMode.TheVariants.{Plain};
ghost use Rattle.mux_agree.specs.Walk.{first_fault, histories, kept_down, kept_up};
ghost use Rattle.replay_script.specs.Judged.{begun, whole, with_epoch_of};

use crate::router::Router;
use mux_agree::{Disagreement, DownHistory, UpHistory};
use mux_history::{History, InitMode, ServerId, SessionId};
use rolling_audit::audit;
use std::alloc::{AllocError, Global};

/// What each session of a boot wrote down in the epochs that have ended.
#[derive(Drop)]
pub struct Judge {
    alloc: Global,
    downs: Vec<DownHistory>,
    ups: Vec<UpHistory>,
}

impl Judge {
    /// No histories.
    pub fn new(alloc: Global) -> Judge
        ensures { histories result.downs.items result.ups.items ≡ [] }
    {
        Judge {
            alloc,
            downs: Vec::new(alloc),
            ups: Vec::new(alloc),
        }
    }

    /// A session begins, the next of its side. The mode is that of a server's.
    pub fn open(&mut self, session: SessionId, mode: InitMode) -> Result<(), AllocError> {
        match session {
            SessionId::Client(client) => self.open_down(client),
            SessionId::Server(server) => self.open_up(server, mode),
        }
    }

    fn open_down(&mut self, client: u64) -> Result<(), AllocError>
        ensures { OnOk result (map kept_down self.new.downs.items
            ≡ map kept_down self.old.downs.items ++ begun (Client client) Plain ∷ []) }
    {
        let epochs = Vec::new(self.alloc);
        self.downs.push(DownHistory { client, epochs })?;
        Ok(())
    }

    fn open_up(&mut self, server: ServerId, mode: InitMode) -> Result<(), AllocError>
        ensures { OnOk result (map kept_up self.new.ups.items
            ≡ map kept_up self.old.ups.items ++ begun (Server server) mode ∷ []) }
    {
        let epochs = Vec::new(self.alloc);
        self.ups.push(UpHistory {
            server,
            mode,
            epochs,
        })?;
        Ok(())
    }

    /// An epoch of a session has ended.
    pub fn keep(&mut self, session: SessionId, epoch: History) -> Result<(), AllocError> {
        match session {
            SessionId::Client(number) => self.keep_down(number, epoch),
            SessionId::Server(number) => self.keep_up(number, epoch),
        }
    }

    fn keep_down(&mut self, number: u64, epoch: History) -> Result<(), AllocError>
        ensures { OnOk result (map kept_down self.new.downs.items
            ≡ with_epoch_of number epoch.records (map kept_down self.old.downs.items)) }
    {
        let Some(down) = self.downs.get_mut(place_of(number)) else {
            return Ok(());
        };
        down.epochs.push(epoch)?;
        Ok(())
    }

    fn keep_up(&mut self, number: u64, epoch: History) -> Result<(), AllocError>
        ensures { OnOk result (map kept_up self.new.ups.items
            ≡ with_epoch_of number epoch.records (map kept_up self.old.ups.items)) }
    {
        let Some(up) = self.ups.get_mut(place_of(number)) else {
            return Ok(());
        };
        up.epochs.push(epoch)?;
        Ok(())
    }

    /// Every session has come to its end: the first record at fault, if the histories don't bear each
    /// other out. Each session's present epoch, as the core gives it, stands behind those that have ended.
    pub fn judge(self, router: &Router) -> Result<Option<Disagreement>, AllocError>
        ensures { IfOk result (λ found. found
            ≡ first_fault (map (whole router.entry.now.core) (histories self.downs.items self.ups.items))) }
    {
        let Judge { alloc, downs, ups } = self;
        let downs = whole_downs(alloc, router, downs)?;
        let ups = whole_ups(alloc, router, ups)?;
        Ok(audit(alloc, &downs, &ups).err())
    }
}

// Sessions are numbered from 1.
fn place_of(number: u64) -> usize
    ensures { result ≡ number - 1 }
{
    number.saturating_sub(1) as usize
}

fn whole_down(alloc: Global, router: &Router, down: DownHistory) -> Result<DownHistory, AllocError>
    ensures { IfOk result (λ d. kept_down d ≡ whole router.entry.now.core (kept_down down)) }
{
    let DownHistory { client, epochs } = down;
    let mut epochs = epochs;
    epochs.push(History::of(alloc, router.records(SessionId::Client(client)))?)?;
    Ok(DownHistory { client, epochs })
}

fn whole_downs(
    alloc: Global,
    router: &Router,
    downs: Vec<DownHistory>,
) -> Result<Vec<DownHistory>, AllocError>
    ensures { IfOk result (λ ds. map kept_down ds.items
        ≡ map (whole router.entry.now.core) (map kept_down downs.items)) }
{
    let mut all = Vec::new(alloc);
    for down in downs {
        all.push(whole_down(alloc, router, down)?)?;
    }
    Ok(all)
}

fn whole_up(alloc: Global, router: &Router, up: UpHistory) -> Result<UpHistory, AllocError>
    ensures { IfOk result (λ u. kept_up u ≡ whole router.entry.now.core (kept_up up)) }
{
    let UpHistory {
        server,
        mode,
        epochs,
    } = up;
    let mut epochs = epochs;
    epochs.push(History::of(alloc, router.records(SessionId::Server(server)))?)?;
    Ok(UpHistory {
        server,
        mode,
        epochs,
    })
}

fn whole_ups(
    alloc: Global,
    router: &Router,
    ups: Vec<UpHistory>,
) -> Result<Vec<UpHistory>, AllocError>
    ensures { IfOk result (λ us. map kept_up us.items
        ≡ map (whole router.entry.now.core) (map kept_up ups.items)) }
{
    let mut all = Vec::new(alloc);
    for up in ups {
        all.push(whole_up(alloc, router, up)?)?;
    }
    Ok(all)
}
