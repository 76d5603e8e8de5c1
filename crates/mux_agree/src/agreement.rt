//! The walk over histories, from record to record.
ghost use Rattle.std.specs.Prelude.{[], ◌≡◌, ◌↔◌, IfErr, IsOk, map, reverse};
ghost use Rattle.std.specs.Result.{result_err};
ghost use Rattle.mux_agree.specs.Seen.{clients_of, records_of};
ghost use Rattle.mux_agree.specs.Walk.{BearOut, IsFirstFault, all_records, first_among, joined};
ghost use Rattle.mux_agree.specs.Walk.{first_fault, histories, kept_down, kept_up, stops, stops_in};

mod causes;
pub mod disagreement;
pub mod fact;
pub mod histories;
pub mod kinds;
pub mod outline;
mod past;
mod tally;

use crate::agreement::causes::Visit;
use crate::agreement::disagreement::Disagreement;
use crate::agreement::histories::{DownHistory, Histories, UpHistory};
use crate::agreement::past::Past;
use mux_history::{History, InitMode, Record, SessionId};

/// Whether the histories bear each other out: the first record at fault otherwise.
///
/// The histories are walked in the order given, those of the clients first, and each from its
/// oldest record on, over its epochs. Each record is held against all others a few times, and an
/// `Epoch` against each pair of records before it in its session, so the steps grow with the square
/// of the number of records and histories for each epoch of a session. No memory is taken.
pub fn agree(downs: &[DownHistory], ups: &[UpHistory]) -> Result<(), Disagreement>
    ensures ok { IsOk result ↔ BearOut (histories downs.now ups.now) }
    ensures err { IfErr result (IsFirstFault (histories downs.now ups.now)) }
    ensures value { result_err result ≡ first_fault (histories downs.now ups.now) }
{
    let all = Histories { downs, ups };
    clients_agree(all)?;
    servers_agree(all)
}

/// Whether no record of the clients is at fault.
fn clients_agree(all: Histories) -> Result<(), Disagreement>
    ensures { result_err result
        ≡ first_among (clients_of all.entry) (records_of all.entry) (stops [] (map kept_down all.entry.downs.now)) }
{
    for (place, down) in all.downs.iter().enumerate() {
        let walk = Walk {
            all,
            earlier: Histories {
                downs: &all.downs[..place],
                ups: &[],
            },
            session: SessionId::Client(down.client),
            mode: InitMode::Plain,
        };
        walk.session_agrees(&down.epochs)?;
    }
    Ok(())
}

/// Whether no record of the servers is at fault.
fn servers_agree(all: Histories) -> Result<(), Disagreement>
    ensures { let clients = all_records (map kept_down all.entry.downs.now) in
        result_err result
        ≡ first_among (clients_of all.entry) (records_of all.entry) (stops clients (map kept_up all.entry.ups.now)) }
{
    for (place, up) in all.ups.iter().enumerate() {
        let walk = Walk {
            all,
            earlier: Histories {
                downs: all.downs,
                ups: &all.ups[..place],
            },
            session: SessionId::Server(up.server),
            mode: up.mode,
        };
        walk.session_agrees(&up.epochs)?;
    }
    Ok(())
}

/// The walk over the records of one session.
#[derive(Clone, Copy)]
struct Walk<'a> {
    all: Histories<'a>,
    earlier: Histories<'a>,
    session: SessionId,
    mode: InitMode,
}

impl Walk<'_> {
    /// Whether no record of the session is at fault.
    fn session_agrees(self, epochs: &[History]) -> Result<(), Disagreement>
        ensures { let earlier = records_of self.entry.earlier in
            let met = stops_in earlier self.entry.session self.entry.mode [] (joined epochs.now) in
            result_err result ≡ first_among (clients_of self.entry.all) (records_of self.entry.all) met }
    {
        for (number, epoch) in epochs.iter().enumerate() {
            self.epoch_agrees(&epochs[..number], epoch.records())?;
        }
        Ok(())
    }

    /// Whether no record of one epoch is at fault.
    fn epoch_agrees(self, older: &[History], records: &[Record]) -> Result<(), Disagreement>
        ensures { let past = reverse (joined older.now) in
            let earlier = records_of self.entry.earlier in
            let met = stops_in earlier self.entry.session self.entry.mode past records.now in
            result_err result ≡ first_among (clients_of self.entry.all) (records_of self.entry.all) met }
    {
        for (place, met) in records.iter().enumerate() {
            let past = Past {
                older,
                present: &records[..place],
            };
            let visit = Visit {
                all: self.all,
                earlier: self.earlier,
                session: self.session,
                mode: self.mode,
                past,
                met: *met,
            };
            if let Some(cause) = visit.cause() {
                return Err(Disagreement {
                    session: self.session,
                    place: past.place(),
                    cause,
                });
            }
        }
        Ok(())
    }
}
