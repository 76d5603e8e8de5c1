//! The receipts of seats, held against the histories that are left.
//!
//! The loops over clients and servers are twins: their histories are two types with two definitions.
ghost use Rattle.std.specs.Prelude.{◌≡◌, IfNone, IfSome, option_map};
ghost use Rattle.hub_close.specs.Receipts.{IsFirstWrongFrom, Rise, StandAllFrom, down_epochs, up_epochs};
ghost use Rattle.hub.specs.Closing.{DownReceipts, HasWrong, HasWrongDown, HasWrongUp, IsRightDown, IsRightUp, IsWrongDown, IsWrongUp, UpReceipts};
ghost use Rattle.hub.specs.Rests.{first_left};

use crate::ledger::HubLedger;
use crate::rests::first_epoch;
use crate::seat::{ClientSeat, Seats, ServerSeat};
use hub_close::{down_epochs, first_wrong_from, up_epochs};
use mux_agree::{DownHistory, UpHistory};
use mux_history::SessionId;
use rolling_audit::RunAudit;

/// The first epoch of a session that an audit has not taken to its end. With no audit, or no such session, it is 0.
fn first_epoch_left(audit: Option<&RunAudit>, session: SessionId) -> u32
    ensures { result ≡ first_left (option_map (λ a. a.now) audit.entry) session }
{
    match audit {
        Some(audit) => first_epoch(audit, session),
        None => 0,
    }
}

/// The first receipt of all seats that is wrong: whose seat it is, and its place there. Seats of clients come first.
pub(crate) fn first_wrong<L: HubLedger>(
    seats: &Seats<L>,
    downs: &[DownHistory],
    ups: &[UpHistory],
    audit: Option<&RunAudit>,
) -> Option<(SessionId, usize)>
    ensures downs { IfNone result (DownReceipts (first_left (option_map (λ a. a.now) audit.entry)) downs.now
        seats.now.clients.items) }
    ensures ups { IfNone result (UpReceipts (first_left (option_map (λ a. a.now) audit.entry)) ups.now
        seats.now.servers.items) }
    ensures some { IfSome result (λ t. HasWrong (first_left (option_map (λ a. a.now) audit.entry)) downs.now ups.now
        seats.now.clients.items seats.now.servers.items t.0 t.1) }
{
    if let Some((number, place)) = first_of_clients(&seats.clients, downs, audit) {
        return Some((SessionId::Client(number), place));
    }
    let (number, place) = first_of_servers(&seats.servers, ups, audit)?;
    Some((SessionId::Server(number), place))
}

/// The first receipt of the clients' seats that is wrong: the seat's number, and its place there.
fn first_of_clients<L: HubLedger>(
    seats: &Vec<ClientSeat<L>>,
    downs: &[DownHistory],
    audit: Option<&RunAudit>,
) -> Option<(u64, usize)>
    ensures none { IfNone result (DownReceipts (first_left (option_map (λ a. a.now) audit.entry)) downs.now
        seats.now.items) }
    ensures some { IfSome result (λ t. HasWrongDown (first_left (option_map (λ a. a.now) audit.entry)) downs.now
        seats.now.items t.0 t.1) }
{
    for i in 0..seats.len() {
        let seat = &seats[i];
        let number = seat.client();
        let first = first_epoch_left(audit, SessionId::Client(number));
        if let Some(place) = first_of_client(seat, downs, first) {
            return Some((number, place));
        }
    }
    None
}

/// The first receipt of the servers' seats that is wrong: the seat's number, and its place there.
fn first_of_servers<L: HubLedger>(
    seats: &Vec<ServerSeat<L>>,
    ups: &[UpHistory],
    audit: Option<&RunAudit>,
) -> Option<(u64, usize)>
    ensures none { IfNone result (UpReceipts (first_left (option_map (λ a. a.now) audit.entry)) ups.now
        seats.now.items) }
    ensures some { IfSome result (λ t. HasWrongUp (first_left (option_map (λ a. a.now) audit.entry)) ups.now
        seats.now.items t.0 t.1) }
{
    for i in 0..seats.len() {
        let seat = &seats[i];
        let number = seat.server();
        let first = first_epoch_left(audit, SessionId::Server(number));
        if let Some(place) = first_of_server(seat, ups, first) {
            return Some((number, place));
        }
    }
    None
}

/// The place of the first wrong receipt of a seat.
fn first_of_client<L: HubLedger>(
    seat: &ClientSeat<L>,
    downs: &[DownHistory],
    first: u32,
) -> Option<usize>
    ensures right { IfNone result (IsRightDown first downs.now seat.now) }
    ensures wrong { IfSome result (IsWrongDown first downs.now seat.now) }
{
    wrong_of_client(seat, downs, first)
}

fn wrong_of_client<L: HubLedger>(
    seat: &ClientSeat<L>,
    downs: &[DownHistory],
    first: u32,
) -> Option<usize>
    ensures stand { IfNone result (StandAllFrom first (down_epochs downs.now seat.now.number) seat.now.receipts) }
    ensures rise { IfNone result (Rise seat.now.receipts) }
    ensures some { IfSome result (IsFirstWrongFrom first (down_epochs downs.now seat.now.number) seat.now.receipts) }
{
    first_wrong_from(first, down_epochs(downs, seat.client()), seat.receipts())
}

/// The place of the first wrong receipt of a seat.
fn first_of_server<L: HubLedger>(
    seat: &ServerSeat<L>,
    ups: &[UpHistory],
    first: u32,
) -> Option<usize>
    ensures right { IfNone result (IsRightUp first ups.now seat.now) }
    ensures wrong { IfSome result (IsWrongUp first ups.now seat.now) }
{
    wrong_of_server(seat, ups, first)
}

fn wrong_of_server<L: HubLedger>(
    seat: &ServerSeat<L>,
    ups: &[UpHistory],
    first: u32,
) -> Option<usize>
    ensures stand { IfNone result (StandAllFrom first (up_epochs ups.now seat.now.number) seat.now.receipts) }
    ensures rise { IfNone result (Rise seat.now.receipts) }
    ensures some { IfSome result (IsFirstWrongFrom first (up_epochs ups.now seat.now.number) seat.now.receipts) }
{
    first_wrong_from(first, up_epochs(ups, seat.server()), seat.receipts())
}
