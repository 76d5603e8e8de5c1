//! Figures, and the texts of a page of metrics and of `status full`.

use crate::texts::prints;
use hub_close::{DownWord, UpWord};
use mux_history::{Delays, KindCounts};
use operator_port::{
    Bucket, ClientRow, DestinationRow, ENDS, End, EndRow, Ended, Figures, Latency, Reply,
    ServerRow, ServerWork, Traffic, Volume, fixed_reply,
};
use std::alloc::{AllocError, Global};
use std::net::{Ipv4Addr, SocketAddr};
use std::test::Fail;

fn client(number: u64, word: DownWord, entries: usize) -> ClientRow {
    ClientRow {
        number,
        peer: Some(SocketAddr::from((Ipv4Addr::new(10, 0, 0, 7), 51_334))),
        word,
        entries,
        records: 118,
        epoch: 3,
        queued: 1,
    }
}

/// How servers stand: how many dispatches they have, when their lease lapses, and how long they are asked last.
const SERVERS: &[(&str, UpWord, usize, Option<u64>, u64)] = &[
    ("users-1", UpWord::Open, 2, Some(44_317), 0),
    ("b", UpWord::Closed, 0, Some(34_000), 1),
    ("users-2", UpWord::Open, 0, None, 640_000),
    ("c", UpWord::Retired, 0, Some(34_316), u64::MAX),
    ("d", UpWord::Opening, 0, Some(u64::MAX), 0),
];

fn server(
    alloc: Global,
    name: &str,
    word: UpWord,
    load: usize,
    lapse: Option<u64>,
    ejected: u64,
) -> Result<ServerRow, AllocError> {
    Ok(ServerRow {
        name: String::from_str(alloc, name)?,
        peer: None,
        word,
        load,
        lapse,
        ejected,
        records: 97,
        epoch: 0,
        queued: 5,
    })
}

const TRAFFIC: Traffic = Traffic {
    clients: Volume {
        frames_read: 31,
        frames_written: 32,
        bytes_read: 3_300,
        bytes_written: 34_000,
    },
    servers: Volume {
        frames_read: 41,
        frames_written: 0,
        bytes_read: 4_300,
        bytes_written: u64::MAX,
    },
    steps: KindCounts {
        took: 21,
        took_drained: 22,
        discarded: 23,
        noted: 54,
        passed: 24,
        nacked: 25,
        unrouted: 26,
        failed: 27,
        retried: 28,
        late: 29,
        offered: 70,
        settled: 71,
        settled_nack: 72,
        lost_one: 73,
    },
};

/// Each bound, and how many took no longer.
const BUCKETS: &[(u64, u64)] = &[(100, 3), (1_000, 3), (25_000, 11), (u64::MAX, u64::MAX)];

fn latency(alloc: Global) -> Result<Latency, AllocError> {
    let mut buckets = Vec::new(alloc);
    for (bound, count) in BUCKETS {
        let bucket = Bucket {
            bound: *bound,
            count: *count,
        };
        buckets.push(bucket).map_err(AllocError::from)?;
    }
    Ok(Latency {
        buckets,
        count: u64::MAX,
        sum: 7_654_321,
    })
}

// Each cause as often as its number says, and so many times more.
fn ends(alloc: Global, more: u64) -> Result<Vec<EndRow>, AllocError> {
    let mut rows = Vec::new(alloc);
    for end in ENDS {
        let count = end.code().saturating_add(more);
        rows.push(EndRow { end, count }).map_err(AllocError::from)?;
    }
    Ok(rows)
}

#[test]
fn causes(_rt: HostRuntime) -> Result<(), Fail> {
    for (place, end) in ENDS.iter().enumerate() {
        if end.code() != place as u64 || End::at(end.code()) != Some(*end) {
            return Err(Fail::from(place));
        }
    }
    for code in [13, 14, u64::MAX] {
        if End::at(code).is_some() {
            return Err(Fail::from(code as usize));
        }
    }
    Ok(())
}

// Seven dispatches were answered, one of them by a nack.
fn delays() -> Delays {
    let mut delays = Delays::none();
    for ms in [0, 1, 2, 30, 5_000, 5_001] {
        delays.add(false, ms);
    }
    delays.add(true, 3);
    delays
}

// What each server did: so many sendings, and one reply, nack, lost one and error more than the former.
fn work(alloc: Global) -> Result<Vec<ServerWork>, AllocError> {
    let mut rows = Vec::new(alloc);
    for (name, offered) in [("users-1", 50), ("b", 60)] {
        let steps = KindCounts {
            offered,
            settled: offered + 1,
            settled_nack: offered + 2,
            lost_one: offered + 3,
            ..KindCounts::none()
        };
        let name = String::from_str(alloc, name)?;
        rows.push(ServerWork {
            name,
            steps,
            errors: offered + 4,
            delays: delays(),
        })
        .map_err(AllocError::from)?;
    }
    Ok(rows)
}

const DESTINATIONS: &[(Option<&[u8]>, u64, u64)] = &[
    (Some(b"/s/users"), 9, 2),
    (Some(b"other"), 8, 1),
    (Some(b"Other"), 7, 0),
    (Some(b"%6fther"), 6, 0),
    (Some(b" \"\\\n~\x7f\xff\0"), 5, 5),
    (Some(b""), u64::MAX, 0),
    (None, 4, 3),
];

fn destinations(alloc: Global) -> Result<Vec<DestinationRow>, AllocError> {
    let mut rows = Vec::new(alloc);
    for (dst, dispatches, nacks) in DESTINATIONS {
        let dst = match dst {
            Some(dst) => Some(Vec::from_slice(alloc, *dst)?),
            None => None,
        };
        rows.push(DestinationRow {
            dst,
            dispatches: *dispatches,
            nacks: *nacks,
        })
        .map_err(AllocError::from)?;
    }
    Ok(rows)
}

/// Two clients and five servers, 34,316 milliseconds after the router began.
pub fn figures(alloc: Global) -> Result<Figures, AllocError> {
    let mut clients = Vec::new(alloc);
    clients
        .push(client(1, DownWord::Open, 2))
        .map_err(AllocError::from)?;
    clients
        .push(client(2, DownWord::Draining, 7))
        .map_err(AllocError::from)?;
    let mut servers = Vec::new(alloc);
    for (name, word, load, lapse, ejected) in SERVERS {
        servers
            .push(server(alloc, name, *word, *load, *lapse, *ejected)?)
            .map_err(AllocError::from)?;
    }
    Ok(Figures {
        boot: 7,
        elapsed: 34_316,
        history: 65_536,
        server_history: 65_536,
        clients,
        servers,
        work: work(alloc)?,
        destinations: destinations(alloc)?,
        traffic: TRAFFIC,
        ended: Ended {
            clients: ends(alloc, 100)?,
            servers: ends(alloc, 200)?,
            turned_away: ends(alloc, u64::MAX)?,
        },
        latency: latency(alloc)?,
    })
}

const FULL: &str = "boot 7 now 34316
client 1 open entries 2 records 118 of 65536 epoch 3 queued 1 peer 10.0.0.7:51334
client 2 draining entries 7 records 118 of 65536 epoch 3 queued 1 peer 10.0.0.7:51334
server users-1 open load 2 lease 10001 ejected 0 records 97 of 65536 epoch 0 queued 5 peer unknown
server b closed load 0 lease 0 ejected 1 records 97 of 65536 epoch 0 queued 5 peer unknown
server users-2 open load 0 lease none ejected 640000 records 97 of 65536 epoch 0 queued 5 peer unknown
server c retired load 0 lease 0 ejected 18446744073709551615 records 97 of 65536 epoch 0 queued 5 peer unknown
server d opening load 0 lease 18446744073709517299 ejected 0 records 97 of 65536 epoch 0 queued 5 peer unknown
end
";

pub const METRICS: &str = "# HELP voltgalley_build_info 1, with the version of the router.
# TYPE voltgalley_build_info gauge
voltgalley_build_info{version=\"0.1.0\"} 1
# HELP voltgalley_boot The number of the boot.
# TYPE voltgalley_boot gauge
voltgalley_boot 7
# HELP voltgalley_uptime_seconds Time since the router's start.
# TYPE voltgalley_uptime_seconds gauge
voltgalley_uptime_seconds 34.316
# HELP voltgalley_clients Sessions of clients by how they stand.
# TYPE voltgalley_clients gauge
voltgalley_clients{state=\"open\"} 1
voltgalley_clients{state=\"draining\"} 1
voltgalley_clients{state=\"drained\"} 0
voltgalley_clients{state=\"closed\"} 0
# HELP voltgalley_servers Servers by how they stand.
# TYPE voltgalley_servers gauge
voltgalley_servers{state=\"opening\"} 1
voltgalley_servers{state=\"open\"} 2
voltgalley_servers{state=\"retired\"} 1
voltgalley_servers{state=\"drained\"} 0
voltgalley_servers{state=\"closed\"} 1
# HELP voltgalley_open_dispatches Dispatches that clients hold.
# TYPE voltgalley_open_dispatches gauge
voltgalley_open_dispatches 9
# HELP voltgalley_client_records Records of the present epochs of clients' sessions.
# TYPE voltgalley_client_records gauge
voltgalley_client_records 236
# HELP voltgalley_client_epochs Epochs of clients' sessions that were ended.
# TYPE voltgalley_client_epochs gauge
voltgalley_client_epochs 6
# HELP voltgalley_client_queued_frames Frames that clients haven't read yet.
# TYPE voltgalley_client_queued_frames gauge
voltgalley_client_queued_frames 2
# HELP voltgalley_server_up 1 if the server is open, else 0.
# TYPE voltgalley_server_up gauge
voltgalley_server_up{server=\"users-1\"} 1
voltgalley_server_up{server=\"b\"} 0
voltgalley_server_up{server=\"users-2\"} 1
voltgalley_server_up{server=\"c\"} 0
voltgalley_server_up{server=\"d\"} 0
# HELP voltgalley_server_load Dispatches that the server has.
# TYPE voltgalley_server_load gauge
voltgalley_server_load{server=\"users-1\"} 2
voltgalley_server_load{server=\"b\"} 0
voltgalley_server_load{server=\"users-2\"} 0
voltgalley_server_load{server=\"c\"} 0
voltgalley_server_load{server=\"d\"} 0
# HELP voltgalley_server_ejected 1 if the server is asked last, else 0.
# TYPE voltgalley_server_ejected gauge
voltgalley_server_ejected{server=\"users-1\"} 0
voltgalley_server_ejected{server=\"b\"} 1
voltgalley_server_ejected{server=\"users-2\"} 1
voltgalley_server_ejected{server=\"c\"} 1
voltgalley_server_ejected{server=\"d\"} 0
# HELP voltgalley_server_lease_seconds What is left of the server's lease.
# TYPE voltgalley_server_lease_seconds gauge
voltgalley_server_lease_seconds{server=\"users-1\"} 10.001
voltgalley_server_lease_seconds{server=\"b\"} 0.000
voltgalley_server_lease_seconds{server=\"users-2\"} +Inf
voltgalley_server_lease_seconds{server=\"c\"} 0.000
voltgalley_server_lease_seconds{server=\"d\"} 18446744073709517.299
# HELP voltgalley_server_records Records of the present epoch of the server's session.
# TYPE voltgalley_server_records gauge
voltgalley_server_records{server=\"users-1\"} 97
voltgalley_server_records{server=\"b\"} 97
voltgalley_server_records{server=\"users-2\"} 97
voltgalley_server_records{server=\"c\"} 97
voltgalley_server_records{server=\"d\"} 97
# HELP voltgalley_server_epoch Epochs of the server's session that were ended.
# TYPE voltgalley_server_epoch gauge
voltgalley_server_epoch{server=\"users-1\"} 0
voltgalley_server_epoch{server=\"b\"} 0
voltgalley_server_epoch{server=\"users-2\"} 0
voltgalley_server_epoch{server=\"c\"} 0
voltgalley_server_epoch{server=\"d\"} 0
# HELP voltgalley_server_queued_frames Frames that the server hasn't read yet.
# TYPE voltgalley_server_queued_frames gauge
voltgalley_server_queued_frames{server=\"users-1\"} 5
voltgalley_server_queued_frames{server=\"b\"} 5
voltgalley_server_queued_frames{server=\"users-2\"} 5
voltgalley_server_queued_frames{server=\"c\"} 5
voltgalley_server_queued_frames{server=\"d\"} 5
# HELP voltgalley_dispatches_total Dispatches that were taken from clients.
# TYPE voltgalley_dispatches_total counter
voltgalley_dispatches_total 43
# HELP voltgalley_discards_total Open dispatches that clients discarded.
# TYPE voltgalley_discards_total counter
voltgalley_discards_total 23
# HELP voltgalley_replies_total Replies of servers that were passed on to clients, nacks among them.
# TYPE voltgalley_replies_total counter
voltgalley_replies_total 24
# HELP voltgalley_nacks_total Dispatches that no server could take.
# TYPE voltgalley_nacks_total counter
voltgalley_nacks_total 25
# HELP voltgalley_drained_nacks_total Dispatches that came behind their client's Rdrain.
# TYPE voltgalley_drained_nacks_total counter
voltgalley_drained_nacks_total 22
# HELP voltgalley_no_route_total Dispatches to a destination without a route.
# TYPE voltgalley_no_route_total counter
voltgalley_no_route_total 26
# HELP voltgalley_upstream_lost_total Dispatches whose server was lost before it answered.
# TYPE voltgalley_upstream_lost_total counter
voltgalley_upstream_lost_total 27
# HELP voltgalley_retries_total Nacks of servers after which another try was made.
# TYPE voltgalley_retries_total counter
voltgalley_retries_total 28
# HELP voltgalley_late_answers_total Answers to dispatches that were discarded, or whose client was gone.
# TYPE voltgalley_late_answers_total counter
voltgalley_late_answers_total 29
# HELP voltgalley_server_sendings_total Dispatches that were sent to the server.
# TYPE voltgalley_server_sendings_total counter
voltgalley_server_sendings_total{server=\"users-1\"} 50
voltgalley_server_sendings_total{server=\"b\"} 60
# HELP voltgalley_server_replies_total Replies of the server that are no nack.
# TYPE voltgalley_server_replies_total counter
voltgalley_server_replies_total{server=\"users-1\"} 51
voltgalley_server_replies_total{server=\"b\"} 61
# HELP voltgalley_server_nacks_total Replies of the server that are a nack.
# TYPE voltgalley_server_nacks_total counter
voltgalley_server_nacks_total{server=\"users-1\"} 52
voltgalley_server_nacks_total{server=\"b\"} 62
# HELP voltgalley_server_errors_total Replies of the server that are an error.
# TYPE voltgalley_server_errors_total counter
voltgalley_server_errors_total{server=\"users-1\"} 54
voltgalley_server_errors_total{server=\"b\"} 64
# HELP voltgalley_server_lost_sendings_total Dispatches that the server had when it was lost.
# TYPE voltgalley_server_lost_sendings_total counter
voltgalley_server_lost_sendings_total{server=\"users-1\"} 53
voltgalley_server_lost_sendings_total{server=\"b\"} 63
# HELP voltgalley_destination_dispatches_total Dispatches to the destination that clients sent while it had a route.
# TYPE voltgalley_destination_dispatches_total counter
voltgalley_destination_dispatches_total{destination=\"/s/users\"} 9
voltgalley_destination_dispatches_total{destination=\"%6fther\"} 8
voltgalley_destination_dispatches_total{destination=\"Other\"} 7
voltgalley_destination_dispatches_total{destination=\"%256fther\"} 6
voltgalley_destination_dispatches_total{destination=\" %22%5c%0a~%7f%ff%00\"} 5
voltgalley_destination_dispatches_total{destination=\"\"} 18446744073709551615
voltgalley_destination_dispatches_total{destination=\"other\"} 4
# HELP voltgalley_destination_nacks_total Dispatches to the destination that no server could take.
# TYPE voltgalley_destination_nacks_total counter
voltgalley_destination_nacks_total{destination=\"/s/users\"} 2
voltgalley_destination_nacks_total{destination=\"%6fther\"} 1
voltgalley_destination_nacks_total{destination=\"Other\"} 0
voltgalley_destination_nacks_total{destination=\"%256fther\"} 0
voltgalley_destination_nacks_total{destination=\" %22%5c%0a~%7f%ff%00\"} 5
voltgalley_destination_nacks_total{destination=\"\"} 0
voltgalley_destination_nacks_total{destination=\"other\"} 3
# HELP voltgalley_client_read_frames_total Frames that were read from clients.
# TYPE voltgalley_client_read_frames_total counter
voltgalley_client_read_frames_total 31
# HELP voltgalley_client_written_frames_total Frames that were handed over to be written to clients.
# TYPE voltgalley_client_written_frames_total counter
voltgalley_client_written_frames_total 32
# HELP voltgalley_client_read_bytes_total Bytes of the frames that were read from clients.
# TYPE voltgalley_client_read_bytes_total counter
voltgalley_client_read_bytes_total 3300
# HELP voltgalley_client_written_bytes_total Bytes of the frames that were handed over to be written to clients.
# TYPE voltgalley_client_written_bytes_total counter
voltgalley_client_written_bytes_total 34000
# HELP voltgalley_server_read_frames_total Frames that were read from servers.
# TYPE voltgalley_server_read_frames_total counter
voltgalley_server_read_frames_total 41
# HELP voltgalley_server_written_frames_total Frames that were handed over to be written to servers.
# TYPE voltgalley_server_written_frames_total counter
voltgalley_server_written_frames_total 0
# HELP voltgalley_server_read_bytes_total Bytes of the frames that were read from servers.
# TYPE voltgalley_server_read_bytes_total counter
voltgalley_server_read_bytes_total 4300
# HELP voltgalley_server_written_bytes_total Bytes of the frames that were handed over to be written to servers.
# TYPE voltgalley_server_written_bytes_total counter
voltgalley_server_written_bytes_total 18446744073709551615
# HELP voltgalley_clients_ended_total Connections of clients that ended, of those that had a session.
# TYPE voltgalley_clients_ended_total counter
voltgalley_clients_ended_total{cause=\"closed\"} 100
voltgalley_clients_ended_total{cause=\"read\"} 101
voltgalley_clients_ended_total{cause=\"write\"} 102
voltgalley_clients_ended_total{cause=\"stream\"} 103
voltgalley_clients_ended_total{cause=\"protocol\"} 104
voltgalley_clients_ended_total{cause=\"places\"} 105
voltgalley_clients_ended_total{cause=\"memory\"} 106
voltgalley_clients_ended_total{cause=\"refused\"} 107
voltgalley_clients_ended_total{cause=\"drained\"} 108
voltgalley_clients_ended_total{cause=\"retired\"} 109
voltgalley_clients_ended_total{cause=\"cut\"} 110
voltgalley_clients_ended_total{cause=\"silent\"} 111
voltgalley_clients_ended_total{cause=\"quit\"} 112
# HELP voltgalley_servers_ended_total Connections of servers that ended.
# TYPE voltgalley_servers_ended_total counter
voltgalley_servers_ended_total{cause=\"closed\"} 200
voltgalley_servers_ended_total{cause=\"read\"} 201
voltgalley_servers_ended_total{cause=\"write\"} 202
voltgalley_servers_ended_total{cause=\"stream\"} 203
voltgalley_servers_ended_total{cause=\"protocol\"} 204
voltgalley_servers_ended_total{cause=\"places\"} 205
voltgalley_servers_ended_total{cause=\"memory\"} 206
voltgalley_servers_ended_total{cause=\"refused\"} 207
voltgalley_servers_ended_total{cause=\"drained\"} 208
voltgalley_servers_ended_total{cause=\"retired\"} 209
voltgalley_servers_ended_total{cause=\"cut\"} 210
voltgalley_servers_ended_total{cause=\"silent\"} 211
voltgalley_servers_ended_total{cause=\"quit\"} 212
# HELP voltgalley_clients_turned_away_total Connections of clients that ended, of those that got no session.
# TYPE voltgalley_clients_turned_away_total counter
voltgalley_clients_turned_away_total{cause=\"closed\"} 18446744073709551615
voltgalley_clients_turned_away_total{cause=\"read\"} 18446744073709551615
voltgalley_clients_turned_away_total{cause=\"write\"} 18446744073709551615
voltgalley_clients_turned_away_total{cause=\"stream\"} 18446744073709551615
voltgalley_clients_turned_away_total{cause=\"protocol\"} 18446744073709551615
voltgalley_clients_turned_away_total{cause=\"places\"} 18446744073709551615
voltgalley_clients_turned_away_total{cause=\"memory\"} 18446744073709551615
voltgalley_clients_turned_away_total{cause=\"refused\"} 18446744073709551615
voltgalley_clients_turned_away_total{cause=\"drained\"} 18446744073709551615
voltgalley_clients_turned_away_total{cause=\"retired\"} 18446744073709551615
voltgalley_clients_turned_away_total{cause=\"cut\"} 18446744073709551615
voltgalley_clients_turned_away_total{cause=\"silent\"} 18446744073709551615
voltgalley_clients_turned_away_total{cause=\"quit\"} 18446744073709551615
# HELP voltgalley_dispatch_seconds How long dispatches took.
# TYPE voltgalley_dispatch_seconds histogram
voltgalley_dispatch_seconds_bucket{le=\"0.000100\"} 3
voltgalley_dispatch_seconds_bucket{le=\"0.001000\"} 3
voltgalley_dispatch_seconds_bucket{le=\"0.025000\"} 11
voltgalley_dispatch_seconds_bucket{le=\"18446744073709.551615\"} 18446744073709551615
voltgalley_dispatch_seconds_bucket{le=\"+Inf\"} 18446744073709551615
voltgalley_dispatch_seconds_sum 7.654321
voltgalley_dispatch_seconds_count 18446744073709551615
# HELP voltgalley_server_dispatch_seconds How long dispatches to the server took.
# TYPE voltgalley_server_dispatch_seconds histogram
voltgalley_server_dispatch_seconds_bucket{server=\"users-1\",outcome=\"reply\",le=\"0.001\"} 2
voltgalley_server_dispatch_seconds_bucket{server=\"users-1\",outcome=\"reply\",le=\"0.002\"} 3
voltgalley_server_dispatch_seconds_bucket{server=\"users-1\",outcome=\"reply\",le=\"0.005\"} 3
voltgalley_server_dispatch_seconds_bucket{server=\"users-1\",outcome=\"reply\",le=\"0.010\"} 3
voltgalley_server_dispatch_seconds_bucket{server=\"users-1\",outcome=\"reply\",le=\"0.020\"} 3
voltgalley_server_dispatch_seconds_bucket{server=\"users-1\",outcome=\"reply\",le=\"0.050\"} 4
voltgalley_server_dispatch_seconds_bucket{server=\"users-1\",outcome=\"reply\",le=\"0.100\"} 4
voltgalley_server_dispatch_seconds_bucket{server=\"users-1\",outcome=\"reply\",le=\"0.200\"} 4
voltgalley_server_dispatch_seconds_bucket{server=\"users-1\",outcome=\"reply\",le=\"0.500\"} 4
voltgalley_server_dispatch_seconds_bucket{server=\"users-1\",outcome=\"reply\",le=\"1.000\"} 4
voltgalley_server_dispatch_seconds_bucket{server=\"users-1\",outcome=\"reply\",le=\"2.000\"} 4
voltgalley_server_dispatch_seconds_bucket{server=\"users-1\",outcome=\"reply\",le=\"5.000\"} 5
voltgalley_server_dispatch_seconds_bucket{server=\"users-1\",outcome=\"reply\",le=\"+Inf\"} 6
voltgalley_server_dispatch_seconds_sum{server=\"users-1\",outcome=\"reply\"} 10.034
voltgalley_server_dispatch_seconds_count{server=\"users-1\",outcome=\"reply\"} 6
voltgalley_server_dispatch_seconds_bucket{server=\"users-1\",outcome=\"nack\",le=\"0.001\"} 0
voltgalley_server_dispatch_seconds_bucket{server=\"users-1\",outcome=\"nack\",le=\"0.002\"} 0
voltgalley_server_dispatch_seconds_bucket{server=\"users-1\",outcome=\"nack\",le=\"0.005\"} 1
voltgalley_server_dispatch_seconds_bucket{server=\"users-1\",outcome=\"nack\",le=\"0.010\"} 1
voltgalley_server_dispatch_seconds_bucket{server=\"users-1\",outcome=\"nack\",le=\"0.020\"} 1
voltgalley_server_dispatch_seconds_bucket{server=\"users-1\",outcome=\"nack\",le=\"0.050\"} 1
voltgalley_server_dispatch_seconds_bucket{server=\"users-1\",outcome=\"nack\",le=\"0.100\"} 1
voltgalley_server_dispatch_seconds_bucket{server=\"users-1\",outcome=\"nack\",le=\"0.200\"} 1
voltgalley_server_dispatch_seconds_bucket{server=\"users-1\",outcome=\"nack\",le=\"0.500\"} 1
voltgalley_server_dispatch_seconds_bucket{server=\"users-1\",outcome=\"nack\",le=\"1.000\"} 1
voltgalley_server_dispatch_seconds_bucket{server=\"users-1\",outcome=\"nack\",le=\"2.000\"} 1
voltgalley_server_dispatch_seconds_bucket{server=\"users-1\",outcome=\"nack\",le=\"5.000\"} 1
voltgalley_server_dispatch_seconds_bucket{server=\"users-1\",outcome=\"nack\",le=\"+Inf\"} 1
voltgalley_server_dispatch_seconds_sum{server=\"users-1\",outcome=\"nack\"} 0.003
voltgalley_server_dispatch_seconds_count{server=\"users-1\",outcome=\"nack\"} 1
voltgalley_server_dispatch_seconds_bucket{server=\"b\",outcome=\"reply\",le=\"0.001\"} 2
voltgalley_server_dispatch_seconds_bucket{server=\"b\",outcome=\"reply\",le=\"0.002\"} 3
voltgalley_server_dispatch_seconds_bucket{server=\"b\",outcome=\"reply\",le=\"0.005\"} 3
voltgalley_server_dispatch_seconds_bucket{server=\"b\",outcome=\"reply\",le=\"0.010\"} 3
voltgalley_server_dispatch_seconds_bucket{server=\"b\",outcome=\"reply\",le=\"0.020\"} 3
voltgalley_server_dispatch_seconds_bucket{server=\"b\",outcome=\"reply\",le=\"0.050\"} 4
voltgalley_server_dispatch_seconds_bucket{server=\"b\",outcome=\"reply\",le=\"0.100\"} 4
voltgalley_server_dispatch_seconds_bucket{server=\"b\",outcome=\"reply\",le=\"0.200\"} 4
voltgalley_server_dispatch_seconds_bucket{server=\"b\",outcome=\"reply\",le=\"0.500\"} 4
voltgalley_server_dispatch_seconds_bucket{server=\"b\",outcome=\"reply\",le=\"1.000\"} 4
voltgalley_server_dispatch_seconds_bucket{server=\"b\",outcome=\"reply\",le=\"2.000\"} 4
voltgalley_server_dispatch_seconds_bucket{server=\"b\",outcome=\"reply\",le=\"5.000\"} 5
voltgalley_server_dispatch_seconds_bucket{server=\"b\",outcome=\"reply\",le=\"+Inf\"} 6
voltgalley_server_dispatch_seconds_sum{server=\"b\",outcome=\"reply\"} 10.034
voltgalley_server_dispatch_seconds_count{server=\"b\",outcome=\"reply\"} 6
voltgalley_server_dispatch_seconds_bucket{server=\"b\",outcome=\"nack\",le=\"0.001\"} 0
voltgalley_server_dispatch_seconds_bucket{server=\"b\",outcome=\"nack\",le=\"0.002\"} 0
voltgalley_server_dispatch_seconds_bucket{server=\"b\",outcome=\"nack\",le=\"0.005\"} 1
voltgalley_server_dispatch_seconds_bucket{server=\"b\",outcome=\"nack\",le=\"0.010\"} 1
voltgalley_server_dispatch_seconds_bucket{server=\"b\",outcome=\"nack\",le=\"0.020\"} 1
voltgalley_server_dispatch_seconds_bucket{server=\"b\",outcome=\"nack\",le=\"0.050\"} 1
voltgalley_server_dispatch_seconds_bucket{server=\"b\",outcome=\"nack\",le=\"0.100\"} 1
voltgalley_server_dispatch_seconds_bucket{server=\"b\",outcome=\"nack\",le=\"0.200\"} 1
voltgalley_server_dispatch_seconds_bucket{server=\"b\",outcome=\"nack\",le=\"0.500\"} 1
voltgalley_server_dispatch_seconds_bucket{server=\"b\",outcome=\"nack\",le=\"1.000\"} 1
voltgalley_server_dispatch_seconds_bucket{server=\"b\",outcome=\"nack\",le=\"2.000\"} 1
voltgalley_server_dispatch_seconds_bucket{server=\"b\",outcome=\"nack\",le=\"5.000\"} 1
voltgalley_server_dispatch_seconds_bucket{server=\"b\",outcome=\"nack\",le=\"+Inf\"} 1
voltgalley_server_dispatch_seconds_sum{server=\"b\",outcome=\"nack\"} 0.003
voltgalley_server_dispatch_seconds_count{server=\"b\",outcome=\"nack\"} 1
# EOF
";

#[test]
fn full(rt: HostRuntime) -> Result<(), Fail> {
    let reply = Reply::Full(figures(rt.alloc())?);
    assert!(rt; prints(rt.alloc(), &reply, FULL)? && fixed_reply(&reply).is_none());
    Ok(())
}

#[test]
fn metrics(rt: HostRuntime) -> Result<(), Fail> {
    let reply = Reply::Metrics(figures(rt.alloc())?);
    assert!(rt; prints(rt.alloc(), &reply, METRICS)?);
    Ok(())
}
