//! The figures in Prometheus' text format.
//!
//! The families of clients, servers and counters have one shape, with a clause for each.
ghost use Rattle.std.specs.Prelude.{◌≡◌, ◌++◌, ◌∷◌, [], flat_map, map, codes, IfOk, OnOk};
ghost use Rattle.operator_port.specs.Metrics.{boot_lines, bucket_line, build_info, client_state_line, down_words, end_sample, family_lines, gauge, head, histogram, histogram_totals, labelled_line, lease_sample, metric_lines, one_value, sample_line, server_family, server_help, server_sample, server_state_line, text_line, up_words, uptime_lines, value_line, work_family, work_help, work_sample};
ghost use Rattle.operator_port.specs.Destinations.{destination_family, destination_help, destination_sample};
ghost use Rattle.operator_port.specs.Ends.{ends_family, ends_help};
ghost use Rattle.operator_port.specs.Seconds.{seconds_of_micros};
ghost use Rattle.operator_port.specs.Texts.{text_of};

use crate::counters::{Counter, ServerCounter};
use crate::destinations::DestinationCounter;
use crate::ends::Ends;
use crate::escapes::push_label;
use crate::figures::{
    Bucket, ClientRow, DestinationRow, EndRow, Figures, Latency, ServerRow, ServerWork,
};
use crate::pages::{Prints, push_all, push_line, push_str};
use crate::sample::{ClientFigure, ServerFigure};
use crate::seconds::{lease_seconds, seconds_of_micros, seconds_of_millis};
use crate::server_histogram::push_server_latency;
use crate::states::{clients_that_are, down_text, servers_that_are, up_text};
use hub_close::{DownWord, UpWord};
use std::alloc::{AllocError, Global};

/// The version that the figures name.
const VERSION: &str = "0.1.0";

/// Values under one name.
#[derive(Clone, Copy, Drop)]
pub(crate) enum Family {
    BuildInfo,
    Boot,
    Uptime,
    /// Clients by how they stand.
    Clients,
    /// Servers by how they stand.
    Servers,
    OfClients(ClientFigure),
    OfServers(ServerFigure),
    /// How much of each server's lease is left.
    Leases,
    Counter(Counter),
    OfWork(ServerCounter),
    OfDestinations(DestinationCounter),
    /// Connections that ended, by their causes.
    Ended(Ends),
    /// How long dispatches took.
    Latency,
    /// How long those to each server took.
    ServerLatency,
}

/// The figures in Prometheus' text format, each line with its line feed; the last one is `# EOF`.
///
/// Out of memory is the one error.
pub fn metrics_page(alloc: Global, figures: &Figures) -> Result<Vec<u8>, AllocError>
    ensures { IfOk result (λ t. t.items ≡ text_of (metric_lines figures.now)) }
{
    let families = [
        Family::BuildInfo,
        Family::Boot,
        Family::Uptime,
        Family::Clients,
        Family::Servers,
        Family::OfClients(ClientFigure::Entries),
        Family::OfClients(ClientFigure::Records),
        Family::OfClients(ClientFigure::Epochs),
        Family::OfClients(ClientFigure::Queued),
        Family::OfServers(ServerFigure::Up),
        Family::OfServers(ServerFigure::Load),
        Family::OfServers(ServerFigure::Ejected),
        Family::Leases,
        Family::OfServers(ServerFigure::Records),
        Family::OfServers(ServerFigure::Epochs),
        Family::OfServers(ServerFigure::Queued),
        Family::Counter(Counter::Dispatches),
        Family::Counter(Counter::Discards),
        Family::Counter(Counter::Replies),
        Family::Counter(Counter::Nacks),
        Family::Counter(Counter::DrainedNacks),
        Family::Counter(Counter::NoRoute),
        Family::Counter(Counter::UpstreamLost),
        Family::Counter(Counter::Retries),
        Family::Counter(Counter::LateAnswers),
        Family::OfWork(ServerCounter::Sendings),
        Family::OfWork(ServerCounter::Replies),
        Family::OfWork(ServerCounter::Nacks),
        Family::OfWork(ServerCounter::Errors),
        Family::OfWork(ServerCounter::LostSendings),
        Family::OfDestinations(DestinationCounter::Dispatches),
        Family::OfDestinations(DestinationCounter::Nacks),
        Family::Counter(Counter::ClientFramesRead),
        Family::Counter(Counter::ClientFramesWritten),
        Family::Counter(Counter::ClientBytesRead),
        Family::Counter(Counter::ClientBytesWritten),
        Family::Counter(Counter::ServerFramesRead),
        Family::Counter(Counter::ServerFramesWritten),
        Family::Counter(Counter::ServerBytesRead),
        Family::Counter(Counter::ServerBytesWritten),
        Family::Ended(Ends::Clients),
        Family::Ended(Ends::Servers),
        Family::Ended(Ends::TurnedAway),
        Family::Latency,
        Family::ServerLatency,
    ];
    let mut text = Vec::new(alloc);
    push_families(alloc, &mut text, figures, &families)?;
    push_line(&mut text, "# EOF")?;
    Ok(text)
}

fn push_families(
    alloc: Global,
    text: &mut Vec<u8>,
    figures: &Figures,
    families: &[Family],
) -> Result<(), AllocError>
    ensures { OnOk result (text.new.items
        ≡ text.old.items ++ text_of (flat_map (family_lines figures.now) families.now)) }
{
    for family in families {
        push_family(alloc, text, figures, *family)?;
    }
    Ok(())
}

fn push_family(
    alloc: Global,
    text: &mut Vec<u8>,
    figures: &Figures,
    family: Family,
) -> Result<(), AllocError>
    ensures { OnOk result (text.new.items ≡ text.old.items ++ text_of (family_lines figures.now family)) }
{
    match family {
        Family::BuildInfo => push_build(alloc, text),
        Family::Boot => push_boot(alloc, text, figures.boot),
        Family::Uptime => push_uptime(alloc, text, figures.elapsed),
        Family::Clients => push_clients(alloc, text, figures.clients.as_slice()),
        Family::Servers => push_servers(alloc, text, figures.servers.as_slice()),
        Family::OfClients(figure) => {
            let sum = figure.sum(figures.clients.as_slice());
            let (name, help) = (figure.name(), figure.help());
            push_value(alloc, text, name, help, "gauge", sum)
        }
        Family::OfServers(figure) => push_samples(alloc, text, figure, figures.servers.as_slice()),
        Family::Leases => { push_leases(alloc, text, figures.elapsed, figures.servers.as_slice()) }
        Family::Counter(counter) => {
            let count = counter.of(&figures.traffic);
            let (name, help) = (counter.name(), counter.help());
            push_value(alloc, text, name, help, "counter", count)
        }
        Family::OfWork(counter) => push_work(alloc, text, counter, figures.work.as_slice()),
        Family::OfDestinations(counter) => {
            push_destinations(alloc, text, counter, figures.destinations.as_slice())
        }
        Family::Ended(kind) => push_ends(alloc, text, kind, kind.of(&figures.ended)),
        Family::Latency => push_latency(alloc, text, &figures.latency),
        Family::ServerLatency => push_server_latency(alloc, text, figures.work.as_slice()),
    }
}

pub(crate) fn push_head(
    alloc: Global,
    text: &mut Vec<u8>,
    name: &str,
    help: &str,
    kind: &str,
) -> Result<(), AllocError>
    ensures { OnOk result (text.new.items ≡ text.old.items ++ (head name.now help.now kind.now ++ (10 ∷ []))) }
{
    let lines = format!(in alloc; "# HELP {name} {help}\n# TYPE {name} {kind}")?;
    push_line(text, lines.as_str())
}

fn push_gauge(alloc: Global, text: &mut Vec<u8>, name: &str, help: &str) -> Result<(), AllocError>
    ensures { OnOk result (text.new.items ≡ text.old.items ++ (gauge name.now help.now ++ (10 ∷ []))) }
{
    push_head(alloc, text, name, help, "gauge")
}

fn push_text(alloc: Global, text: &mut Vec<u8>, name: &str, value: &str) -> Result<(), AllocError>
    ensures { OnOk result (text.new.items ≡ text.old.items ++ (text_line name.now value.now ++ (10 ∷ []))) }
{
    let line = format!(in alloc; "{name} {value}")?;
    push_line(text, line.as_str())
}

fn push_number(alloc: Global, text: &mut Vec<u8>, name: &str, value: u64) -> Result<(), AllocError>
    ensures { OnOk result (text.new.items ≡ text.old.items ++ (value_line name.now value ++ (10 ∷ []))) }
{
    let line = format!(in alloc; "{name} {value}")?;
    push_line(text, line.as_str())
}

fn push_value(
    alloc: Global,
    text: &mut Vec<u8>,
    name: &str,
    help: &str,
    kind: &str,
    value: u64,
) -> Result<(), AllocError>
    ensures { OnOk result (text.new.items
        ≡ text.old.items ++ text_of (one_value name.now help.now kind.now value)) }
{
    push_head(alloc, text, name, help, kind)?;
    push_number(alloc, text, name, value)
}

fn push_build(alloc: Global, text: &mut Vec<u8>) -> Result<(), AllocError>
    ensures { OnOk result (text.new.items ≡ text.old.items ++ text_of (build_info VERSION.now)) }
{
    let name = "voltgalley_build_info";
    push_gauge(alloc, text, name, "1, with the version of the router.")?;
    let label = Label {
        name: "version",
        value: VERSION,
    };
    push_sample(alloc, text, name, &label, 1)
}

fn push_boot(alloc: Global, text: &mut Vec<u8>, boot: u64) -> Result<(), AllocError>
    ensures { OnOk result (text.new.items ≡ text.old.items ++ text_of (boot_lines boot)) }
{
    let name = "voltgalley_boot";
    push_value(alloc, text, name, "The number of the boot.", "gauge", boot)
}

fn push_uptime(alloc: Global, text: &mut Vec<u8>, elapsed: u64) -> Result<(), AllocError>
    ensures { OnOk result (text.new.items ≡ text.old.items ++ text_of (uptime_lines elapsed)) }
{
    let name = "voltgalley_uptime_seconds";
    push_gauge(alloc, text, name, "Time since the router's start.")?;
    let seconds = seconds_of_millis(alloc, elapsed)?;
    push_text(alloc, text, name, seconds.as_str())
}

fn push_clients(alloc: Global, text: &mut Vec<u8>, clients: &[ClientRow]) -> Result<(), AllocError>
    ensures { OnOk result (text.new.items ≡ text.old.items
        ++ text_of (gauge (codes "voltgalley_clients") (codes "Sessions of clients by how they stand.")
        ∷ map (client_state_line clients.now) down_words)) }
{
    let words = [
        DownWord::Open,
        DownWord::Draining,
        DownWord::Drained,
        DownWord::Closed,
    ];
    let help = "Sessions of clients by how they stand.";
    push_gauge(alloc, text, "voltgalley_clients", help)?;
    push_all(alloc, text, &Clients { clients }, &words)
}

fn push_servers(alloc: Global, text: &mut Vec<u8>, servers: &[ServerRow]) -> Result<(), AllocError>
    ensures { OnOk result (text.new.items ≡ text.old.items
        ++ text_of (gauge (codes "voltgalley_servers") (codes "Servers by how they stand.")
        ∷ map (server_state_line servers.now) up_words)) }
{
    let words = [
        UpWord::Opening,
        UpWord::Open,
        UpWord::Retired,
        UpWord::Drained,
        UpWord::Closed,
    ];
    push_gauge(
        alloc,
        text,
        "voltgalley_servers",
        "Servers by how they stand.",
    )?;
    push_all(alloc, text, &Servers { servers }, &words)
}

fn push_samples(
    alloc: Global,
    text: &mut Vec<u8>,
    figure: ServerFigure,
    servers: &[ServerRow],
) -> Result<(), AllocError>
    ensures { OnOk result (text.new.items ≡ text.old.items
        ++ text_of (gauge (server_family figure) (server_help figure) ∷ map (server_sample figure) servers.now)) }
{
    push_gauge(alloc, text, figure.name(), figure.help())?;
    push_all(alloc, text, &figure, servers)
}

fn push_leases(
    alloc: Global,
    text: &mut Vec<u8>,
    elapsed: u64,
    servers: &[ServerRow],
) -> Result<(), AllocError>
    ensures { OnOk result (text.new.items ≡ text.old.items
        ++ text_of (gauge (codes "voltgalley_server_lease_seconds") (codes "What is left of the server's lease.")
        ∷ map (lease_sample elapsed) servers.now)) }
{
    let help = "What is left of the server's lease.";
    push_gauge(alloc, text, "voltgalley_server_lease_seconds", help)?;
    push_all(alloc, text, &Leases { elapsed }, servers)?;
    Ok(())
}

fn push_work(
    alloc: Global,
    text: &mut Vec<u8>,
    counter: ServerCounter,
    rows: &[ServerWork],
) -> Result<(), AllocError>
    ensures { OnOk result (text.new.items ≡ text.old.items
        ++ text_of (head (work_family counter) (work_help counter) (codes "counter")
        ∷ map (work_sample counter) rows.now)) }
{
    push_head(alloc, text, counter.name(), counter.help(), "counter")?;
    push_all(alloc, text, &counter, rows)
}

fn push_destinations(
    alloc: Global,
    text: &mut Vec<u8>,
    counter: DestinationCounter,
    rows: &[DestinationRow],
) -> Result<(), AllocError>
    ensures { OnOk result (text.new.items ≡ text.old.items
        ++ text_of (head (destination_family counter) (destination_help counter) (codes "counter")
        ∷ map (destination_sample counter) rows.now)) }
{
    let (name, help) = (counter.name(), counter.help());
    push_head(alloc, text, name, help, "counter")?;
    push_all(alloc, text, &counter, rows)
}

fn push_ends(
    alloc: Global,
    text: &mut Vec<u8>,
    kind: Ends,
    rows: &[EndRow],
) -> Result<(), AllocError>
    ensures { OnOk result (text.new.items ≡ text.old.items
        ++ text_of (head (ends_family kind) (ends_help kind) (codes "counter") ∷ map (end_sample kind) rows.now)) }
{
    push_head(alloc, text, kind.name(), kind.help(), "counter")?;
    push_all(alloc, text, &kind, rows)
}

fn push_latency(alloc: Global, text: &mut Vec<u8>, latency: &Latency) -> Result<(), AllocError>
    ensures { OnOk result (text.new.items ≡ text.old.items ++ text_of (histogram latency.now)) }
{
    let name = "voltgalley_dispatch_seconds";
    push_head(alloc, text, name, "How long dispatches took.", "histogram")?;
    push_all(alloc, text, &Buckets, latency.buckets.as_slice())?;
    push_totals(alloc, text, latency.count, latency.sum)?;
    Ok(())
}

fn push_totals(alloc: Global, text: &mut Vec<u8>, count: u64, sum: u64) -> Result<(), AllocError>
    ensures { OnOk result (text.new.items ≡ text.old.items ++ text_of (histogram_totals count sum)) }
{
    push_bucket(alloc, text, "+Inf", count)?;
    push_micros(alloc, text, "voltgalley_dispatch_seconds_sum", sum)?;
    push_number(alloc, text, "voltgalley_dispatch_seconds_count", count)?;
    Ok(())
}

fn push_micros(alloc: Global, text: &mut Vec<u8>, name: &str, micros: u64) -> Result<(), AllocError>
    ensures { OnOk result (text.new.items
        ≡ text.old.items ++ (text_line name.now (seconds_of_micros micros) ++ (10 ∷ []))) }
{
    let seconds = seconds_of_micros(alloc, micros)?;
    push_text(alloc, text, name, seconds.as_str())
}

fn push_bucket(alloc: Global, text: &mut Vec<u8>, bound: &str, count: u64) -> Result<(), AllocError>
    ensures { OnOk result (text.new.items ≡ text.old.items ++ (bucket_line bound.now count ++ (10 ∷ []))) }
{
    let label = Label {
        name: "le",
        value: bound,
    };
    push_sample(
        alloc,
        text,
        "voltgalley_dispatch_seconds_bucket",
        &label,
        count,
    )
}

/// A label, and what stands behind its equals sign.
#[derive(Clone, Copy, Drop)]
pub(crate) struct Label<'a> {
    pub name: &'a str,
    pub value: &'a str,
}

pub(crate) fn push_sample(
    alloc: Global,
    text: &mut Vec<u8>,
    name: &str,
    label: &Label<'_>,
    value: u64,
) -> Result<(), AllocError>
    ensures { OnOk result (text.new.items ≡ text.old.items
        ++ (sample_line name.now label.now.name.now label.now.value.now value ++ (10 ∷ []))) }
{
    let value = format!(in alloc; "{value}")?;
    push_labelled(alloc, text, name, label, value.as_str())
}

pub(crate) fn push_labelled(
    alloc: Global,
    text: &mut Vec<u8>,
    name: &str,
    label: &Label<'_>,
    value: &str,
) -> Result<(), AllocError>
    ensures { OnOk result (text.new.items ≡ text.old.items
        ++ (labelled_line name.now label.now.name.now label.now.value.now value.now ++ (10 ∷ []))) }
{
    let Label {
        name: label,
        value: of,
    } = label;
    let before = format!(in alloc; "{name}{{{label}=\"")?;
    push_str(text, before.as_str())?;
    push_label(text, of)?;
    let behind = format!(in alloc; "\"}} {value}")?;
    push_line(text, behind.as_str())
}

/// Prints how many clients stand so.
#[derive(Drop)]
struct Clients<'a> {
    clients: &'a [ClientRow],
}

impl Prints<DownWord> for Clients<'_> {
    ghost use Rattle.operator_port.specs.Metrics.{client_state_line};

    ghost line = { λ p word. client_state_line p.clients.now word };

    fn push(&self, alloc: Global, text: &mut Vec<u8>, row: &DownWord) -> Result<(), AllocError> {
        let count = clients_that_are(*row, self.clients);
        let label = Label {
            name: "state",
            value: down_text(*row),
        };
        push_sample(alloc, text, "voltgalley_clients", &label, count as u64)
    }
}

/// Prints how many servers stand so.
#[derive(Drop)]
struct Servers<'a> {
    servers: &'a [ServerRow],
}

impl Prints<UpWord> for Servers<'_> {
    ghost use Rattle.operator_port.specs.Metrics.{server_state_line};

    ghost line = { λ p word. server_state_line p.servers.now word };

    fn push(&self, alloc: Global, text: &mut Vec<u8>, row: &UpWord) -> Result<(), AllocError> {
        let count = servers_that_are(*row, self.servers);
        let label = Label {
            name: "state",
            value: up_text(*row),
        };
        push_sample(alloc, text, "voltgalley_servers", &label, count as u64)
    }
}

impl Prints<ServerRow> for ServerFigure {
    ghost use Rattle.operator_port.specs.Metrics.{server_sample};

    ghost line = { λ figure row. server_sample figure row };

    fn push(&self, alloc: Global, text: &mut Vec<u8>, row: &ServerRow) -> Result<(), AllocError> {
        let label = Label {
            name: "server",
            value: row.name.as_str(),
        };
        push_sample(alloc, text, self.name(), &label, self.of(row))
    }
}

/// Prints what is left of a server's lease.
#[derive(Drop)]
struct Leases {
    elapsed: u64,
}

impl Prints<ServerRow> for Leases {
    ghost use Rattle.operator_port.specs.Metrics.{lease_sample};

    ghost line = { λ p row. lease_sample p.elapsed row };

    fn push(&self, alloc: Global, text: &mut Vec<u8>, row: &ServerRow) -> Result<(), AllocError> {
        let label = Label {
            name: "server",
            value: row.name.as_str(),
        };
        let left = lease_seconds(alloc, row.lapse, self.elapsed)?;
        push_labelled(
            alloc,
            text,
            "voltgalley_server_lease_seconds",
            &label,
            left.as_str(),
        )
    }
}

impl Prints<ServerWork> for ServerCounter {
    ghost use Rattle.operator_port.specs.Metrics.{work_sample};

    ghost line = { λ counter row. work_sample counter row };

    fn push(&self, alloc: Global, text: &mut Vec<u8>, row: &ServerWork) -> Result<(), AllocError> {
        let label = Label {
            name: "server",
            value: row.name.as_str(),
        };
        push_sample(alloc, text, self.name(), &label, self.of(row))
    }
}

impl Prints<EndRow> for Ends {
    ghost use Rattle.operator_port.specs.Metrics.{end_sample};

    ghost line = { λ kind row. end_sample kind row };

    fn push(&self, alloc: Global, text: &mut Vec<u8>, row: &EndRow) -> Result<(), AllocError> {
        let label = Label {
            name: "cause",
            value: row.end.text(),
        };
        push_sample(alloc, text, self.name(), &label, row.count)
    }
}

/// Prints how many dispatches took no longer.
#[derive(Drop)]
struct Buckets;

impl Prints<Bucket> for Buckets {
    ghost use Rattle.operator_port.specs.Metrics.{bucket_sample};

    ghost line = { λ _ row. bucket_sample row };

    fn push(&self, alloc: Global, text: &mut Vec<u8>, row: &Bucket) -> Result<(), AllocError> {
        let label = seconds_of_micros(alloc, row.bound)?;
        push_bucket(alloc, text, label.as_str(), row.count)
    }
}
