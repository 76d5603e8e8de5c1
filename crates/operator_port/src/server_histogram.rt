//! How long the dispatches to each server took, in Prometheus' text format.
ghost use Rattle.std.specs.Prelude.{◌≡◌, ◌++◌, ◌∷◌, [], flat_map, map, codes, OnOk, string_bytes};
ghost use Rattle.operator_port.specs.Metrics.{head, server_bucket, server_bucket_sample, server_count, server_histogram, server_seconds, server_sum, server_totals, spans_lines};
ghost use Rattle.operator_port.specs.Texts.{text_of};

use crate::figures::ServerWork;
use crate::metrics::push_head;
use crate::pages::{Prints, push_all, push_line};
use crate::seconds::seconds_of_millis;
use mux_history::{BOUNDS, Spans};
use std::alloc::{AllocError, Global};

pub(crate) fn push_server_latency(
    alloc: Global,
    text: &mut Vec<u8>,
    rows: &[ServerWork],
) -> Result<(), AllocError>
    ensures { OnOk result (text.new.items ≡ text.old.items
        ++ text_of (head (codes "voltgalley_server_dispatch_seconds") (codes "How long dispatches to the server took.")
        (codes "histogram") ∷ flat_map server_histogram rows.now)) }
{
    let help = "How long dispatches to the server took.";
    push_head(
        alloc,
        text,
        "voltgalley_server_dispatch_seconds",
        help,
        "histogram",
    )?;
    push_histograms(alloc, text, rows)?;
    Ok(())
}

fn push_histograms(alloc: Global, text: &mut Vec<u8>, rows: &[ServerWork]) -> Result<(), AllocError>
    ensures { OnOk result (text.new.items ≡ text.old.items ++ text_of (flat_map server_histogram rows.now)) }
{
    for row in rows {
        push_histogram(alloc, text, row)?;
    }
    Ok(())
}

fn push_histogram(alloc: Global, text: &mut Vec<u8>, row: &ServerWork) -> Result<(), AllocError>
    ensures { OnOk result (text.new.items ≡ text.old.items ++ text_of (server_histogram row.now)) }
{
    let server = row.name.as_str();
    let outcome = "reply";
    push_spans(
        alloc,
        text,
        &Labels { server, outcome },
        &row.delays.replies,
    )?;
    let outcome = "nack";
    push_spans(alloc, text, &Labels { server, outcome }, &row.delays.nacks)?;
    Ok(())
}

/// The labels of one server's histogram: its name, and what its replies were.
#[derive(Drop)]
struct Labels<'a> {
    server: &'a str,
    outcome: &'a str,
}

fn push_spans(
    alloc: Global,
    text: &mut Vec<u8>,
    labels: &Labels,
    spans: &Spans,
) -> Result<(), AllocError>
    ensures { OnOk result (text.new.items ≡ text.old.items
        ++ text_of (spans_lines labels.now.server.now labels.now.outcome.now spans.now)) }
{
    push_buckets(alloc, text, labels, spans, &BOUNDS)?;
    push_totals(alloc, text, labels, spans.count(), spans.sum())?;
    Ok(())
}

fn push_buckets(
    alloc: Global,
    text: &mut Vec<u8>,
    labels: &Labels,
    spans: &Spans,
    bounds: &[u64],
) -> Result<(), AllocError>
    ensures { OnOk result (text.new.items ≡ text.old.items
        ++ text_of (map (server_bucket_sample labels.now.server.now labels.now.outcome.now spans.now) bounds.now)) }
{
    push_all(alloc, text, &Buckets { labels, spans }, bounds)
}

fn push_totals(
    alloc: Global,
    text: &mut Vec<u8>,
    labels: &Labels,
    count: u64,
    sum: u64,
) -> Result<(), AllocError>
    ensures { OnOk result (text.new.items ≡ text.old.items
        ++ text_of (server_totals labels.now.server.now labels.now.outcome.now count sum)) }
{
    push_bucket(alloc, text, labels, "+Inf", count)?;
    push_sum(alloc, text, labels, sum)?;
    push_count(alloc, text, labels, count)?;
    Ok(())
}

fn push_sum(alloc: Global, text: &mut Vec<u8>, labels: &Labels, sum: u64) -> Result<(), AllocError>
    ensures { OnOk result (text.new.items ≡ text.old.items
        ++ (server_sum labels.now.server.now labels.now.outcome.now sum ++ (10 ∷ []))) }
{
    let seconds = seconds_of_millis(alloc, sum)?;
    push_seconds(alloc, text, labels, seconds.as_str())
}

fn push_seconds(
    alloc: Global,
    text: &mut Vec<u8>,
    labels: &Labels,
    seconds: &str,
) -> Result<(), AllocError>
    ensures { OnOk result (text.new.items ≡ text.old.items
        ++ (server_seconds labels.now.server.now labels.now.outcome.now seconds.now ++ (10 ∷ []))) }
{
    let Labels { server, outcome } = labels;
    let line = format!(in alloc;
        "voltgalley_server_dispatch_seconds_sum{{server=\"{server}\",outcome=\"{outcome}\"}} {seconds}"
    )?;
    push_line(text, line.as_str())
}

fn push_count(
    alloc: Global,
    text: &mut Vec<u8>,
    labels: &Labels,
    count: u64,
) -> Result<(), AllocError>
    ensures { OnOk result (text.new.items ≡ text.old.items
        ++ (server_count labels.now.server.now labels.now.outcome.now count ++ (10 ∷ []))) }
{
    let Labels { server, outcome } = labels;
    let line = format!(in alloc;
        "voltgalley_server_dispatch_seconds_count{{server=\"{server}\",outcome=\"{outcome}\"}} {count}"
    )?;
    push_line(text, line.as_str())
}

fn push_bucket(
    alloc: Global,
    text: &mut Vec<u8>,
    labels: &Labels,
    bound: &str,
    count: u64,
) -> Result<(), AllocError>
    ensures { OnOk result (text.new.items ≡ text.old.items
        ++ (server_bucket labels.now.server.now labels.now.outcome.now bound.now count ++ (10 ∷ []))) }
{
    let Labels { server, outcome } = labels;
    let line = format!(in alloc;
        "voltgalley_server_dispatch_seconds_bucket{{server=\"{server}\",outcome=\"{outcome}\",le=\"{bound}\"}} {count}"
    )?;
    push_line(text, line.as_str())
}

/// Prints how many dispatches to a server took no longer than a bound.
#[derive(Drop)]
struct Buckets<'a> {
    labels: &'a Labels<'a>,
    spans: &'a Spans,
}

impl Prints<u64> for Buckets<'_> {
    ghost line = { λ p bound. server_bucket_sample p.labels.now.server.now p.labels.now.outcome.now p.spans.now bound };

    fn push(&self, alloc: Global, text: &mut Vec<u8>, row: &u64) -> Result<(), AllocError> {
        let bound = seconds_of_millis(alloc, *row)?;
        push_bucket(
            alloc,
            text,
            self.labels,
            bound.as_str(),
            self.spans.within(*row),
        )
    }
}
