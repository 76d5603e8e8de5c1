//! What a router has carried, each count with its name.
ghost use Rattle.std.specs.Prelude.{◌≡◌};
ghost use Rattle.operator_port.specs.Metrics.{counter_family, counter_figure, counter_help, work_family, work_figure, work_help};

use crate::figures::{ServerWork, Traffic};

/// A count of what was carried since the router began.
#[derive(Clone, Copy, Drop)]
pub(crate) enum Counter {
    Dispatches,
    Discards,
    Replies,
    Nacks,
    DrainedNacks,
    NoRoute,
    UpstreamLost,
    Retries,
    LateAnswers,
    ClientFramesRead,
    ClientFramesWritten,
    ClientBytesRead,
    ClientBytesWritten,
    ServerFramesRead,
    ServerFramesWritten,
    ServerBytesRead,
    ServerBytesWritten,
}

/// A count of what a server's sessions did since the router began.
#[derive(Clone, Copy, Drop)]
pub(crate) enum ServerCounter {
    Sendings,
    Replies,
    Nacks,
    Errors,
    LostSendings,
}

impl Counter {
    pub(crate) fn name(self) -> &'static str
        ensures { result.now ≡ counter_family self }
    {
        match self {
            Counter::Dispatches => "voltgalley_dispatches_total",
            Counter::Discards => "voltgalley_discards_total",
            Counter::Replies => "voltgalley_replies_total",
            Counter::Nacks => "voltgalley_nacks_total",
            Counter::DrainedNacks => "voltgalley_drained_nacks_total",
            Counter::NoRoute => "voltgalley_no_route_total",
            Counter::UpstreamLost => "voltgalley_upstream_lost_total",
            Counter::Retries => "voltgalley_retries_total",
            Counter::LateAnswers => "voltgalley_late_answers_total",
            Counter::ClientFramesRead => "voltgalley_client_read_frames_total",
            Counter::ClientFramesWritten => "voltgalley_client_written_frames_total",
            Counter::ClientBytesRead => "voltgalley_client_read_bytes_total",
            Counter::ClientBytesWritten => "voltgalley_client_written_bytes_total",
            Counter::ServerFramesRead => "voltgalley_server_read_frames_total",
            Counter::ServerFramesWritten => "voltgalley_server_written_frames_total",
            Counter::ServerBytesRead => "voltgalley_server_read_bytes_total",
            Counter::ServerBytesWritten => "voltgalley_server_written_bytes_total",
        }
    }

    pub(crate) fn help(self) -> &'static str
        ensures { result.now ≡ counter_help self }
    {
        match self {
            Counter::Dispatches => "Dispatches that were taken from clients.",
            Counter::Discards => "Open dispatches that clients discarded.",
            Counter::Replies =>
                "Replies of servers that were passed on to clients, nacks among them.",
            Counter::Nacks => "Dispatches that no server could take.",
            Counter::DrainedNacks => "Dispatches that came behind their client's Rdrain.",
            Counter::NoRoute => "Dispatches to a destination without a route.",
            Counter::UpstreamLost => "Dispatches whose server was lost before it answered.",
            Counter::Retries => "Nacks of servers after which another try was made.",
            Counter::LateAnswers =>
                "Answers to dispatches that were discarded, or whose client was gone.",
            Counter::ClientFramesRead => "Frames that were read from clients.",
            Counter::ClientFramesWritten =>
                "Frames that were handed over to be written to clients.",
            Counter::ClientBytesRead => "Bytes of the frames that were read from clients.",
            Counter::ClientBytesWritten =>
                "Bytes of the frames that were handed over to be written to clients.",
            Counter::ServerFramesRead => "Frames that were read from servers.",
            Counter::ServerFramesWritten =>
                "Frames that were handed over to be written to servers.",
            Counter::ServerBytesRead => "Bytes of the frames that were read from servers.",
            Counter::ServerBytesWritten =>
                "Bytes of the frames that were handed over to be written to servers.",
        }
    }

    pub(crate) fn of(self, traffic: &Traffic) -> u64
        ensures { result ≡ counter_figure self traffic.now }
    {
        match self {
            Counter::Dispatches => traffic
                .steps
                .took
                .saturating_add(traffic.steps.took_drained),
            Counter::Discards => traffic.steps.discarded,
            Counter::Replies => traffic.steps.passed,
            Counter::Nacks => traffic.steps.nacked,
            Counter::DrainedNacks => traffic.steps.took_drained,
            Counter::NoRoute => traffic.steps.unrouted,
            Counter::UpstreamLost => traffic.steps.failed,
            Counter::Retries => traffic.steps.retried,
            Counter::LateAnswers => traffic.steps.late,
            Counter::ClientFramesRead => traffic.clients.frames_read,
            Counter::ClientFramesWritten => traffic.clients.frames_written,
            Counter::ClientBytesRead => traffic.clients.bytes_read,
            Counter::ClientBytesWritten => traffic.clients.bytes_written,
            Counter::ServerFramesRead => traffic.servers.frames_read,
            Counter::ServerFramesWritten => traffic.servers.frames_written,
            Counter::ServerBytesRead => traffic.servers.bytes_read,
            Counter::ServerBytesWritten => traffic.servers.bytes_written,
        }
    }
}

impl ServerCounter {
    pub(crate) fn name(self) -> &'static str
        ensures { result.now ≡ work_family self }
    {
        match self {
            ServerCounter::Sendings => "voltgalley_server_sendings_total",
            ServerCounter::Replies => "voltgalley_server_replies_total",
            ServerCounter::Nacks => "voltgalley_server_nacks_total",
            ServerCounter::Errors => "voltgalley_server_errors_total",
            ServerCounter::LostSendings => "voltgalley_server_lost_sendings_total",
        }
    }

    pub(crate) fn help(self) -> &'static str
        ensures { result.now ≡ work_help self }
    {
        match self {
            ServerCounter::Sendings => "Dispatches that were sent to the server.",
            ServerCounter::Replies => "Replies of the server that are no nack.",
            ServerCounter::Nacks => "Replies of the server that are a nack.",
            ServerCounter::Errors => "Replies of the server that are an error.",
            ServerCounter::LostSendings => "Dispatches that the server had when it was lost.",
        }
    }

    pub(crate) fn of(self, work: &ServerWork) -> u64
        ensures { result ≡ work_figure self work.now }
    {
        match self {
            ServerCounter::Sendings => work.steps.offered,
            ServerCounter::Replies => work.steps.settled,
            ServerCounter::Nacks => work.steps.settled_nack,
            ServerCounter::Errors => work.errors,
            ServerCounter::LostSendings => work.steps.lost_one,
        }
    }
}
