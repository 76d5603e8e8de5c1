//! The lines of the operator's second port: the question that a line asks, and the text of a reply.
//!
//! [`Operator`] answers the lines of one connection. What it doesn't know it asks of its [`Knows`].
#![tactic(auto)]

mod counters;
mod destinations;
mod ends;
mod escapes;
mod events;
mod figures;
mod full;
mod lease;
mod metrics;
mod operator;
mod pages;
mod place;
mod print;
mod question;
mod reply;
mod routes;
mod sample;
mod seconds;
mod server_histogram;
mod servers;
mod settings;
mod states;

pub use ends::{ENDS, End};
pub use events::EventRow;
pub use figures::{
    AddressRow, Bucket, ClientRow, DestinationRow, EndRow, Ended, Figures, Latency, RouteRow,
    ServerRow, ServerWork, Traffic, Volume,
};
pub use metrics::metrics_page;
pub use operator::{Knows, Operator};
pub use print::{fixed_reply, print_reply};
pub use question::{Question, parse_question};
pub use reply::{Lack, Reply, health_of};
pub use settings::config_page;
