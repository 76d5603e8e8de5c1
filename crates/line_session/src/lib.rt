//! One connection of lines as a future: lines in, answers out.
//!
//! [`LineSession`] reads lines, has each answered by its [`Answers`], and writes the answer before it takes the next
//! line. It is polled by whoever owns it, and ends with a value that says why.
#![tactic(auto)]

mod answers;
mod line_answer;
mod outbox;
mod request;
mod session;
mod step;
mod words;

pub use answers::Answers;
pub use line_answer::{LineAnswer, Text};
pub use request::is_request;
pub use session::{LineEnd, LineSession};
pub use words::{is_name, lacks, parse_number, split_word};
