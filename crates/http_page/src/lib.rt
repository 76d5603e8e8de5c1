//! One HTTP/1.1 request as a future: the request is read, its page is written, and the connection ends.
//!
//! [`HttpSession`] asks its [`Pages`] for the two pages that there are. Requests are parsed, and responses written, by
//! the crate `http1`.
#![tactic(auto)]

mod choice;
mod pages;
mod session;
mod step;

pub use choice::{Choice, chosen};
pub use pages::{Page, Pages};
pub use session::{HttpEnd, HttpSession};
