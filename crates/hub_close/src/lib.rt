//! What the end of a run is judged by: receipts against histories, counts of records, and whether
//! every value in hand was used; and what the seats of a hub share and keep for it: a ledger of the
//! records that their calls made, and lists of receipts.
//!
//! Nothing here waits, and only a list of receipts takes memory.
#![tactic(auto)]

mod balance;
mod book;
mod count;
mod epochs;
mod kinds;
mod lengths;
mod packed;
mod receipt;
mod receipts;
mod totals;
mod words;
mod wrong;

pub use balance::{are_used, is_balanced};
pub use book::Count;
pub use epochs::{down_epochs, up_epochs};
pub use kinds::{epoch_counts, kind_counts};
pub use receipt::{Receipt, Stub};
pub use receipts::Receipts;
pub use totals::{Totals, run_totals, totals_of};
pub use words::{DownWord, UpWord, down_word, lapse, up_word};
pub use wrong::first_wrong_from;
