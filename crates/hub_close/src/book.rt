//! The book of a hub: how many records the calls of all seats made.
ghost use Rattle.std.specs.Prelude.{◌≡◌, ◌≢◌, ◌+◌, ◌-◌, ◌^◌, ◌<◌, min, true, false};

use std::sync::ledger::{Book, Ledger, Share};

/// The book, and its total as a number that goes no further than the greatest.
#[derive(Drop)]
pub struct Count<L: Ledger> {
    made: u64,
    pub book: Book<L>,
    ghost counted: { made ≡ min book.total (2 ^ 64 - 1) },
}

impl<L: Ledger> Count<L> {
    /// The count of a book in which nothing stands.
    pub fn new(book: Book<L>) -> Count<L>
        requires { book.total ≡ 0 }
        ensures { result.book.total ≡ 0 }
    {
        Count { made: 0, book }
    }

    /// Adds records to the book and to the share whose seat made them.
    pub fn add(&mut self, share: &mut Share<L>, records: u64)
        requires { 0 < share.old.parts }
        ensures total { self.new.book.total ≡ self.old.book.total + records }
        ensures amount { share.new.amount ≡ share.old.amount + records }
        ensures parts { share.new.parts ≡ share.old.parts }
    {
        let Count { made, book } = self;
        book.add(share, records);
        *made = made.saturating_add(records);
    }

    /// Whether all shares together have just so many records. The share has every part.
    ///
    /// False also if the greatest number was reached, past which nothing is counted.
    pub fn is(self, all: &mut Share<L>, records: u64) -> bool
        requires whole { all.old.parts ≡ L.parts }
        ensures yes { result ≡ true → (all.old.amount ≡ records) × (records < 2 ^ 64 - 1) }
        ensures no { result ≡ false → records < 2 ^ 64 - 1 → all.old.amount ≢ records }
    {
        let Count { made, mut book } = self;
        book.audit(all);
        made < u64::MAX && made == records
    }
}
