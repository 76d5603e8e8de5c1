//! What is still to be written.

ghost use Rattle.std.specs.Prelude.{◌≡◌, ◌≤◌, ◌==◌, [], length, drop};
ghost use Rattle.line_session.specs.Unsent.{text_bytes};

use crate::line_answer::Text;
use std::marker::Model;

/// The bytes of a text, less those that were written.
#[derive(Drop)]
pub struct Outbox {
    text: Text,
    left: usize,
}

impl Model for Outbox {
    ghost use Rattle.std.specs.Prelude.{◌-◌, ◌≤◌, ℕ, List, length, drop};
    ghost use Rattle.line_session.specs.Unsent.{text_bytes};

    ghost Value = { List ℕ };

    ghost view = { λ b. drop (length (text_bytes b.text) - b.left) (text_bytes b.text) };

    ghost invariant = { λ b. b.left ≤ length (text_bytes b.text) };
}

impl Outbox {
    /// All bytes of a text.
    pub fn new(text: Text) -> Outbox
        ensures { result ≡ text_bytes text }
    {
        Outbox {
            left: text.bytes().len(),
            text,
        }
    }

    /// All bytes of a text that stands in the program.
    pub fn fixed(text: &'static str) -> Outbox
        ensures { result ≡ text.now }
    {
        Outbox::new(Text::Fixed(text))
    }

    /// Whether all bytes were written.
    pub fn is_empty(&self) -> bool
        ensures { result ≡ (length self.now == 0) }
    {
        self.left == 0
    }

    /// What is left.
    pub fn rest(&self) -> &[u8]
        ensures { result.now ≡ self.now }
    {
        let bytes = self.text.bytes();
        &bytes[bytes.len() - self.left..]
    }

    /// The first `count` bytes were written.
    pub fn advance(&mut self, count: usize)
        requires { count ≤ length self.old }
        ensures { self.new ≡ drop count self.old }
    {
        self.left -= count;
    }
}
