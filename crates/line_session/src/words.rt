//! Words of a line, which the ports of operators read in one way.
ghost use Rattle.std.specs.Prelude.{◌≡◌, ◌∷◌, ◌++◌, ◌==◌, ℕ, slice_index, IsTrue, MatchOption};
ghost use Rattle.line_session.specs.Words.{Writes, is_name, lacks};

/// Whether no byte of the text is this one.
pub fn lacks(byte: u8, text: &str) -> bool
    ensures { result ≡ lacks byte text.now }
{
    text.as_bytes().iter().all(|b| *b != byte)
}

/// Whether this can be a server's name: one byte at least, no space and no comma.
pub fn is_name(text: &str) -> bool
    ensures { result ≡ is_name text.now }
{
    !text.is_empty() && lacks(b' ', text) && lacks(b',', text)
}

/// What stands in front of the first space, and behind it. None if there is no space.
pub fn split_word(text: &str) -> Option<(&str, &str)>
    ensures { MatchOption result (IsTrue (lacks 32 text.now))
        (λ x. (text.now ≡ x.0.now ++ (32 ∷ x.1.now)) × IsTrue (lacks 32 x.0.now)) }
{
    text.split_once(' ')
}

/// The number below 2^64 that the text writes: one digit or more, and no sign.
pub fn parse_number(text: &str) -> Option<u64>
    ensures { MatchOption result ((n : ℕ) → Writes text.now n → ⊥) (λ n. Writes text.now n) }
{
    if begins_with_plus(text) {
        return None;
    }
    match text.parse::<u64>() {
        Ok(number) => Some(number),
        Err(_) => None,
    }
}

fn begins_with_plus(text: &str) -> bool
    ensures { result ≡ (slice_index text.now 0 == 43) }
{
    text.starts_with('+')
}
