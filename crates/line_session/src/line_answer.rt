//! What a line is answered with.

ghost use Rattle.std.specs.Prelude.{◌≡◌, true, false, string_bytes};
ghost use Rattle.line_session.specs.Unsent.{text_bytes};

/// A text to be written.
#[derive(Drop)]
pub enum Text {
    /// It takes no memory.
    Fixed(&'static str),
    Made(String),
    Bytes(Vec<u8>),
}

impl Text {
    /// Its bytes.
    pub fn bytes(&self) -> &[u8]
        ensures { result.now ≡ text_bytes self.now }
    {
        match self {
            Text::Fixed(text) => text.as_bytes(),
            Text::Made(text) => text.as_bytes(),
            Text::Bytes(bytes) => bytes.as_slice(),
        }
    }
}

/// What a line is answered with.
#[derive(Drop)]
pub struct LineAnswer {
    /// All that is written, line feeds included.
    pub text: Text,
    /// Whether the connection ends behind it.
    pub is_last: bool,
}

impl LineAnswer {
    /// A text that takes no memory. Further lines may follow.
    pub fn fixed(text: &'static str) -> LineAnswer
        ensures { (text_bytes result.text ≡ text.now) × (result.is_last ≡ false) }
    {
        LineAnswer {
            text: Text::Fixed(text),
            is_last: false,
        }
    }

    /// A text that was made. Further lines may follow.
    pub fn made(text: String) -> LineAnswer
        ensures { (text_bytes result.text ≡ string_bytes text) × (result.is_last ≡ false) }
    {
        LineAnswer {
            text: Text::Made(text),
            is_last: false,
        }
    }

    /// Bytes that were made. Further lines may follow.
    pub fn bytes(bytes: Vec<u8>) -> LineAnswer
        ensures { (text_bytes result.text ≡ bytes.items) × (result.is_last ≡ false) }
    {
        LineAnswer {
            text: Text::Bytes(bytes),
            is_last: false,
        }
    }

    /// The same text, and the connection ends behind it.
    pub fn last(self) -> LineAnswer
        ensures { (result.text ≡ self.text) × (result.is_last ≡ true) }
    {
        LineAnswer {
            text: self.text,
            is_last: true,
        }
    }
}
