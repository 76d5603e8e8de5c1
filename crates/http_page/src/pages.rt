//! Whoever has the pages.

use crate::choice::Choice;

/// A page, with the status of its response.
#[derive(Drop)]
pub struct Page {
    /// 200 to 599.
    pub status: u16,
    pub body: Vec<u8>,
}

/// Whoever has the pages.
pub trait Pages: Drop {
    /// The page that was asked for. It must not wait.
    fn page(&mut self, choice: Choice) -> Page;
}
