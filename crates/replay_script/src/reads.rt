//! The reads of a script.

use std::io::{self, ErrorKind, Read};

/// A reader that ends after so many reads.
#[derive(Drop)]
pub struct Counted<R> {
    reader: R,
    left: u64,
}

impl<R> Counted<R> {
    /// After `reads` reads it reports the end.
    pub fn new(reader: R, reads: u64) -> Counted<R> {
        Counted {
            reader,
            left: reads,
        }
    }
}

impl<R: Read> Read for Counted<R> {
    fn read(&mut self, buf: &mut [u8]) -> io::Result<usize> {
        if self.left == 0 {
            return Ok(0);
        }
        self.left -= 1;
        self.reader.read(buf).map_err(of_reader)
    }
}

// The kind OutOfMemory is left to lines that find no memory: a reader's own is a failed read.
fn of_reader(error: io::Error) -> io::Error {
    match error.kind() {
        ErrorKind::OutOfMemory => io::Error::from(ErrorKind::Other),
        _ => error,
    }
}
