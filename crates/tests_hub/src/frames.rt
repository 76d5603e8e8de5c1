//! The bodies of frames that come and go.

use mux_frame::Frame;

/// A Tdispatch to `/s/a` that carries `hi`, and the Rdispatch that carries `yo`.
pub const HI: &[u8] = b"\0\0\0\x04/s/a\0\0hi";

/// A Tdispatch to `/s/b`.
pub const HI_TO_B: &[u8] = b"\0\0\0\x04/s/b\0\0hi";

pub const YO: &[u8] = b"\0\0\0yo";

/// Rdispatch with status 2.
pub const NACK: &[u8] = b"\x02\0\0";

/// A lease of ten seconds.
pub const LEASE: &[u8] = b"\0\0\0\0\0\0\0\x27\x10";

/// A lease of one millisecond.
pub const MOMENT: &[u8] = b"\0\0\0\0\0\0\0\0\x01";

pub fn is_frame(frame: &Frame, kind: i8, tag: u32, body: &[u8]) -> bool {
    if frame.kind() != kind || frame.tag() != tag || frame.body_len() != body.len() {
        return false;
    }
    for (i, byte) in body.iter().enumerate() {
        if frame.body_byte(i) != *byte {
            return false;
        }
    }
    true
}
