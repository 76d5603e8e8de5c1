//! The type bytes that are written where two are read.

ghost use Rattle.std.specs.Prelude.{◌≡◌};
ghost use Rattle.mux_message.specs.Spellings.{normal};

use mux_frame::Frame;

/// The frame with the type byte that is written where two are read: 66 for -62, and -128 for 127.
/// Any other frame is as it came.
pub fn normal(frame: Frame) -> Frame
    ensures frame { result.frame ≡ normal frame.frame }
    ensures as_read { result.as_read ≡ frame.as_read }
{
    match frame.kind() {
        -62 => frame.with_kind(66),
        127 => frame.with_kind(-128),
        _ => frame,
    }
}
