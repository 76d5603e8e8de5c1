//! What a frame says of the server that sent it.
ghost use Rattle.std.specs.Prelude.{◌≡◌};
ghost use Rattle.router_state.specs.Outcomes.{is_error, is_served, says};

use mux_frame::Frame;
use mux_message::MessageKind;

/// The status of an Rdispatch whose dispatch was carried out.
const OK: u8 = 0;

/// The status of an error of the application's.
const ERROR: u8 = 1;

/// The status of a nack.
const NACK: u8 = 2;

/// The tag of probes, of Tinits and of pings, on which no dispatch is sent to a server.
const NO_DISPATCH: u32 = 1;

/// What a frame says of the server that sent it.
#[derive(Clone, Copy, Debug)]
pub enum Outcome {
    /// It carried a dispatch out.
    Ok,
    /// It answered a dispatch by an error of the application's.
    Error,
    /// It answered a dispatch by a nack.
    Nack,
    /// It answered a dispatch by an Rerr.
    Rerr,
    /// None of these.
    Other,
}

impl Outcome {
    /// What a frame of this kind says of its server.
    #[inline(always)]
    pub(crate) fn of(kind: MessageKind, frame: &Frame) -> Outcome
        ensures { result ≡ says kind frame.now.frame }
    {
        match kind {
            MessageKind::Rerr => {
                if frame.tag() == NO_DISPATCH {
                    return Outcome::Other;
                }
                Outcome::Rerr
            }
            MessageKind::Rdispatch => {
                if frame.body_len() == 0 {
                    return Outcome::Other;
                }
                match frame.body_byte(0) {
                    OK => Outcome::Ok,
                    ERROR => Outcome::Error,
                    NACK => Outcome::Nack,
                    _ => Outcome::Other,
                }
            }
            _ => Outcome::Other,
        }
    }

    /// Whether its server answered a dispatch by an error.
    #[inline(always)]
    pub(crate) fn is_error(self) -> bool
        ensures { result ≡ is_error self }
    {
        match self {
            Outcome::Error | Outcome::Rerr => true,
            _ => false,
        }
    }

    /// Whether its server took a dispatch on: so it says how long that takes.
    #[inline(always)]
    pub fn is_served(self) -> bool
        ensures { result ≡ is_served self }
    {
        match self {
            Outcome::Ok | Outcome::Error => true,
            _ => false,
        }
    }
}
