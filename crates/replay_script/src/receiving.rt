//! What comes over a connection: bytes, their end, its loss.

ghost use Rattle.std.specs.Prelude.{IsTrue};

use crate::end::Stop;
use crate::events::{frame_event, loss_event};
use crate::printer::Printer;
use crate::router::Router;
use crate::stream::{NoFrame, Stream};
use core_world::{EventRefusal, Note, Refusal, Told};
use mux_frame::{Frame, FrameFault};
use std::io::Write;

/// Bytes have come. Each whole frame is an event; a fault loses the session.
pub fn receive<W: Write + Drop>(
    router: &mut Router,
    stream: &mut Stream,
    bytes: &[u8],
    printer: &mut Printer<W>,
) -> Result<(), Stop> {
    if stream.over {
        return printer.refused(EventRefusal::Session(Refusal::Closed));
    }
    stream.add(bytes)?;
    // No frame is shorter than eight bytes, so there are fewer than bytes.
    for _ in 0..=stream.waiting() {
        match stream.next_frame() {
            Ok(frame) => take_in(router, stream, frame, printer)?,
            Err(NoFrame::Waits) => break,
            Err(NoFrame::Fault(fault)) => return fail(router, stream, fault, printer),
        }
    }
    Ok(())
}

/// The stream has ended, and with it the connection.
pub fn end<W: Write + Drop>(
    router: &mut Router,
    stream: &mut Stream,
    printer: &mut Printer<W>,
) -> Result<(), Stop> {
    if stream.over {
        return Ok(());
    }
    match stream.end() {
        Some(fault) => fail(router, stream, fault, printer),
        None => lose(router, stream, printer),
    }
}

/// The connection is lost. If its session is closed already, this prints nothing.
pub fn lose<W: Write + Drop>(
    router: &mut Router,
    stream: &mut Stream,
    printer: &mut Printer<W>,
) -> Result<(), Stop> {
    if stream.closed {
        return Ok(());
    }
    stream.closed = true;
    let loss = loss_event(stream.session, router.now);
    if router.happen(loss, printer)?.is_some() {
        printer.lost(stream.session)?;
    }
    router.send(printer)
}

fn take_in<W: Write + Drop>(
    router: &mut Router,
    stream: &mut Stream,
    frame: Frame,
    printer: &mut Printer<W>,
) -> Result<(), Stop>
    requires { IsTrue frame.as_read }
{
    let event = frame_event(stream.session, frame, router.now);
    let note = router.happen(event, printer)?;
    if let Some(
        Note::Told {
            told: Told::Closing(_),
            hand: _,
        },
    ) = note
    {
        stream.closed = true;
    }
    router.send(printer)
}

// Out of memory ends the script and has no line of its own.
fn fail<W: Write + Drop>(
    router: &mut Router,
    stream: &mut Stream,
    fault: FrameFault,
    printer: &mut Printer<W>,
) -> Result<(), Stop> {
    if fault == FrameFault::Memory {
        return Err(Stop::Memory);
    }
    printer.fault(stream.session, fault)?;
    lose(router, stream, printer)
}
