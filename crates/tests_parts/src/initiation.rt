//! Initiation, step by step, on both sides.

use bytes::Bytes;
use mux_frame::Frame;
use mux_history::InitMode;
use mux_message::{Message, parse};
use session_init::{ClientInit, InitStep, ServerInit};
use std::test::Fail;

/// The frame's type and tag, and its body.
type Shape = (i8, u8, &'static [u8]);

/// What a message led to.
#[derive(Clone, Copy)]
enum Told {
    Sends(Shape),
    Opened,
    NotInit,
}

fn message((kind, tag, body): Shape) -> Result<Message, Fail> {
    match parse(Frame::read(kind, tag as u32, Bytes::from_static(body))) {
        Ok(message) => Ok(message),
        Err((fault, _frame)) => Err(Fail::from(fault)),
    }
}

fn is_frame(frame: &Frame, (kind, tag, body): Shape) -> bool {
    if frame.kind() != kind || frame.tag() != tag as u32 || frame.body_len() != body.len() {
        return false;
    }
    for (i, byte) in body.iter().enumerate() {
        if frame.body_byte(i) != *byte {
            return false;
        }
    }
    true
}

fn is_told(step: &InitStep, told: Told) -> bool {
    match (step, told) {
        (InitStep::Send(frame), Told::Sends(shape)) => is_frame(frame, shape),
        (InitStep::Opened, Told::Opened) | (InitStep::NotInit, Told::NotInit) => true,
        _ => false,
    }
}

/// Plays what a client sends. The first message that leads to something else is the fault.
fn from_client(init: &mut ServerInit, steps: &[(Shape, Told)]) -> Result<(), Fail> {
    for (place, (shape, told)) in steps.iter().enumerate() {
        if !is_told(&init.step(&message(*shape)?), *told) {
            return Err(Fail::from(place));
        }
    }
    Ok(())
}

/// The same of what a server sends, with whether the session is open after it.
fn from_server(init: &mut ClientInit, steps: &[(Shape, Told, bool)]) -> Result<(), Fail> {
    for (place, (shape, told, is_open)) in steps.iter().enumerate() {
        let step = init.step(&message(*shape)?);
        if !is_told(&step, *told) || init.is_open() != *is_open {
            return Err(Fail::from(place));
        }
    }
    Ok(())
}

const PROBE: &[u8] = b"tinit check";

const LATE: &[u8] = b"tinit out of place";

const PROBE_THEN_TINIT: &[(Shape, Told)] = &[
    ((127, 1, PROBE), Told::Sends((127, 1, PROBE))),
    ((68, 1, &[0, 7]), Told::Sends((-68, 1, &[0, 1]))),
    ((68, 9, &[0, 1]), Told::Sends((-128, 9, LATE))),
    ((-128, 1, PROBE), Told::NotInit),
];

#[test]
fn probe_then_tinit_of_a_client() -> Result<(), Fail> {
    from_client(&mut ServerInit::new(), PROBE_THEN_TINIT)
}

const PROBE_ON_ANOTHER_TAG: &[(Shape, Told)] = &[((-128, 2, PROBE), Told::NotInit)];

const TINIT_TOO_LATE: &[(Shape, Told)] = &[((68, 1, &[0, 1]), Told::Sends((-128, 1, LATE)))];

#[test]
fn name_ends_initiation() -> Result<(), Fail> {
    let mut init = ServerInit::new();
    from_client(&mut init, PROBE_ON_ANOTHER_TAG)?;
    init.named();
    from_client(&mut init, TINIT_TOO_LATE)
}

const PROBE_COMES_BACK: &[(Shape, Told, bool)] = &[
    ((-128, 1, PROBE), Told::Sends((68, 1, &[0, 1])), false),
    ((-68, 1, &[0, 9]), Told::Opened, true),
];

#[test]
fn probe_comes_back_from_a_server() -> Result<(), Fail> {
    from_server(&mut ClientInit::new(InitMode::Probe), PROBE_COMES_BACK)
}

const OTHER_TEXT: &[(Shape, Told, bool)] = &[
    ((-68, 1, &[0, 1]), Told::NotInit, false),
    ((127, 1, b"unknown type"), Told::Opened, true),
];

#[test]
fn other_text_opens(rt: HostRuntime) -> Result<(), Fail> {
    from_server(&mut ClientInit::new(InitMode::Probe), OTHER_TEXT)?;
    assert!(rt; ClientInit::new(InitMode::Plain).is_open());
    Ok(())
}
