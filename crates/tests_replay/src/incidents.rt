//! Scripts of incidents: what a run recorded is played again, and each session sends what it sent.

mod runs;

ghost use Rattle.router_core.specs.Runs.{AllRead};

use bytes::BytesMut;
use hex::encode;
use incident_script::{Conversation, Incident, Server, script};
use mux_frame::{Frame, FrameCodec};
use mux_history::{InitMode, Limits, Record, RecordKind, SessionId};
use replay_script::{ReplayEnd, replay};
use router_core::{CoreConfig, Event, Side, run};
use std::alloc::{AllocError, Global};
use std::test::Fail;
use tokio_util::codec::Encoder;

/// A frame on a tag whose top bit is set. It closes its session, so no list has it as a message.
const FRAGMENT: &[u8] = b"\0\0\0\x04\x41\x80\0\x01";

/// What a session of a run wrote down, took and sent.
#[derive(Drop)]
struct Kept {
    session: SessionId,
    mode: InitMode,
    records: Vec<Record>,
    frames: BytesMut,
    /// The readings at which they came.
    turns: Vec<u64>,
    /// A line for each frame that it sent, as a replay prints it.
    sent: String,
}

impl Kept {
    fn new(alloc: Global, session: SessionId) -> Kept {
        Kept {
            session,
            mode: InitMode::Plain,
            records: Vec::new(alloc),
            frames: BytesMut::new(alloc),
            turns: Vec::new(alloc),
            sent: String::new(alloc),
        }
    }

    // The first probe has no record.
    fn note(&mut self, record: Option<Record>) -> Result<(), AllocError> {
        let Some(record) = record else {
            self.mode = InitMode::Probe;
            return Ok(());
        };
        if let RecordKind::Closed(_) = record.kind() {
            self.frames.extend_from_slice(FRAGMENT)?;
            self.turns.push(record.reading())?;
        }
        self.records.push(record)?;
        Ok(())
    }

    fn take(&mut self, frame: Option<&Frame>, record: Option<Record>) -> Result<(), AllocError> {
        if frame.is_some()
            && let Some(record) = record
        {
            self.turns.push(record.reading())?;
        }
        append(frame, &mut self.frames)
    }

    fn conversation(&self, frames: usize) -> Conversation<'_> {
        let all = self.frames.as_slice();
        Conversation {
            records: &self.records,
            frames: all.get(..frames).unwrap_or(all),
            turns: &self.turns,
        }
    }
}

fn append(frame: Option<&Frame>, bytes: &mut BytesMut) -> Result<(), AllocError> {
    let Some(frame) = frame else {
        return Ok(());
    };
    let frame = frame.try_copy().map_err(|_| AllocError)?;
    FrameCodec::new(65_536)
        .encode(frame, bytes)
        .map_err(|_| AllocError)
}

fn label(alloc: Global, session: SessionId) -> Result<String, AllocError> {
    match session {
        SessionId::Client(number) => format!(in alloc; "c{number} > "),
        SessionId::Server(number) => format!(in alloc; "s{number} > "),
    }
}

fn print_sent(
    alloc: Global,
    session: SessionId,
    frame: Option<&Frame>,
    lines: &mut String,
) -> Result<(), AllocError> {
    let mut bytes = BytesMut::new(alloc);
    append(frame, &mut bytes)?;
    if bytes.is_empty() {
        return Ok(());
    }
    lines.push_str(&label(alloc, session)?)?;
    lines.push_str(&encode(alloc, bytes.as_slice())?)?;
    lines.push('\n')
}

fn keep(alloc: Global, side: &Side) -> Result<Kept, AllocError> {
    let mut kept = Kept::new(alloc, side.session);
    for entry in &side.entries {
        kept.note(entry.rec)?;
        kept.take(entry.taken.as_ref(), entry.rec)?;
        print_sent(alloc, side.session, entry.sent.as_ref(), &mut kept.sent)?;
    }
    Ok(kept)
}

fn keep_all(alloc: Global, sides: &[Side]) -> Result<Vec<Kept>, AllocError> {
    let mut all = Vec::new(alloc);
    for side in sides {
        all.push(keep(alloc, side)?)?;
    }
    Ok(all)
}

// Of each session so many bytes of its frames at most.
fn write(alloc: Global, limits: Limits, all: &[Kept], frames: usize) -> Result<String, AllocError> {
    let mut clients = Vec::new(alloc);
    let mut servers = Vec::new(alloc);
    for kept in all {
        let conversation = kept.conversation(frames);
        match kept.session {
            SessionId::Client(_) => clients.push(conversation)?,
            SessionId::Server(_) => servers.push(Server {
                mode: kept.mode,
                conversation,
            })?,
        }
    }
    script(
        alloc,
        &Incident {
            limits,
            server_limits: limits,
            clients: &clients,
            servers: &servers,
        },
    )
}

// What a script prints. Nothing of it is refused, and the histories agree.
fn play(alloc: Global, script: &str) -> Result<String, Fail> {
    let mut out = Vec::new(alloc);
    if replay(alloc, script.as_bytes(), &mut out) != ReplayEnd::Done {
        return Err("done".into());
    }
    let text = str::from_utf8(&out).map_err(|_| "text")?;
    if text.lines().any(|line| line.starts_with("refused")) {
        return Err("refused".into());
    }
    if text.lines().last() != Some("agree") {
        return Err("agree".into());
    }
    Ok(String::from_str(alloc, text)?)
}

// The lines with what one session sent.
fn sent_in(alloc: Global, printed: &str, session: SessionId) -> Result<String, AllocError> {
    let label = label(alloc, session)?;
    let mut lines = String::new(alloc);
    for line in printed.lines() {
        if line.starts_with(label.as_str()) {
            lines.push_str(line)?;
            lines.push('\n')?;
        }
    }
    Ok(lines)
}

// How many of a script's lines are steps.
fn steps(script: &str) -> usize {
    script.lines().filter(|line| is_step(line)).count()
}

fn is_step(line: &str) -> bool {
    !line.starts_with("now ")
        && !line.starts_with("limits ")
        && !line.starts_with("server ")
        && !line.starts_with("# ")
        && line != "judge"
        && line != "client"
}

fn records(all: &[Kept]) -> usize {
    let mut count = 0_usize;
    for kept in all {
        count = count.saturating_add(kept.records.len());
    }
    count
}

// Each record of a run is a step of its script, and each session sends what it sent.
fn check_whole(alloc: Global, limits: Limits, all: &[Kept]) -> Result<(), Fail> {
    let script = write(alloc, limits, all, usize::MAX)?;
    if steps(&script) != records(all) {
        return Err(Fail::from(steps(&script)));
    }
    if script.lines().last() != Some("# end") {
        return Err("end".into());
    }
    let printed = play(alloc, &script)?;
    for (place, kept) in all.iter().enumerate() {
        let sent = sent_in(alloc, &printed, kept.session)?;
        if sent.as_str() != kept.sent.as_str() {
            return Err(Fail::from(place));
        }
    }
    Ok(())
}

// Wherever the frames break off, each session sends a part of what it sent.
fn check_cuts(alloc: Global, limits: Limits, all: &[Kept]) -> Result<(), Fail> {
    for frames in 0..128 {
        let script = write(alloc, limits, all, frames)?;
        let printed = play(alloc, &script)?;
        for kept in all {
            let sent = sent_in(alloc, &printed, kept.session)?;
            if !kept.sent.starts_with(sent.as_str()) {
                return Err(Fail::from(frames));
            }
        }
    }
    Ok(())
}

/// Checks the script of a run, whole and with frames missing.
fn check(alloc: Global, retries: usize, events: &[Event]) -> Result<(), Fail>
    requires { AllRead events.now }
{
    let limits = Limits::new(65_536, 8, 16, 16, retries).ok_or("limits")?;
    let ran = run(alloc, CoreConfig { limits, boot: 1 }, events)?;
    if let Some(place) = ran.refused.first() {
        return Err(Fail::from(*place));
    }
    let all = keep_all(alloc, &ran.sides)?;
    check_whole(alloc, limits, &all)?;
    check_cuts(alloc, limits, &all)
}
