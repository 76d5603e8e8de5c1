//! A whole script.

use crate::command::parse_line;
use crate::end::{ReplayEnd, Stop};
use crate::engine::Engine;
use crate::printer::Printer;
use crate::reads::Counted;
use mux_history::Limits;
use std::alloc::Global;
use std::io::{self, BufRead, BufReader, ErrorKind, Read, Write};

/// After so many reads the script counts as ended.
const MOST_READS: u64 = 4_294_967_296;

/// Carries a script out, line by line, and prints what each line gave.
///
/// It holds a line of the script and the bytes that no frame has taken yet, beside what the core
/// keeps. After 4,294,967,296 reads the script counts as ended.
pub fn replay<R: Read + Drop, W: Write + Drop>(alloc: Global, reader: R, writer: W) -> ReplayEnd {
    let mut printer = Printer::new(alloc, writer);
    let last = match carry_out_all(alloc, reader, &mut printer) {
        Ok(()) => printer.flush().map(|()| ReplayEnd::Done),
        Err(Stop::Memory) => printer.end_with_memory().map(|()| ReplayEnd::Memory),
        Err(Stop::BadLine) => printer.flush().map(|()| ReplayEnd::BadLine),
        Err(Stop::Failed) => Ok(ReplayEnd::Failed),
    };
    last.unwrap_or(ReplayEnd::Failed)
}

fn open(alloc: Global) -> Result<Engine, Stop> {
    // The default limits are in their ranges.
    let Some(limits) = Limits::new(1_048_576, 1_024, 2_048, 65_536, 0) else {
        unreachable!()
    };
    Ok(Engine::open(alloc, limits)?)
}

fn carry_out_all<R: Read + Drop, W: Write + Drop>(
    alloc: Global,
    reader: R,
    printer: &mut Printer<W>,
) -> Result<(), Stop> {
    let mut engine = open(alloc)?;
    let reader = BufReader::new(alloc, Counted::new(reader, MOST_READS)).map_err(read_stop)?;
    for (number, line) in (1_u64..).zip(reader.split(alloc, b'\n')) {
        let line = line.map_err(read_stop)?;
        let carried_out = carry_out(alloc, &mut engine, &line, printer);
        if carried_out == Err(Stop::BadLine) {
            printer.bad_line(number)?;
        }
        carried_out?;
        printer.flush()?;
    }
    engine.judge(printer)
}

fn carry_out<W: Write + Drop>(
    alloc: Global,
    engine: &mut Engine,
    line: &[u8],
    printer: &mut Printer<W>,
) -> Result<(), Stop> {
    let command = parse_line(alloc, line)?;
    engine.carry_out(command, printer)
}

fn read_stop(error: io::Error) -> Stop {
    match error.kind() {
        ErrorKind::OutOfMemory => Stop::Memory,
        _ => Stop::Failed,
    }
}
