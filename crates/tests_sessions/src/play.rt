//! Rows of sessions. A row begins with `== NAME: LIMITS`: the window, the frames that are queued, the records that are
//! kept, and how often a dispatch is sent again; behind ` # ` stands what it shows. Its steps are separated by `; `;
//! behind ` > ` stands what a step led to, where that isn't `done`, and behind ` | ` what it wrote down.

use crate::frames::tell_record;
use mux_history::{History, Limits, Record};
use std::alloc::Global;
use std::test::Fail;

/// A session that is played.
pub trait Played: Drop + Sized {
    /// `mode` is what stands behind the limits.
    fn open(alloc: Global, limits: Limits, mode: &str) -> Result<Self, Fail>;

    /// Makes a step, and tells what it led to.
    fn does(&mut self, alloc: Global, step: &str, told: &mut String) -> Result<(), Fail>;

    /// Of the present history.
    fn records(&self) -> &[Record];

    fn ended(&self) -> &[History];

    /// Whether the session holds what these records, of all since the last seal, say.
    fn holds(&self, records: &[Record]) -> bool;

    fn into_histories(self) -> Vec<History>;
}

fn limits(words: &str) -> Result<Limits, Fail> {
    let mut numbers = [0; 4];
    for (number, word) in numbers.iter_mut().zip(words.split(' ')) {
        *number = word.parse()?;
    }
    let [window, out, history, retries] = numbers;
    Ok(Limits::new(65_536, window, out, history, retries).ok_or("limits")?)
}

/// Whether the records are the same, one by one.
fn are_same(records: &[Record], others: &[Record]) -> bool {
    records.len() == others.len()
        && records
            .iter()
            .zip(others.iter())
            .all(|(record, other)| record.is(*other))
}

/// Makes a step: what it led to, and what it wrote down where all is to be told. The history that it ends has the
/// records that the session showed before. Those since the last seal are gathered in `all`.
fn turn<S: Played>(
    alloc: Global,
    session: &mut S,
    step: &str,
    all: &mut Vec<Record>,
    tells_all: bool,
) -> Result<String, Fail> {
    let mut told = String::new(alloc);
    let shown = Vec::from_slice(alloc, session.records())?;
    session.does(alloc, step, &mut told)?;
    let is_sealed = told.starts_with("sealed");
    let mut before = shown.len();
    if is_sealed || told.starts_with("rolled") {
        let ended = session.ended().last().ok_or("no history")?;
        if !are_same(ended.records(), &shown) {
            return Err("other records".into());
        }
        before = 0;
    }
    if is_sealed {
        all.clear();
    }
    let records = session.records();
    let new = records.get(before..).ok_or("fewer records")?;
    for record in new {
        all.push(*record)?;
    }
    if !session.holds(all) || !records.is_sorted_by_key(|record| record.reading()) {
        return Err(Fail::new(format_args!("records, {step}")));
    }
    if tells_all && !is_sealed {
        for record in new {
            told.push_str(" | ")?;
            tell_record(&mut told, *record)?;
        }
    }
    Ok(told)
}

fn play<S: Played>(
    alloc: Global,
    name: &str,
    words: &str,
    steps: &str,
    tells_all: bool,
) -> Result<(), Fail> {
    let mut session = S::open(alloc, limits(words)?, words)?;
    let mut all = Vec::new(alloc);
    let steps = steps.trim().replace(alloc, "\n", " ")?;
    for text in steps.as_str().split("; ") {
        let (step, want) = text.split_once(" > ").unwrap_or((text, "done"));
        let told = turn(alloc, &mut session, step, &mut all, tells_all)?;
        if told.as_str() != want {
            return Err(Fail::new(format_args!("{name}, {step}: {told}")));
        }
    }
    let shown = Vec::from_slice(alloc, session.records())?;
    let ended = session.ended().len();
    let histories = session.into_histories();
    match histories.last() {
        Some(present)
            if are_same(present.records(), &shown)
                && histories.len().checked_sub(1) == Some(ended) => Ok(()),
        _ => Err(Fail::new(format_args!("{name}: other histories"))),
    }
}

/// Plays each row of a table. The first step that leads to something else is the fault; where all is told, what it
/// writes down counts too.
pub fn check<S: Played>(alloc: Global, table: &str, tells_all: bool) -> Result<(), Fail> {
    for row in table.split("== ").skip(1) {
        let (head, steps) = row.split_once('\n').ok_or("a row")?;
        let (name, words) = head.split_once(": ").ok_or("limits")?;
        let (words, _comment) = words.split_once(" # ").unwrap_or((words, ""));
        play::<S>(alloc, name, words, steps, tells_all)?;
    }
    Ok(())
}
