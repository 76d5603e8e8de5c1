//! What `agree` finds in the histories of a table.

mod table;

use mux_agree::{Disagreement, DownHistory, UpHistory, agree};
use mux_history::{
    DrainState, History, InitMode, InitState, Name, Record, RecordKind, SessionId, Standing,
};
use std::alloc::Global;
use std::test::Fail;
use table::TABLE;

fn number(digits: &str) -> Result<u64, Fail> {
    Ok(digits.parse::<u64>().map_err(|_| "no number")?)
}

fn small(digits: &str) -> Result<u32, Fail> {
    Ok(digits.parse::<u32>().map_err(|_| "no small number")?)
}

/// `-`, `SEQ` of client 1, or `CLIENT.SEQ`.
fn name(word: &str) -> Result<Option<Name>, Fail> {
    if word == "-" {
        return Ok(None);
    }
    let (client, seq) = word.split_once('.').unwrap_or(("1", word));
    Ok(Some(Name {
        boot: 1,
        client: number(client)?,
        seq: number(seq)?,
    }))
}

/// `NUMBER:DISPATCHES` of a client.
fn down_epoch(word: &str, fresh: bool) -> Result<RecordKind, Fail> {
    let (epoch, dispatches) = word.split_once(':').ok_or("no dispatches")?;
    let standing = Standing::Down {
        fresh,
        drain: DrainState::Running,
        dispatches: number(dispatches)?,
    };
    Ok(RecordKind::Epoch {
        number: small(epoch)?,
        standing,
    })
}

/// A reading, or `-`.
fn lapse(word: &str) -> Result<Option<u64>, Fail> {
    if word == "-" {
        return Ok(None);
    }
    Ok(Some(number(word)?))
}

/// `NUMBER:LAPSE` or `NUMBER:-` of a server that is open.
fn up_epoch(word: &str) -> Result<RecordKind, Fail> {
    let (epoch, word) = word.split_once(':').ok_or("no lapse")?;
    let lapse = lapse(word)?;
    let standing = Standing::Up {
        init: InitState::Open,
        drained: false,
        retired: false,
        ping: false,
        leased: lapse.is_some(),
        lapse: lapse.unwrap_or(0),
    };
    Ok(RecordKind::Epoch {
        number: small(epoch)?,
        standing,
    })
}

/// A kind by its word, or by `WORD=` and what it holds.
fn kind(word: &str) -> Result<RecordKind, Fail> {
    if let Some((of, held)) = word.split_once('=') {
        return match of {
            "leased" => Ok(RecordKind::Leased(number(held)?)),
            "down" => down_epoch(held, false),
            "fresh" => down_epoch(held, true),
            "up" => up_epoch(held),
            _ => Err(Fail::from("no kind that holds anything")),
        };
    }
    Ok(match word {
        "took" => RecordKind::Took,
        "refused" => RecordKind::TookDrained,
        "noted" => RecordKind::Noted { recalled: false },
        "retried" => RecordKind::Retried,
        "discarded" => RecordKind::Discarded { recalled: true },
        "passed" => RecordKind::Passed,
        "nacked" => RecordKind::Nacked,
        "unrouted" => RecordKind::Unrouted,
        "failed" => RecordKind::Failed,
        "late" => RecordKind::Late { whole: false },
        "inited" => RecordKind::InitDone,
        "offered" => RecordKind::Offered,
        "settled" => RecordKind::Settled(-2),
        "back" => RecordKind::SettledNack,
        "discarding" => RecordKind::Discarding,
        "drained" => RecordKind::Drained,
        "lost" => RecordKind::Lost,
        "lostone" => RecordKind::LostOne,
        "pinged" => RecordKind::PingSent,
        "ponged" => RecordKind::Ponged,
        _ => return Err(Fail::from("no kind")),
    })
}

/// `KIND TAG NAME READING`; what is left out is 0, no name and 0.
fn record(text: &str) -> Result<Record, Fail> {
    let mut words = text.split(' ');
    let kind = kind(words.next().unwrap_or(""))?;
    let tag = small(words.next().unwrap_or("0"))?;
    let name = name(words.next().unwrap_or("-"))?;
    let reading = number(words.next().unwrap_or("0"))?;
    if name.is_some() && !kind.is_plain() {
        return Err(Fail::from("a kind that has no name"));
    }
    Ok(Record::new(kind, tag, name, reading))
}

/// Epochs apart by ` / `, their records by `, `.
fn epochs(alloc: Global, text: &str) -> Result<Vec<History>, Fail> {
    let mut epochs = Vec::new(alloc);
    for part in text.split(" / ") {
        let mut history = History::with_room(alloc, 16)?;
        for entry in part.split(", ") {
            let entry = record(entry)?;
            if history.records().len() < history.room() {
                history.push(entry);
            }
        }
        epochs.push(history)?;
    }
    Ok(epochs)
}

/// What is found in histories apart by `; `: `cN: ..` of a client, `sN: ..` of a plain server.
fn found(alloc: Global, text: &str) -> Result<Option<Disagreement>, Fail> {
    let mut downs = Vec::new(alloc);
    let mut ups = Vec::new(alloc);
    for part in text.split("; ") {
        let (session, records) = part.split_once(": ").ok_or("no session")?;
        let epochs = epochs(alloc, records)?;
        if let Some(digits) = session.strip_prefix("c") {
            let client = number(digits)?;
            downs.push(DownHistory { client, epochs })?;
        } else {
            let server = number(session.strip_prefix("s").ok_or("no side")?)?;
            let mode = InitMode::Plain;
            ups.push(UpHistory {
                server,
                mode,
                epochs,
            })?;
        }
    }
    Ok(agree(&downs, &ups).err())
}

/// `ok`, or the session, the place and the cause of what is found.
fn told(alloc: Global, found: Option<Disagreement>) -> Result<String, Fail> {
    let Some(fault) = found else {
        return Ok(String::from_str(alloc, "ok")?);
    };
    let (side, number) = match fault.session {
        SessionId::Client(number) => ('c', number),
        SessionId::Server(number) => ('s', number),
    };
    let (place, cause) = (fault.place, fault.cause);
    Ok(format!(in alloc; "{side}{number} {place} {cause:?}")?)
}

#[test]
fn histories_of_the_table(rt: HostRuntime) -> Result<(), Fail> {
    for line in TABLE.lines() {
        let (what, rest) = line.split_once(" | ").ok_or("no title")?;
        let (histories, want) = rest.split_once(" | ").ok_or("no end")?;
        let told = told(rt.alloc(), found(rt.alloc(), histories)?)?;
        assert_eq!(rt; told.as_str(), want, "{what}");
    }
    Ok(())
}
