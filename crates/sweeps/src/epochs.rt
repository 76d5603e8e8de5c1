//! Histories that are made up, epoch by epoch.

use mux_history::{History, InitState, Name, Record, RecordKind, Standing};
use std::alloc::{AllocError, Global};

/// How an open server's session stands.
pub const OPEN: Standing = Standing::Up {
    init: InitState::Open,
    drained: false,
    retired: false,
    ping: false,
    leased: false,
    lapse: 0,
};

/// A client's dispatch.
pub fn dispatch(client: u64, seq: u64) -> Name {
    Name {
        boot: 1,
        client,
        seq,
    }
}

/// A record, without a name if its kind has none.
pub fn made(kind: RecordKind, tag: u32, name: Option<Name>, reading: u64) -> Record {
    if kind.is_plain() {
        return Record::new(kind, tag, name, reading);
    }
    Record::new(kind, tag, None, reading)
}

/// The records of a session: those of epochs that ended, and of the present one.
#[derive(Drop)]
pub struct Epochs {
    alloc: Global,
    ended: Vec<History>,
    pub records: Vec<Record>,
    pub number: u32,
}

impl Epochs {
    pub fn new(alloc: Global) -> Epochs {
        Epochs {
            alloc,
            ended: Vec::new(alloc),
            records: Vec::new(alloc),
            number: 0,
        }
    }

    /// The present epoch ends; what its successor begins with is for the caller to record.
    pub fn cut(&mut self) -> Result<(), AllocError> {
        let sealed = History::of(self.alloc, self.records.as_slice())?;
        self.ended.push(sealed)?;
        self.records.clear();
        self.number = self.number.saturating_add(1);
        Ok(())
    }

    pub fn seal(&mut self, standing: Standing) -> Result<(), AllocError> {
        self.cut()?;
        let kind = RecordKind::Epoch {
            number: self.number,
            standing,
        };
        self.records.push(made(kind, 0, None, 0))?;
        Ok(())
    }

    pub fn end(self) -> Result<Vec<History>, AllocError> {
        let Epochs {
            alloc,
            mut ended,
            records,
            ..
        } = self;
        ended.push(History::of(alloc, records.as_slice())?)?;
        Ok(ended)
    }
}
