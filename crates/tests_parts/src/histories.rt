//! Limits at the ends of their ranges, and histories in their room.

use mux_history::{History, Limits, Record, RecordKind};
use std::test::Fail;

// The numbers in the order of `Limits::new`.
fn is_within([max_frame, window, out, history, retries]: [usize; 5]) -> bool {
    Limits::new(max_frame, window, out, history, retries).is_some()
}

#[test]
fn limits_by_their_ranges(rt: HostRuntime) -> Result<(), Fail> {
    let ranges = [
        ([32, 1, 5, 16, 0], true),
        ([16_777_216, 65_536, 1_048_576, 16_777_216, 3], true),
        ([1_048_576, 1_024, 2_048, 65_536, 0], true),
        ([31, 1, 5, 16, 0], false),
        ([16_777_217, 1, 5, 16, 0], false),
        ([32, 0, 5, 16, 0], false),
        ([32, 65_537, 65_541, 16, 0], false),
        ([32, 1, 4, 16, 0], false),
        ([32, 1, 1_048_577, 16, 0], false),
        ([32, 1, 5, 15, 0], false),
        ([32, 1, 5, 16_777_217, 0], false),
        ([32, 1, 5, 16, 4], false),
    ];
    for (numbers, want) in ranges {
        assert_eq!(rt; is_within(numbers), want);
    }
    Ok(())
}

#[test]
fn room_one(rt: HostRuntime) -> Result<(), Fail> {
    let mut history = History::with_room(rt.alloc(), 1)?;
    assert_eq!(rt; history.room(), 1);
    assert!(rt; history.records().is_empty());
    let lost = Record::new(RecordKind::Lost, 0, None, 7);
    history.push(lost);
    assert_eq!(rt; history.records().len(), 1);
    assert!(rt; history.records()[0].is(lost));
    assert_eq!(rt; history.room(), 1);
    Ok(())
}

#[test]
fn greatest_room(rt: HostRuntime) -> Result<(), Fail> {
    let history = History::with_room(rt.alloc(), 16_777_216)?;
    assert_eq!(rt; history.room(), 16_777_216);
    Ok(())
}
