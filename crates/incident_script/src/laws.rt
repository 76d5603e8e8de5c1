//! That records tell their steps.

ghost use Rattle.incident_script.specs.Telling.{RecordsTellDown, RecordsTellUp};

/// Each record leads back to a command that makes the call which wrote it: by its kind alone, on both
/// sides, whatever came before.
pub fn records_tell_calls()
    // The record that a client's call writes is of a command that makes this call; it tells the kind of each
    // value that the call gives; and where no reading is written for the command, the call takes none.
    ensures down { RecordsTellDown }
    // So is that of a server's call.
    ensures up { RecordsTellUp }
{}
