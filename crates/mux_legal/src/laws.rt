//! The theorems.

ghost use Rattle.mux_model.specs.Lawful.{NumbersTellPairs, NumbersTellPlaces};
ghost use Rattle.mux_model.specs.Runs.{BothEndsAgree, EveryRunIsLegal, RecordsFollow, RecordsTellTags, RecordsTellWords};

/// Whatever events come, in whatever order, the lists of all boots are a legal run.
pub fn every_run_is_legal()
    ensures legal { EveryRunIsLegal }
    // The records of a list tell which tags are open.
    ensures told { RecordsTellTags }
    // They tell the readings, the places noted, the drains and the leases.
    ensures words { RecordsTellWords }
    // Each record may follow those before it.
    ensures follow { RecordsFollow }
{}

/// On every connection of a run whose far end is lawful, no dispatch and no reply is paired in one
/// end's list otherwise than in the other's.
pub fn both_ends_agree()
    ensures agree { BothEndsAgree }
    // The open dispatch that pairs by number is the one that `pairs` finds by place.
    ensures numbers { NumbersTellPlaces }
    // What is paired so is what `pairs` gives, pair by pair.
    ensures pairs { NumbersTellPairs }
{}
