//! The theorems on histories.

ghost use Rattle.mux_legal.specs.KeptHistories.{KeptHistoriesAreFaultless};
ghost use Rattle.mux_legal.specs.KeptRuns.{KeptRunsAreLegal, RunsAreRecorded};
ghost use Rattle.mux_legal.specs.RunsBearOut.{RunsBearOut};
ghost use Rattle.mux_legal.specs.Sessions.{RunsReachSessions, SessionsAreRecorded};

/// Where the histories that sessions keep bear each other out, which is what `agree` tells of them,
/// the lists that they record are a legal run, but for what the bodies of messages say.
pub fn kept_histories_are_legal()
    ensures legal { KeptRunsAreLegal }
    // The lists of every run are recorded so.
    ensures recorded { RunsAreRecorded }
    // So is the list of any one session that its calls lead to, whatever the others do.
    ensures sessions { SessionsAreRecorded }
    // And every list of every run is such a list.
    ensures reached { RunsReachSessions }
    // What one history shows by itself is never at fault.
    ensures alone { KeptHistoriesAreFaultless }
    // `agree` accuses no run.
    ensures borne { RunsBearOut }
{}
