//! What holds of each log that is a hub's. Each function here does nothing: its contract is a theorem.
ghost use Rattle.hub_log.specs.Headline.{BothEndsAgree, EveryLogIsLegal, EveryNameIsSentOnce, EveryRdispatchIsAnswered, EveryReplyIsSeen};
ghost use Rattle.hub_log.specs.Sources.{EachValueHasItsSource, EachValueIsUsedOnce, EveryFrameStands};
ghost use Rattle.hub_log.specs.Turns.{TurnsAreAdded};

/// Each frame that goes out to a client stands in the log, behind the step of the server that gave
/// that very reply to that name, or the router's own nack.
pub fn every_frame_stands()
    ensures frames { EveryFrameStands }
    // Each value was given by the call of a session that gives such values.
    ensures values { EachValueHasItsSource }
    // No value is used twice.
    ensures once { EachValueIsUsedOnce }
{}

/// A pass may add what its session did under one lock, by one load, and knows then where the session is.
pub fn turns_are_added()
    ensures { TurnsAreAdded }
{}

/// What a client may rely on: each reply to it is its server's.
pub fn every_reply_is_its_own()
    // The lists of such a log are a legal run.
    ensures legal { EveryLogIsLegal }
    // Each Rdispatch answers the dispatch that the client sent.
    ensures answered { EveryRdispatchIsAnswered }
    // A server that sends final replies on open tags alone saw it so, too.
    ensures seen { EveryReplyIsSeen }
    // Without tries no dispatch is sent twice.
    ensures once { EveryNameIsSentOnce }
    // Both ends of a connection pair alike, if the far one is lawful.
    ensures agree { BothEndsAgree }
{}
