//! The headline: what a client may rely on.

ghost use Rattle.mux_legal.specs.Headline.{EveryNameIsSentOnce, EveryRdispatchIsAnswered, EveryReplyIsSeen};

/// Whatever events come, in whatever order, each reply to a client is its server's.
pub fn every_reply_is_its_own()
    // Without tries no dispatch is sent twice, and one that the router nacks by itself never.
    ensures once { EveryNameIsSentOnce }
    // Each Rdispatch answers the dispatch that the client sent: a server that was sent that very
    // dispatch answered so, or the router nacked what each server nacked.
    ensures answered { EveryRdispatchIsAnswered }
    // A server that sends final replies on open tags alone gave that reply to that dispatch in its
    // own list too.
    ensures seen { EveryReplyIsSeen }
{}
