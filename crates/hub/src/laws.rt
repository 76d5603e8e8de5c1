//! The laws of one call with frames, drawn from what the calls say of themselves and from nothing else. Each function
//! here does nothing: its contract is a theorem.
ghost use Rattle.hub.specs.Laws.{EveryDispatchGoesOn, EveryReplyGoesHome, WhatGoesOutStands};

/// Each reply among the frames of a server is handed, as it came, to a client's session and settled there by that
/// session's own step: only that of the client whose dispatch it answers sends it, with its tag alone changed.
pub fn a_reply_goes_home()
    ensures home { EveryReplyGoesHome }
{}

/// Each dispatch among the frames of a client is taken as it is by a server's session, or goes back to its client's.
pub fn a_dispatch_goes_on()
    ensures on { EveryDispatchGoesOn }
{}

/// Each frame that `next_outs` gives for a client stands in the hub's log: its session sent it before. If it passes on
/// a reply, it stands behind the server's move on that very reply, which gave it to that very name; or it is the
/// router's own nack or word.
pub fn what_goes_out_stands()
    ensures stands { WhatGoesOutStands }
{}
