//! A theorem on what an audit refuses and finds.

ghost use Rattle.rolling_audit.specs.Faults.{AccuseRightly};
ghost use Rattle.rolling_audit.specs.Steps.{CloseRightly, FindsUntaken};

/// Of histories that bear each other out, as those of each run of the definitions do (`borne` of
/// `kept_histories_are_legal`, mux_legal), no record is refused for what its session's own records show, or as a
/// second answer, and closing finds no flaw but an untaken dispatch.
pub fn accuse_rightly()
    ensures law { AccuseRightly }
    ensures close { CloseRightly }
    // Of whatever histories: no client took it, or it was named again once it was done with.
    ensures untaken { FindsUntaken }
{}
