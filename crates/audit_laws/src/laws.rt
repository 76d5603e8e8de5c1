//! The theorems that an audit accuses no run, and forgets of it what it may.

ghost use Rattle.audit_laws.specs.AuditedRuns.{NeverAccused, NeverRefused, NeverFlawed};
ghost use Rattle.audit_laws.specs.Forgetting.{DoneForGood, EveryNameIsTaken};

/// Whatever events come, in whatever order, an audit of the histories of one boot refuses none of their records,
/// however it is fed.
pub fn never_accused()
    // A record that is at fault by its cause is none of them, but where the pings of its session aren't counted.
    ensures law { NeverAccused }
    // So of what `take` tells of them.
    ensures take { NeverRefused }
    // Once all were taken, closing finds no dispatch at fault.
    ensures close { NeverFlawed }
{}

/// An audit drops a life that is done with: of a run, whatever was taken of each history, no record that is left names
/// its dispatch.
pub fn done_for_good()
    ensures law { DoneForGood }
    // Of each dispatch that the records name, one tells that a client's session took it.
    ensures taken { EveryNameIsTaken }
{}
