//! What a kind of record tells of its session: a step, or an `Epoch` that holds how it stood.
ghost use Rattle.std.specs.Prelude.{◌≡◌};
ghost use Rattle.mux_history.specs.Readings.{ends, is_drain_acked, is_drain_asked, is_drained_kind, is_epoch};
ghost use Rattle.mux_history.specs.Readings.{is_init_asked, is_init_done, is_ping_done, is_ping_sent, is_retiring};

use mux_history::{DrainState, InitState, RecordKind, Standing};

/// Whether an epoch begins.
pub fn is_epoch(kind: RecordKind) -> bool
    ensures { result ≡ is_epoch kind }
{
    matches!(kind, RecordKind::Epoch { .. })
}

/// Whether the session's list ends.
pub fn ends(kind: RecordKind) -> bool
    ensures { result ≡ ends kind }
{
    matches!(kind, RecordKind::Closed(_) | RecordKind::Lost)
}

/// Whether initiation has ended.
pub fn is_init_done(kind: RecordKind) -> bool
    ensures { result ≡ is_init_done kind }
{
    match kind {
        RecordKind::InitDone => true,
        RecordKind::Epoch { standing, .. } => match standing {
            Standing::Down { fresh, .. } => !fresh,
            Standing::Up { init, .. } => matches!(init, InitState::Open),
        },
        _ => false,
    }
}

/// Whether Tinit was sent.
pub fn is_init_asked(kind: RecordKind) -> bool
    ensures { result ≡ is_init_asked kind }
{
    match kind {
        RecordKind::InitAsked => true,
        RecordKind::Epoch { standing, .. } => match standing {
            Standing::Down { .. } => false,
            Standing::Up { init, .. } => matches!(init, InitState::Asked),
        },
        _ => false,
    }
}

/// Whether a Tdrain was sent.
pub fn is_drain_asked(kind: RecordKind) -> bool
    ensures { result ≡ is_drain_asked kind }
{
    match kind {
        RecordKind::DrainAsked => true,
        RecordKind::Epoch { standing, .. } => match standing {
            Standing::Down { drain, .. } => matches!(drain, DrainState::Asked),
            Standing::Up { .. } => false,
        },
        _ => false,
    }
}

/// Whether the client answered the Tdrain.
pub fn is_drain_acked(kind: RecordKind) -> bool
    ensures { result ≡ is_drain_acked kind }
{
    match kind {
        RecordKind::DrainAcked => true,
        RecordKind::Epoch { standing, .. } => match standing {
            Standing::Down { drain, .. } => matches!(drain, DrainState::Acked),
            Standing::Up { .. } => false,
        },
        _ => false,
    }
}

/// Whether a Tdrain was answered.
pub fn is_drained(kind: RecordKind) -> bool
    ensures { result ≡ is_drained_kind kind }
{
    match kind {
        RecordKind::Drained => true,
        RecordKind::Epoch { standing, .. } => match standing {
            Standing::Down { .. } => false,
            Standing::Up { drained, .. } => drained,
        },
        _ => false,
    }
}

/// Whether the session was retired.
pub fn is_retired(kind: RecordKind) -> bool
    ensures { result ≡ is_retiring kind }
{
    match kind {
        RecordKind::Retired => true,
        RecordKind::Epoch { standing, .. } => match standing {
            Standing::Down { .. } => false,
            Standing::Up { retired, .. } => retired,
        },
        _ => false,
    }
}

/// Whether a ping was sent.
pub fn is_ping_sent(kind: RecordKind) -> bool
    ensures { result ≡ is_ping_sent kind }
{
    match kind {
        RecordKind::PingSent => true,
        RecordKind::Epoch { standing, .. } => match standing {
            Standing::Down { .. } => false,
            Standing::Up { ping, .. } => ping,
        },
        _ => false,
    }
}

/// Whether a ping was answered.
pub fn is_ping_done(kind: RecordKind) -> bool
    ensures { result ≡ is_ping_done kind }
{
    matches!(kind, RecordKind::PingDone)
}
