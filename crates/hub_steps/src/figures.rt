//! How a session stands, for an operator.
//!
//! operator_port has these fields once more, as it doesn't know sessions; the hub's driver moves them over.
ghost use Rattle.std.specs.Prelude.{◌≡◌};
ghost use Rattle.mux_history.specs.Lapse.{lease_of};
ghost use Rattle.mux_model.specs.Steps.{records};
ghost use Rattle.client_session.specs.Past.{Past as UpPast};
ghost use Rattle.client_session.specs.Belonging.{Belongs as BelongsUp};
ghost use Rattle.server_session.specs.Past.{Past as DownPast};
ghost use Rattle.server_session.specs.Belonging.{Belongs as BelongsDown};
ghost use Rattle.hub_close.specs.Words.{down_word, up_word};
ghost use Rattle.hub_steps.specs.Figures.{ShowsDown, ShowsUp};

use hub_close::{DownWord, UpWord};
use kept_session::{KeptClientSession, KeptServerSession};

/// How a session towards a client stands.
#[derive(Clone, Copy, Drop)]
pub struct DownFigures {
    pub word: DownWord,
    /// The dispatches that it holds.
    pub entries: usize,
    /// The records of its present history.
    pub records: usize,
    /// How many epochs were ended: how often it was sealed or rolled.
    pub epoch: u32,
    /// The frames that wait to be sent.
    pub queued: usize,
}

/// How a session towards a server stands.
#[derive(Clone, Copy, Drop)]
pub struct UpFigures {
    pub word: UpWord,
    /// The dispatches that it holds.
    pub load: usize,
    /// When its last lease lapses, in milliseconds since the router's start. None if none was granted.
    pub lapse: Option<u64>,
    /// The records of its present history.
    pub records: usize,
    /// How many epochs were ended: how often it was sealed or rolled.
    pub epoch: u32,
    /// The frames that wait to be sent.
    pub queued: usize,
}

/// How the session of a slot towards a client stands. None if it has none.
pub fn down_figures(slot: &Option<KeptServerSession>) -> Option<DownFigures>
    ensures { ShowsDown slot.now result }
{
    let Some(session) = slot else {
        return None;
    };
    Some(DownFigures {
        word: down_word_of(session),
        entries: session.load(),
        records: session.history().len(),
        epoch: session.epoch(),
        queued: session.queued(),
    })
}

/// How the session of a slot towards a server stands. None if it has none.
pub fn up_figures(slot: &Option<KeptClientSession>) -> Option<UpFigures>
    ensures { ShowsUp slot.now result }
{
    let Some(session) = slot else {
        return None;
    };
    Some(UpFigures {
        word: up_word_of(session),
        load: session.load(),
        lapse: lapse_of(session),
        records: session.history().len(),
        epoch: session.epoch(),
        queued: session.queued(),
    })
}

/// How a session towards a client stands, in an operator's words.
fn down_word_of(session: &KeptServerSession) -> DownWord
    ensures { (p : DownPast) → BelongsDown session.now.state p → result ≡ down_word (records p.steps) }
{
    hub_close::down_word(session.is_closed(), session.standing())
}

/// How a session towards a server stands, in an operator's words.
fn up_word_of(session: &KeptClientSession) -> UpWord
    ensures { (p : UpPast) → p.session.mode ≡ session.now.mode → BelongsUp session.now.state p
        → result ≡ up_word session.now.mode (records p.steps) }
{
    hub_close::up_word(session.is_closed(), session.standing())
}

/// When the last lease of a session lapses, in milliseconds since the router's start. None if none was granted.
fn lapse_of(session: &KeptClientSession) -> Option<u64>
    ensures { (p : UpPast) → p.session.mode ≡ session.now.mode → BelongsUp session.now.state p
        → result ≡ lease_of (records p.steps) }
{
    hub_close::lapse(session.standing())
}
