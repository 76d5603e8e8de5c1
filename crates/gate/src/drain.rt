//! Draining: a server sends Tdrain, the client answers Rdrain and sends no more dispatches.
ghost use Rattle.std.specs.Prelude.{◌≡◌, ◌↔◌, IsTrue};

use mux_history::DrainState;

/// Towards a server: whether it has drained the session. Nothing opens it again.
#[derive(Clone, Copy, Debug, PartialEq, Eq)]
pub enum DrainIn {
    /// No Tdrain has come.
    Running,
    /// A Tdrain was answered by Rdrain: no more dispatches are sent.
    Drained,
}

impl DrainIn {
    ghost use Rattle.gate.specs.Drains.{is_drained};

    /// Tdrain was answered. A second one changes nothing more.
    pub fn drain(&mut self)
        ensures { self.new ≡ DrainIn.Drained }
    {
        *self = DrainIn::Drained;
    }

    /// No more dispatches may be sent.
    pub fn is_drained(self) -> bool
        ensures { result ≡ is_drained self }
    {
        self == DrainIn::Drained
    }
}

/// Towards a client: whether the router has drained the session.
#[derive(Clone, Copy, Debug, PartialEq, Eq)]
pub enum DrainOut {
    /// No Tdrain was sent.
    Running,
    /// A Tdrain with this tag was sent, and its Rdrain has not come.
    Asked(u32),
    /// The Rdrain has come: no more dispatches are taken.
    Acked,
}

impl DrainOut {
    ghost use Rattle.gate.specs.Drains.{is_running, is_acked, answers, after_rdrain, state_of};

    /// No Tdrain was sent.
    pub fn is_running(self) -> bool
        ensures { result ≡ is_running self }
    {
        self == DrainOut::Running
    }

    /// The client has answered the Tdrain.
    pub fn is_acked(self) -> bool
        ensures { result ≡ is_acked self }
    {
        self == DrainOut::Acked
    }

    /// How far draining has come, as a history keeps it.
    pub fn state(self) -> DrainState
        ensures { result ≡ state_of self }
    {
        match self {
            DrainOut::Running => DrainState::Running,
            DrainOut::Asked(_) => DrainState::Asked,
            DrainOut::Acked => DrainState::Acked,
        }
    }

    /// An Rdrain with this tag answers the Tdrain that was sent.
    pub fn acks(self, tag: u32) -> bool
        ensures { result ≡ answers tag self }
    {
        self == DrainOut::Asked(tag)
    }

    /// A Tdrain with this tag was sent, the first of the session.
    pub fn ask(&mut self, tag: u32)
        requires { IsTrue (is_running self.old) }
        ensures { self.new ≡ DrainOut.Asked tag }
    {
        *self = DrainOut::Asked(tag);
    }

    /// An Rdrain with this tag was taken. One that does not answer the Tdrain changes nothing.
    pub fn ack(&mut self, tag: u32) -> bool
        ensures answer { result ≡ answers tag self.old }
        ensures step { self.new ≡ after_rdrain tag self.old }
    {
        let acked = self.acks(tag);
        if acked {
            *self = DrainOut::Acked;
        }
        acked
    }
}
