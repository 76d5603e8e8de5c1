//! The choice of one server.
ghost use Rattle.std.specs.Prelude.{◌≡◌, ℕ, Option, length};
ghost use Rattle.balancer.specs.Least.{AreRead, IsChoice, MayRead, lesser};

use mux_history::ServerId;

/// Whoever can report how many dispatches a server has.
pub trait Loads {
    /// This may be read as the load of this server, or None if the server isn't there.
    ghost reads: { Self → ℕ → Option ℕ → Type 0 };

    /// The load of a server. None if there is no such server.
    fn load(&self, server: ServerId) -> Option<u32>
        ensures { reads self.now server result };
}

/// The server with the least load among these, but not this one, and that load; the earlier one at equal loads. None if
/// no other one is there.
///
/// Each load is read once, in the order of the servers. It takes no memory.
pub fn choose<S: Loads>(
    loads: &S,
    servers: &[ServerId],
    but: Option<ServerId>,
) -> Option<(ServerId, u32)>
    ensures { (read : ℕ → Option ℕ) × AreRead S.reads loads.now but servers.now (length servers.now) read
        × IsChoice servers.now (length servers.now) read result }
{
    let mut choice = None;
    for server in servers {
        choice = lesser(choice, *server, read(loads, *server, but));
    }
    choice
}

#[inline(always)]
fn read<S: Loads>(loads: &S, server: ServerId, but: Option<ServerId>) -> Option<u32>
    ensures { MayRead S.reads loads.now but server result }
{
    if but == Some(server) {
        return None;
    }
    loads.load(server)
}

#[inline(always)]
fn lesser(
    choice: Option<(ServerId, u32)>,
    server: ServerId,
    read: Option<u32>,
) -> Option<(ServerId, u32)>
    ensures { result ≡ lesser choice server read }
{
    let Some(load) = read else {
        return choice;
    };
    match choice {
        Some((_, least)) if least <= load => choice,
        _ => Some((server, load)),
    }
}
