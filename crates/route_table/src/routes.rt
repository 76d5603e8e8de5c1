//! The servers of each destination.
ghost use Rattle.std.specs.Prelude.{◌≡◌, ◌∷◌, ℕ, List, [], Some, None, map, IfOk, IfSome, IsTrue, is_some, OnOk, OnErr, if◌then◌else◌};
ghost use Rattle.std.specs.Str.{bytes_eq};
ghost use Rattle.std.specs.Option.{option_map};
ghost use Rattle.route_table.specs.Routes.{Change, set, remove, servers_of, last_set, LeadsTo, is_server_list, routing};

use indexmap::IndexMap;
use mux_history::ServerId;
use std::alloc::{AllocError, Global};
use std::marker::Model;

/// A destination, and the servers that its dispatches may go to.
#[derive(Drop)]
pub struct Routing {
    pub dst: Vec<u8>,
    /// 1 to 64, none twice.
    pub servers: Vec<ServerId>,
}

/// Which servers the dispatches to a destination may go to. A destination is a string of bytes.
///
/// Contracts see the routes as pairs of a destination and its servers.
#[derive(Drop)]
pub struct Routes {
    lists: IndexMap<Vec<u8>, Vec<ServerId>>,
}

impl Model for Routes {
    ghost use Rattle.std.specs.Prelude.{ℕ, List};
    ghost use Rattle.route_table.specs.Routes.{routes_in, AreServerLists};

    ghost Value = { List (List ℕ × List ℕ) };

    ghost view = { λ r. routes_in r.lists };

    ghost invariant = { λ r. AreServerLists (routes_in r.lists) };
}

impl Routes {
    /// No routes. It takes no memory.
    pub fn new(alloc: Global) -> Routes
        ensures { LeadsTo [] result }
    {
        Routes {
            lists: IndexMap::new(alloc),
        }
    }

    /// The servers of a destination: the list that was set last, unless it was removed since.
    ///
    /// It takes no memory.
    pub fn find(&self, dst: &[u8]) -> Option<&[ServerId]>
        ensures value { option_map (λ s. s.now) result ≡ servers_of self.now dst.now }
        ensures last { (past : List Change) → LeadsTo past self.now
            → option_map (λ s. s.now) result ≡ last_set past dst.now }
        ensures servers { IfSome result (λ s. IsTrue (is_server_list s.now)) }
    {
        match self.lists.get(dst) {
            Some(list) => Some(list.as_slice()),
            None => None,
        }
    }

    /// Each destination with its servers. Out of memory is the one error.
    pub fn list(&self, alloc: Global) -> Result<Vec<Routing>, AllocError>
        ensures { IfOk result (λ v. map routing v.items ≡ self.now) }
    {
        let mut list = Vec::new(alloc);
        for (dst, servers) in self.lists.iter() {
            let dst = Vec::from_slice(alloc, dst.as_slice())?;
            let servers = Vec::from_slice(alloc, servers.as_slice())?;
            list.push(Routing { dst, servers })
                .map_err(AllocError::from)?;
        }
        Ok(list)
    }

    /// Gives a destination these servers, 1 to 64, none twice, in the place of any that it has.
    ///
    /// Out of memory is the one error, and changes nothing.
    pub fn set(&mut self, alloc: Global, dst: &[u8], servers: &[ServerId]) -> Result<(), AllocError>
        requires { IsTrue (is_server_list servers.now) }
        ensures value { OnOk result ((d : List ℕ) → servers_of self.new d
            ≡ (if bytes_eq d dst.now then Some servers.now else servers_of self.old d)) }
        ensures after { OnOk result ((past : List Change) → LeadsTo past self.old
            → LeadsTo (set dst.now servers.now ∷ past) self.new) }
        ensures err { OnErr result (self.new ≡ self.old) }
    {
        let key = Vec::from_slice(alloc, dst)?;
        let list = Vec::from_slice(alloc, servers)?;
        self.lists.insert(key, list)?;
        Ok(())
    }

    /// Takes the servers of a destination away, and reports whether there were any.
    ///
    /// It takes no memory.
    pub fn remove(&mut self, dst: &[u8]) -> bool
        ensures found { result ≡ is_some (servers_of self.old dst.now) }
        ensures value { (d : List ℕ) → servers_of self.new d
            ≡ (if bytes_eq d dst.now then None else servers_of self.old d) }
        ensures after { (past : List Change) → LeadsTo past self.old → LeadsTo (remove dst.now ∷ past) self.new }
    {
        self.lists.swap_remove(dst).is_some()
    }
}
