//! The servers of a route.
ghost use Rattle.std.specs.Prelude.{◌≡◌, ◌≤◌, length, IfSome, IsTrue, None};
ghost use Rattle.std.specs.Option.{option_map};
ghost use Rattle.route_table.specs.Routes.{is_server_list};

use arrayvec::ArrayVec;
use mux_history::ServerId;
use std::marker::Model;

/// The servers of a route: 1 to 64, none twice. It has no memory of its own to free.
///
/// Contracts see the list of the servers.
#[derive(Drop)]
pub struct Servers {
    list: ArrayVec<ServerId, 64>,
}

impl Model for Servers {
    ghost use Rattle.std.specs.Prelude.{ℕ, List, IsTrue};
    ghost use Rattle.route_table.specs.Routes.{is_server_list};

    ghost Value = { List ℕ };

    ghost view = { λ s. s.list.items };

    ghost invariant = { λ s. IsTrue (is_server_list s.list.items) };
}

impl Servers {
    /// A copy of these.
    pub(crate) fn of(servers: &[ServerId]) -> Servers
        requires { IsTrue (is_server_list servers.now) }
        ensures { result ≡ servers.now }
    {
        let mut list = ArrayVec::new();
        let Ok(()) = list.try_extend_from_slice(servers) else {
            unreachable!()
        };
        Servers { list }
    }

    /// The servers, in the order in which the route was given them.
    pub fn as_slice(&self) -> &[ServerId]
        ensures value { result.now ≡ self.now }
        ensures servers { IsTrue (is_server_list result.now) }
        ensures few { length result.now ≤ 64 }
    {
        &self.list
    }
}

/// What a look-up found: the servers of a route, or no route. Whoever looks routes up one after
/// another lends one place to all look-ups, since it has 528 bytes.
///
/// Contracts see the list of the servers, if there is a route.
#[derive(Drop)]
pub struct Found {
    list: ArrayVec<ServerId, 64>,
    is_there: bool,
}

impl Model for Found {
    ghost use Rattle.std.specs.Prelude.{ℕ, List, Option, Some, None, IsTrue, if◌then◌else◌};
    ghost use Rattle.route_table.specs.Routes.{is_server_list};

    ghost Value = { Option (List ℕ) };

    ghost view = { λ f. if f.is_there then Some f.list.items else None };

    ghost invariant = { λ f. IsTrue f.is_there → IsTrue (is_server_list f.list.items) };
}

impl Found {
    /// No route.
    pub fn new() -> Found
        ensures { result ≡ None }
    {
        Found {
            list: ArrayVec::new(),
            is_there: false,
        }
    }

    /// Puts a copy of these here, in the place of what was found before.
    pub(crate) fn put(&mut self, servers: Option<&[ServerId]>)
        requires { IfSome servers (λ s. IsTrue (is_server_list s.now)) }
        ensures { self.new ≡ option_map (λ s. s.now) servers.entry }
    {
        self.list.clear();
        self.is_there = false;
        let Some(servers) = servers else {
            return;
        };
        let Ok(()) = self.list.try_extend_from_slice(servers) else {
            unreachable!()
        };
        self.is_there = true;
    }

    /// The servers, in the order in which the route was given them. None if there is no route.
    pub fn servers(&self) -> Option<&[ServerId]>
        ensures value { option_map (λ s. s.now) result ≡ self.now }
        ensures servers { IfSome result (λ s. IsTrue (is_server_list s.now)) }
    {
        if self.is_there {
            Some(&self.list)
        } else {
            None
        }
    }
}
