//! What an order changes: the servers of a destination from now on, or none.
ghost use Rattle.std.specs.Prelude.{◌≡◌, ◌∷◌, List, IsTrue, IfOk, OnOk, OnErr, option_map};
ghost use Rattle.published_routes.specs.Marks.{given_by};
ghost use Rattle.route_table.specs.Routes.{Change, set, remove, LeadsTo, is_server_list};

use mux_history::ServerId;
use route_table::Routes;
use std::alloc::{AllocError, Global};
use std::marker::Model;

/// A destination, and its servers from now on, if any. Contracts see the change that it makes.
#[derive(Drop)]
pub struct RouteChange {
    dst: Vec<u8>,
    servers: Option<Vec<ServerId>>,
}

impl Model for RouteChange {
    ghost use Rattle.std.specs.Prelude.{IfSome, IsTrue};
    ghost use Rattle.std.specs.Option.{option_map};
    ghost use Rattle.route_table.specs.Routes.{Change, is_server_list};
    ghost use Rattle.published_routes.specs.Orders.{change_to};

    ghost Value = { Change };

    ghost view = { λ o. change_to o.dst.items (option_map (λ ss. ss.items) o.servers) };

    ghost invariant = { λ o. IfSome o.servers (λ ss. IsTrue (is_server_list ss.items)) };
}

impl RouteChange {
    pub(crate) fn set(
        alloc: Global,
        dst: &[u8],
        servers: &[ServerId],
    ) -> Result<RouteChange, AllocError>
        requires { IsTrue (is_server_list servers.now) }
        ensures { IfOk result (λ o. o ≡ set dst.now servers.now) }
    {
        Ok(RouteChange {
            dst: Vec::from_slice(alloc, dst)?,
            servers: Some(Vec::from_slice(alloc, servers)?),
        })
    }

    pub(crate) fn remove(alloc: Global, dst: &[u8]) -> Result<RouteChange, AllocError>
        ensures { IfOk result (λ o. o ≡ remove dst.now) }
    {
        Ok(RouteChange {
            dst: Vec::from_slice(alloc, dst)?,
            servers: None,
        })
    }

    /// The destination that it gives servers. None if it takes them away. Out of memory is the one error.
    pub(crate) fn given(&self, alloc: Global) -> Result<Option<Vec<u8>>, AllocError>
        ensures { IfOk result (λ o. option_map (λ d. d.items) o ≡ given_by self.now) }
    {
        match &self.servers {
            Some(_servers) => Ok(Some(Vec::from_slice(alloc, self.dst.as_slice())?)),
            None => Ok(None),
        }
    }

    /// Makes the change. At `Err` nothing was changed.
    pub(crate) fn carry_out(&self, alloc: Global, routes: &mut Routes) -> Result<(), AllocError>
        ensures after { OnOk result ((past : List Change) → LeadsTo past routes.old
            → LeadsTo (self.now ∷ past) routes.new) }
        ensures err { OnErr result (routes.new ≡ routes.old) }
    {
        match &self.servers {
            Some(servers) => routes.set(alloc, self.dst.as_slice(), servers.as_slice()),
            None => {
                routes.remove(self.dst.as_slice());
                Ok(())
            }
        }
    }
}
