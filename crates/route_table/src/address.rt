//! Texts that spell addresses.
ghost use Rattle.std.specs.Prelude.{◌≡◌};
ghost use Rattle.route_table.specs.Address.{address_of};

use std::net::SocketAddr;

/// The address that a text spells: an IPv4 address and a port, or an IPv6 address in brackets and a port.
pub fn parse_address(text: &str) -> Option<SocketAddr>
    ensures { result ≡ address_of text.now }
{
    match text.parse::<SocketAddr>() {
        Ok(address) => Some(address),
        Err(_) => None,
    }
}
