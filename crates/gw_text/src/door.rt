ghost use Rattle.std.specs.Prelude.{◌≡◌, ◌==◌, IfOk};
ghost use Rattle.gw_text.specs.Parsing.{Parses};
ghost use Rattle.gw_text.specs.model.Doors as doors;

use crate::key::Key;
use crate::name::TextFault;
use crate::socket::{Socket, around, port_of, socket_of};
use std::alloc::{AllocError, Global};
use std::marker::Model;

/// A Gateway, the port of its listeners, and the loopback socket at which connections to it come.
#[derive(Drop)]
pub struct Door {
    pub gateway: Key,
    pub port: u16,
    pub at: Socket,
}

impl Model for Door {
    ghost use Rattle.gw_text.specs.model.Doors.{Door as Plain};

    ghost Value = { Plain };

    ghost view = { λ d. record { gateway = d.gateway; port = d.port; at = d.at } };
}

impl Door {
    /// The door that a text names, as `shop/web:80=127.0.0.1:8080`.
    #[tactic(auto, unfolding(crate::specs::model::Doors::door_of))]
    pub fn parse(alloc: Global, s: &str) -> Result<Self, TextFault>
        ensures { Parses (doors.door_of s.now) result }
    {
        let (listener, at) = around(s, '=');
        let (gateway, port) = around(listener, ':');
        let Some(port) = listener_port_of(port) else {
            return Err(TextFault::Bad);
        };
        let Some(at) = loopback_of(at) else {
            return Err(TextFault::Bad);
        };
        let gateway = Key::parse(alloc, gateway)?;
        Ok(Door { gateway, port, at })
    }

    /// The same door once more.
    pub fn copy(&self, alloc: Global) -> Result<Self, AllocError>
        ensures { IfOk result (λ door. door ≡ self.now) }
    {
        Ok(Door {
            gateway: self.gateway.copy(alloc)?,
            port: self.port,
            at: self.at,
        })
    }

    /// Whether both are of one Gateway, and their addresses differ.
    pub(crate) fn has_another_address(&self, other: &Door) -> bool
        ensures { result ≡ doors.have_two_addresses self.now other.now }
    {
        self.gateway == other.gateway && !self.at.same_address(&other.at)
    }

    /// Whether both are of one Gateway and one listener port, or have one socket.
    pub(crate) fn is_the_same_door(&self, other: &Door) -> bool
        ensures { result ≡ doors.are_one_door self.now other.now }
    {
        self.gateway == other.gateway && self.port == other.port || self.at.same_socket(&other.at)
    }
}

#[tactic(auto, unfolding(crate::specs::model::Doors::listener_port_of))]
fn listener_port_of(s: &str) -> Option<u16>
    ensures { result ≡ doors.listener_port_of s.now }
{
    let port = port_of(s)?;
    if port == 0 { None } else { Some(port) }
}

#[tactic(auto, unfolding(crate::specs::model::Doors::loopback_of))]
fn loopback_of(s: &str) -> Option<Socket>
    ensures { result ≡ doors.loopback_of s.now }
{
    let socket = socket_of(s)?;
    if socket.a == 127 { Some(socket) } else { None }
}
