use gw_text::{Condition, Socket};
use std::marker::Model;

/// The conditions of a listener.
#[derive(Clone, Copy, Debug)]
pub struct ListenerState {
    pub accepted: Condition,
    pub conflicted: Condition,
    pub resolved: Condition,
    pub programmed: Condition,
    /// Whether HTTPRoute is a supported kind.
    pub http: bool,
}

impl Model for ListenerState {
    ghost use Rattle.gw_text.specs.model.Listeners.{ListenerState as Plain};

    ghost Value = { Plain };

    ghost view = { λ s. record {
      accepted = s.accepted;
      conflicted = s.conflicted;
      resolved = s.resolved;
      programmed = s.programmed;
      http = s.http;
    } };

    ghost inverse = { λ s. record {
      accepted = s.accepted;
      conflicted = s.conflicted;
      resolved = s.resolved;
      programmed = s.programmed;
      http = s.http;
    } };
}

/// The conditions of a Gateway.
#[derive(Clone, Copy, Debug)]
pub struct GatewayState {
    pub accepted: Condition,
    pub programmed: Condition,
    /// Where its connections are taken, if it is programmed: the socket of its first door. Only the address is printed.
    pub address: Option<Socket>,
}

impl Model for GatewayState {
    ghost use Rattle.gw_text.specs.model.Listeners.{GatewayState as Plain};

    ghost Value = { Plain };

    ghost view = { λ s. record { accepted = s.accepted; programmed = s.programmed; address = s.address } };

    ghost inverse = { λ s. record { accepted = s.accepted; programmed = s.programmed; address = s.address } };
}
