ghost use Rattle.std.specs.Prelude.{◌≡◌, ◌<◌, length, OnOk, OnErr};
ghost use Rattle.gw_link.specs.Exchanges.{change_last, sending, receiving};

use gw_text::{NoMemory, Socket};
use std::marker::Model;

/// One connection with a backend.
#[derive(Drop)]
pub struct Exchange {
    pub to: Socket,
    pub sent: Vec<u8>,
    pub given: Vec<u8>,
    /// Whether a `receive` answered 0 after what was given.
    pub ended: bool,
}

impl Model for Exchange {
    ghost use Rattle.gw_link.specs.Exchanges.{Exchange as Plain};

    ghost Value = { Plain };

    ghost view = { λ e. record { to = e.to; sent = e.sent.items; given = e.given.items; ended = e.ended } };
}

impl Exchange {
    // Keeps the bytes that are sent.
    fn send(&mut self, piece: &[u8]) -> Result<(), NoMemory>
        ensures sent { OnOk result (self.new ≡ sending piece.now self.old) }
        ensures same { OnErr result (self.new ≡ self.old) }
    {
        self.sent.extend_from_slice(piece)
    }

    // Keeps the bytes that are given; no bytes are the end.
    fn receive(&mut self, piece: &[u8]) -> Result<(), NoMemory>
        ensures given { OnOk result (self.new ≡ receiving piece.now self.old) }
        ensures same { OnErr result (self.new ≡ self.old) }
    {
        self.given.extend_from_slice(piece)?;
        self.ended = piece.len() == 0;
        Ok(())
    }
}

/// Keeps the bytes that are sent in the last exchange.
pub(crate) fn send_in_last(exchanges: &mut [Exchange], piece: &[u8]) -> Result<(), NoMemory>
    requires { 0 < length exchanges.old }
    ensures sent { OnOk result (exchanges.new ≡ change_last (sending piece.now) exchanges.old) }
    ensures same { OnErr result (exchanges.new ≡ exchanges.old) }
{
    let last = exchanges.len() - 1;
    exchanges[last].send(piece)
}

/// Keeps the bytes that are given in the last exchange.
pub(crate) fn receive_in_last(exchanges: &mut [Exchange], piece: &[u8]) -> Result<(), NoMemory>
    requires { 0 < length exchanges.old }
    ensures given { OnOk result (exchanges.new ≡ change_last (receiving piece.now) exchanges.old) }
    ensures same { OnErr result (exchanges.new ≡ exchanges.old) }
{
    let last = exchanges.len() - 1;
    exchanges[last].receive(piece)
}
