//! What backends are told.
ghost use Rattle.std.specs.Prelude.{◌≡◌, ◌++◌, ◌^◌, ◌<◌, [], OnOk, replicate};
ghost use Rattle.gw_replay.specs.Replays.{IsAnswer, with_order};
ghost use Rattle.gw_replay.specs.States.{Answers, Does, Orders};

use crate::replay::Replay;
use gw_link::Order;
use gw_text::{NoMemory, Socket};
use std::sync::Wait;

impl<R: Wait + Drop> Replay<R> {
    /// The backend at the socket answers this text and so many `x` from now on.
    pub(crate) fn answer(
        &mut self,
        socket: Socket,
        text: Vec<u8>,
        fill: usize,
    ) -> Result<(), NoMemory>
        ensures does { OnOk result (Does (λ s s' text'. Answers socket (text.items ++ replicate fill 120) s s' text') self.old self.new) }
        ensures refused { self.new.refused ≡ self.old.refused }
        ensures skipped { self.new.skipped ≡ self.old.skipped }
    {
        let mut filled = text;
        let size = filled.len().checked_add(fill).ok_or(NoMemory)?;
        filled.resize(size, b'x')?;
        self.order(Order::Answers(socket, filled))
    }

    /// A backend does so from now on.
    pub(crate) fn order(&mut self, order: Order) -> Result<(), NoMemory>
        ensures does { OnOk result (Does (λ s s' text. Orders order s s' text) self.old self.new) }
        ensures refused { self.new.refused ≡ self.old.refused }
        ensures skipped { self.new.skipped ≡ self.old.skipped }
    {
        self.backends.order(order)
    }
}
