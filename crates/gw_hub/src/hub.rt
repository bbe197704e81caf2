ghost use Rattle.std.specs.Prelude.{◌≡◌, ◌≤◌, length, take, IfOk, IfErr, OnOk};
ghost use Rattle.gw_match.specs.model.Telling.{world_after};
ghost use Rattle.gw_snap.specs.Lists.{BeginsWith};
ghost use Rattle.gw_status.specs.StatusText.{statuses_text};
ghost use Rattle.gw_text.specs.model.Statuses.{statuses_of};
ghost use Rattle.gw_hub.specs.Turns.{IsReceipt, LeavesAsFault, LeavesWithoutInput};

use crate::controller::Controller;
use crate::desk::Desk;
use crate::name::HubName;
use crate::receipt::{HubFault, Receipt};
use gw_match::Tables;
use gw_snap::Pass;
use gw_text::{Second, Text};
use std::alloc::Global;
use std::marker::PhantomData;
use std::sync::{Mutex, Wait};

/// A controller of an opening, for one thread at a time. While threads wait for their turn, passes read on.
#[derive(Drop)]
pub struct Hub<N: HubName, R: Wait + Drop> {
    lock: Mutex<Desk<N, R>>,
}

impl<N: HubName, R: Wait + Drop> Hub<N, R> {
    /// A hub round the controller.
    pub fn new(c: Controller<R>) -> Hub<N, R>
        requires book { c.book ≡ N.book }
        requires doors { c.doors ≡ N.doors }
        requires controller { c.controller ≡ N.controller }
    {
        Hub {
            lock: Mutex::new(Desk {
                controller: c,
                of: PhantomData,
            }),
        }
    }

    /// One turn: takes the changes that the lines of an input say, which came at this moment, and publishes them, which the pass learns.
    pub fn submit<W: Wait>(
        &self,
        rt: &W,
        alloc: Global,
        pass: &mut Pass<Tables>,
        lines: &[u8],
        at: Second,
    ) -> Result<Receipt, HubFault>
        requires { pass.old.book ≡ N.book }
        ensures receipt { IfOk result (λ r. IsReceipt lines.now at r pass.new.seen) }
        ensures first { IfOk result (λ r. length pass.old.seen ≤ r.first) }
        ensures fault { IfErr result (λ e. LeavesAsFault lines.now at e pass.old pass.new) }

        ensures later { BeginsWith pass.old.seen pass.new.seen }
        ensures ahead { OnOk result (pass.new.ahead ≡ pass.old.ahead) }
        ensures refused { pass.new.refused ≡ pass.old.refused }
        ensures fixed { pass.new.fixed ≡ pass.old.fixed }
        ensures book { pass.new.book ≡ pass.old.book }
    {
        let mut desk = self.lock.lock(rt);
        let desk = &mut *desk;
        desk.submit(rt, alloc, pass, lines, at)
    }

    /// One turn: the text of the statuses, and after how many changes they stand. Those are published then, which the pass learns.
    pub fn statuses<W: Wait>(
        &self,
        rt: &W,
        alloc: Global,
        pass: &mut Pass<Tables>,
    ) -> Result<(Text, u64), HubFault>
        requires { pass.old.book ≡ N.book }
        ensures text { IfOk result (λ r. r.0 ≡ statuses_text (statuses_of N.doors N.controller (world_after (take r.1 pass.new.seen)))) }
        ensures front { IfOk result (λ r. r.1 ≤ length pass.new.seen) }
        ensures begins { IfOk result (λ r. BeginsWith pass.old.seen (take r.1 pass.new.seen)) }
        ensures fault { IfErr result (λ e. LeavesWithoutInput e pass.old pass.new) }

        ensures later { BeginsWith pass.old.seen pass.new.seen }
        ensures ahead { OnOk result (pass.new.ahead ≡ pass.old.ahead) }
        ensures refused { pass.new.refused ≡ pass.old.refused }
        ensures fixed { pass.new.fixed ≡ pass.old.fixed }
        ensures book { pass.new.book ≡ pass.old.book }
    {
        let mut desk = self.lock.lock(rt);
        let desk = &mut *desk;
        desk.statuses(rt, alloc, pass)
    }
}
