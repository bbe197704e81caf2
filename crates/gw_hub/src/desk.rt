ghost use Rattle.std.specs.Prelude.{◌≡◌, ◌+◌, ◌<◌, ◌≤◌, length, map, take, vec_len, vec_capacity, IfOk, IfErr, OnOk, OnErr};
ghost use Rattle.gw_match.specs.model.Telling.{world_after};
ghost use Rattle.gw_snap.specs.Lists.{BeginsWith};
ghost use Rattle.gw_status.specs.StatusText.{statuses_text};
ghost use Rattle.gw_text.specs.model.Statuses.{statuses_of};
ghost use Rattle.gw_hub.specs.Turns.{ComeInTurn, ComesOf, IsReceipt, KeepsChanges, LeavesAsFault, LeavesWithoutInput, event_lines};

use crate::controller::Controller;
use crate::lines::event_lines;
use crate::name::HubName;
use crate::receipt::{HubFault, Receipt};
use gw_json::Refusal;
use gw_match::Tables;
use gw_resolve::Outcome;
use gw_snap::Pass;
use gw_status::write_statuses;
use gw_text::{NoMemory, Second, Text};
use std::alloc::Global;
use std::marker::PhantomData;
use std::sync::Wait;

/// What the lock of a hub guards: the controller of an opening.
#[derive(Drop)]
pub(crate) struct Desk<N: HubName, R: Wait + Drop> {
    pub(crate) controller: Controller<R>,
    pub(crate) of: PhantomData<N>,
    ghost book: { controller.book ≡ N.book },
    ghost doors: { controller.doors ≡ N.doors },
    ghost name: { controller.controller ≡ N.controller },
}

impl<N: HubName, R: Wait + Drop> Desk<N, R> {
    /// Takes the changes of an input and publishes them. What failed to be published comes with the next publication.
    pub(crate) fn submit<W: Wait>(
        &mut self,
        rt: &W,
        alloc: Global,
        pass: &mut Pass<Tables>,
        input: &[u8],
        at: Second,
    ) -> Result<Receipt, HubFault>
        requires { pass.old.book ≡ N.book }
        ensures receipt { IfOk result (λ r. IsReceipt input.now at r pass.new.seen) }
        ensures first { IfOk result (λ r. length pass.old.seen ≤ r.first) }
        ensures fault { IfErr result (λ e. LeavesAsFault input.now at e pass.old pass.new) }
        ensures kept { IfErr result (λ e. KeepsChanges e self.old.controller.changes self.new.controller.changes) }

        ensures later { BeginsWith pass.old.seen pass.new.seen }
        ensures ahead { OnOk result (pass.new.ahead ≡ pass.old.ahead) }
        ensures refused { pass.new.refused ≡ pass.old.refused }
        ensures fixed { pass.new.fixed ≡ pass.old.fixed }
        ensures book { pass.new.book ≡ pass.old.book }
    {
        if self.controller.ahead(pass) {
            return Err(HubFault::Ahead(pass.front(), self.controller.front()));
        }
        let first = self.controller.changes();
        let answers = change_in_turn(alloc, &mut self.controller, input, at)?;
        let front = self.controller.changes();
        let accepted = front - first;
        match self.controller.publish(rt) {
            Ok(mut note) => {
                pass.learn(&mut note);
                Ok(Receipt {
                    answers,
                    first,
                    accepted,
                    front,
                })
            }
            Err(_) => Err(HubFault::Held(first, accepted)),
        }
    }

    /// The text of the statuses and the number of changes, which are published then.
    pub(crate) fn statuses<W: Wait>(
        &mut self,
        rt: &W,
        alloc: Global,
        pass: &mut Pass<Tables>,
    ) -> Result<(Text, u64), HubFault>
        requires { pass.old.book ≡ N.book }
        ensures text { IfOk result (λ r. r.0 ≡ statuses_text (statuses_of N.doors N.controller (world_after (take r.1 pass.new.seen)))) }
        ensures front { IfOk result (λ r. r.1 ≤ length pass.new.seen) }
        ensures begins { IfOk result (λ r. BeginsWith pass.old.seen (take r.1 pass.new.seen)) }
        ensures fault { IfErr result (λ e. LeavesWithoutInput e pass.old pass.new) }

        ensures later { BeginsWith pass.old.seen pass.new.seen }
        ensures ahead { OnOk result (pass.new.ahead ≡ pass.old.ahead) }
        ensures refused { pass.new.refused ≡ pass.old.refused }
        ensures fixed { pass.new.fixed ≡ pass.old.fixed }
        ensures book { pass.new.book ≡ pass.old.book }
    {
        if self.controller.ahead(pass) {
            return Err(HubFault::Ahead(pass.front(), self.controller.front()));
        }
        let text = write_statuses(alloc, self.controller.statuses())?;
        let front = self.controller.changes();
        let mut note = self.controller.publish(rt)?;
        pass.learn(&mut note);
        Ok((text, front))
    }
}

/// Takes the changes of the lines in turn. The room for all answers comes before the first change.
fn change_in_turn<R: Wait + Drop>(
    alloc: Global,
    controller: &mut Controller<R>,
    input: &[u8],
    at: Second,
) -> Result<Vec<Result<Outcome, Refusal>>, NoMemory>
    ensures come { IfOk result (λ answers. ComeInTurn at (event_lines input.now) answers.items controller.old.changes controller.new.changes) }
    ensures same { OnErr result (controller.new.changes ≡ controller.old.changes) }

    ensures published { controller.new.published ≡ controller.old.published }
    ensures doors { controller.new.doors ≡ controller.old.doors }
    ensures controller { controller.new.controller ≡ controller.old.controller }
    ensures book { controller.new.book ≡ controller.old.book }
{
    let lines = event_lines(alloc, input)?;
    let mut answers = Vec::new(alloc);
    answers.reserve(lines.len())?;
    'lines: for line in lines.as_slice() {
        let answered = change_by(controller, *line, at);
        match answers.push(answered) {
            Ok(()) => {}
            Err(_) => unreachable!(),
        }
    }
    Ok(answers)
}

// Takes the change of a line.
#[tactic(auto, using(crate::proofs::Turns::comes_of))]
fn change_by<R: Wait + Drop>(
    controller: &mut Controller<R>,
    line: &[u8],
    at: Second,
) -> Result<Outcome, Refusal>
    ensures comes { ComesOf at line.now result controller.old.changes controller.new.changes }

    ensures published { controller.new.published ≡ controller.old.published }
    ensures doors { controller.new.doors ≡ controller.old.doors }
    ensures controller { controller.new.controller ≡ controller.old.controller }
    ensures book { controller.new.book ≡ controller.old.book }
{
    controller.change(line, at)
}
