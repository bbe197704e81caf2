//! What a request is answered.
ghost use Rattle.std.specs.Prelude.{◌≡◌, ℕ, ℤ, List, Option, IfOk};
ghost use Rattle.gw_admin_texts.specs.declared.resource.Destination.TheVariants.{Found};
ghost use Rattle.gw_admin_texts.specs.declared.resource.Resource.TheVariants.{Changes, Explain, Status as Statuses, Table};
ghost use Rattle.gw_admin_texts.specs.model.Resources.{destination_of};
ghost use Rattle.gw_lists.specs.Lists.{BeginsWith};
ghost use Rattle.gw_admin.specs.Answering.{IsAnswered, IsExplained, TicksAtMostOnce, place_of};
ghost use Rattle.gw_admin.specs.Faults.{CountsAnswer};

use crate::fault::AdminFault;
use gw_admin_texts::{
    Destination, Question, Reply, Resource, Status, Submitted, changes_reply, explanation_reply,
    health_reply, status_reply, table_reply,
};
use gw_frames::Request;
use gw_hub::{Hub, HubName};
use gw_link::Clock;
use gw_match::Tables;
use gw_snap::Pass;
use std::alloc::Global;
use std::sync::Wait;

/// What the request is answered.
pub(crate) fn answer<N: HubName, R: Wait + Drop, C: Clock, W: Wait>(
    rt: &W,
    alloc: Global,
    hub: &Hub<N, R>,
    pass: &mut Pass<Tables>,
    clock: &mut C,
    request: &Request,
) -> Result<Reply, AdminFault>
    requires book { pass.old.book ≡ N.book }
    requires fixed { pass.old.fixed ≡ (N.doors, N.controller) }
    ensures answered { IfOk result (λ reply. IsAnswered (place_of N.doors N.controller) (destination_of request.now) request.now.body reply pass.old.seen pass.new.seen (C.moments clock.old) (C.moments clock.new)) }
    ensures later { BeginsWith pass.old.seen pass.new.seen }
    ensures asked { TicksAtMostOnce (C.moments clock.old) (C.moments clock.new) }
    ensures counts { CountsAnswer result pass.old pass.new }
    ensures book { pass.new.book ≡ pass.old.book }
    ensures fixed { pass.new.fixed ≡ pass.old.fixed }
{
    match Destination::of(request) {
        Destination::Found(Resource::Changes) => {
            changes(rt, alloc, hub, pass, clock, request.body.bytes())
        }
        Destination::Found(Resource::Status) => statuses(rt, alloc, hub, pass),
        Destination::Found(Resource::Table) => table(alloc, pass),
        Destination::Found(Resource::Explain) => explanation(alloc, pass, request.body.bytes()),
        Destination::Found(Resource::Health) => Ok(health_reply(alloc)?),
        Destination::NotAllowed(resource) => Ok(Reply::not_allowed(alloc, resource)),
        Destination::Missing => Ok(Reply::empty(alloc, Status::NotFound)),
    }
}

// All lines of the body come at one moment.
fn changes<N: HubName, R: Wait + Drop, C: Clock, W: Wait>(
    rt: &W,
    alloc: Global,
    hub: &Hub<N, R>,
    pass: &mut Pass<Tables>,
    clock: &mut C,
    body: &[u8],
) -> Result<Reply, AdminFault>
    requires { pass.old.book ≡ N.book }
    ensures answered { IfOk result (λ reply. IsAnswered (place_of N.doors N.controller) (Found Changes) body.now reply pass.old.seen pass.new.seen (C.moments clock.old) (C.moments clock.new)) }
    ensures later { BeginsWith pass.old.seen pass.new.seen }
    ensures asked { TicksAtMostOnce (C.moments clock.old) (C.moments clock.new) }
    ensures counts { CountsAnswer result pass.old pass.new }
    ensures book { pass.new.book ≡ pass.old.book }
    ensures fixed { pass.new.fixed ≡ pass.old.fixed }
{
    let at = clock.now();
    let receipt = hub.submit(rt, alloc, pass, body, at)?;
    let submitted = Submitted {
        answers: receipt.answers.as_slice(),
        first: receipt.first,
        accepted: receipt.accepted,
        front: receipt.front,
    };
    Ok(changes_reply(alloc, body, submitted)?)
}

fn statuses<N: HubName, R: Wait + Drop, W: Wait>(
    rt: &W,
    alloc: Global,
    hub: &Hub<N, R>,
    pass: &mut Pass<Tables>,
) -> Result<Reply, AdminFault>
    requires { pass.old.book ≡ N.book }
    ensures answered { IfOk result (λ reply. (body : List ℕ) (moments : Option (List ℤ)) → IsAnswered (place_of N.doors N.controller) (Found Statuses) body reply pass.old.seen pass.new.seen moments moments) }
    ensures later { BeginsWith pass.old.seen pass.new.seen }
    ensures counts { CountsAnswer result pass.old pass.new }
    ensures book { pass.new.book ≡ pass.old.book }
    ensures fixed { pass.new.fixed ≡ pass.old.fixed }
{
    let (text, front) = hub.statuses(rt, alloc, pass)?;
    Ok(status_reply(alloc, &text, front)?)
}

fn table(alloc: Global, pass: &mut Pass<Tables>) -> Result<Reply, AdminFault>
    ensures answered { IfOk result (λ reply. (body : List ℕ) (moments : Option (List ℤ)) → IsAnswered (place_of pass.old.fixed.0 pass.old.fixed.1) (Found Table) body reply pass.old.seen pass.new.seen moments moments) }
    ensures later { BeginsWith pass.old.seen pass.new.seen }
    ensures counts { CountsAnswer result pass.old pass.new }
    ensures book { pass.new.book ≡ pass.old.book }
    ensures fixed { pass.new.fixed ≡ pass.old.fixed }
{
    let view = pass.read()?;
    Ok(table_reply(alloc, &view.value, view.front)?)
}

fn explanation(alloc: Global, pass: &mut Pass<Tables>, body: &[u8]) -> Result<Reply, AdminFault>
    ensures answered { IfOk result (λ reply. (moments : Option (List ℤ)) → IsAnswered (place_of pass.old.fixed.0 pass.old.fixed.1) (Found Explain) body.now reply pass.old.seen pass.new.seen moments moments) }
    ensures later { BeginsWith pass.old.seen pass.new.seen }
    ensures counts { CountsAnswer result pass.old pass.new }
    ensures book { pass.new.book ≡ pass.old.book }
    ensures fixed { pass.new.fixed ≡ pass.old.fixed }
{
    let Some(question) = Question::of(alloc, body)? else {
        return Ok(Reply::empty(alloc, Status::BadRequest));
    };
    explained(alloc, pass, &question)
}

fn explained(
    alloc: Global,
    pass: &mut Pass<Tables>,
    question: &Question,
) -> Result<Reply, AdminFault>
    ensures answered { IfOk result (λ reply. IsExplained (place_of pass.old.fixed.0 pass.old.fixed.1) question.now reply pass.old.seen pass.new.seen) }
    ensures later { BeginsWith pass.old.seen pass.new.seen }
    ensures counts { CountsAnswer result pass.old pass.new }
    ensures book { pass.new.book ≡ pass.old.book }
    ensures fixed { pass.new.fixed ≡ pass.old.fixed }
{
    let view = pass.read()?;
    Ok(explanation_reply(alloc, &view.value, question, view.front)?)
}
