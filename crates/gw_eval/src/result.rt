ghost use Rattle.std.specs.Prelude.{◌≡◌, IfOk, map};
ghost use Rattle.gw_text.specs.model.Statuses as statuses;
ghost use Rattle.gw_eval.specs.Counting.{entries_in};
ghost use Rattle.gw_eval.specs.Results.{route_result_of};

use crate::entries::{Entry, entries};
use crate::plans::plans;
use crate::routes::route_parents;
use crate::shared_plans::Plans;
use gw_attach::{Attachment, Places};
use gw_route::HttpRoute;
use gw_status::ParentStatuses;
use gw_store::World;
use gw_text::{List, NoMemory, Text};
use std::alloc::Global;
use std::marker::Model;

/// Where the entries of a Route attach it, in their order.
pub type Attachments = List<Attachment>;

/// What is evaluated of a Route.
#[derive(Drop)]
pub struct RouteResult {
    /// What its entries say.
    pub parents: ParentStatuses,
    /// For each entry, its reason and the listeners to which it attaches the Route.
    pub places: Attachments,
    /// One for each rule.
    pub plans: Plans,
}

impl Model for RouteResult {
    ghost use Rattle.gw_eval.specs.Results.{RouteResult as Plain};

    ghost Value = { Plain };

    ghost view = { λ r. record { parents = r.parents; places = r.places; plans = r.plans } };
}

/// The same places once more.
pub fn copy_places(alloc: Global, places: &[usize]) -> Result<Places, NoMemory>
    ensures { IfOk result (λ copy. copy ≡ places.now) }
{
    let mut copy = Places::new(alloc);
    'places: for place in places {
        copy.push(*place)?;
    }
    Ok(copy)
}

fn attachment(alloc: Global, entry: &Entry<'_>) -> Result<Attachment, NoMemory>
    ensures { IfOk result (λ attachment. attachment ≡ entry.now.entry.attachment) }
{
    let Attachment { reason, listeners } = &entry.attachment;
    Ok(Attachment {
        reason: *reason,
        listeners: copy_places(alloc, listeners.as_slice())?,
    })
}

fn attachments(alloc: Global, entries: &[Entry<'_>]) -> Result<Attachments, NoMemory>
    ensures { IfOk result (λ all. all ≡ map (λ e. e.attachment) (entries_in entries.now)) }
{
    let mut all = Attachments::new(alloc);
    'entries: for entry in entries {
        all.push(attachment(alloc, entry)?)?;
    }
    Ok(all)
}

/// The result of a Route.
pub fn route_result(
    alloc: Global,
    controller: &Text,
    world: &World,
    route: &HttpRoute,
) -> Result<RouteResult, NoMemory>
    ensures { IfOk result (λ found. found ≡ route_result_of controller.now world.now.world route.now) }
{
    let entries = entries(alloc, controller, world, route)?;
    let entries = entries.as_slice();
    Ok(RouteResult {
        parents: route_parents(alloc, controller, world, route, entries)?,
        places: attachments(alloc, entries)?,
        plans: plans(alloc, world, route)?,
    })
}
