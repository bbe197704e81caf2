//! The entries of Routes: one for each parentRef that names a managed Gateway.
ghost use Rattle.std.specs.Prelude.{◌≡◌, ◌<◌, ◌++◌, Some, IfOk, IfSome, OnOk, length, map, option_map};
ghost use Rattle.std.specs.Option.{option_to_list};
ghost use Rattle.gw_text.specs.model.Routes.{parent_key};
ghost use Rattle.gw_text.specs.model.Statuses as statuses;
ghost use Rattle.gw_text.specs.model.World.{gateway_key, namespace_labels};
ghost use Rattle.gw_store.specs.Table.{IsPlaceOf, at_place};
ghost use Rattle.gw_eval.specs.Counting.{entries_in, ArePlaced, IsPlaced};
ghost use Rattle.gw_rows.specs.model.DoorRows.{managed_at};

use crate::classes::is_managed;
use crate::home::Home;
use gw_attach::{Attachment, attach};
use gw_labels::Labels;
use gw_route::{HttpRoute, ParentRef};
use gw_status::{Condition, ParentStatus, ParentStatuses};
use gw_store::World;
use gw_text::{Key, NoMemory, Text};
use std::alloc::Global;
use std::marker::Model;

/// An entry of a Route.
#[derive(Drop)]
pub struct Entry<'r> {
    pub parent: &'r ParentRef,
    /// The place of its Gateway among all of the world.
    pub gateway: usize,
    pub attachment: Attachment,
}

impl<'r> Model for Entry<'r> {
    ghost use Rattle.gw_eval.specs.Counting.{Placed};

    ghost Value = { Placed };

    ghost view = { λ e. record { entry = record { parent = e.parent.now; attachment = e.attachment }; gateway = e.gateway } };
}

/// The place of the Gateway of this key, where it is held and managed.
pub fn managed_position(
    alloc: Global,
    controller: &Text,
    world: &World,
    key: &Key,
) -> Result<Option<usize>, NoMemory>
    ensures gateway { IfOk result (λ place. managed_at controller.now world.now.world key.now ≡ option_map (λ s. s.object) (at_place world.now.world.gateways place)) }
    ensures place { IfOk result (λ found. IfSome found (λ i. IsPlaceOf gateway_key key.now world.now.world.gateways (Some i))) }
    ensures within { IfOk result (λ found. IfSome found (λ i. i < length world.now.world.gateways)) }
{
    let Some(place) = world.gateway_position(key) else {
        return Ok(None);
    };
    if !is_managed(alloc, controller, world, &world.gateways()[place])? {
        return Ok(None);
    }
    Ok(Some(place))
}

// The place of the managed Gateway that the parentRef names.
fn parent_position(
    alloc: Global,
    controller: &Text,
    world: &World,
    parent: &ParentRef,
) -> Result<Option<usize>, NoMemory>
    ensures gateway { IfOk result (λ place. statuses.managed_parent controller.now world.now.world parent.now
        ≡ option_map (λ s. s.object) (at_place world.now.world.gateways place)) }
    ensures place { IfOk result (λ found. IfSome found (λ i. IsPlaceOf gateway_key (parent_key parent.now) world.now.world.gateways (Some i))) }
    ensures within { IfOk result (λ found. IfSome found (λ i. i < length world.now.world.gateways)) }
{
    if !parent.names_gateway() {
        return Ok(None);
    }
    managed_position(alloc, controller, world, &parent.key(alloc)?)
}

// The entry of a parentRef, if it has one.
fn entry_of<'r>(
    alloc: Global,
    controller: &Text,
    world: &World,
    labels: &Labels,
    route: &HttpRoute,
    parent: &'r ParentRef,
) -> Result<Option<Entry<'r>>, NoMemory>
    ensures entry { IfOk result (λ found. option_map (λ p. p.entry) found ≡ statuses.entry_of controller.now world.now.world labels.now route.now parent.now) }
    ensures placed { IfOk result (λ found. IfSome found (IsPlaced world.now.world)) }
{
    let Some(gateway) = parent_position(alloc, controller, world, parent)? else {
        return Ok(None);
    };
    let attachment = attach(alloc, &world.gateways()[gateway], labels, route, parent)?;
    Ok(Some(Entry {
        parent,
        gateway,
        attachment,
    }))
}

fn push_some<'r>(all: &mut Vec<Entry<'r>>, found: Option<Entry<'r>>) -> Result<(), NoMemory>
    ensures { OnOk result (all.new.items ≡ all.old.items ++ option_to_list found.entry) }
{
    if let Some(entry) = found {
        all.push(entry)?;
    }
    Ok(())
}

/// The entries of a Route whose namespace has these labels, in the order of its parentRefs.
#[tactic(auto, unfolding(gw_text::specs::model::Statuses::entries_of))]
pub fn entries_by<'r>(
    alloc: Global,
    controller: &Text,
    world: &World,
    labels: &Labels,
    route: &'r HttpRoute,
) -> Result<Vec<Entry<'r>>, NoMemory>
    requires labels { labels.now ≡ namespace_labels world.now.world route.now.meta.key.namespace }
    ensures entries { IfOk result (λ all. entries_in all.items ≡ statuses.entries_of controller.now world.now.world route.now) }
    ensures placed { IfOk result (λ all. ArePlaced world.now.world all.items) }
{
    let mut all = Vec::with_capacity(alloc, route.parent_refs.len())?;
    'parents: for parent in route.parent_refs.as_slice() {
        let found = entry_of(alloc, controller, world, labels, route, parent)?;
        push_some(&mut all, found)?;
    }
    Ok(all)
}

/// The entries of a Route, in the order of its parentRefs.
pub fn entries<'r>(
    alloc: Global,
    controller: &Text,
    world: &World,
    route: &'r HttpRoute,
) -> Result<Vec<Entry<'r>>, NoMemory>
    ensures entries { IfOk result (λ all. entries_in all.items ≡ statuses.entries_of controller.now world.now.world route.now) }
    ensures placed { IfOk result (λ all. ArePlaced world.now.world all.items) }
{
    let mut home = Home::none(alloc);
    home.enter(alloc, world, &route.meta.key.namespace)?;
    entries_by(alloc, controller, world, home.labels(), route)
}

fn parent_status(
    alloc: Global,
    controller: &Text,
    resolved: Condition,
    entry: &Entry<'_>,
) -> Result<ParentStatus, NoMemory>
    ensures { IfOk result (λ status. status ≡ statuses.parent_status_of controller.now resolved entry.now.entry) }
{
    let parent = entry.parent;
    let section = match &parent.section_name {
        Some(name) => Some(name.copy(alloc)?),
        None => None,
    };
    Ok(ParentStatus {
        controller: controller.copy(alloc)?,
        namespace: parent.namespace.copy(alloc)?,
        name: parent.name.copy(alloc)?,
        section,
        port: parent.port,
        accepted: entry.attachment.reason.condition(),
        resolved,
    })
}

/// What entries say, for a Route whose references are so resolved.
pub fn parent_statuses(
    alloc: Global,
    controller: &Text,
    resolved: Condition,
    entries: &[Entry<'_>],
) -> Result<ParentStatuses, NoMemory>
    ensures { IfOk result (λ all. all ≡ map (statuses.parent_status_of controller.now resolved) (entries_in entries.now)) }
{
    let mut all = Vec::with_capacity(alloc, entries.len())?;
    'entries: for entry in entries {
        all.push(parent_status(alloc, controller, resolved, entry)?)?;
    }
    Ok(ParentStatuses::from_vec(all))
}
