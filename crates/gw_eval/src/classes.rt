ghost use Rattle.std.specs.Prelude.{◌≡◌, IfOk};
ghost use Rattle.gw_text.specs.model.Statuses as statuses;

use gw_objects::{Gateway, GatewayClass};
use gw_status::{ClassStatus, ClassStatuses, CondKind, Condition, Reason};
use gw_store::World;
use gw_text::{Key, NoMemory, Text};
use std::alloc::Global;

fn is_ours(controller: &Text, class: &GatewayClass) -> bool
    ensures { result ≡ statuses.is_ours controller.now class.now }
{
    class.controller_name == *controller
}

#[tactic(auto, unfolding(gw_text::specs::model::Statuses::class_accepted_of))]
fn class_accepted(class: &GatewayClass) -> Condition
    ensures { result ≡ statuses.class_accepted_of class.now }
{
    if class.parameters_ref {
        Condition::false_by(CondKind::Accepted, Reason::InvalidParameters)
    } else {
        Condition::true_by(CondKind::Accepted, Reason::Accepted)
    }
}

fn class_status(alloc: Global, class: &GatewayClass) -> Result<ClassStatus, NoMemory>
    ensures { IfOk result (λ status. status ≡ statuses.class_status_of class.now) }
{
    Ok(ClassStatus {
        key: class.meta.key.copy(alloc)?,
        accepted: class_accepted(class),
    })
}

/// The statuses of the classes of this controller, in key order.
pub fn class_statuses(
    alloc: Global,
    controller: &Text,
    world: &World,
) -> Result<ClassStatuses, NoMemory>
    ensures { IfOk result (λ all. all ≡ statuses.class_statuses_of controller.now world.now.world) }
{
    let mut all = ClassStatuses::new(alloc);
    'classes: for class in world.classes() {
        if is_ours(controller, class) {
            all.push(class_status(alloc, class)?)?;
        }
    }
    Ok(all)
}

// Whether the Gateways of the class are managed.
fn manages(controller: &Text, class: &GatewayClass) -> bool
    ensures { result ≡ statuses.manages controller.now class.now }
{
    is_ours(controller, class) && class_accepted(class).truth
}

/// Whether the Gateway's class is in the world, and its Gateways are managed.
#[tactic(auto, unfolding(gw_text::specs::model::Statuses::is_managed))]
pub fn is_managed(
    alloc: Global,
    controller: &Text,
    world: &World,
    gateway: &Gateway,
) -> Result<bool, NoMemory>
    ensures { IfOk result (λ managed. managed ≡ statuses.is_managed controller.now world.now.world gateway.now) }
{
    let name = gateway.gateway_class_name.copy(alloc)?;
    match world.class(&Key::of_cluster(alloc, name)) {
        Some(class) => Ok(manages(controller, class)),
        None => Ok(false),
    }
}
