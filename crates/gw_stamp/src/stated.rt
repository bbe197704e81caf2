//! The conditions of statuses, in the order in which they are printed.
ghost use Rattle.std.specs.Prelude.{◌≡◌, ◌++◌, ◌∷◌, [], IfOk, OnOk, map, count_by, bytes_eq, flat_map};
ghost use Rattle.std.specs.Option.{option_eq};
ghost use Rattle.gw_stamp.specs.Stated.{class_stated as class_conditions_of, condition_at, conditions_at, gateway_stated as gateway_conditions_of, listener_stated, parent_part, parent_stated, parents_stated, route_stated as route_conditions_of, same_parent};

use crate::name::{CondName, Owner, Part, Stated};
use gw_status::{ClassStatus, GatewayStatus, ListenerStatus, ParentStatus, RouteStatus};
use gw_text::{Condition, Key, Name, NoMemory};
use std::alloc::Global;

// Adds a condition.
fn push_condition(
    alloc: Global,
    owner: Owner,
    key: &Key,
    part: &Part,
    condition: &Condition,
    stated: &mut Stated,
) -> Result<(), NoMemory>
    ensures { OnOk result (stated.new ≡ stated.old ++ condition_at owner key.now part.now condition.now ∷ []) }
{
    let name = CondName {
        owner,
        key: key.copy(alloc)?,
        kind: condition.kind,
        part: part.copy(alloc)?,
    };
    stated.push((name, condition.truth))
}

// Adds the conditions of a part.
fn push_conditions(
    alloc: Global,
    owner: Owner,
    key: &Key,
    part: &Part,
    conditions: &[Condition],
    stated: &mut Stated,
) -> Result<(), NoMemory>
    ensures { OnOk result (stated.new ≡ stated.old ++ conditions_at owner key.now part.now conditions.now) }
{
    'conditions: for condition in conditions {
        push_condition(alloc, owner, key, part, condition, stated)?;
    }
    Ok(())
}

/// The conditions of a class.
pub fn class_stated(alloc: Global, status: &ClassStatus) -> Result<Stated, NoMemory>
    ensures { IfOk result (λ stated. stated ≡ class_conditions_of status.now) }
{
    let mut stated = Stated::new(alloc);
    push_conditions(
        alloc,
        Owner::Class,
        &status.key,
        &Part::Whole,
        &[status.accepted],
        &mut stated,
    )?;
    Ok(stated)
}

// Adds the conditions of a listener.
fn push_listener(
    alloc: Global,
    key: &Key,
    status: &ListenerStatus,
    stated: &mut Stated,
) -> Result<(), NoMemory>
    ensures { OnOk result (stated.new ≡ stated.old ++ listener_stated key.now status.now) }
{
    let state = &status.state;
    let conditions = [
        state.accepted,
        state.conflicted,
        state.programmed,
        state.resolved,
    ];
    let part = Part::Listener(status.name.copy(alloc)?.into_text());
    push_conditions(alloc, Owner::Gateway, key, &part, &conditions, stated)
}

// Adds the conditions of listeners.
fn push_listeners(
    alloc: Global,
    key: &Key,
    statuses: &[ListenerStatus],
    stated: &mut Stated,
) -> Result<(), NoMemory>
    ensures { OnOk result (stated.new ≡ stated.old ++ flat_map (listener_stated key.now) statuses.now) }
{
    'statuses: for status in statuses {
        push_listener(alloc, key, status, stated)?;
    }
    Ok(())
}

/// The conditions of a Gateway, and then those of its listeners.
pub fn gateway_stated(alloc: Global, status: &GatewayStatus) -> Result<Stated, NoMemory>
    ensures { IfOk result (λ stated. stated ≡ gateway_conditions_of status.now) }
{
    let mut stated = Stated::new(alloc);
    let conditions = [status.state.accepted, status.state.programmed];
    push_conditions(
        alloc,
        Owner::Gateway,
        &status.key,
        &Part::Whole,
        &conditions,
        &mut stated,
    )?;
    push_listeners(alloc, &status.key, status.listeners.as_slice(), &mut stated)?;
    Ok(stated)
}

// Whether two section names are equal, or both aren't given.
fn is_same_section(left: &Option<Name>, right: &Option<Name>) -> bool
    ensures { result ≡ option_eq bytes_eq left.now right.now }
{
    match (left, right) {
        (None, None) => true,
        (Some(left), Some(right)) => left.bytes() == right.bytes(),
        _ => false,
    }
}

// Whether two entries are for equal parentRefs.
fn is_same_parent(left: &ParentStatus, right: &ParentStatus) -> bool
    ensures { result ≡ same_parent left.now right.now }
{
    left.namespace.bytes() == right.namespace.bytes()
        && left.name.bytes() == right.name.bytes()
        && is_same_section(&left.section, &right.section)
        && left.port == right.port
}

// The number of entries for a parentRef that is equal to that of this one.
fn number_of(before: &[ParentStatus], status: &ParentStatus) -> Result<u32, NoMemory>
    ensures { IfOk result (λ number. number ≡ count_by (same_parent status.now) before.now) }
{
    let number = before
        .iter()
        .filter(|other| is_same_parent(status, other))
        .count();
    match u32::try_from(number) {
        Ok(number) => Ok(number),
        Err(_) => Err(NoMemory),
    }
}

// Adds the conditions of the entry for a parentRef, of which there are so many equal ones before.
fn push_parent(
    alloc: Global,
    key: &Key,
    status: &ParentStatus,
    number: u32,
    stated: &mut Stated,
) -> Result<(), NoMemory>
    ensures { OnOk result (stated.new ≡ stated.old ++ parent_stated key.now number status.now) }
{
    let section = match &status.section {
        Some(section) => Some(section.copy(alloc)?.into_text()),
        None => None,
    };
    let part = Part::Parent {
        namespace: status.namespace.copy(alloc)?.into_text(),
        name: status.name.copy(alloc)?.into_text(),
        section,
        port: status.port,
        number,
    };
    let conditions = [status.accepted, status.resolved];
    push_conditions(alloc, Owner::Route, key, &part, &conditions, stated)
}

/// The conditions of a Route's entries.
pub fn route_stated(alloc: Global, status: &RouteStatus) -> Result<Stated, NoMemory>
    ensures { IfOk result (λ stated. stated ≡ route_conditions_of status.now) }
{
    let mut stated = Stated::new(alloc);
    let parents = status.parents.as_slice();
    'parents: for (index, parent) in parents.iter().enumerate() {
        let number = number_of(&parents[..index], parent)?;
        push_parent(alloc, &status.key, parent, number, &mut stated)?;
    }
    Ok(stated)
}
