//! The rows of a door.
ghost use Rattle.std.specs.Prelude.{◌≡◌, ◌<◌, ◌++◌, IfOk, OnOk, flat_map, get_or, length, option_copied};
ghost use Rattle.gw_eval.specs.Candidates as evaluated;
ghost use Rattle.gw_rows.specs.model.DoorRows as rows;
ghost use Rattle.gw_text.specs.model.Doors.{Door as PlainDoor};
ghost use Rattle.gw_text.specs.model.Stored.{creation};

use crate::attached::contains;
use crate::candidate::{Candidate, PlannedRule, candidates, kept_candidate};
use crate::hostnames::{RouteHostname, hostnames_for};
use crate::kept::KeptRoute;
use crate::served::{copy_hostname, number, served_listeners};
use gw_route::{HttpRoute, Match, copy_match};
use gw_rows::{Row, Rows, ServedListener};
use gw_store::World;
use gw_text::{Door, Doors, Host, NoMemory, Second, Stored, Text};
use std::alloc::Global;

fn creation(route: &Stored<HttpRoute>) -> Second
    ensures { result ≡ creation route.now.object.meta route.now.first }
{
    route.meta.created.unwrap_or(route.first())
}

fn own_hostname(alloc: Global, hostname: Option<&Host>) -> Result<Option<Host>, NoMemory>
    ensures { IfOk result (λ copy. copy ≡ option_copied hostname.entry) }
{
    let Some(host) = hostname else {
        return Ok(None);
    };
    Ok(Some(host.copy(alloc)?))
}

fn row(
    alloc: Global,
    listener: &ServedListener,
    route: &Stored<HttpRoute>,
    hostname: &RouteHostname<'_>,
    rule: &PlannedRule<'_>,
    place: usize,
    test: &Match,
) -> Result<Row, NoMemory>
    ensures { IfOk result (λ row. row ≡ rows.row_of listener.now route.now hostname.now rule.now.number rule.now.plan (place, test.now)) }
{
    Ok(Row {
        listener: listener.number,
        name: listener.name.copy(alloc)?,
        listener_host: copy_hostname(alloc, &listener.hostname)?,
        port: listener.port,
        hostname: own_hostname(alloc, hostname.hostname)?,
        host_place: hostname.place,
        key: route.meta.key.copy(alloc)?,
        created: creation(route),
        rule: rule.number,
        place: number(place)?,
        test: copy_match(alloc, test)?,
        plan: rule.plan.clone()?,
    })
}

// The rows of a rule.
fn push_rule(
    alloc: Global,
    all: &mut Vec<Row>,
    listener: &ServedListener,
    route: &Stored<HttpRoute>,
    hostname: &RouteHostname<'_>,
    rule: &PlannedRule<'_>,
) -> Result<(), NoMemory>
    ensures { OnOk result (all.new.items ≡ all.old.items ++ evaluated.planned_rows listener.now route.now hostname.now rule.now) }
{
    let written = rule.rule;
    'matches: for (place, test) in written.matches.iter().enumerate() {
        all.push(row(alloc, listener, route, hostname, rule, place, test)?)?;
    }
    Ok(())
}

// The rows of a Route for one of its hostnames.
fn push_hostname(
    alloc: Global,
    all: &mut Vec<Row>,
    listener: &ServedListener,
    candidate: &Candidate<'_>,
    hostname: &RouteHostname<'_>,
) -> Result<(), NoMemory>
    ensures { OnOk result (all.new.items ≡ all.old.items ++ evaluated.planned_hostname_rows listener.now candidate.now hostname.now) }
{
    'rules: for rule in candidate.rules.as_slice() {
        push_rule(alloc, all, listener, candidate.route, hostname, rule)?;
    }
    Ok(())
}

// The rows of a Route for these of its hostnames.
fn push_hostnames(
    alloc: Global,
    all: &mut Vec<Row>,
    listener: &ServedListener,
    candidate: &Candidate<'_>,
    hostnames: &[RouteHostname<'_>],
) -> Result<(), NoMemory>
    ensures { OnOk result (all.new.items ≡ all.old.items ++ flat_map (evaluated.planned_hostname_rows listener.now candidate.now) hostnames.now) }
{
    'hostnames: for hostname in hostnames {
        push_hostname(alloc, all, listener, candidate, hostname)?;
    }
    Ok(())
}

// The rows of a Route at a listener, where it is attached to it.
fn push_route(
    alloc: Global,
    all: &mut Vec<Row>,
    listener: &ServedListener,
    candidate: &Candidate<'_>,
) -> Result<(), NoMemory>
    ensures { OnOk result (all.new.items ≡ all.old.items ++ evaluated.candidate_rows listener.now candidate.now) }
{
    if !contains(candidate.places.as_slice(), listener.number as usize) {
        return Ok(());
    }
    let hosts = candidate.route.hostnames.as_slice();
    let hostnames = hostnames_for(alloc, &listener.hostname, hosts)?;
    push_hostnames(alloc, all, listener, candidate, hostnames.as_slice())
}

// The rows of a listener.
fn push_listener(
    alloc: Global,
    all: &mut Vec<Row>,
    listener: &ServedListener,
    candidates: &[Candidate<'_>],
) -> Result<(), NoMemory>
    ensures { OnOk result (all.new.items ≡ all.old.items ++ flat_map (evaluated.candidate_rows listener.now) candidates.now) }
{
    'candidates: for candidate in candidates {
        push_route(alloc, all, listener, candidate)?;
    }
    Ok(())
}

// The rows of these listeners.
fn rows_at(
    alloc: Global,
    listeners: &[ServedListener],
    candidates: &[Candidate<'_>],
) -> Result<Vec<Row>, NoMemory>
    ensures { IfOk result (λ all. all.items ≡ flat_map (λ l. flat_map (evaluated.candidate_rows l) candidates.now) listeners.now) }
{
    let mut all = Vec::new(alloc);
    'listeners: for listener in listeners {
        push_listener(alloc, &mut all, listener, candidates)?;
    }
    Ok(all)
}

/// The rows of the door of this number and its served listeners, for a controller of this name on a host with these doors: by
/// listener, Route, hostname, rule and match.
pub fn eval_rows(
    alloc: Global,
    w: &World,
    doors: &Doors,
    controller: &Text,
    door: usize,
) -> Result<Rows, NoMemory>
    requires { door < length doors.now }
    ensures { IfOk result (λ found. (d : PlainDoor) → found ≡ rows.rows_of doors.now controller.now w.now.world (get_or doors.now door d)) }
{
    let door = &doors.doors()[door];
    let listeners = served_listeners(alloc, controller, doors, w, door)?;
    let candidates = candidates(alloc, controller, w, door)?;
    let rows = rows_at(alloc, listeners.as_slice(), candidates.as_slice())?;
    Ok(Rows::new(listeners, rows))
}

/// The rows of a Route at a served listener of the door's Gateway, by hostname, rule and match, out of what is kept of it: none where it
/// isn't attached to that one.
pub fn kept_rows(
    alloc: Global,
    door: &Door,
    listener: &ServedListener,
    kept: &KeptRoute,
) -> Result<Vec<Row>, NoMemory>
    requires { length kept.now.plans ≡ length kept.now.route.object.rules }
    ensures { IfOk result (λ found. found.items ≡ evaluated.kept_rows door.now listener.now kept.now) }
{
    let candidate = kept_candidate(alloc, door, kept)?;
    let mut rows = Vec::new(alloc);
    push_route(alloc, &mut rows, listener, &candidate)?;
    Ok(rows)
}
