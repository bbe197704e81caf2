//! The hostnames of Routes that have names in common with a listener's.
ghost use Rattle.std.specs.Prelude.{◌≡◌, ◌&&◌, ◌++◌, ◌∷◌, [], not, if◌then◌else◌, IfOk, OnOk};
ghost use Rattle.std.specs.List.{list_any};
ghost use Rattle.gw_text.specs.model.Hostnames.{same_host};
ghost use Rattle.gw_rows.specs.model.DoorRows as rows;

use crate::served::number;
use gw_host::meets;
use gw_text::{Host, NoMemory};
use std::alloc::Global;
use std::marker::Model;

/// A hostname of a Route, with its place; none where the Route has no hostnames.
#[derive(Drop)]
pub struct RouteHostname<'r> {
    pub place: u32,
    pub hostname: Option<&'r Host>,
}

impl<'r> Model for RouteHostname<'r> {
    ghost use Rattle.std.specs.Prelude.{option_copied};
    ghost use Rattle.gw_rows.specs.model.DoorRows.{RouteHostname as Plain};

    ghost Value = { Plain };

    ghost view = { λ h. record { place = h.place; hostname = option_copied h.hostname } };
}

// Whether the listener takes requests for names of the hostname.
fn meets_listener(listener: &Option<Host>, host: &Host) -> bool
    ensures { result ≡ rows.meets_listener listener.now host.now }
{
    match listener {
        Some(own) => meets(own, host),
        None => true,
    }
}

fn is_same(a: &Host, b: &Host) -> bool
    ensures { result ≡ same_host a.now b.now }
{
    a.wild == b.wild && a.text == b.text
}

fn contains(hosts: &[Host], host: &Host) -> bool
    ensures { result ≡ list_any (λ other. same_host other host.now) hosts.now }
{
    hosts.iter().any(|other| is_same(other, host))
}

// Puts the hostname at this place to the others, where it has names in common with the listener's and no earlier one is equal.
fn push_meeting<'r>(
    all: &mut Vec<RouteHostname<'r>>,
    listener: &Option<Host>,
    earlier: &[Host],
    place: usize,
    host: &'r Host,
) -> Result<(), NoMemory>
    ensures { OnOk result (all.new.items ≡ all.old.items
        ++ (if rows.meets_listener listener.now host.now && not (list_any (λ other. same_host other host.now) earlier.now) then rows.hostname_at (place, host.now) ∷ [] else [])) }
{
    if meets_listener(listener, host) && !contains(earlier, host) {
        all.push(RouteHostname {
            place: number(place)?,
            hostname: Some(host),
        })?;
    }
    Ok(())
}

// The first of the equal hostnames that have names in common with the listener's.
fn meeting<'r>(
    alloc: Global,
    listener: &Option<Host>,
    hosts: &'r [Host],
) -> Result<Vec<RouteHostname<'r>>, NoMemory>
    ensures { IfOk result (λ all. all.items ≡ rows.meeting_hostnames listener.now hosts.now) }
{
    let mut all = Vec::new(alloc);
    'hosts: for (place, host) in hosts.iter().enumerate() {
        push_meeting(&mut all, listener, &hosts[..place], place, host)?;
    }
    Ok(all)
}

/// The hostnames for which a listener of this hostname takes requests to a Route of these.
#[tactic(auto, unfolding(gw_rows::specs::model::DoorRows::hostnames_for))]
pub fn hostnames_for<'r>(
    alloc: Global,
    listener: &Option<Host>,
    hosts: &'r [Host],
) -> Result<Vec<RouteHostname<'r>>, NoMemory>
    ensures { IfOk result (λ all. all.items ≡ rows.hostnames_for listener.now hosts.now) }
{
    if !hosts.is_empty() {
        return meeting(alloc, listener, hosts);
    }
    let mut all = Vec::new(alloc);
    all.push(RouteHostname {
        place: 0,
        hostname: None,
    })?;
    Ok(all)
}
