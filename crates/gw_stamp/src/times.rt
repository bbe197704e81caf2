//! The times of the conditions of all statuses.
ghost use Rattle.std.specs.Prelude.{◌≡◌, ◌++◌, IfOk, IsSome, OnOk, flat_map, map};
ghost use Rattle.std.specs.List.{All};
ghost use Rattle.gw_stamp.specs.Entries.{stamp_at};
ghost use Rattle.gw_stamp.specs.Stamping.{time_in, times_in};
ghost use Rattle.gw_stamp.specs.Stated.{class_stated as class_conditions_of, gateway_stated as gateway_conditions_of, names_of, route_stated as route_conditions_of};

use crate::name::CondName;
use crate::place::{entry_at, place_from};
use crate::stamps::Stamps;
use crate::stated::{class_stated, gateway_stated, route_stated};
use gw_shared::Shared;
use gw_status::{
    ClassStatus, GatewayStatus, GatewayStatuses, RouteStatus, RouteStatuses, Statuses,
};
use gw_text::{List, NoMemory, Second};
use std::alloc::Global;

/// Moments, one for each condition, in the order in which conditions are printed.
pub type Times = List<Second>;

// Since when the condition has its status. It is looked for at this place first, which is then the one behind it.
fn time_from(stamps: &Stamps, name: &CondName, at: &mut usize) -> Second
    ensures { result ≡ time_in (stamp_at stamps.now) name.now }
{
    match place_from(&stamps.list, name, *at) {
        Ok(place) => {
            *at = place.saturating_add(1);
            entry_at(&stamps.list, place).since
        }
        Err(_) => Second(0),
    }
}

fn push_times(
    stamps: &Stamps,
    stated: &[(CondName, bool)],
    at: &mut usize,
    times: &mut Times,
) -> Result<(), NoMemory>
    ensures { OnOk result (times.new ≡ times.old ++ times_in (stamp_at stamps.now) stated.now) }
{
    'stated: for condition in stated {
        times.push(time_from(stamps, &condition.0, at))?;
    }
    Ok(())
}

fn push_classes(
    alloc: Global,
    stamps: &Stamps,
    statuses: &[ClassStatus],
    at: &mut usize,
    times: &mut Times,
) -> Result<(), NoMemory>
    ensures { OnOk result (times.new ≡ times.old ++ flat_map (λ s. times_in (stamp_at stamps.now) (class_conditions_of s)) statuses.now) }
{
    'statuses: for status in statuses {
        push_times(stamps, class_stated(alloc, status)?.as_slice(), at, times)?;
    }
    Ok(())
}

fn push_gateway_piece(
    alloc: Global,
    stamps: &Stamps,
    piece: &[Shared<GatewayStatus>],
    at: &mut usize,
    times: &mut Times,
) -> Result<(), NoMemory>
    ensures { OnOk result (times.new ≡ times.old ++ flat_map (λ s. times_in (stamp_at stamps.now) (gateway_conditions_of s)) piece.now) }
{
    'statuses: for status in piece {
        push_times(stamps, gateway_stated(alloc, status)?.as_slice(), at, times)?;
    }
    Ok(())
}

fn push_gateways(
    alloc: Global,
    stamps: &Stamps,
    statuses: &GatewayStatuses,
    at: &mut usize,
    times: &mut Times,
) -> Result<(), NoMemory>
    ensures { OnOk result (times.new ≡ times.old ++ flat_map (λ s. times_in (stamp_at stamps.now) (gateway_conditions_of s)) statuses.now) }
{
    let mut first = 0;
    'pieces: while first < statuses.len() {
        let piece = statuses.piece(first);
        push_gateway_piece(alloc, stamps, piece, at, times)?;
        first += piece.len();
    }
    Ok(())
}

fn push_route_piece(
    alloc: Global,
    stamps: &Stamps,
    piece: &[Shared<RouteStatus>],
    at: &mut usize,
    times: &mut Times,
) -> Result<(), NoMemory>
    ensures { OnOk result (times.new ≡ times.old ++ flat_map (λ s. times_in (stamp_at stamps.now) (route_conditions_of s)) piece.now) }
{
    'statuses: for status in piece {
        push_times(stamps, route_stated(alloc, status)?.as_slice(), at, times)?;
    }
    Ok(())
}

fn push_routes(
    alloc: Global,
    stamps: &Stamps,
    statuses: &RouteStatuses,
    at: &mut usize,
    times: &mut Times,
) -> Result<(), NoMemory>
    ensures { OnOk result (times.new ≡ times.old ++ flat_map (λ s. times_in (stamp_at stamps.now) (route_conditions_of s)) statuses.now) }
{
    let mut first = 0;
    'pieces: while first < statuses.len() {
        let piece = statuses.piece(first);
        push_route_piece(alloc, stamps, piece, at, times)?;
        first += piece.len();
    }
    Ok(())
}

impl Stamps {
    /// Since when each condition of these statuses has its status, in the order in which they are printed. Each has to be there.
    pub fn times(&self, alloc: Global, s: &Statuses) -> Result<Times, NoMemory>
        requires { All (λ name. IsSome (stamp_at self.now name)) (names_of s.now) }
        ensures { IfOk result (λ times. times ≡ map (time_in (stamp_at self.now)) (names_of s.now)) }
    {
        let mut times = Times::new(alloc);
        let mut at = 0;
        push_classes(alloc, self, s.classes.as_slice(), &mut at, &mut times)?;
        push_gateways(alloc, self, &s.gateways, &mut at, &mut times)?;
        push_routes(alloc, self, &s.routes, &mut at, &mut times)?;
        Ok(times)
    }
}
