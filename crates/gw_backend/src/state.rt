//! The state of a backendRef.
ghost use Rattle.std.specs.Prelude.{◌≡◌, List, IfOk, map, option_copied};
ghost use Rattle.gw_text.specs.model.References as rules;
ghost use Rattle.gw_text.specs.model.Slices.{EndpointSlice as PlainSlice};
ghost use Rattle.gw_route.specs.States.{seen_state};

use crate::port::port_of;
use crate::sockets::sockets_of;
use gw_objects::{EndpointSlice, Service};
use gw_route::{BackendRef, BackendState};
use gw_text::{NoMemory, Reason, Sockets};
use std::alloc::Global;

fn ready_with(sockets: Sockets) -> BackendState
    ensures { seen_state result ≡ rules.ready_with sockets }
{
    if sockets.as_slice().is_empty() {
        BackendState::NoEndpoints
    } else {
        BackendState::Ready(sockets)
    }
}

/// What becomes of a backendRef, by whether a Route may make it and the Service that it names, if there is one. Slices of
/// other Services may be among these, and count nothing.
pub fn backend_state(
    alloc: Global,
    to: &BackendRef,
    permitted: bool,
    service: Option<&Service>,
    slices: &[&EndpointSlice],
) -> Result<BackendState, NoMemory>
    ensures { IfOk result (λ state. seen_state state ≡ rules.backend_state_of to.now permitted (option_copied service.entry) (map (λ s. s.now) slices.now)) }
{
    match port_of(to, permitted, service) {
        Ok(target) => Ok(ready_with(sockets_of(alloc, target, slices)?)),
        Err(fault) => Ok(fault.state()),
    }
}

/// Why a backendRef isn't resolved, if it isn't. That no endpoint is ready is no reason.
pub fn unresolved(to: &BackendRef, permitted: bool, service: Option<&Service>) -> Option<Reason>
    ensures { (slices : List PlainSlice) → result ≡ rules.unresolved (rules.backend_state_of to.now permitted (option_copied service.entry) slices) }
{
    match port_of(to, permitted, service) {
        Ok(_) => None,
        Err(fault) => Some(fault.reason()),
    }
}
