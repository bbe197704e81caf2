//! The sockets of a Service's port, each once.
ghost use Rattle.std.specs.Prelude.{◌≡◌, [], IfOk, OnOk, map, option_to_list, if◌then◌else◌};
ghost use Rattle.indexmap.specs.IndexSet.{insert_all};
ghost use Rattle.gw_text.specs.model.Doors.{same_socket};
ghost use Rattle.gw_text.specs.model.References as rules;

use crate::port::Target;
use crate::slice::{endpoint_socket, is_slice_of, slice_port};
use gw_objects::{Endpoint, EndpointSlice};
use gw_text::{NoMemory, Socket, Sockets, Text};
use indexmap::IndexSet;
use std::alloc::Global;

// Adds the socket of an endpoint that is ready.
fn add_endpoint(
    sockets: &mut IndexSet<Socket>,
    port: u16,
    endpoint: &Endpoint,
) -> Result<(), NoMemory>
    ensures { OnOk result (sockets.new.keys ≡ insert_all same_socket sockets.old.keys (option_to_list (rules.endpoint_socket port endpoint.now))) }
{
    if let Some(socket) = endpoint_socket(port, endpoint) {
        sockets.insert(socket)?;
    }
    Ok(())
}

// Adds the sockets of a slice, for the Service's port of this name.
fn add_slice(
    sockets: &mut IndexSet<Socket>,
    name: &Text,
    slice: &EndpointSlice,
) -> Result<(), NoMemory>
    ensures { OnOk result (sockets.new.keys ≡ insert_all same_socket sockets.old.keys (rules.slice_sockets name.now slice.now)) }
{
    let Some(port) = slice_port(name, slice.ports.as_slice()) else {
        return Ok(());
    };
    'endpoints: for endpoint in slice.endpoints.as_slice() {
        add_endpoint(sockets, port, endpoint)?;
    }
    Ok(())
}

// Adds the sockets of a slice, if it is one of the Service's.
fn add_if_of(
    sockets: &mut IndexSet<Socket>,
    target: Target<'_>,
    slice: &EndpointSlice,
) -> Result<(), NoMemory>
    ensures { OnOk result (sockets.new.keys ≡ insert_all same_socket sockets.old.keys
        (if rules.is_slice_of target.entry.service.now slice.now then rules.slice_sockets target.entry.port.now slice.now else [])) }
{
    if is_slice_of(target.service, slice) {
        add_slice(sockets, target.port, slice)?;
    }
    Ok(())
}

// The sockets of a Service's port, in the order of the slices. The set makes it one pass over all endpoints.
fn gather(
    alloc: Global,
    target: Target<'_>,
    slices: &[&EndpointSlice],
) -> Result<IndexSet<Socket>, NoMemory>
    ensures { IfOk result (λ sockets. sockets.keys ≡ rules.sockets_of target.entry.service.now target.entry.port.now (map (λ s. s.now) slices.now)) }
{
    let mut sockets = IndexSet::new(alloc);
    'slices: for slice in slices {
        add_if_of(&mut sockets, target, slice)?;
    }
    Ok(sockets)
}

/// The sockets of a Service's port, in the order of the slices.
pub fn sockets_of(
    alloc: Global,
    target: Target<'_>,
    slices: &[&EndpointSlice],
) -> Result<Sockets, NoMemory>
    ensures { IfOk result (λ sockets. sockets ≡ rules.sockets_of target.entry.service.now target.entry.port.now (map (λ s. s.now) slices.now)) }
{
    let sockets = gather(alloc, target, slices)?;
    Ok(Sockets::from_vec(sockets.as_slice().to_vec(alloc)?))
}
