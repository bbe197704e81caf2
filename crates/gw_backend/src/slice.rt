//! What an EndpointSlice has for a port of a Service.
ghost use Rattle.std.specs.Prelude.{◌≡◌, false, bytes_eq, codes};
ghost use Rattle.std.specs.Option.{option_map_or};
ghost use Rattle.gw_text.specs.model.References as rules;
ghost use Rattle.gw_text.specs.model.Selectors.{label_of};
ghost use Rattle.gw_text.specs.model.Slices.{is_ipv4_type};

use crate::port::is_tcp;
use gw_labels::Labels;
use gw_objects::{Endpoint, EndpointPort, EndpointSlice};
use gw_text::{EndpointAddressType, Key, Socket, Text};

fn is_ipv4(address_type: &EndpointAddressType) -> bool
    ensures { result ≡ is_ipv4_type address_type.now }
{
    match address_type {
        EndpointAddressType::Ipv4 => true,
        EndpointAddressType::Other(_) => false,
    }
}

// Whether the labels name the Service.
fn names_service(name: &Text, labels: &Labels) -> bool
    ensures { result ≡ option_map_or (bytes_eq name.now) (label_of (codes "kubernetes.io/service-name") labels.now) false }
{
    match labels.get("kubernetes.io/service-name") {
        Some(value) => name.bytes() == value.as_bytes(),
        None => false,
    }
}

/// Whether the slice is one of the Service's, with addresses of IPv4.
#[tactic(auto, unfolding(gw_text::specs::model::References::is_slice_of))]
pub fn is_slice_of(service: &Key, slice: &EndpointSlice) -> bool
    ensures { result ≡ rules.is_slice_of service.now slice.now }
{
    is_ipv4(&slice.address_type)
        && slice.meta.key.is_in(&service.namespace)
        && names_service(&service.name, &slice.labels)
}

fn number_if(name: &Text, port: &EndpointPort) -> Option<u16>
    ensures { result ≡ rules.number_if name.now port.now }
{
    if is_tcp(&port.protocol) && port.name.bytes() == name.bytes() {
        port.port
    } else {
        None
    }
}

/// The number of the first TCP port that has this name and a number.
pub fn slice_port(name: &Text, ports: &[EndpointPort]) -> Option<u16>
    ensures { result ≡ rules.slice_port name.now ports.now }
{
    'ports: for port in ports {
        let number = number_if(name, port);
        if number.is_some() {
            return number;
        }
    }
    None
}

/// The socket of an endpoint that is ready.
pub fn endpoint_socket(port: u16, endpoint: &Endpoint) -> Option<Socket>
    ensures { result ≡ rules.endpoint_socket port endpoint.now }
{
    if !endpoint.ready {
        return None;
    }
    let [a, b, c, d] = endpoint.address?.octets();
    Some(Socket { a, b, c, d, port })
}
