ghost use Rattle.std.specs.Prelude.{◌≡◌, map};
ghost use Rattle.gw_json.specs.Words.{Gives};
ghost use Rattle.gw_json.specs.Fields.{node_of};
ghost use Rattle.gw_text.specs.model.Slices.{is_ipv4_type};
ghost use Rattle.gw_objects.specs.Slices as slices;

use crate::fields::ADDRESS_TYPE;
use crate::labels::read_labels;
use gw_forms as forms;
use gw_json::{Cursor, Form, Port, Refusal, Truth};
use gw_labels::Labels;
use gw_text::{EndpointAddressType, Meta, Text};
use std::alloc::Global;
use std::marker::Model;
use std::net::Ipv4Addr;

/// A port of an EndpointSlice.
#[derive(Drop)]
pub struct EndpointPort {
    /// Empty where the port has none.
    pub name: Text,
    pub port: Option<u16>,
    pub protocol: Text,
}

impl Model for EndpointPort {
    ghost use Rattle.gw_text.specs.model.Slices.{EndpointPort as Plain};

    ghost Value = { Plain };

    ghost view = { λ p. record { name = p.name; port = p.port; protocol = p.protocol } };
}

/// An item of ports.
#[derive(Clone, Copy)]
struct EndpointPortForm;

impl Form for EndpointPortForm {
    type Value = EndpointPort;

    ghost seen = { λ value. value };

    ghost of = { λ _. slices.endpoint_port_of };

    #[tactic(auto, unfolding(crate::specs::Slices::endpoint_port_of))]
    fn read(&self, alloc: Global, at: &Cursor<'_>) -> Result<EndpointPort, Refusal> {
        let name = at.defaulted(alloc, "name", forms::Word, Text::of(alloc, "")?)?;
        let port = at.given(alloc, "port", Port)?;
        let protocol = at.defaulted(alloc, "protocol", forms::Word, Text::of(alloc, "TCP")?)?;
        Ok(EndpointPort {
            name,
            port,
            protocol,
        })
    }
}

/// An endpoint of an EndpointSlice.
#[derive(Clone, Copy, Debug, PartialEq, Eq)]
pub struct Endpoint {
    /// Its first address, where the slice's are of IPv4.
    pub address: Option<Ipv4Addr>,
    pub ready: bool,
}

impl Model for Endpoint {
    ghost use Rattle.gw_text.specs.model.Slices.{Endpoint as Plain};

    ghost Value = { Plain };

    ghost view = { λ e. record { address = e.address; ready = e.ready } };

    ghost inverse = { λ e. record { address = e.address; ready = e.ready } };
}

/// An EndpointSlice.
pub struct EndpointSlice {
    pub meta: Meta,
    pub labels: Labels,
    pub address_type: EndpointAddressType,
    pub ports: Vec<EndpointPort>,
    pub endpoints: Vec<Endpoint>,
}

impl Model for EndpointSlice {
    ghost use Rattle.gw_text.specs.model.Slices.{EndpointSlice as Plain};

    ghost Value = { Plain };

    ghost view = { λ s. record { meta = s.meta; labels = s.labels; address_type = s.address_type; ports = s.ports.items; endpoints = s.endpoints.items } };
}

// Written out, so that crates above don't prove anew how its parts are dropped.
impl Drop for EndpointSlice {
    fn drop(self) {
        let EndpointSlice {
            meta: _,
            labels: _,
            address_type: _,
            ports: _,
            endpoints: _,
        } = self;
    }
}

#[tactic(auto, unfolding(crate::specs::Slices::first_ipv4_of))]
fn first_ipv4(
    alloc: Global,
    at: &Cursor<'_>,
    nodes: &[Cursor<'_>],
) -> Result<Option<Ipv4Addr>, Refusal>
    ensures { Gives (λ x. x) result (slices.first_ipv4_of at.now.path (map node_of nodes.now)) }
{
    match nodes.first() {
        Some(node) => Ok(Some(forms::Ipv4Address.read(alloc, node)?)),
        None => Err(at.bad_value(alloc)?),
    }
}

fn is_ipv4(address_type: &EndpointAddressType) -> bool
    ensures { result ≡ is_ipv4_type address_type.now }
{
    match address_type {
        EndpointAddressType::Ipv4 => true,
        EndpointAddressType::Other(_) => false,
    }
}

/// The addresses of an endpoint, of which the first is read where they are of IPv4.
#[derive(Clone, Copy)]
struct AddressesForm<'t> {
    address_type: &'t EndpointAddressType,
}

impl<'t> Form for AddressesForm<'t> {
    type Value = Option<Ipv4Addr>;

    ghost seen = { λ value. value };

    ghost of = { λ form. slices.addresses_of form.address_type.now };

    #[tactic(auto, unfolding(crate::specs::Slices::addresses_of))]
    fn read(&self, alloc: Global, at: &Cursor<'_>) -> Result<Option<Ipv4Addr>, Refusal> {
        let nodes = at.items(alloc, usize::MAX)?;
        if is_ipv4(self.address_type) {
            first_ipv4(alloc, at, nodes.as_slice())
        } else {
            Ok(None)
        }
    }
}

/// The conditions of an endpoint, of which `ready` is read.
#[derive(Clone, Copy)]
struct ConditionsForm;

impl Form for ConditionsForm {
    type Value = bool;

    ghost seen = { λ value. value };

    ghost of = { λ _. slices.conditions_of };

    #[tactic(auto, unfolding(crate::specs::Slices::conditions_of))]
    fn read(&self, alloc: Global, at: &Cursor<'_>) -> Result<bool, Refusal> {
        at.defaulted(alloc, "ready", Truth, true)
    }
}

/// An item of endpoints.
#[derive(Clone, Copy)]
struct EndpointForm<'t> {
    address_type: &'t EndpointAddressType,
}

impl<'t> Form for EndpointForm<'t> {
    type Value = Endpoint;

    ghost seen = { λ value. value };

    ghost of = { λ form. slices.endpoint_of form.address_type.now };

    #[tactic(auto, unfolding(crate::specs::Slices::endpoint_of))]
    fn read(&self, alloc: Global, at: &Cursor<'_>) -> Result<Endpoint, Refusal> {
        let address_type = self.address_type;
        let address = at.needed(alloc, "addresses", AddressesForm { address_type })?;
        let ready = at.defaulted(alloc, "conditions", ConditionsForm, true)?;
        Ok(Endpoint { address, ready })
    }
}

/// The EndpointSlice of this metadata. `at` is the whole object.
#[tactic(auto, unfolding(crate::specs::Slices::slice_of))]
pub fn read_slice(alloc: Global, meta: Meta, at: &Cursor<'_>) -> Result<EndpointSlice, Refusal>
    ensures { Gives (λ x. x) result (slices.slice_of meta (node_of at.now)) }
{
    let labels = read_labels(alloc, at)?;
    let address_type = at.needed(alloc, ADDRESS_TYPE, forms::EndpointAddressType)?;
    let ports = at.listed(alloc, "ports", 1024, EndpointPortForm)?;
    let form = EndpointForm {
        address_type: &address_type,
    };
    let endpoints = at.listed(alloc, "endpoints", usize::MAX, form)?;
    Ok(EndpointSlice {
        meta,
        labels,
        address_type,
        ports,
        endpoints,
    })
}
