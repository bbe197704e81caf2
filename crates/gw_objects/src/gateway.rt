ghost use Rattle.std.specs.Prelude.{◌≡◌, [], map};
ghost use Rattle.gw_json.specs.Words.{Gives};
ghost use Rattle.gw_json.specs.Fields.{node_of};
ghost use Rattle.gw_objects.specs.Gateways as gateways;

use crate::fields::{ALLOWED_ROUTES, GATEWAY_CLASS_NAME};
use crate::routes::{AllowedRoutes, AllowedRoutesForm};
use gw_forms as forms;
use gw_json::{Cursor, Form, Port, Refusal};
use gw_text::{AddressType, FromNamespaces, Host, Meta, Name, Protocol, Text};
use std::alloc::Global;
use std::marker::Model;

/// A listener of a Gateway.
#[derive(Drop)]
pub struct Listener {
    /// It differs from the names of the Gateway's other listeners.
    pub name: Name,
    pub hostname: Option<Host>,
    pub port: u16,
    pub protocol: Protocol,
    pub allowed_routes: AllowedRoutes,
}

impl Model for Listener {
    ghost use Rattle.gw_text.specs.model.Gateways.{Listener as Plain};

    ghost Value = { Plain };

    ghost view = { λ l. record { name = l.name; hostname = l.hostname; port = l.port; protocol = l.protocol; allowed_routes = l.allowed_routes } };
}

/// An address that a Gateway asks for.
#[derive(Drop)]
pub struct Address {
    /// Its type.
    pub sort: AddressType,
    pub value: Option<Text>,
}

impl Model for Address {
    ghost use Rattle.gw_text.specs.model.Gateways.{Address as Plain};

    ghost Value = { Plain };

    ghost view = { λ a. record { sort = a.sort; value = a.value } };
}

/// An item of spec.addresses.
#[derive(Clone, Copy)]
struct AddressForm;

impl Form for AddressForm {
    type Value = Address;

    ghost seen = { λ value. value };

    ghost of = { λ _. gateways.address_of };

    #[tactic(auto, unfolding(crate::specs::Gateways::address_of))]
    fn read(&self, alloc: Global, at: &Cursor<'_>) -> Result<Address, Refusal> {
        let sort = at.defaulted(alloc, "type", forms::AddressType, AddressType::IpAddress)?;
        let value = at.given(alloc, "value", forms::Word)?;
        Ok(Address { sort, value })
    }
}

/// A Gateway.
pub struct Gateway {
    pub meta: Meta,
    /// The name of its GatewayClass.
    pub gateway_class_name: Name,
    /// One or more.
    pub listeners: Vec<Listener>,
    pub addresses: Vec<Address>,
}

impl Model for Gateway {
    ghost use Rattle.gw_text.specs.model.Gateways.{Gateway as Plain};

    ghost Value = { Plain };

    ghost view = { λ g. record { meta = g.meta; gateway_class_name = g.gateway_class_name; listeners = g.listeners.items; addresses = g.addresses.items } };
}

// Written out, so that crates above don't prove anew how its parts are dropped.
impl Drop for Gateway {
    fn drop(self) {
        let Gateway {
            meta: _,
            gateway_class_name: _,
            listeners: _,
            addresses: _,
        } = self;
    }
}

#[tactic(auto, unfolding(crate::specs::Gateways::is_among))]
fn is_among(name: &[u8], listeners: &[Listener]) -> bool
    ensures { result ≡ gateways.is_among name.now listeners.now }
{
    listeners.iter().any(|other| other.name.bytes() == name)
}

/// The name of a listener, which none of the earlier ones has.
#[derive(Clone, Copy)]
struct OwnName<'l> {
    earlier: &'l [Listener],
}

impl<'l> Form for OwnName<'l> {
    type Value = Name;

    ghost seen = { λ value. value };

    ghost of = { λ form. gateways.own_name_of form.earlier.now };

    #[tactic(auto, unfolding(crate::specs::Gateways::own_name_of))]
    fn read(&self, alloc: Global, at: &Cursor<'_>) -> Result<Name, Refusal> {
        let name = forms::Name.read(alloc, at)?;
        if is_among(name.bytes(), self.earlier) {
            return Err(at.bad_value(alloc)?);
        }
        Ok(name)
    }
}

// Where nothing is said, Routes of the Gateway's own namespace may attach.
fn own_routes(alloc: Global) -> AllowedRoutes
    ensures { result ≡ gateways.own_routes }
{
    AllowedRoutes {
        from: FromNamespaces::Same,
        selector: None,
        kinds: Vec::new(alloc),
    }
}

#[tactic(auto, unfolding(crate::specs::Gateways::listener_of))]
fn read_listener(alloc: Global, earlier: &[Listener], at: &Cursor<'_>) -> Result<Listener, Refusal>
    ensures { Gives (λ x. x) result (gateways.listener_of earlier.now (node_of at.now)) }
{
    let name = at.needed(alloc, "name", OwnName { earlier })?;
    let hostname = at.given(alloc, "hostname", forms::Hostname)?;
    let port = at.needed(alloc, "port", Port)?;
    let protocol = at.needed(alloc, "protocol", forms::Protocol)?;
    let allowed_routes = at.defaulted(alloc, ALLOWED_ROUTES, AllowedRoutesForm, own_routes(alloc))?;
    Ok(Listener {
        name,
        hostname,
        port,
        protocol,
        allowed_routes,
    })
}

fn each_listener(alloc: Global, nodes: &[Cursor<'_>]) -> Result<Vec<Listener>, Refusal>
    ensures { Gives (λ v. v.items) result (gateways.listeners_from [] (map node_of nodes.now)) }
{
    let mut listeners = Vec::with_capacity(alloc, nodes.len())?;
    'nodes: for node in nodes {
        let next = read_listener(alloc, listeners.as_slice(), node)?;
        listeners.push(next)?;
    }
    Ok(listeners)
}

/// The listeners of a Gateway.
#[derive(Clone, Copy)]
struct ListenersForm;

impl Form for ListenersForm {
    type Value = Vec<Listener>;

    ghost use Rattle.std.specs.Prelude.{List};
    ghost use Rattle.gw_text.specs.model.Gateways.{Listener as Plain};

    ghost Seen = { List Plain };

    ghost seen = { λ v. v.items };

    ghost of = { λ _. gateways.listeners_of };

    #[tactic(auto, unfolding(crate::specs::Gateways::listeners_of))]
    fn read(&self, alloc: Global, at: &Cursor<'_>) -> Result<Vec<Listener>, Refusal> {
        let nodes = at.items(alloc, 64)?;
        if nodes.is_empty() {
            return Err(at.bad_value(alloc)?);
        }
        each_listener(alloc, nodes.as_slice())
    }
}

/// The Gateway of this metadata. `at` is the whole object.
#[tactic(auto, unfolding(crate::specs::Gateways::gateway_of))]
pub fn read_gateway(alloc: Global, meta: Meta, at: &Cursor<'_>) -> Result<Gateway, Refusal>
    ensures { Gives (λ x. x) result (gateways.gateway_of meta (node_of at.now)) }
{
    let spec = at.spec(alloc)?;
    let gateway_class_name = spec.needed(alloc, GATEWAY_CLASS_NAME, forms::Name)?;
    let listeners = spec.needed(alloc, "listeners", ListenersForm)?;
    let addresses = spec.listed(alloc, "addresses", 16, AddressForm)?;
    Ok(Gateway {
        meta,
        gateway_class_name,
        listeners,
        addresses,
    })
}
