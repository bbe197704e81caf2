ghost use Rattle.std.specs.Prelude.{◌≡◌};
ghost use Rattle.gw_json.specs.Words.{Gives};
ghost use Rattle.gw_json.specs.Fields.{node_of};
ghost use Rattle.gw_objects.specs.Services as services;

use crate::fields::APP_PROTOCOL;
use gw_forms as forms;
use gw_json::{Cursor, Form, Port, Refusal};
use gw_text::{Meta, Text};
use std::alloc::Global;
use std::marker::Model;

/// A port of a Service.
#[derive(Drop)]
pub struct ServicePort {
    /// Empty where the port has none.
    pub name: Text,
    pub port: u16,
    pub protocol: Text,
    pub app_protocol: Option<Text>,
}

impl Model for ServicePort {
    ghost use Rattle.gw_text.specs.model.Services.{ServicePort as Plain};

    ghost Value = { Plain };

    ghost view = { λ p. record { name = p.name; port = p.port; protocol = p.protocol; app_protocol = p.app_protocol } };
}

/// An item of spec.ports.
#[derive(Clone, Copy)]
pub struct ServicePortForm;

impl Form for ServicePortForm {
    type Value = ServicePort;

    ghost seen = { λ value. value };

    ghost of = { λ _. services.service_port_of };

    #[tactic(auto, unfolding(crate::specs::Services::service_port_of))]
    fn read(&self, alloc: Global, at: &Cursor<'_>) -> Result<ServicePort, Refusal> {
        let name = at.defaulted(alloc, "name", forms::Word, Text::of(alloc, "")?)?;
        let port = at.needed(alloc, "port", Port)?;
        let protocol = at.defaulted(alloc, "protocol", forms::Word, Text::of(alloc, "TCP")?)?;
        let app_protocol = at.given(alloc, APP_PROTOCOL, forms::Word)?;
        Ok(ServicePort {
            name,
            port,
            protocol,
            app_protocol,
        })
    }
}

/// A Service.
pub struct Service {
    pub meta: Meta,
    /// Whether its type is ExternalName.
    pub external_name: bool,
    pub ports: Vec<ServicePort>,
}

impl Model for Service {
    ghost use Rattle.gw_text.specs.model.Services.{Service as Plain};

    ghost Value = { Plain };

    ghost view = { λ s. record { meta = s.meta; external_name = s.external_name; ports = s.ports.items } };
}

// Written out, so that crates above don't prove anew how its parts are dropped.
impl Drop for Service {
    fn drop(self) {
        let Service {
            meta: _,
            external_name: _,
            ports: _,
        } = self;
    }
}

fn is_external_name(sort: &Option<Text>) -> bool
    ensures { result ≡ services.is_external_name sort.now }
{
    match sort {
        Some(sort) => sort.bytes() == b"ExternalName".as_slice(),
        None => false,
    }
}

/// The Service of this metadata. `at` is the whole object.
#[tactic(auto, unfolding(crate::specs::Services::service_of))]
pub fn read_service(alloc: Global, meta: Meta, at: &Cursor<'_>) -> Result<Service, Refusal>
    ensures { Gives (λ x. x) result (services.service_of meta (node_of at.now)) }
{
    let spec = at.spec(alloc)?;
    let sort = spec.given(alloc, "type", forms::Word)?;
    let ports = spec.listed(alloc, "ports", 1024, ServicePortForm)?;
    Ok(Service {
        meta,
        external_name: is_external_name(&sort),
        ports,
    })
}
