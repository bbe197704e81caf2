//! The port of a Service that a backendRef leads to.
ghost use Rattle.std.specs.Prelude.{◌≡◌, ◌&&◌, ◌==◌, List, false, bytes_eq, find, IfOk, IfErr, option_copied};
ghost use Rattle.std.specs.List.{list_any};
ghost use Rattle.std.specs.Option.{option_map_or};
ghost use Rattle.gw_text.specs.model.References as rules;
ghost use Rattle.gw_text.specs.model.Slices.{EndpointSlice as PlainSlice};
ghost use Rattle.gw_route.specs.States.{seen_state};
ghost use Rattle.gw_backend.specs.Faults.{seen_fault};

use gw_objects::{Service, ServicePort};
use gw_route::{BackendRef, BackendState};
use gw_text::{Key, Reason, Text};

/// Why a backendRef leads to no port.
#[derive(Clone, Copy)]
pub enum Fault {
    InvalidKind,
    NotPermitted,
    NotFound,
    BadProtocol,
}

impl Fault {
    /// The state of such a backendRef.
    pub fn state(self) -> BackendState
        ensures { seen_state result ≡ seen_fault self }
    {
        match self {
            Fault::InvalidKind => BackendState::InvalidKind,
            Fault::NotPermitted => BackendState::NotPermitted,
            Fault::NotFound => BackendState::NotFound,
            Fault::BadProtocol => BackendState::BadProtocol,
        }
    }

    /// The reason of ResolvedRefs for it.
    pub fn reason(self) -> Reason
        ensures { Some result ≡ rules.unresolved (seen_fault self) }
    {
        match self {
            Fault::InvalidKind => Reason::InvalidKind,
            Fault::NotPermitted => Reason::RefNotPermitted,
            Fault::NotFound => Reason::BackendNotFound,
            Fault::BadProtocol => Reason::UnsupportedProtocol,
        }
    }
}

/// A port of a Service, by what the Service's slices say of it.
#[derive(Clone, Copy)]
pub struct Target<'s> {
    /// The key of the Service.
    pub service: &'s Key,
    /// The name of the port, empty where it has none.
    pub port: &'s Text,
}

/// Whether the protocol is TCP.
pub fn is_tcp(protocol: &Text) -> bool
    ensures { result ≡ rules.is_tcp protocol.now }
{
    protocol.bytes() == b"TCP".as_slice()
}

fn first_port(number: u16, ports: &[ServicePort]) -> Option<&ServicePort>
    ensures { option_copied result ≡ find (λ p. rules.is_tcp p.protocol && p.port == number) ports.now }
{
    ports
        .iter()
        .find(|port| is_tcp(&port.protocol) && port.port == number)
}

// The first TCP port of the number. A backendRef without a number has none.
fn service_port(number: Option<u16>, service: &Service) -> Option<&ServicePort>
    ensures { option_copied result ≡ rules.service_port number service.now }
{
    first_port(number?, service.ports.as_slice())
}

fn is_one_of(texts: &[&str], text: &Text) -> bool
    ensures { result ≡ list_any (λ other. bytes_eq text.now other.now) texts.now }
{
    texts.iter().any(|other| text.bytes() == other.as_bytes())
}

// Whether the protocol is one that backends aren't spoken to in.
fn is_other(protocol: &Text) -> bool
    ensures { result ≡ rules.is_other_protocol protocol.now }
{
    is_one_of(
        &["kubernetes.io/h2c", "kubernetes.io/wss", "https"],
        protocol,
    )
}

fn has_other_protocol(port: &ServicePort) -> bool
    ensures { result ≡ option_map_or rules.is_other_protocol port.now.app_protocol false }
{
    match &port.app_protocol {
        Some(protocol) => is_other(protocol),
        None => false,
    }
}

/// The port that the backendRef leads to, whatever the slices are, or the first fault that it has.
#[tactic(auto, unfolding(gw_text::specs::model::References::backend_state_of))]
pub fn port_of<'s>(
    to: &BackendRef,
    permitted: bool,
    service: Option<&'s Service>,
) -> Result<Target<'s>, Fault>
    ensures found { (slices : List PlainSlice) → IfOk result (λ target. rules.backend_state_of to.now permitted (option_copied service.entry) slices
        ≡ rules.ready_with (rules.sockets_of target.service.now target.port.now slices)) }
    ensures fault { (slices : List PlainSlice) → IfErr result (λ fault. rules.backend_state_of to.now permitted (option_copied service.entry) slices ≡ seen_fault fault) }
{
    if !to.names_service() {
        return Err(Fault::InvalidKind);
    }
    if !permitted {
        return Err(Fault::NotPermitted);
    }
    let Some(service) = service else {
        return Err(Fault::NotFound);
    };
    if service.external_name {
        return Err(Fault::InvalidKind);
    }
    let Some(port) = service_port(to.port, service) else {
        return Err(Fault::NotFound);
    };
    if has_other_protocol(port) {
        return Err(Fault::BadProtocol);
    }
    Ok(Target {
        service: &service.meta.key,
        port: &port.name,
    })
}
