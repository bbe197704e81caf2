//! Types that objects name by texts. A type that isn't read further is kept by its name.
ghost use Rattle.std.specs.Prelude.{◌≡◌, IfOk};
ghost use Rattle.gw_text.specs.model.Types as types;

use crate::text::Text;
use std::alloc::{AllocError, Global};

/// The protocol of a listener.
#[derive(Drop)]
pub enum Protocol {
    Http,
    Https,
    Tls,
    Tcp,
    Other(Text),
}

impl Protocol {
    /// The protocol of this name.
    #[tactic(auto, unfolding(crate::specs::model::Types::protocol_of))]
    pub fn of(alloc: Global, name: &str) -> Result<Self, AllocError>
        ensures { IfOk result (λ found. found ≡ types.protocol_of name.now) }
    {
        match name {
            "HTTP" => Ok(Protocol::Http),
            "HTTPS" => Ok(Protocol::Https),
            "TLS" => Ok(Protocol::Tls),
            "TCP" => Ok(Protocol::Tcp),
            _ => Ok(Protocol::Other(Text::of(alloc, name)?)),
        }
    }
}

/// The type of an address that a Gateway asks for.
#[derive(Drop)]
pub enum AddressType {
    IpAddress,
    Other(Text),
}

impl AddressType {
    /// The type of this name.
    #[tactic(auto, unfolding(crate::specs::model::Types::address_type_of))]
    pub fn of(alloc: Global, name: &str) -> Result<Self, AllocError>
        ensures { IfOk result (λ found. found ≡ types.address_type_of name.now) }
    {
        match name {
            "IPAddress" => Ok(AddressType::IpAddress),
            _ => Ok(AddressType::Other(Text::of(alloc, name)?)),
        }
    }
}

/// The type of the addresses of an EndpointSlice.
#[derive(Drop)]
pub enum EndpointAddressType {
    Ipv4,
    Other(Text),
}

impl EndpointAddressType {
    /// The type of this name.
    #[tactic(auto, unfolding(crate::specs::model::Types::endpoint_address_type_of))]
    pub fn of(alloc: Global, name: &str) -> Result<Self, AllocError>
        ensures { IfOk result (λ found. found ≡ types.endpoint_address_type_of name.now) }
    {
        match name {
            "IPv4" => Ok(EndpointAddressType::Ipv4),
            _ => Ok(EndpointAddressType::Other(Text::of(alloc, name)?)),
        }
    }
}

/// The type of a match of a path.
#[derive(Drop)]
pub enum PathMatchType {
    Exact,
    PathPrefix,
    Other(Text),
}

impl PathMatchType {
    /// The type of this name.
    #[tactic(auto, unfolding(crate::specs::model::Types::path_match_type_of))]
    pub fn of(alloc: Global, name: &str) -> Result<Self, AllocError>
        ensures { IfOk result (λ found. found ≡ types.path_match_type_of name.now) }
    {
        match name {
            "Exact" => Ok(PathMatchType::Exact),
            "PathPrefix" => Ok(PathMatchType::PathPrefix),
            _ => Ok(PathMatchType::Other(Text::of(alloc, name)?)),
        }
    }

    /// The same type once more.
    pub fn copy(&self, alloc: Global) -> Result<Self, AllocError>
        ensures { IfOk result (λ copy. copy ≡ self.now) }
    {
        match self {
            PathMatchType::Exact => Ok(PathMatchType::Exact),
            PathMatchType::PathPrefix => Ok(PathMatchType::PathPrefix),
            PathMatchType::Other(name) => Ok(PathMatchType::Other(name.copy(alloc)?)),
        }
    }
}

/// The type of a match of a field or of a query parameter.
#[derive(Drop)]
pub enum ValueMatchType {
    Exact,
    Other(Text),
}

impl ValueMatchType {
    /// The type of this name.
    #[tactic(auto, unfolding(crate::specs::model::Types::value_match_type_of))]
    pub fn of(alloc: Global, name: &str) -> Result<Self, AllocError>
        ensures { IfOk result (λ found. found ≡ types.value_match_type_of name.now) }
    {
        match name {
            "Exact" => Ok(ValueMatchType::Exact),
            _ => Ok(ValueMatchType::Other(Text::of(alloc, name)?)),
        }
    }

    /// The same type once more.
    pub fn copy(&self, alloc: Global) -> Result<Self, AllocError>
        ensures { IfOk result (λ copy. copy ≡ self.now) }
    {
        match self {
            ValueMatchType::Exact => Ok(ValueMatchType::Exact),
            ValueMatchType::Other(name) => Ok(ValueMatchType::Other(name.copy(alloc)?)),
        }
    }
}

/// The namespaces from which Routes may attach: all, the Gateway's own, or those that a selector accepts.
#[derive(Clone, Copy, Debug, PartialEq, Eq)]
pub enum FromNamespaces {
    All,
    Same,
    Selector,
}
