//! Words that name types; a word that names none that is read further is kept.
ghost use Rattle.std.specs.Prelude.{Some};
ghost use Rattle.gw_text.specs.model.Types as types;

use gw_json::TextForm;
use gw_text::{
    AddressType as AnAddressType, EndpointAddressType as AnEndpointAddressType,
    PathMatchType as APathMatchType, Protocol as AProtocol, ValueMatchType as AValueMatchType,
};
use std::alloc::{AllocError, Global};

/// The protocol of a listener.
#[derive(Clone, Copy)]
pub struct Protocol;

impl TextForm for Protocol {
    type Value = AProtocol;

    ghost most = { λ _. 512 };

    ghost value = { λ _ name. Some (types.protocol_of name) };

    fn most(&self) -> usize {
        512
    }

    fn value(&self, alloc: Global, text: &str) -> Result<Option<AProtocol>, AllocError> {
        Ok(Some(AProtocol::of(alloc, text)?))
    }
}

/// The type of an address that a Gateway asks for.
#[derive(Clone, Copy)]
pub struct AddressType;

impl TextForm for AddressType {
    type Value = AnAddressType;

    ghost most = { λ _. 512 };

    ghost value = { λ _ name. Some (types.address_type_of name) };

    fn most(&self) -> usize {
        512
    }

    fn value(&self, alloc: Global, text: &str) -> Result<Option<AnAddressType>, AllocError> {
        Ok(Some(AnAddressType::of(alloc, text)?))
    }
}

/// The type of the addresses of an EndpointSlice.
#[derive(Clone, Copy)]
pub struct EndpointAddressType;

impl TextForm for EndpointAddressType {
    type Value = AnEndpointAddressType;

    ghost most = { λ _. 512 };

    ghost value = { λ _ name. Some (types.endpoint_address_type_of name) };

    fn most(&self) -> usize {
        512
    }

    fn value(
        &self,
        alloc: Global,
        text: &str,
    ) -> Result<Option<AnEndpointAddressType>, AllocError> {
        Ok(Some(AnEndpointAddressType::of(alloc, text)?))
    }
}

/// The type of a match of a path.
#[derive(Clone, Copy)]
pub struct PathMatchType;

impl TextForm for PathMatchType {
    type Value = APathMatchType;

    ghost most = { λ _. 512 };

    ghost value = { λ _ name. Some (types.path_match_type_of name) };

    fn most(&self) -> usize {
        512
    }

    fn value(&self, alloc: Global, text: &str) -> Result<Option<APathMatchType>, AllocError> {
        Ok(Some(APathMatchType::of(alloc, text)?))
    }
}

/// The type of a match of a field or of a query parameter.
#[derive(Clone, Copy)]
pub struct ValueMatchType;

impl TextForm for ValueMatchType {
    type Value = AValueMatchType;

    ghost most = { λ _. 512 };

    ghost value = { λ _ name. Some (types.value_match_type_of name) };

    fn most(&self) -> usize {
        512
    }

    fn value(&self, alloc: Global, text: &str) -> Result<Option<AValueMatchType>, AllocError> {
        Ok(Some(AValueMatchType::of(alloc, text)?))
    }
}
