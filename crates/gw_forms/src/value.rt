//! Texts that stand for moments and addresses.
ghost use Rattle.gw_json.specs.Presence.{any_length};
ghost use Rattle.gw_text.specs.model.Addresses.{ipv4_of};
ghost use Rattle.gw_text.specs.model.Moments.{second_of};

use gw_json::TextForm;
use gw_text::{Second, parse_ipv4};
use std::alloc::{AllocError, Global};
use std::net::Ipv4Addr;

/// A moment, as RFC 3339 writes it in UTC and in whole seconds.
#[derive(Clone, Copy)]
pub struct Moment;

impl TextForm for Moment {
    type Value = Second;

    ghost most = { λ _. any_length };

    ghost value = { λ _. second_of };

    fn most(&self) -> usize {
        usize::MAX
    }

    fn value(&self, _alloc: Global, text: &str) -> Result<Option<Second>, AllocError> {
        Ok(Second::parse(text))
    }
}

/// An address of IPv4: four numbers with dots between them.
#[derive(Clone, Copy)]
pub struct Ipv4Address;

impl TextForm for Ipv4Address {
    type Value = Ipv4Addr;

    ghost most = { λ _. any_length };

    ghost value = { λ _. ipv4_of };

    fn most(&self) -> usize {
        usize::MAX
    }

    fn value(&self, _alloc: Global, text: &str) -> Result<Option<Ipv4Addr>, AllocError> {
        Ok(parse_ipv4(text.as_bytes()))
    }
}
